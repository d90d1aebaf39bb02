//! What the gates between C and legacy code do, and that the run of an image with them ends as its program does. The machine stands
//! for the world at each call and return across the border (`Standing`); each gate leads from one such moment to the next
//! (`Crossings`); and by induction on the depth that is left, the run ends as the program does, over what the code of the functions
//! and the linker owe (`Owed`). The definitions stand in specs/; the functions here do nothing, and their contracts are the laws.
#![tactic(auto)]

mod laws;

pub use laws::{
    a_small_image_crosses_the_border_so, code_stands_where_its_bytes_are,
    images_end_as_their_programs_do, images_end_as_their_programs_mean,
    legacy_calls_do_what_they_mean, legacy_code_goes_alongside_its_meaning,
    outer_entries_lead_to_functions_and_back, stubs_lead_to_legacy_code_and_back,
    the_start_leads_to_main_and_exits,
};
