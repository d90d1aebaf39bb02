//! What the image of linked objects is. The linker's definition says how an image is made; the laws here say what holds of it, in the
//! words of the layers above. The definitions stand in specs/; the functions here do nothing, and their contracts are the laws.
#![tactic(auto)]

mod laws;

pub use laws::{
    a_pair_of_objects_is_linked, fields_hold_their_values, fix_ups_lead_to_entries,
    functions_at_the_border_have_signatures, gates_stand_where_they_are_wanted,
    legacy_code_and_data_stay_where_instrumented_code_changes, linked_images_are_loaded,
    linked_objects_make_an_image, linked_segments_hold_bytes, parts_stand_at_their_addresses,
    places_stay_where_instrumented_code_grows,
};
