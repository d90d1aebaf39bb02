//! The run of an image ends as its program does. What is owed of each C function is said in its own words (`Functions`): the image has
//! its code, its homes fit, and its steps are what code asks of them. From there its entry leads to its first step (`Entering`), its
//! code does the steps, and its return leads back behind the call; so all calls do what they mean (`Levels`), by induction on the
//! functions that may still be entered, and with the gates the whole run. The definitions stand in specs/; the functions here do
//! nothing, and their contracts are the laws.
#![tactic(auto)]

mod laws;

pub use laws::{
    a_compiled_image_meets_what_is_asked, a_small_image_meets_what_is_asked,
    assigned_homes_hold_no_argument_to_come, calls_at_the_border_are_calls_of_code,
    entries_lead_to_the_first_step, functions_do_their_steps, functions_meet_what_gates_ask,
    images_end_as_their_sources_mean, images_end_as_their_steps_do,
    images_of_compiled_programs_end_as_they_mean,
};
