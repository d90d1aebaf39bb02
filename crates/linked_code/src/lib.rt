//! What the linker makes of the code of functions: their bytes before the link, with their fields filled, are those of the definition.
#![tactic(auto)]

mod laws;

pub use laws::{
    linked_code_is_the_code_of_its_function, linked_labels_are_where_they_stand,
    steps_have_few_fix_ups, the_linker_fills_fields_so,
};
