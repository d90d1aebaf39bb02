//! What the acceptance of a source gives the compiler.
#![tactic(auto)]

mod laws;

pub use laws::{
    accepted_functions_are_as_is_asked, accepted_functions_are_of_their_bodies,
    accepted_functions_are_small, accepted_functions_name_whole_globals,
    accepted_functions_take_what_they_have, accepted_sources_are_elaborated_alike,
    accepted_values_are_assignable, expressions_name_whole_globals,
    expressions_name_whole_literals, functions_name_whole_literals, globals_keep_their_types,
    linked_programs_copy_whole, linked_programs_do_what_they_mean, linked_programs_fit,
    linked_programs_name_what_is_made, names_mean_what_is_found, planned_frames_have_few_privates,
    planned_functions_are_as_is_asked, planned_parameters_are_framed,
    planned_sources_can_be_linked, plans_are_layouts, plans_have_symbols,
    plans_have_the_numbers_of_symbols, plans_keep_literals_apart, programs_can_be_linked,
    symbols_can_take_parameters,
};
