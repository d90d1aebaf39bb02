//! What C means: the core tree of a function, what it does, and the fat steps that it is compiled to.
#![tactic(auto)]

mod elaborate_laws;
mod laws;
mod sources;
mod worked;

pub use elaborate_laws::{
    elaborated_functions_are_assignable, elaborated_functions_copy_inside,
    elaborated_functions_fit, elaborated_functions_have_few_variables,
    elaborated_functions_name_their_own, elaborated_functions_need_few_temporaries,
    kept_words_lose_nothing,
};
pub use laws::{
    accesses_stay_within_bounds, bounds_have_roots, code_has_its_own_labels,
    compiled_bodies_do_what_they_mean, compiled_functions_do_what_they_mean,
    compiled_programs_do_what_they_mean, few_spans_share_a_step, jumps_find_their_labels,
    logs_decide_nothing, memory_changes_by_writes, output_only_grows, outside_can_do_the_same,
    outside_can_hand_over_pointers, outside_can_keep_to_laws, runs_stay_within_rooted_bounds,
    steps_name_values_of_their_sort, turns_never_grow,
};
pub use sources::{
    flags_decide_bounds_so, small_sources_mean_so, small_sources_run_out_so,
    sources_with_every_form_say_so, stops_tell_accesses_so,
};
pub use worked::{compiled_programs_run_so, small_programs_mean_so};
