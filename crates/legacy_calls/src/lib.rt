//! The meaning of a call of a legacy function: its code runs over the world that it shares with C, event by event as the machine
//! does them, and C's log stands beside it. The definitions stand in specs/; the functions here do nothing, and their contracts
//! are the laws.
#![tactic(auto)]

mod laws;

pub use laws::{
    legacy_calls_do_the_same, legacy_calls_keep_to_laws, legacy_calls_keep_to_laws_of_steps,
    legacy_events_do_the_same, programs_with_legacy_code_end_alike,
    programs_with_legacy_code_stay_within_rooted_bounds, small_legacy_calls_do_so,
};
