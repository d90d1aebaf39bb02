//! Objects and images: their types, which there are, and the one spelling of each in bytes, read and written.
#![tactic(auto)]

mod event_laws;
mod fault;
mod fields;
mod image;
mod image_reader;
mod image_writer;
mod laws;
mod legacy_laws;
mod lists;
mod names;
mod object;
mod object_reader;
mod object_writer;
mod parts;
mod put;
mod reader_laws;
mod run_laws;
mod store_laws;

pub use event_laws::{
    code_stays, events_beside_notes_are_events_alone, events_keep_what_requests_keep,
};
pub use fault::FormFault;
pub use image::{Files, Image, Segment, Segments, Spot4, Spots4};
pub use image_reader::read_image;
pub use image_writer::write_image;
pub use laws::{
    images_are_spelled, images_have_one_spelling, objects_are_spelled, objects_have_one_spelling,
    segments_stand_in_memory,
};
pub use legacy_laws::legacy_events_see_no_sealed_byte;
pub use lists::{Bytes, Text};
pub use names::{is_c_name, is_data_sig, is_function_sig};
pub use object::{Fix, Fixes, Object, Spot3, Spots3, Symbol, Symbols};
pub use object_reader::read_object;
pub use object_writer::write_object;
pub use reader_laws::{
    exact_readers_give_equal_runs, instructions_are_read_where_they_are_spelled,
};
pub use run_laws::{
    a_run_is_its_first_event_and_the_rest, clean_runs_stay_out, events_take_one_turn,
    events_take_one_turn_of_finals, finals_are_their_first_event_and_the_rest, finals_go_on,
    quiet_events_may_be_left_out, quiet_events_may_be_left_out_of_finals, runs_go_on,
    stopped_finals_stay_so, stopped_runs_stay_so,
};
pub use store_laws::{
    a_small_image_runs_alike, bndldx_gives_kept_bounds_where_values_match, either_run_stays_out,
    events_go_alike, events_load_and_keep_in_words_of_c, exact_readers_read_valid_instructions,
    images_begin_alike, images_run_alike, kept_bounds_stand_in_their_entries,
    loads_and_keeps_are_the_store, runs_differ_where_code_writes_the_directory, runs_end_alike,
    runs_make_the_same_accesses, watched_accesses_stay_out,
};
