//! The words that every layer speaks: numbers of fixed width, pointer bounds, the address space with its regions, the
//! bounds store, the heap and the services, the walk through directory and tables, stops, and the outside with its counts
//! of faults. The definitions stand in `specs/`, one module a notion; `laws` has what is proved of them.
#![tactic(auto)]

mod calls;
mod externals;
mod front;
mod laws;
mod limits;
mod mem_files;
mod mem_sink;
mod mem_source;
mod memory;
mod numbers;
mod operators;
mod places;
mod rest;
mod services;
mod settings;
mod shelf;
mod slot;
mod stops;
mod sure_files;
mod sure_sink;
mod sure_source;

pub use externals::{Failed, Files, Sink, Source};
pub use laws::{
    bytes_are_read_back, code_is_never_writable, heap_lists_stay_in_order,
    live_blocks_never_overlap, loads_answer_the_last_keep, numbers_are_read_back,
    open_addresses_are_accessible_and_not_sealed, sealed_bytes_are_not_open,
    services_keep_the_guest_fit,
};
pub use limits::{Bounds, full, meet, outside};
pub use mem_files::MemFiles;
pub use mem_sink::MemSink;
pub use mem_source::MemSource;
pub use memory::OutOfMemory;
pub use numbers::{IntKind, extend, wrap};
pub use operators::{Arithmetic, Comparison};
pub use places::Place;
pub use services::CService;
pub use settings::Flags;
pub use stops::{Breach, Stop};
pub use sure_files::SureFiles;
pub use sure_sink::SureSink;
pub use sure_source::SureSource;
