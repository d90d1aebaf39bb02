//! The instructions of the machine: their forms, which of them are valid, the one spelling of each, and what each does.
//!
//! Registers, widths, opcodes and effects are those of the Intel manual (SDM), volume 2, in 64-bit mode. Each valid
//! instruction has exactly one spelling here; other bytes that a processor reads alike are no instruction.
#![tactic(auto)]

mod accesses;
mod condition_laws;
mod examples;
mod instr;
mod laws;
mod layout;
mod spans;
mod table_laws;
mod validity;
mod watch_laws;

pub use accesses::{address_of, base_of, reach};
pub use condition_laws::conditions_compare;
pub use examples::rows_do_as_the_manual_says;
pub use instr::{Base, Instr, Mem, Reg, Rm};
pub use laws::short_spellings;
pub use layout::{Layout, Operands};
pub use spans::{Reach, Span};
pub use table_laws::{
    StandsFor, failing_rows_leave_all, memories_do_rows_alike, rows_leave_bounds,
    rows_make_their_accesses,
};
pub use validity::valid;
pub use watch_laws::{
    accesses_are_at_the_operand, legacy_control_enters_by_its_doors, watch_judges_the_edges,
    watched_accesses_reach_no_sealed_byte,
};
