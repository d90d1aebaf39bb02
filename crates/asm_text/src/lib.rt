//! Assembly: what each line of a text is, and the object of a text or its first refused line.
#![tactic(auto)]

mod cuts;
mod fault;
mod instructions;
mod laws;
mod lexical;
mod lines;
mod operands;
mod parts;

pub use cuts::{Cut, cut_at};
pub use fault::{AsmFault, AsmKind};
pub use laws::texts_assemble_as_written;
pub use lexical::{is_local, number_alone};
pub use lines::{Line, behind_field, line_of};
pub use parts::{Choice, Cursor, Kind, Operand, Target};
