//! A byte further.

ghost use Rattle.std.specs.Prelude.{◌≡◌, IsTrue};
ghost use Rattle.x86_decode.specs.Steps.{step_of, is_partial};

use crate::heads::{step_opcode, step_prefix, step_rex};
use crate::operands::{step_modrm, step_sib};
use crate::row_facts::imm_length;
use crate::states::{Next, State};
use crate::values::{disp_length, end_disp, end_imm};

/// What the byte makes of the state.
#[tactic(auto, unfolding(crate::specs::Steps::step_of))]
pub fn step(state: State, b: u8) -> Next
    requires { IsTrue (is_partial state) }
    ensures { result ≡ step_of state b }
{
    match state {
        State::Start => {
            if b == 0x66 || b == 0xF2 || b == 0xF3 {
                Next::Go(State::Prefix(b))
            } else {
                step_prefix(0, b)
            }
        }
        State::Prefix(prefix) => step_prefix(prefix, b),
        State::Rex(prefix, rex) => step_rex(prefix, rex, b),
        State::Escape(prefix, rex) => step_opcode(prefix, rex, true, b),
        State::ModRm(head, row) => step_modrm(head, row, b),
        State::Sib(head, row, modrm) => step_sib(head, row, modrm, b),
        State::Disp {
            head,
            row,
            reg,
            mode,
            base,
            index,
            free,
            have,
            mut bytes,
        } => {
            bytes[have as usize] = b;
            if have + 1 == disp_length(mode) {
                end_disp(head, row, reg, mode, base, index, free, bytes)
            } else {
                Next::Go(State::Disp {
                    head,
                    row,
                    reg,
                    mode,
                    base,
                    index,
                    free,
                    have: have + 1,
                    bytes,
                })
            }
        }
        State::Imm {
            head,
            row,
            reg,
            rm,
            have,
            mut bytes,
        } => {
            let length = imm_length(row);
            bytes[have as usize] = b;
            if have + 1 == length {
                end_imm(row, reg, rm, bytes)
            } else {
                Next::Go(State::Imm {
                    head,
                    row,
                    reg,
                    rm,
                    have: have + 1,
                    bytes,
                })
            }
        }
    }
}
