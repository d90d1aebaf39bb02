//! The instruction at the front of bytes.

ghost use Rattle.std.specs.Prelude.{◌≡◌, ◌≤◌, ◌-◌, ◌↔◌, ℕ};
ghost use Rattle.x86_forms.specs.declared.instr.Instr.{Instr};
ghost use Rattle.x86_decode.specs.Reading.{BeginsWith, BeginsNothing, IsCutShort};
ghost use Rattle.x86_decode.specs.Run.{least_of, head_least, escape_least, mode_len, run};

use crate::row_facts::imm_length;
use crate::states::{Next, State};
use crate::steps::step;
use crate::values::disp_length;
use x86_forms::Instr;

/// Why the front of bytes is no instruction.
#[derive(Clone, Copy, Debug, PartialEq, Eq)]
pub enum Undecoded {
    /// No instruction begins the bytes, and they begin none.
    Undefined,
    /// The bytes are a proper prefix of an instruction. `need` is the length of the shortest one that they begin.
    Short { need: u8 },
}

fn least_after_rex(prefix: u8, rex: u8) -> u8
    ensures value { result ≡ head_least prefix rex }
    ensures small { result ≤ 4 }
{
    if prefix == 0xF3 {
        if rex / 2 % 2 == 1 { 4 } else { 3 }
    } else if rex / 2 % 2 == 1 {
        3
    } else if prefix == 0 && (rex == 0 || rex == 0x41 || rex == 0x48) {
        1
    } else if prefix == 0xF2 && rex == 0 {
        1
    } else {
        2
    }
}

fn least_after_escape(prefix: u8, rex: u8) -> u8
    ensures value { result ≡ escape_least prefix rex }
    ensures small { result ≤ 4 }
{
    if rex / 2 % 2 == 1 {
        3
    } else if prefix == 0 && rex == 0 {
        1
    } else {
        2
    }
}

/// The bytes of the displacement that the mod field says.
fn mode_length(mode: u8) -> u8
    ensures value { result ≡ mode_len mode }
    ensures small { result ≤ 4 }
{
    match mode {
        0 => 0,
        1 => 1,
        _ => 4,
    }
}

fn rest(length: u8, have: u8) -> u8
    ensures value { result ≡ length - have }
    ensures small { result ≤ length }
{
    length.saturating_sub(have)
}

/// The least number of bytes that complete what has been read.
#[tactic(auto, unfolding(crate::specs::Run::least_of))]
fn least(state: State) -> u8
    ensures value { result ≡ least_of state }
    ensures small { result ≤ 16 }
{
    match state {
        State::Start => 1,
        State::Prefix(prefix) => least_after_rex(prefix, 0),
        State::Rex(prefix, rex) => least_after_rex(prefix, rex),
        State::Escape(prefix, rex) => least_after_escape(prefix, rex),
        State::ModRm(head, row) => 1 + head.rex / 2 % 2 + imm_length(row),
        State::Sib(_, row, modrm) => 1 + mode_length(modrm / 64) + imm_length(row),
        State::Disp {
            row,
            mode,
            have,
            ..
        } => rest(disp_length(mode), have) + imm_length(row),
        State::Imm { row, have, .. } => rest(imm_length(row), have),
    }
}

/// What the automaton answers on the bytes.
fn answer(bytes: &[u8]) -> Result<(Instr, u8), Undecoded>
    ensures { result ≡ run bytes.now State.Start 0 }
{
    let mut state = State::Start;
    for (i, b) in bytes.iter().enumerate() {
        match step(state, *b) {
            Next::Dead => return Err(Undecoded::Undefined),
            Next::End(instr) => return Ok((instr, i as u8 + 1)),
            Next::Go(next) => state = next,
        }
    }
    Err(Undecoded::Short {
        need: bytes.len() as u8 + least(state),
    })
}

/// The instruction at the front of the bytes, and its length. What follows it does not matter.
pub fn decode(bytes: &[u8]) -> Result<(Instr, u8), Undecoded>
    ensures found { (i : Instr) → (n : ℕ) → (result ≡ Ok (i, n)) ↔ BeginsWith bytes.now i n }
    ensures undefined { (result ≡ Err Undecoded.Undefined) ↔ BeginsNothing bytes.now }
    ensures short { (need : ℕ) → (result ≡ Err (Undecoded.Short need)) ↔ IsCutShort bytes.now need }
{
    answer(bytes)
}
