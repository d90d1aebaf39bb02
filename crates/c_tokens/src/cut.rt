//! A text cut into its tokens.

ghost use Rattle.std.specs.Prelude.{◌≡◌, ◌≤◌, ◌<◌, ◌+◌, ◌^◌, length, take, drop, fold, All, IfOk, IfErr};
ghost use Rattle.c_tokens.specs.Lexical.{IsLongestOf};
ghost use Rattle.c_tokens.specs.Places as places;
ghost use Rattle.c_tokens.specs.Tokens as spec;

use crate::fault::{TokenFault, fault_at};
use crate::piece::{Piece, first_piece};
use crate::places::moved;
use crate::token::Token;
use mx_base::Place;
use std::alloc::Global;

/// What is left of a text: its bytes, how many there were before them, and the place of the first of them.
#[derive(Clone, Copy)]
struct Cursor<'a> {
    rest: &'a [u8],
    from: u32,
    place: Place,
}

/// What is left after so many bytes more.
fn advanced(at: Cursor<'_>, size: usize) -> Cursor<'_>
    requires within { size ≤ length at.rest.now }
    requires from { at.from + size < 2 ^ 32 }
    requires line { at.place.line + size < 2 ^ 32 }
    requires col { at.place.col + size < 2 ^ 32 }
    ensures rest { result.rest.now ≡ drop size at.entry.rest.now }
    ensures from { result.from ≡ at.entry.from + size }
    ensures place { result.place ≡ fold places.step at.entry.place (take size at.entry.rest.now) }
    ensures line { result.place.line ≤ at.entry.place.line + size }
    ensures col { result.place.col ≤ at.entry.place.col + size }
{
    let (inside, rest) = at.rest.split_at(size);
    Cursor {
        rest,
        from: at.from + size as u32,
        place: moved(at.place, inside),
    }
}

/// The tokens of a text, each with its place, or the fault of the first piece that is no token.
///
/// Each token is the longest one that begins where it does. `file` is the text's place in the command's list of files.
#[tactic(auto, unfolding(crate::specs::Tokens::tokens_of), using(crate::proofs::Turns::start_turn, crate::proofs::Turns::stands_first, crate::proofs::Turns::stands_on, crate::proofs::Turns::some_left, crate::proofs::Turns::gap_turn, crate::proofs::Turns::lexeme_turn, crate::proofs::Turns::bad_turn, crate::proofs::Turns::end_turn))]
pub fn tokens(alloc: Global, bytes: &[u8], file: u32) -> Result<Vec<Token>, TokenFault>
    requires { length bytes.now ≤ 536870912 }
    ensures found { IfOk result (λ found. spec.tokens_of file bytes.now ≡ Ok found.items) }
    ensures longest { IfOk result (λ found. All (IsLongestOf bytes.now) found.items) }
    ensures refused { IfErr result (spec.Refuses (spec.tokens_of file bytes.now)) }
{
    let mut tokens = Vec::new(alloc);
    let mut at = Cursor {
        rest: bytes,
        from: 0,
        place: Place {
            file,
            line: 1,
            col: 1,
        },
    };
    while !at.rest.is_empty() {
        match first_piece(at.rest) {
            Piece::Gap(size) => at = advanced(at, size),
            Piece::Lexeme(kind, class, size) => {
                let after = advanced(at, size);
                tokens.push(Token {
                    kind,
                    class,
                    place: at.place,
                    from: at.from,
                    to: after.from,
                })?;
                at = after;
            }
            Piece::Bad(flaw) => return Err(fault_at(flaw, at.place)),
        }
    }
    Ok(tokens)
}
