//! A program read from its tokens.

ghost use Rattle.std.specs.Prelude.{◌≡◌, ◌+◌, ◌<◌, ◌≤◌, ◌^◌, ℕ, Ok, length, fold, IfOk, IfErr};
ghost use Rattle.mx_base.specs.declared.places.Place.{Place};
ghost use Rattle.c_tokens.specs.Places as places;
ghost use Rattle.c_tokens.specs.Tokens.{tokens_of};
ghost use Rattle.c_tree.specs.declared.tree.Tree.{Tree};
ghost use Rattle.c_tree.specs.Formed.{IsFormed};
ghost use Rattle.c_grammar.specs.Lexemes.{lexemes};
ghost use Rattle.c_grammar.specs.Nesting.{TooDeep};
ghost use Rattle.c_grammar.specs.Program.{IsProgram, FirstBad};
ghost use Rattle.c_reader.specs.Refusals.{Told, Shallow, Refused, ReadOf};
ghost use Rattle.c_reader.specs.declared.fault.ReadFault.TheVariants as fault;

use crate::fault::ReadFault;
use crate::items::items;
use c_tokens::Token;
use c_tree::Tree;
use mx_base::Place;
use parse_expressions::{Fault, Parser};
use std::alloc::Global;

/// The place after a byte that stands at a place.
fn step(at: Place, byte: u8) -> Place
    requires line { at.line + 1 < 2 ^ 32 }
    requires col { at.col + 1 < 2 ^ 32 }
    ensures value { result ≡ places.step at byte }
    ensures line { result.line ≤ at.line + 1 }
    ensures col { result.col ≤ at.col + 1 }
{
    if byte == b'\n' {
        Place {
            file: at.file,
            line: at.line + 1,
            col: 1,
        }
    } else {
        Place {
            file: at.file,
            line: at.line,
            col: at.col + 1,
        }
    }
}

/// The place after these bytes, of which the first stands at `from`.
fn moved(from: Place, bytes: &[u8]) -> Place
    requires line { from.line + length bytes.now < 2 ^ 32 }
    requires col { from.col + length bytes.now < 2 ^ 32 }
    ensures { result ≡ fold places.step from bytes.now }
{
    let mut at = from;
    for byte in bytes {
        at = step(at, *byte);
    }
    at
}

/// The place after the last byte of a text.
#[tactic(auto, using(crate::proofs::Ends::from_start))]
fn end_of(file: u32, bytes: &[u8]) -> Place
    requires { length bytes.now ≤ 536870912 }
    ensures { result ≡ places.place_after file bytes.now }
{
    let start = Place {
        file,
        line: 1,
        col: 1,
    };
    moved(start, bytes)
}

/// The place after the last byte of a text with these tokens.
#[tactic(auto, using(crate::proofs::Ends::file_of_first))]
fn end_after(tokens: &[Token], bytes: &[u8]) -> Place
    requires { length bytes.now ≤ 536870912 }
    ensures { (file : ℕ) → tokens_of file bytes.now ≡ Ok tokens.now → 0 < length tokens.now → result ≡ places.place_after file bytes.now }
{
    match tokens.split_first() {
        Some((token, _)) => end_of(token.place.file, bytes),
        None => end_of(0, bytes),
    }
}

/// The tree of a program, or why its tokens are refused. They are the tokens of a text of at most 536,870,912 bytes.
pub fn read(alloc: Global, tokens: &[Token], bytes: &[u8]) -> Result<Tree, ReadFault>
    requires size { length bytes.now ≤ 536870912 }
    requires are { (file : ℕ) × (tokens_of file bytes.now ≡ Ok tokens.now) }
    // What is read is the tree of the program.
    ensures found { IfOk result (λ tree. IsProgram bytes.now tokens.now tree) }
    // It is formed.
    ensures formed { IfOk result (λ tree. IsFormed tree) }
    // A program is read, and has no other tree, unless it has a token that opens one nesting too many or memory is wanting.
    ensures only { (tree : Tree) → IsProgram bytes.now tokens.now tree → ReadOf (lexemes bytes.now tokens.now) tree result }
    // A refusal tells of the first token that does not fit, or of the first that opens one nesting too many.
    ensures told { (file : ℕ) → tokens_of file bytes.now ≡ Ok tokens.now → IfErr result (λ e. Told (lexemes bytes.now tokens.now) (places.place_after file bytes.now) e) }
    // A first token that does not fit is told, where none before it opens one nesting too many.
    ensures expected { (file : ℕ) (place : Place) → tokens_of file bytes.now ≡ Ok tokens.now → FirstBad (lexemes bytes.now tokens.now) (places.place_after file bytes.now) place → Shallow (lexemes bytes.now tokens.now) → Refused (fault.Expected place) result }
    // A first token that opens one nesting too many is told.
    ensures deep { (place : Place) → TooDeep (lexemes bytes.now tokens.now) place → Refused (fault.Deep place) result }
{
    let mut at = Parser::new(alloc, tokens, bytes);
    match items(&mut at) {
        Ok(items) => {
            if at.is_done() {
                Ok(Tree { items })
            } else {
                Err(ReadFault::Expected(at.place(end_after(tokens, bytes))))
            }
        }
        Err(Fault::Unexpected) => Err(ReadFault::Expected(at.place(end_after(tokens, bytes)))),
        Err(Fault::Deep) => Err(ReadFault::Deep(at.place(end_after(tokens, bytes)))),
        Err(Fault::OutOfMemory) => Err(ReadFault::OutOfMemory),
    }
}
