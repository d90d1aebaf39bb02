//! What is asked of a source, and the answer.
ghost use Rattle.std.specs.Prelude.{IfOk};
ghost use Rattle.c_tree.specs.Formed.{IsFormed};

use crate::early::{code_line, code_run_line, early_line};
use crate::noted::noted;
use crate::pieces::{character_line, count_line, last_line, number_line, places_line, text_line};
use crate::plans::planned;
use crate::says::said;
use crate::trees::{operands, outside};
use c_check::check;
use c_reader::read;
use c_tokens::tokens;
use c_tree::{Tree, nodes};
use std::alloc::{AllocError, Global};

/// The answer to a question about a source.
pub fn answer(alloc: Global, question: &str, source: &str) -> Result<String, AllocError> {
    let text = expand(alloc, source)?;
    let text = text.as_bytes();
    match question {
        "tokens" => count_line(alloc, text),
        "places" => places_line(alloc, text),
        "last" => last_line(alloc, text),
        "number" => number_line(alloc, text),
        "character" => character_line(alloc, text),
        "text" => text_line(alloc, text),
        "early" => early_line(alloc, text),
        "code" => code_line(alloc, text),
        "code run" => code_run_line(alloc, text),
        _ => answer_of_text(alloc, question, text),
    }
}

fn answer_of_text(alloc: Global, question: &str, text: &[u8]) -> Result<String, AllocError> {
    match tree_of(alloc, text)? {
        Ok(tree) => answer_of_tree(alloc, question, &tree),
        Err(line) => Ok(line),
    }
}

/// The tree of a text, or its first fault with its place.
fn tree_of(alloc: Global, text: &[u8]) -> Result<Result<Tree, String>, AllocError>
    ensures { IfOk result (λ told. IfOk told IsFormed) }
{
    if text.len() > 536_870_912 {
        return Ok(Err(String::from_str(alloc, "too long")?));
    }
    let found = match tokens(alloc, text, 0) {
        Ok(found) => found,
        Err(fault) => return Ok(Err(format!(in alloc; "{fault}")?)),
    };
    match read(alloc, found.as_slice(), text) {
        Ok(tree) => Ok(Ok(tree)),
        Err(fault) => Ok(Err(format!(in alloc; "{fault}")?)),
    }
}

fn answer_of_tree(alloc: Global, question: &str, tree: &Tree) -> Result<String, AllocError>
    requires { IsFormed tree.now }
{
    match question {
        "nodes" => {
            let count = nodes(tree);
            format!(in alloc; "nodes {count}")
        }
        "check" => checked(alloc, tree),
        "noted" => noted(alloc, tree),
        "plan" => planned(alloc, tree),
        "said" => said(alloc, tree),
        "operands" => operands(alloc, tree),
        "outside" => outside(alloc, tree),
        _ => String::from_str(alloc, "not understood"),
    }
}

/// `accepted`, or the first refusal with its place.
fn checked(alloc: Global, tree: &Tree) -> Result<String, AllocError>
    requires { IsFormed tree.now }
{
    match check(alloc, tree, 32_768) {
        Ok(_checked) => String::from_str(alloc, "accepted"),
        Err(fault) => format!(in alloc; "{fault}"),
    }
}

/// The text of a source: what stands in it between `«` and `»` is a character by its two digits, or a text so many times, `COUNT*TEXT`.
fn expand(alloc: Global, source: &str) -> Result<String, AllocError> {
    let mut text = String::new(alloc);
    for piece in source.split('«') {
        match piece.split_once('»') {
            Some((inside, rest)) => {
                append(&mut text, inside)?;
                text.push_str(rest)?;
            }
            None => text.push_str(piece)?,
        }
    }
    Ok(text)
}

fn append(text: &mut String, inside: &str) -> Result<(), AllocError> {
    match inside.split_once('*') {
        Some((count, part)) => {
            for _ in 0..count.parse::<u32>().unwrap_or(0) {
                text.push_str(part)?;
            }
            Ok(())
        }
        None => text.push(char::from(u8::from_str_radix(inside, 16).unwrap_or(0))),
    }
}
