//! Sources in files.

ghost use Rattle.std.specs.Prelude.{IfOk};
ghost use Rattle.c_tree.specs.Formed.{IsFormed};

use c_check::check;
use c_reader::read;
use c_tokens::tokens;
use c_tree::{Tree, nodes};
use place_plan::plan;
use std::alloc::Global;
use std::rt::Files;
use std::{fs, io};

/// How many tokens a file has, or its fault with its place.
pub fn tokens_line<R: Files + Alloc<A = Global>>(rt: &R, path: &str) -> io::Result<String> {
    let bytes = fs::read(rt, path)?;
    if bytes.len() > 536_870_912 {
        return Ok(String::from_str(rt.alloc(), "FileLarge")?);
    }
    match tokens(rt.alloc(), bytes.as_slice(), 0) {
        Ok(found) => {
            let count = found.len();
            Ok(format!(in rt.alloc(); "{count}")?)
        }
        Err(fault) => Ok(format!(in rt.alloc(); "{fault}")?),
    }
}

/// The tree of the program in a file, or the line that tells its first fault with its place.
fn tree_in<R: Files + Alloc<A = Global>>(rt: &R, path: &str) -> io::Result<Result<Tree, String>>
    ensures { IfOk result (λ told. IfOk told IsFormed) }
{
    let bytes = fs::read(rt, path)?;
    if bytes.len() > 536_870_912 {
        return Ok(Err(String::from_str(rt.alloc(), "FileLarge")?));
    }
    let found = match tokens(rt.alloc(), bytes.as_slice(), 0) {
        Ok(found) => found,
        Err(fault) => return Ok(Err(format!(in rt.alloc(); "{fault}")?)),
    };
    match read(rt.alloc(), found.as_slice(), bytes.as_slice()) {
        Ok(tree) => Ok(Ok(tree)),
        Err(fault) => Ok(Err(format!(in rt.alloc(); "{fault}")?)),
    }
}

/// How many nodes the program in a file has, or its first fault with its place.
pub fn read_line<R: Files + Alloc<A = Global>>(rt: &R, path: &str) -> io::Result<String> {
    let tree = match tree_in(rt, path)? {
        Ok(tree) => tree,
        Err(line) => return Ok(line),
    };
    let count = nodes(&tree);
    Ok(format!(in rt.alloc(); "nodes {count}")?)
}

/// `accepted`, or the first refusal of the source in a file with its place.
pub fn check_line<R: Files + Alloc<A = Global>>(rt: &R, path: &str) -> io::Result<String> {
    let tree = match tree_in(rt, path)? {
        Ok(tree) => tree,
        Err(line) => return Ok(line),
    };
    match check(rt.alloc(), &tree, 32_768) {
        Ok(_checked) => Ok(String::from_str(rt.alloc(), "accepted")?),
        Err(fault) => Ok(format!(in rt.alloc(); "{fault}")?),
    }
}

/// How often the source in a file is accepted in so many checks, or the line that tells the first fault of its reading.
pub fn check_often<R: Files + Alloc<A = Global>>(
    rt: &R,
    path: &str,
    times: u32,
) -> io::Result<String> {
    let tree = match tree_in(rt, path)? {
        Ok(tree) => tree,
        Err(line) => return Ok(line),
    };
    let mut accepted = 0u32;
    for _ in 0..times {
        if check(rt.alloc(), &tree, 32_768).is_ok() {
            accepted = accepted.saturating_add(1);
        }
    }
    Ok(format!(in rt.alloc(); "accepted {accepted}")?)
}

/// How often the source in a file, once it is checked, is planned in so many calls, or the line that tells its first fault.
pub fn plan_often<R: Files + Alloc<A = Global>>(
    rt: &R,
    path: &str,
    times: u32,
) -> io::Result<String> {
    let tree = match tree_in(rt, path)? {
        Ok(tree) => tree,
        Err(line) => return Ok(line),
    };
    let checked = match check(rt.alloc(), &tree, 32_768) {
        Ok(checked) => checked,
        Err(fault) => return Ok(format!(in rt.alloc(); "{fault}")?),
    };
    let mut planned = 0u32;
    for _ in 0..times {
        if plan(rt.alloc(), &tree, &checked).is_ok() {
            planned = planned.saturating_add(1);
        }
    }
    Ok(format!(in rt.alloc(); "planned {planned}")?)
}
