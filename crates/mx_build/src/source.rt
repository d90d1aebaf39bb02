//! A text of C, read and checked.

ghost use Rattle.std.specs.Prelude.{ℕ, ◌≤◌, length, IfOk, IfErr};
ghost use Rattle.c_tree.specs.Formed.{IsFormed};
ghost use Rattle.c_check.specs.Checked.{SaysOf};
ghost use Rattle.mx_build.specs.Sources.{IsTreeOf, RefusesText};

use crate::fault::{BuildFault, of_checking, of_reading, of_tokens};
use c_check::{Checked, check};
use c_reader::read;
use c_tokens::tokens;
use c_tree::Tree;
use std::alloc::Global;

/// An accepted source: its tree, and what the checks say of it.
#[derive(Drop)]
pub struct Accepted {
    pub tree: Tree,
    pub checked: Checked,
}

/// The tree of a text, or why it has none. `file` is the text's place in the command's list of files.
fn tree_of(alloc: Global, file: u32, bytes: &[u8]) -> Result<Tree, BuildFault>
    requires { length bytes.now ≤ 536870912 }
    ensures tree { IfOk result (IsTreeOf file bytes.now) }
    ensures formed { IfOk result (λ tree. IsFormed tree) }
    ensures refused { IfErr result (λ e. (room : ℕ) → RefusesText file bytes.now room e) }
{
    let found = tokens(alloc, bytes, file).map_err(of_tokens)?;
    read(alloc, &found, bytes).map_err(of_reading)
}

/// A text of C that is accepted where there is room for so many nodes of the tree, or the first layer that refuses it: tokens, grammar, rules. `file` is
/// the text's place in the command's list of files.
///
/// # Errors
/// `Token`, `Read` and `Check` with the layer's fault, and `OutOfMemory`.
pub fn accept(alloc: Global, file: u32, bytes: &[u8], room: u32) -> Result<Accepted, BuildFault>
    requires size { length bytes.now ≤ 536870912 }
    requires few { room ≤ 32768 }
    ensures tree { IfOk result (λ a. IsTreeOf file bytes.now a.tree) }
    ensures formed { IfOk result (λ a. IsFormed a.tree) }
    ensures says { IfOk result (λ a. SaysOf a.tree room a.checked) }
    ensures refused { IfErr result (RefusesText file bytes.now room) }
{
    let tree = match tree_of(alloc, file, bytes) {
        Ok(tree) => tree,
        Err(fault) => return Err(fault),
    };
    match check(alloc, &tree, room) {
        Ok(checked) => Ok(Accepted { tree, checked }),
        Err(fault) => Err(of_checking(fault)),
    }
}
