//! A struct that is declared, and one more of them.

ghost use Rattle.std.specs.Prelude.{◌≡◌, ◌++◌, ◌∷◌, [], map, length, All, IfOk, OnOk};
ghost use Rattle.c_types.specs.Types.{type_at, IsIn};
ghost use Rattle.steps_structs.specs.Structs.{AreKnown, declared, structs_known, tags_known, names_known};

use crate::scalars::scalars_laid;
use crate::sizes::laid_out;
use c_check_rules::copy_name;
use c_tree::{Decl, Name};
use c_types::{Layout, TypeId, TypeTable};
use mx_base::OutOfMemory;
use sqlite_items::Items;
use std::alloc::Global;
use steps_facts::ScalarAt;

/// A struct that is declared: its tag, the names and types of its members, its size and alignment, and its scalars in order of their
/// offsets, if they are at most 64. A struct of more is never copied, and a variable of more never initialised.
#[derive(Drop)]
pub struct KnownStruct {
    pub tag: Name,
    pub names: Items<Name>,
    pub members: Items<TypeId>,
    pub layout: Layout,
    pub scalars: Option<Items<ScalarAt>>,
}

/// The names of members.
fn names_of(alloc: Global, members: &[Decl]) -> Result<Items<Name>, OutOfMemory>
    ensures { IfOk result (λ names. names ≡ map (λ d. d.name) members.now) }
{
    let mut names = Items::new(alloc);
    for member in members {
        let name = copy_name(alloc, &member.name)?;
        names.push(name)?;
    }
    Ok(names)
}

/// A struct with members of these types behind others.
fn known_struct(
    alloc: Global,
    types: &TypeTable,
    structs: &[KnownStruct],
    tag: &Name,
    decls: &[Decl],
    members: &[TypeId],
) -> Result<KnownStruct, OutOfMemory>
    requires known { AreKnown types.now structs.now }
    requires members { All (IsIn types.now) members.now }
    ensures { IfOk result (λ k. k ≡ declared types.now structs.now tag.now decls.now members.now) }
{
    let layout = laid_out(types, structs, members)?;
    let scalars = scalars_laid(alloc, types, structs, members)?;
    let tag = copy_name(alloc, tag)?;
    let names = names_of(alloc, decls)?;
    let members = Items::from_slice(alloc, members)?;
    Ok(KnownStruct {
        tag,
        names,
        members,
        layout,
        scalars,
    })
}

/// Declares a struct with members of these types behind those that are declared. For want of memory nothing changes; a struct of 2^64 bytes
/// has none.
pub fn declare_struct(
    alloc: Global,
    types: &TypeTable,
    structs: &mut Items<KnownStruct>,
    tag: &Name,
    decls: &[Decl],
    members: &[TypeId],
) -> Result<(), OutOfMemory>
    requires known { AreKnown types.now structs.old }
    requires members { All (IsIn types.now) members.now }
    ensures declared { OnOk result (structs.new ≡ structs.old ++ declared types.now structs.old tag.now decls.now members.now ∷ []) }
    ensures known { AreKnown types.now structs.new }
    ensures structs { OnOk result (structs_known types.now structs.new ≡ record { number = length (tags_known structs.old); members = map (type_at types.now) members.now } ∷ structs_known types.now structs.old) }
    ensures tags { OnOk result (tags_known structs.new ≡ tags_known structs.old ++ tag.now ∷ []) }
    ensures names { OnOk result (names_known structs.new ≡ names_known structs.old ++ map (λ d. d.name) decls.now ∷ []) }
{
    let known = known_struct(alloc, types, structs.as_slice(), tag, decls, members)?;
    structs.push(known)?;
    Ok(())
}
