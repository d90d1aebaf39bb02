//! Members of structs: where they stand, and by which rule their bounds go.

ghost use Rattle.std.specs.Prelude.{◌≡◌, ◌==◌, ◌+◌, ◌&&◌, ◌≤◌, ℕ, [], length, map, All, IfOk, slice_get, slice_index, slice_index_or};
ghost use Rattle.narrowing.specs.Member.{member_rule};
ghost use Rattle.c_types.specs.Types.{Types, type_at, IsIn, members_of};
ghost use Rattle.c_types.specs.Layouts.{layout_of, offsets_from};
ghost use Rattle.bounds_plan.specs.elaboration.Places as spec;
ghost use Rattle.steps_facts.specs.Around.{part_types, part_offsets, IsPart};
ghost use Rattle.steps_structs.specs.Structs.{AreKnown, structs_known, tags_known, names_known, members_kept, members_ids, parts_from};

use crate::arithmetic::{behind, round_up};
use crate::known::KnownStruct;
use crate::sizes::layout_at;
use c_check_rules::same_name;
use c_tree::Name;
use c_types::{TypeId, TypeTable};
use mx_base::{Flags, OutOfMemory};
use narrowing::of_member;
use sqlite_items::Items;
use std::alloc::Global;
use steps_facts::{MemberAt, Part};

/// The place of the first name that is this one, and how many there are where none is.
fn place_among(names: &[Name], name: &[u8]) -> usize
    ensures place { result ≡ spec.place_among names.now name.now }
    ensures few { result ≤ length names.now }
{
    let mut at = 0;
    for one in names {
        if same_name(name, one.as_slice()) {
            return at;
        }
        at += 1;
    }
    at
}

/// The number of the first struct with this tag, and how many there are where none has it.
pub fn tag_among(structs: &[KnownStruct], tag: &[u8]) -> usize
    ensures place { result ≡ spec.place_among (tags_known structs.now) tag.now }
{
    let mut at = 0;
    for one in structs {
        if same_name(tag, one.tag.as_slice()) {
            return at;
        }
        at += 1;
    }
    at
}

/// The types of the members of a struct.
fn members(structs: &[KnownStruct], owner: u32) -> &[TypeId]
    ensures ids { result.now ≡ members_ids (slice_get structs.now owner) }
    ensures types { (table : Types) → map (type_at table) result.now ≡ members_kept table (slice_get structs.now owner) }
{
    match structs.get(owner as usize) {
        Some(found) => found.members.as_slice(),
        None => &[],
    }
}

/// The names of the members of a struct.
fn names(structs: &[KnownStruct], owner: u32) -> &[Name]
    ensures { result.now ≡ slice_index_or (names_known structs.now) owner [] }
{
    match structs.get(owner as usize) {
        Some(found) => found.names.as_slice(),
        None => &[],
    }
}

/// The members of these types with their places.
fn placed(
    alloc: Global,
    types: &TypeTable,
    structs: &[KnownStruct],
    members: &[TypeId],
) -> Result<Items<Part>, OutOfMemory>
    requires known { AreKnown types.now structs.now }
    requires members { All (IsIn types.now) members.now }
    ensures { IfOk result (λ parts. parts ≡ parts_from types.now (structs_known types.now structs.now) 0 members.now) }
{
    let mut parts = Items::new(alloc);
    let mut free = 0u64;
    for member in members {
        let one = layout_at(types, structs, *member)?;
        let offset = round_up(free, one.align)?;
        parts.push(Part {
            kind: *member,
            offset,
        })?;
        free = behind(offset, one.size)?;
    }
    Ok(parts)
}

/// Where a member of these types stands.
fn offset_at(
    types: &TypeTable,
    structs: &[KnownStruct],
    members: &[TypeId],
    index: usize,
) -> Result<u64, OutOfMemory>
    requires known { AreKnown types.now structs.now }
    requires members { All (IsIn types.now) members.now }
    ensures { IfOk result (λ offset. offset ≡ slice_index (offsets_from 0 (map (layout_of (structs_known types.now structs.now)) (map (type_at types.now) members.now))) index) }
{
    let mut free = 0u64;
    let mut left = index;
    for member in members {
        let one = layout_at(types, structs, *member)?;
        let offset = round_up(free, one.align)?;
        if left == 0 {
            return Ok(offset);
        }
        left -= 1;
        free = behind(offset, one.size)?;
    }
    Ok(0)
}

/// The members of a struct in order.
pub fn parts_of(
    alloc: Global,
    types: &TypeTable,
    structs: &[KnownStruct],
    owner: u32,
) -> Result<Items<Part>, OutOfMemory>
    requires { AreKnown types.now structs.now }
    ensures types { IfOk result (λ parts. part_types types.now parts ≡ members_of (structs_known types.now structs.now) owner) }
    ensures offsets { IfOk result (λ parts. part_offsets parts ≡ offsets_from 0 (map (layout_of (structs_known types.now structs.now)) (members_of (structs_known types.now structs.now) owner))) }
    ensures known { IfOk result (All (IsPart types.now)) }
{
    let all = members(structs, owner);
    placed(alloc, types, structs, all)
}

/// A member of this size in a struct: where it stands, and the rule for its bounds. `array` says whether it is an array.
pub fn member_at(
    types: &TypeTable,
    structs: &[KnownStruct],
    flags: Flags,
    owner: u32,
    name: &Name,
    size: u64,
    array: bool,
) -> Result<MemberAt, OutOfMemory>
    requires { AreKnown types.now structs.now }
    ensures offset { IfOk result (λ m. m.offset ≡ spec.offset_in (structs_known types.now structs.now) owner (spec.place_among (slice_index_or (names_known structs.now) owner []) name.now)) }
    ensures rule { IfOk result (λ m. m.rule ≡ member_rule flags (spec.place_among (slice_index_or (names_known structs.now) owner []) name.now == 0) (spec.place_among (slice_index_or (names_known structs.now) owner []) name.now + 1 == length (members_of (structs_known types.now structs.now) owner) && array) (spec.offset_in (structs_known types.now structs.now) owner (spec.place_among (slice_index_or (names_known structs.now) owner []) name.now)) size) }
{
    let index = place_among(names(structs, owner), name.as_slice());
    let all = members(structs, owner);
    let offset = offset_at(types, structs, all, index)?;
    let trailing = index + 1 == all.len() && array;
    let rule = of_member(index == 0, trailing, offset, size, flags);
    Ok(MemberAt { offset, rule })
}
