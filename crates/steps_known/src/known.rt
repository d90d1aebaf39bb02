//! What is known at a function.

ghost use Rattle.std.specs.Prelude.{◌≡◌, slice_index_or, slice_get};
ghost use Rattle.bounds_plan.specs.elaboration.Places.{place_among};
ghost use Rattle.steps_facts.specs.declared.knows.Standing.TheVariants as standing;
ghost use Rattle.steps_structs.specs.Structs.{kept, tags_known};

use crate::functions::{KnownFunction, sorts_of_function};
use crate::lists::{bind_at, next, number_at, shape_at, type_number};
use c_check_rules::Bind;
use c_tree::{Base, Name};
use c_types::{Shape, TypeId, TypeTable};
use mx_base::{Flags, OutOfMemory};
use place_plan::{FramePlan, Spot};
use sqlite_items::Items;
use std::alloc::Global;
use std::marker::Model;
use steps_facts::{
    DeclaredHere, Facts, Here, Knows, LiteralHere, Meant, MemberAt, Part, Reached, ScalarAt,
    Sorted, Standing,
};
use steps_structs::{
    KnownStruct, bytes_of, facts_at, facts_of_shape, member_at, parts_of, scalars_at,
    scalars_of_struct, sorted, tag_among,
};

/// What is known at a function: the types that its numbers mean; the types and meanings of nodes in tree order; the structs and
/// functions that are declared so far; the symbols of globals, functions and literals, and where each literal stands; the frames;
/// the flags; and of the function its variables, where they stand, also by private values, and the type of what it gives, which is
/// `void` outside of functions.
#[derive(Drop)]
pub struct Known<'a> {
    pub types: &'a TypeTable,
    pub kinds: &'a [TypeId],
    pub binds: &'a [Bind],
    pub declared: &'a [TypeId],
    pub structs: &'a [KnownStruct],
    pub functions: &'a [KnownFunction],
    pub globals: &'a [u32],
    pub symbols: &'a [u32],
    pub texts: u32,
    pub literals: &'a [u32],
    pub frames: &'a [FramePlan],
    pub flags: Flags,
    pub variables: &'a [TypeId],
    pub spots: &'a [Spot],
    pub result: Shape,
    pub standings: &'a [Standing],
}

fn standing_of(standings: &[Standing], number: u32) -> Standing
    ensures { result ≡ slice_index_or standings.now number standing.Nowhere }
{
    match standings.get(number as usize) {
        Some(found) => *found,
        None => Standing::Nowhere,
    }
}

/// The size of the first struct with a tag.
fn size_tagged(structs: &[KnownStruct], tag: &Name) -> u64
    ensures { result ≡ (kept (slice_get structs.now (place_among (tags_known structs.now) tag.now))).size }
{
    match structs.get(tag_among(structs, tag.as_slice())) {
        Some(found) => found.layout.size,
        None => 0,
    }
}

impl<'a> Model for Known<'a> {
    ghost use Rattle.steps_known.specs.Known.{KnownAt};

    ghost Value = { KnownAt };

    ghost use Rattle.steps_known.specs.Known.{IsKnown};

    ghost view = { λ k. record { table = k.types.now; kinds = k.kinds.now; binds = k.binds.now; declared = k.declared.now; structs = k.structs.now; functions = k.functions.now; globals = k.globals.now; symbols = k.symbols.now; texts = k.texts; literals = k.literals.now; frames = k.frames.now; flags = k.flags; variables = k.variables.now; spots = k.spots.now; result = k.result; standings = k.standings.now } };

    ghost invariant = { λ k. IsKnown (record { table = k.types.now; kinds = k.kinds.now; binds = k.binds.now; declared = k.declared.now; structs = k.structs.now; functions = k.functions.now; globals = k.globals.now; symbols = k.symbols.now; texts = k.texts; literals = k.literals.now; frames = k.frames.now; flags = k.flags; variables = k.variables.now; spots = k.spots.now; result = k.result; standings = k.standings.now }) };
}

impl<'a> Knows for Known<'a> {
    ghost use Rattle.steps_known.specs.Known.{around_of};

    ghost around = { around_of };

    ghost table = { λ k. k.table };

    #[tactic(auto, using(crate::proofs::StandingLemmas::variable_known))]
    fn variable(&self, number: u32) -> Standing {
        standing_of(self.standings, number)
    }

    #[tactic(auto, using(crate::proofs::StandingLemmas::pointed))]
    fn size_named(&self, base: &Base, stars: u8) -> u64 {
        if stars > 0 {
            return 8;
        }
        match base {
            Base::Void => 0,
            Base::Int(kind) => bytes_of(*kind),
            Base::Struct(tag) => size_tagged(self.structs, tag),
        }
    }

    fn global(&self, number: u32) -> u32 {
        number_at(self.globals, number)
    }

    fn function(&self, number: u32) -> u32 {
        number_at(self.symbols, number)
    }

    fn texts(&self) -> u32 {
        self.texts
    }

    fn flags(&self) -> Flags {
        self.flags
    }

    fn result(&self) -> Sorted {
        sorted(self.result)
    }

    fn kind_here(&self, r: Reached) -> Result<Here, OutOfMemory> {
        let shape = shape_at(self.types, self.kinds, r.kind);
        let facts = facts_of_shape(self.types, self.structs, shape)?;
        let kind = next(r.kind)?;
        let after = Reached { kind, ..r };
        Ok(Here { facts, after })
    }

    fn bind_here(&self, r: Reached) -> Result<Meant, OutOfMemory> {
        let bind = bind_at(self.binds, r.name);
        let name = next(r.name)?;
        let after = Reached { name, ..r };
        Ok(Meant { bind, after })
    }

    fn literal_here(&self, r: Reached) -> Result<LiteralHere, OutOfMemory> {
        let offset = number_at(self.literals, r.literal);
        let literal = next(r.literal)?;
        let after = Reached { literal, ..r };
        Ok(LiteralHere { offset, after })
    }

    fn declared_here(&self, r: Reached) -> Result<DeclaredHere, OutOfMemory> {
        let kind = type_number(self.types, self.declared, r.declaration)?;
        let declaration = next(r.declaration)?;
        let name = next(r.name)?;
        let after = Reached {
            declaration,
            name,
            ..r
        };
        Ok(DeclaredHere { kind, after })
    }

    fn parameters(&self, number: u32) -> Result<&[Sorted], OutOfMemory> {
        sorts_of_function(self.types, self.functions, number)
    }

    fn member(
        &self,
        owner: u32,
        name: &Name,
        size: u64,
        array: bool,
    ) -> Result<MemberAt, OutOfMemory> {
        member_at(
            self.types,
            self.structs,
            self.flags,
            owner,
            name,
            size,
            array,
        )
    }

    fn members(&self, alloc: Global, owner: u32) -> Result<Items<Part>, OutOfMemory> {
        parts_of(alloc, self.types, self.structs, owner)
    }

    fn struct_scalars(&self, alloc: Global, owner: u32) -> Result<Items<ScalarAt>, OutOfMemory> {
        scalars_of_struct(alloc, self.types, self.structs, owner)
    }

    fn scalars(&self, alloc: Global, t: TypeId) -> Result<Items<ScalarAt>, OutOfMemory> {
        scalars_at(alloc, self.types, self.structs, t)
    }

    fn shape(&self, t: TypeId) -> Shape {
        self.types.shape(t)
    }

    fn facts(&self, t: TypeId) -> Result<Facts, OutOfMemory> {
        facts_at(self.types, self.structs, t)
    }
}
