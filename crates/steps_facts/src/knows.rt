//! What is known of a source beside its tree, at a function of it.

ghost use Rattle.std.specs.Prelude.{◌≡◌, IfOk, Some, All, map, slice_index_or};
ghost use Rattle.c_types.specs.Types.{Struct, Types, type_at, built, IsIn, members_of};
ghost use Rattle.c_types.specs.Layouts.{CanBuild, layout_of, offsets_from};
ghost use Rattle.bounds_plan.specs.elaboration.Scalars.{scalars_of};
ghost use Rattle.bounds_plan.specs.elaboration.Types.{size_in, sort_of};
ghost use Rattle.bounds_plan.specs.elaboration.Source.{Around, kind_at, bind_at, declared_at, literal_at, past_kind, past_name, past_literal, past_declaration};
ghost use Rattle.bounds_plan.specs.elaboration.Places.{variable_of};
ghost use Rattle.bounds_plan.specs.elaboration.Expressions.{symbol_of, based, starred};
ghost use Rattle.steps_facts.specs.Seen.{sorted, facts_of, reached_of};
ghost use Rattle.steps_facts.specs.Around.{standing_at, OffsetIs, RuleIs, parameters_at, part_types, part_offsets, IsPart, scalars_seen};

use crate::seen::{Facts, Reached, Sorted};
use c_check_rules::Bind;
use c_tree::{Base, Name};
use c_types::{Shape, TypeId};
use mx_base::{Flags, IntKind, OutOfMemory};
use narrowing::Rule;
use sqlite_items::Items;
use std::alloc::Global;

/// What is known of the next expression, and what is reached behind it.
#[derive(Clone, Copy)]
pub struct Here {
    pub facts: Facts,
    pub after: Reached,
}

/// What the next name means, and what is reached behind it.
#[derive(Clone, Copy)]
pub struct Meant {
    pub bind: Bind,
    pub after: Reached,
}

/// Where the next literal stands behind the symbol of the literals, in bytes, and what is reached behind it.
#[derive(Clone, Copy)]
pub struct LiteralHere {
    pub offset: u32,
    pub after: Reached,
}

/// The type of the next declaration, and what is reached behind it and its name.
#[derive(Clone, Copy)]
pub struct DeclaredHere {
    pub kind: TypeId,
    pub after: Reached,
}

/// Where a variable stands: in private values, by the number of the first one; in the data frame, at an offset and with a size in bytes; or nowhere.
#[derive(Clone, Copy)]
pub enum Standing {
    Number(u32),
    Pointer(u32),
    Frame { offset: u32, size: u64 },
    Nowhere,
}

/// Where a member stands in its struct, in bytes, and the rule for its bounds.
#[derive(Clone, Copy)]
pub struct MemberAt {
    pub offset: u64,
    pub rule: Rule,
}

/// A member of a struct: its type, and where it stands, in bytes.
#[derive(Clone, Copy)]
pub struct Part {
    pub kind: TypeId,
    pub offset: u64,
}

/// A scalar of a type: where it stands in it, in bytes, and its type, which a pointer lacks.
#[derive(Clone, Copy)]
pub struct ScalarAt {
    pub offset: u64,
    pub kind: Option<IntKind>,
}

/// What is known around the expressions, initialisers and statements of a function. Each answer is what the elaboration of the function finds at
/// the same place; `OutOfMemory` comes where memory is not to be had, where a number has no 32 bits or a size no 64, and where nothing is known.
pub trait Knows {
    /// What is around: the structs and functions that are declared so far, the meanings and the layout of the source, and the function.
    ghost around: { Self → Around };

    /// The types that its numbers mean.
    ghost table: { Self → Types };

    // ---- what stands next in tree order

    /// The next expression.
    fn kind_here(&self, r: Reached) -> Result<Here, OutOfMemory>
        ensures facts { IfOk result (λ h. h.facts ≡ facts_of (around self.now).structs (kind_at (around self.now) (reached_of r))) }
        ensures after { IfOk result (λ h. reached_of h.after ≡ past_kind (reached_of r)) };

    /// The next name.
    fn bind_here(&self, r: Reached) -> Result<Meant, OutOfMemory>
        ensures bind { IfOk result (λ m. m.bind ≡ bind_at (around self.now) (reached_of r)) }
        ensures after { IfOk result (λ m. reached_of m.after ≡ past_name (reached_of r)) };

    /// The next literal.
    fn literal_here(&self, r: Reached) -> Result<LiteralHere, OutOfMemory>
        ensures offset { IfOk result (λ l. l.offset ≡ literal_at (around self.now) (reached_of r)) }
        ensures after { IfOk result (λ l. reached_of l.after ≡ past_literal (reached_of r)) };

    /// The next declaration of a variable or function.
    fn declared_here(&self, r: Reached) -> Result<DeclaredHere, OutOfMemory>
        ensures kind { IfOk result (λ d. type_at (table self.now) d.kind ≡ declared_at (around self.now) (reached_of r)) }
        ensures known { IfOk result (λ d. IsIn (table self.now) d.kind) }
        ensures after { IfOk result (λ d. reached_of d.after ≡ past_declaration (reached_of r)) };

    // ---- what a name means

    /// A parameter or local.
    fn variable(&self, number: u32) -> Standing
        ensures { standing_at result ≡ variable_of (around self.now).structs (around self.now).variables (around self.now).stands 0 number };

    /// The symbol of a global.
    fn global(&self, number: u32) -> u32
        ensures { result ≡ slice_index_or (around self.now).layout.globals number 0 };

    /// The symbol of a function.
    fn function(&self, number: u32) -> u32
        ensures { result ≡ symbol_of (around self.now) number };

    /// The symbol of the literals.
    fn texts(&self) -> u32
        ensures { result ≡ (around self.now).layout.texts };

    /// The sorts of a function's parameters.
    fn parameters(&self, number: u32) -> Result<&[Sorted], OutOfMemory>
        ensures { IfOk result (λ sorts. Some sorts.now ≡ parameters_at (around self.now) number) };

    /// The sort of what the function gives.
    fn result(&self) -> Sorted
        ensures { result ≡ sorted (sort_of (around self.now).result) };

    /// The flags by which bounds are narrowed.
    fn flags(&self) -> Flags
        ensures { result ≡ (around self.now).flags };

    // ---- structs and types

    /// A member of this size in a struct; `array` says whether it is an array.
    fn member(
        &self,
        owner: u32,
        name: &Name,
        size: u64,
        array: bool,
    ) -> Result<MemberAt, OutOfMemory>
        ensures offset { IfOk result (λ m. OffsetIs (around self.now) owner name.now m.offset) }
        ensures rule { IfOk result (λ m. RuleIs (around self.now) owner name.now size array m.rule) };

    /// The members of a struct in order.
    fn members(&self, alloc: Global, owner: u32) -> Result<Items<Part>, OutOfMemory>
        ensures types { IfOk result (λ parts. part_types (table self.now) parts ≡ members_of (around self.now).structs owner) }
        ensures offsets { IfOk result (λ parts. part_offsets parts ≡ offsets_from 0 (map (layout_of (around self.now).structs) (members_of (around self.now).structs owner))) }
        ensures known { IfOk result (All (IsPart (table self.now))) };

    /// The scalars of a struct, in order of their offsets.
    fn struct_scalars(&self, alloc: Global, owner: u32) -> Result<Items<ScalarAt>, OutOfMemory>
        ensures { IfOk result (λ all. scalars_seen all ≡ scalars_of (around self.now).structs (Struct owner)) };

    /// The scalars of a type, in order of their offsets.
    fn scalars(&self, alloc: Global, t: TypeId) -> Result<Items<ScalarAt>, OutOfMemory>
        requires { IsIn (table self.now) t }
        ensures { IfOk result (λ all. scalars_seen all ≡ scalars_of (around self.now).structs (type_at (table self.now) t)) };

    /// The size of a base and so many stars.
    fn size_named(&self, base: &Base, stars: u8) -> u64
        ensures { result ≡ size_in (around self.now).structs (starred stars (based (around self.now) base.now)) };

    /// What a type is made of.
    fn shape(&self, t: TypeId) -> Shape
        requires { IsIn (table self.now) t }
        ensures means { type_at (table self.now) t ≡ built (type_at (table self.now)) result }
        ensures names { CanBuild (table self.now) result };

    /// What is asked of a type.
    fn facts(&self, t: TypeId) -> Result<Facts, OutOfMemory>
        requires { IsIn (table self.now) t }
        ensures { IfOk result (λ f. f ≡ facts_of (around self.now).structs (type_at (table self.now) t)) };
}
