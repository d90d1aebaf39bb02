//! What is known of a value, and the notes on a tree.

ghost use Rattle.std.specs.Prelude.{◌≡◌, IfOk, Err};
ghost use Rattle.c_check_typing.specs.Notes as spec;
ghost use Rattle.c_check_typing.specs.Notes.{Ends};
ghost use Rattle.c_check_typing.specs.declared.fault.CheckFault.TheVariants.{Refused};
ghost use Rattle.c_check_typing.specs.Rules as rule;

use crate::fault::{CheckFault, CheckKind};
use crate::literals::Literals;
use crate::uses::Uses;
use c_check_rules::{Bind, Constant, Outer, Type};
use mx_base::{IntKind, OutOfMemory, Place};
use sqlite_items::Items;
use std::alloc::Global;

/// What is known of an expression that breaks no rule.
#[derive(Drop)]
pub struct Typed {
    /// Its own type, before an array has become a pointer.
    pub kind: Type,
    pub is_place: bool,
    /// Whether it is a number that is written as 0.
    pub is_zero: bool,
    pub constant: Constant,
    /// The number of bytes of a text, without the byte 0 at its end.
    pub text: Option<usize>,
    /// The number of the parameter or local that it names.
    pub local: Option<u32>,
}

/// What is noted of a tree, each in tree order: children before their parent, from left to right.
#[derive(Drop)]
pub struct Notes {
    /// The type of each expression.
    pub kinds: Items<Type>,
    /// What each name is bound to that stands in an expression, or is declared as a variable or function.
    pub binds: Items<Bind>,
    /// What the names are bound to that stand in an expression outside of `sizeof`.
    pub used: Uses,
    /// The type of each declaration.
    pub declared: Items<Type>,
    /// The numbers of the parameters and locals of the function to which `&` is applied.
    pub taken: Items<u32>,
    /// The words of the constants that initialise the integers of globals, each in the type of its integer.
    pub constants: Items<u64>,
    /// The bytes of all text literals, each with the byte 0 at its end.
    pub literals: Literals,
}

impl Typed {
    /// The type of the value, where an array has become a pointer to its first element.
    pub fn decayed(&self, alloc: Global) -> Result<Type, OutOfMemory>
        ensures { IfOk result (λ t. t ≡ rule.decayed self.now.kind) }
    {
        match self.kind.outer() {
            Outer::Array(_) => {
                let element = self.kind.inner(alloc)?;
                element.pointer_to(alloc)
            }
            Outer::Void | Outer::Int(_) | Outer::Pointer | Outer::Struct(_) => {
                self.kind.copy(alloc)
            }
        }
    }
}

/// A value of a type that is no place.
pub fn value(kind: Type, constant: Constant) -> Typed
    ensures { result ≡ spec.value kind constant }
{
    Typed {
        kind,
        is_place: false,
        is_zero: false,
        constant,
        text: None,
        local: None,
    }
}

/// A place of a type.
pub fn place_of(kind: Type) -> Typed
    ensures { result ≡ spec.place kind }
{
    Typed {
        kind,
        is_place: true,
        is_zero: false,
        constant: Constant::No,
        text: None,
        local: None,
    }
}

/// Whether a form is that of an array or a pointer.
pub fn is_address(form: Outer) -> bool
    ensures { result ≡ rule.is_address form }
{
    match form {
        Outer::Array(_) => true,
        Outer::Pointer => true,
        Outer::Void => false,
        Outer::Int(_) => false,
        Outer::Struct(_) => false,
    }
}

/// Whether a form is that of an array.
pub fn is_array(form: Outer) -> bool
    ensures { result ≡ rule.is_array form }
{
    match form {
        Outer::Array(_) => true,
        Outer::Void => false,
        Outer::Int(_) => false,
        Outer::Pointer => false,
        Outer::Struct(_) => false,
    }
}

/// Whether a form is that of a struct.
pub fn is_struct(form: Outer) -> bool
    ensures { result ≡ rule.is_struct form }
{
    match form {
        Outer::Struct(_) => true,
        Outer::Void => false,
        Outer::Int(_) => false,
        Outer::Pointer => false,
        Outer::Array(_) => false,
    }
}

/// Ends a node that breaks no rule: its type is noted.
pub fn end_fine(
    alloc: Global,
    notes: &mut Notes,
    place: Place,
    t: Typed,
) -> Result<Typed, CheckFault>
    ensures { Ends (spec.fine t) place notes.old result notes.new }
{
    let kind = t.kind.copy(alloc)?;
    notes.kinds.push(kind)?;
    Ok(t)
}

/// Ends a name that breaks no rule: what it is bound to is noted, and its type.
pub fn end_named(
    alloc: Global,
    notes: &mut Notes,
    place: Place,
    bind: Bind,
    t: Typed,
) -> Result<Typed, CheckFault>
    ensures { Ends (rule.named bind t) place notes.old result notes.new }
{
    let kind = t.kind.copy(alloc)?;
    notes.binds.push(bind)?;
    notes.used.push(bind)?;
    notes.kinds.push(kind)?;
    Ok(t)
}

/// Ends a node that has one broken rule.
pub fn end_wrong(place: Place, kind: CheckKind) -> Result<Typed, CheckFault>
    ensures { result ≡ Err (Refused kind place) }
{
    Err(CheckFault::Refused { kind, place })
}

/// Ends a number or a character.
pub fn end_number(
    alloc: Global,
    notes: &mut Notes,
    place: Place,
    word: u64,
    kind: IntKind,
) -> Result<Typed, CheckFault>
    ensures { Ends (rule.number_own word kind) place notes.old result notes.new }
{
    let t = Typed {
        kind: Type::int(alloc, kind),
        is_place: false,
        is_zero: word == 0,
        constant: Constant::Value(word),
        text: None,
        local: None,
    };
    end_fine(alloc, notes, place, t)
}
