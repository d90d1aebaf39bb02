//! Initialisers.

ghost use Rattle.std.specs.Prelude.{◌≡◌, IfOk, Some, map, length};
ghost use Rattle.std.specs.Option.{option_copied};
ghost use Rattle.c_check_rules.specs.Kinds.{outer_of};
ghost use Rattle.c_check_statements.specs.Initialisers as spec;
ghost use Rattle.c_check_statements.specs.Walks.{Walks, Judges, ReadsValue, seen_in};

use crate::counts::open_constant;
use crate::reading::{refused, refused_if};
use crate::state::State;
use c_check_expressions::read_expr;
use c_check_rules::{
    Constant, Outer, StructInfo, Type, cast_constant, converts, fits_struct, member_kind,
};
use c_check_typing::{CheckFault, CheckKind, Notes, Typed, is_no_source};
use c_tree::{Expr, Init, InitKind};
use mx_base::{IntKind, OutOfMemory, Place};
use sqlite_items::at;
use std::alloc::Global;

/// What an initialiser fills: a global or a part of one, a local, or a part of a local in braces.
#[derive(Clone, Copy, Debug)]
pub enum Filled {
    Global,
    Local,
    Part,
}

// ---- one expression

fn is_char(form: Outer) -> bool
    ensures { result ≡ spec.is_char form }
{
    match form {
        Outer::Int(kind) => kind == IntKind::I8,
        Outer::Void => false,
        Outer::Pointer => false,
        Outer::Array(_) => false,
        Outer::Struct(_) => false,
    }
}

fn text_fits(count: u64, text: Option<usize>) -> bool
    ensures { result ≡ spec.text_fits count text }
{
    match text {
        Some(bytes) => bytes as u64 <= count,
        None => false,
    }
}

/// Whether a text fills an array of `char` of this type.
fn fills_text(kind: &Type, text: Option<usize>) -> bool
    ensures { result ≡ spec.fills_text kind.now text }
{
    match kind.outer() {
        Outer::Array(count) => is_char(kind.inner_outer()) && text_fits(count, text),
        Outer::Void => false,
        Outer::Int(_) => false,
        Outer::Pointer => false,
        Outer::Struct(_) => false,
    }
}

fn needs_constant(filled: Filled, form: Outer) -> bool
    ensures { result ≡ spec.needs_constant filled form }
{
    match filled {
        Filled::Global => matches!(form, Outer::Int(_)),
        Filled::Local => false,
        Filled::Part => false,
    }
}

/// Whether what is filled takes a value that is converted to its scalar type.
fn takes_scalar(alloc: Global, kind: &Type, t: &Typed) -> Result<bool, OutOfMemory>
    ensures { IfOk result (λ takes. takes ≡ spec.takes_scalar kind.now t.now) }
{
    let source = t.decayed(alloc)?;
    Ok(converts(kind, &source, t.is_zero))
}

fn takes(alloc: Global, filled: Filled, kind: &Type, t: &Typed) -> Result<bool, OutOfMemory>
    ensures { IfOk result (λ takes. takes ≡ spec.takes_form filled (outer_of kind.now) kind.now t.now) }
{
    match kind.outer() {
        Outer::Void => Ok(false),
        Outer::Int(_) => takes_scalar(alloc, kind, t),
        Outer::Pointer => match filled {
            Filled::Global => Ok(t.is_zero),
            Filled::Local => takes_scalar(alloc, kind, t),
            Filled::Part => takes_scalar(alloc, kind, t),
        },
        Outer::Array(_) => Ok(fills_text(kind, t.text)),
        Outer::Struct(_) => match filled {
            Filled::Local => Ok(fits_struct(kind, &t.kind)),
            Filled::Global => Ok(false),
            Filled::Part => Ok(false),
        },
    }
}

fn judge_value(
    alloc: Global,
    filled: Filled,
    place: Place,
    kind: &Type,
    t: &Typed,
) -> Result<(), CheckFault>
    ensures { Judges (spec.value_kinds filled kind.now t.now) place result }
{
    if needs_constant(filled, kind.outer()) && open_constant(t.constant) {
        return refused(place, CheckKind::NotConst);
    }
    if is_no_source(t) {
        return refused(place, CheckKind::NotPlace);
    }
    if !takes(alloc, filled, kind, t)? {
        return refused(place, CheckKind::BadType);
    }
    Ok(())
}

fn judge_one(
    alloc: Global,
    filled: Filled,
    target: Option<&Type>,
    place: Place,
    t: &Typed,
) -> Result<(), CheckFault>
    ensures { Judges (spec.one_kinds filled (option_copied target.entry) (Some t.now)) place result }
{
    match target {
        Some(kind) => judge_value(alloc, filled, place, kind, t),
        None => refused_if(is_no_source(t), place, CheckKind::NotPlace),
    }
}

fn fills_target(target: Option<&Type>, text: Option<usize>) -> bool
    ensures { result ≡ spec.fills_known (option_copied target.entry) text }
{
    match target {
        Some(kind) => fills_text(kind, text),
        None => false,
    }
}

// ---- the words of globals

fn word_of(constant: Constant) -> Option<u64>
    ensures { result ≡ spec.word_of constant }
{
    match constant {
        Constant::Value(word) => Some(word),
        Constant::Stops => None,
        Constant::No => None,
    }
}

/// The word that a global's integer begins with: that of its constant in its own type.
fn first_word(filled: Filled, form: Outer, constant: Constant) -> Option<u64>
    ensures { result ≡ spec.first_word filled form constant }
{
    if needs_constant(filled, form) {
        word_of(cast_constant(form, constant))
    } else {
        None
    }
}

fn one_word(filled: Filled, target: Option<&Type>, t: &Typed) -> Option<u64>
    ensures { result ≡ spec.one_word filled (option_copied target.entry) (Some t.now) }
{
    match target {
        Some(kind) => first_word(filled, kind.outer(), t.constant),
        None => None,
    }
}

/// Notes the word that a global's integer begins with, if it is one.
#[tactic(auto, unfolding(crate::specs::Initialisers::notes_word))]
fn note_word(state: &mut State, word: Option<u64>) -> Result<(), CheckFault>
    ensures { Walks (spec.notes_word word state.old) result state.new }
{
    if let Some(word) = word {
        state.notes.constants.push(word)?;
    }
    Ok(())
}

// ---- a list in braces

fn members_of(structs: &[StructInfo], number: u32) -> usize
    ensures { result ≡ length (spec.struct_members structs.now number) }
{
    match at(structs, number as usize) {
        Some(info) => info.members.len(),
        None => 0,
    }
}

fn member_at(
    alloc: Global,
    structs: &[StructInfo],
    number: u32,
    place: usize,
) -> Result<Option<Type>, OutOfMemory>
    ensures { IfOk result (λ kind. kind ≡ spec.member_at structs.now number place) }
{
    match at(structs, number as usize) {
        Some(info) => member_kind(alloc, info.members.get(place)),
        None => Ok(None),
    }
}

fn element_at(
    alloc: Global,
    kind: &Type,
    count: u64,
    place: usize,
) -> Result<Option<Type>, OutOfMemory>
    ensures { IfOk result (λ element. element ≡ spec.element_at count kind.now place) }
{
    if (place as u64) < count {
        let element = kind.inner(alloc)?;
        Ok(Some(element))
    } else {
        Ok(None)
    }
}

/// The type of the part of a place, where the type has one.
fn part_of(
    alloc: Global,
    structs: &[StructInfo],
    target: Option<&Type>,
    place: usize,
) -> Result<Option<Type>, OutOfMemory>
    ensures { IfOk result (λ kind. kind ≡ spec.part_of structs.now (option_copied target.entry) place) }
{
    let Some(kind) = target else {
        return Ok(None);
    };
    match kind.outer() {
        Outer::Array(count) => element_at(alloc, kind, count, place),
        Outer::Struct(number) => member_at(alloc, structs, number, place),
        Outer::Void => Ok(None),
        Outer::Int(_) => Ok(None),
        Outer::Pointer => Ok(None),
    }
}

/// Whether a type takes no list in braces of so many parts.
fn is_crowded(structs: &[StructInfo], form: Outer, count: usize) -> bool
    ensures { result ≡ spec.is_crowded structs.now form count }
{
    match form {
        Outer::Array(most) => most < count as u64,
        Outer::Struct(number) => members_of(structs, number) < count,
        Outer::Void => true,
        Outer::Int(_) => true,
        Outer::Pointer => true,
    }
}

fn judge_many(
    structs: &[StructInfo],
    target: Option<&Type>,
    place: Place,
    count: usize,
) -> Result<(), CheckFault>
    ensures { Judges (spec.many_kinds structs.now (option_copied target.entry) count) place result }
{
    match target {
        Some(kind) => {
            if is_crowded(structs, kind.outer(), count) {
                return refused(place, CheckKind::BadType);
            }
            Ok(())
        }
        None => Ok(()),
    }
}

fn part(filled: Filled) -> Filled
    ensures { result ≡ spec.part filled }
{
    match filled {
        Filled::Global => Filled::Global,
        Filled::Local => Filled::Part,
        Filled::Part => Filled::Part,
    }
}

// ---- initialisers

/// Keeps the literals before a text that fills an array, of so many bytes, and so many uses.
fn keep_texts(notes: &mut Notes, literals: usize, used: usize, fills: bool)
    ensures { notes.new ≡ spec.kept_texts fills literals used notes.old }
{
    if fills {
        notes.literals.truncate(literals);
        notes.used.truncate(used);
    }
}

/// Reads the expression of an initialiser: a text that fills an array of `char` is no literal.
fn read_filling(
    alloc: Global,
    state: &mut State,
    target: Option<&Type>,
    expr: &Expr,
) -> Result<Typed, CheckFault>
    ensures { ReadsValue ((seen_in state.old expr.now).typed) (spec.filling_walk (option_copied target.entry) expr.now state.old) result state.new }
{
    let literals = state.notes.literals.len();
    let used = state.notes.used.len();
    let t = read_expr(alloc, &state.scope, &mut state.notes, false, expr)?;
    let fills = fills_target(target, t.text);
    keep_texts(&mut state.notes, literals, used, fills);
    Ok(t)
}

/// Reads an initialiser that is an expression.
fn read_one(
    alloc: Global,
    state: &mut State,
    filled: Filled,
    target: Option<&Type>,
    place: Place,
    expr: &Expr,
) -> Result<(), CheckFault>
    ensures { Walks (spec.one filled (option_copied target.entry) place expr.now state.old) result state.new }
{
    let t = read_filling(alloc, state, target, expr)?;
    judge_one(alloc, filled, target, place, &t)?;
    note_word(state, one_word(filled, target, &t))
}

/// Reads an initialiser by what it fills and its type, if it is known.
#[cycle(fill)]
pub fn read_init(
    alloc: Global,
    state: &mut State,
    filled: Filled,
    target: Option<&Type>,
    init: &Init,
) -> Result<(), CheckFault>
    ensures { Walks (spec.fills init.now filled (option_copied target.entry) state.old) result state.new }
{
    match &init.kind {
        InitKind::One(expr) => read_one(alloc, state, filled, target, init.place, expr),
        InitKind::Many(parts) => {
            let all = parts.as_slice();
            read_parts(alloc, state, filled, target, all)?;
            judge_many(
                state.scope.structs.as_slice(),
                target,
                init.place,
                all.len(),
            )
        }
    }
}

#[cycle(fill)]
fn read_parts(
    alloc: Global,
    state: &mut State,
    filled: Filled,
    target: Option<&Type>,
    all: &[Init],
) -> Result<(), CheckFault>
    ensures { Walks (spec.parts filled (option_copied target.entry) 0 (map spec.fills all.now) state.old) result state.new }
{
    'parts: for (place, init) in all.iter().enumerate() {
        let kind = part_of(alloc, state.scope.structs.as_slice(), target, place)?;
        read_init(alloc, state, part(filled), kind.as_ref(), init)?;
    }
    Ok(())
}

/// Reads an initialiser, if there is one.
pub fn read_maybe_init(
    alloc: Global,
    state: &mut State,
    filled: Filled,
    target: &Type,
    init: &Option<Init>,
) -> Result<(), CheckFault>
    ensures { Walks (spec.maybe_fills init.now filled (Some target.now) state.old) result state.new }
{
    match init {
        Some(init) => read_init(alloc, state, filled, Some(target), init),
        None => Ok(()),
    }
}
