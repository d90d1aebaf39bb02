//! The symbols of a source.

ghost use Rattle.std.specs.Prelude.{◌≡◌, ◌++◌, ℕ, IfOk, [], ◌∷◌, map, take};
ghost use Rattle.c_check_statements.specs.Placing as placing;
ghost use Rattle.c_check_rules.specs.Sizes as sizes;
ghost use Rattle.c_check.specs.declared.symbols.Subject.TheVariants as named;
ghost use Rattle.c_check.specs.Symbols as spec;

use c_check_rules::{Bind, Function, Outer, StructInfo, Type, Variable, size_in};
use c_check_statements::{Body, State};
use c_tree::Bytes;
use mx_base::{IntKind, OutOfMemory};
use sqlite_items::Items;
use std::alloc::Global;

/// What a symbol names: a global or a function by its number in the source, each counted by first declarations from 0, or the source's text
/// literals.
#[derive(Clone, Copy, Debug, PartialEq, Eq)]
pub enum Subject {
    Global(u32),
    Function(u32),
    Literals,
}

/// Whether the source defines what a symbol names, or takes it from elsewhere.
#[derive(Clone, Copy, Debug, PartialEq, Eq)]
pub enum SymbolKind {
    Defined,
    Imported,
}

/// A symbol: what it names, and the bytes of its name and of its signature, which is `d` and a size, or `f` with a letter for the result and, between
/// `(` and `)`, one for each parameter.
#[derive(Drop)]
pub struct Symbol {
    pub subject: Subject,
    pub kind: SymbolKind,
    pub name: Bytes,
    pub signature: Bytes,
}

// ---- what has a symbol

fn is_bound(subject: Subject, bind: Bind) -> bool
    ensures { result ≡ spec.is_bound subject bind }
{
    match (subject, bind) {
        (Subject::Global(n), Bind::Global(m)) => m == n,
        (Subject::Function(n), Bind::Fun(m)) => m == n,
        _ => false,
    }
}

/// Whether a name that is used is bound to it.
fn is_used(used: &[Bind], subject: Subject) -> bool
    ensures { result ≡ spec.is_used used.now subject }
{
    'used: for bind in used {
        if is_bound(subject, *bind) {
            return true;
        }
    }
    false
}

fn is_defined(state: &State, subject: Subject) -> bool
    ensures { result ≡ spec.is_defined state.now subject }
{
    match subject {
        Subject::Global(n) => match state.scope.variables.get(n as usize) {
            Some(variable) => variable.defined,
            None => false,
        },
        Subject::Function(n) => match state.scope.functions.get(n as usize) {
            Some(function) => function.defined,
            None => false,
        },
        Subject::Literals => true,
    }
}

/// What is defined, or used in an expression outside of `sizeof`.
fn has_symbol(state: &State, subject: Subject) -> bool
    ensures { result ≡ spec.has_symbol state.now subject }
{
    is_defined(state, subject) || is_used(state.notes.used.as_slice(), subject)
}

fn subject_of(bind: Bind) -> Option<Subject>
    ensures { result ≡ spec.subject_of bind }
{
    match bind {
        Bind::Global(n) => Some(Subject::Global(n)),
        Bind::Fun(n) => Some(Subject::Function(n)),
        Bind::Local(_) | Bind::Service(_) | Bind::Builtin(_) => None,
    }
}

/// What a name declares, if that has a symbol.
fn if_symbol(state: &State, bind: Bind) -> Option<Subject>
    ensures { result ≡ spec.if_symbol state.now (spec.subject_of bind) }
{
    let subject = subject_of(bind)?;
    if has_symbol(state, subject) {
        Some(subject)
    } else {
        None
    }
}

/// What the symbols of a source name, in their order.
fn subjects(alloc: Global, state: &State) -> Result<Items<Subject>, OutOfMemory>
    ensures { IfOk result (λ all. all ≡ spec.subjects_by state.now) }
{
    let mut all = Items::new(alloc);
    'order: for bind in state.order.as_slice() {
        if let Some(subject) = if_symbol(state, *bind) {
            all.push(subject)?;
        }
    }
    match state.notes.literals.as_slice() {
        [] => Ok(all),
        [_, ..] => {
            all.push(Subject::Literals)?;
            Ok(all)
        }
    }
}

// ---- signatures

fn integer_letter(kind: IntKind) -> u8
    ensures { result ≡ spec.integer_letter kind }
{
    match kind {
        IntKind::I8 => b'c',
        IntKind::U8 => b'C',
        IntKind::I16 => b'h',
        IntKind::U16 => b'H',
        IntKind::I32 => b'i',
        IntKind::U32 => b'I',
        IntKind::I64 => b'l',
        IntKind::U64 => b'L',
    }
}

fn letter(kind: &Type) -> u8
    ensures { result ≡ spec.letter kind.now }
{
    match kind.outer() {
        Outer::Int(kind) => integer_letter(kind),
        Outer::Pointer => b'p',
        Outer::Void | Outer::Array(_) | Outer::Struct(_) => b'v',
    }
}

fn function_signature(alloc: Global, function: &Function) -> Result<Vec<u8>, OutOfMemory>
    ensures { IfOk result (λ bytes. bytes.items ≡ 102 ∷ spec.letter function.now.result ∷ 40 ∷ (map spec.letter function.now.params ++ 41 ∷ [])) }
{
    let mut bytes = vec![in alloc; b'f', letter(&function.result), b'(']?;
    'params: for param in function.params.as_slice() {
        bytes.push(letter(param))?;
    }
    bytes.push(b')')?;
    Ok(bytes)
}

fn data_signature(alloc: Global, size: u64) -> Result<Vec<u8>, OutOfMemory>
    ensures { IfOk result (λ bytes. bytes.items ≡ spec.data_signature size) }
{
    let text = format!(in alloc; "d{size}")?;
    Ok(Vec::from_slice(alloc, text.as_bytes())?)
}

fn variable_signature(
    alloc: Global,
    structs: &[StructInfo],
    variable: &Variable,
) -> Result<Vec<u8>, OutOfMemory>
    ensures { IfOk result (λ bytes. bytes.items ≡ spec.data_signature (placing.or_nothing (sizes.size_in structs.now variable.now.kind))) }
{
    match size_in(structs, &variable.kind) {
        Some(size) => data_signature(alloc, size),
        None => data_signature(alloc, 0),
    }
}

fn signature_of(alloc: Global, state: &State, subject: Subject) -> Result<Vec<u8>, OutOfMemory>
    ensures { IfOk result (λ bytes. bytes.items ≡ spec.signature_of state.now subject) }
{
    match subject {
        Subject::Global(n) => match state.scope.variables.get(n as usize) {
            Some(variable) => variable_signature(alloc, state.scope.structs.as_slice(), variable),
            None => Ok(Vec::new(alloc)),
        },
        Subject::Function(n) => match state.scope.functions.get(n as usize) {
            Some(function) => function_signature(alloc, function),
            None => Ok(Vec::new(alloc)),
        },
        Subject::Literals => data_signature(alloc, state.notes.literals.len() as u64),
    }
}

// ---- names

/// The name of the first function with a body, which is empty where there is none.
fn first_body<'a>(functions: &'a [Function], bodies: &[Body]) -> &'a [u8]
    ensures { result.now ≡ spec.first_body functions.now bodies.now }
{
    match bodies {
        [] => &[],
        [body, ..] => match functions.get(body.number as usize) {
            Some(function) => function.name.as_slice(),
            None => &[],
        },
    }
}

/// So many bytes from the front, or all where there are no more.
fn front(bytes: &[u8], count: usize) -> &[u8]
    ensures { result.now ≡ take count bytes.now }
{
    if count < bytes.len() {
        &bytes[..count]
    } else {
        bytes
    }
}

fn literals_name(alloc: Global, state: &State) -> Result<Vec<u8>, OutOfMemory>
    ensures { IfOk result (λ bytes. bytes.items ≡ spec.name_of state.now named.Literals) }
{
    let first = first_body(state.scope.functions.as_slice(), state.bodies.as_slice());
    let mut name = Vec::from_slice(alloc, b"__text_")?;
    name.extend_from_slice(front(first, 56))?;
    Ok(name)
}

fn name_of(alloc: Global, state: &State, subject: Subject) -> Result<Vec<u8>, OutOfMemory>
    ensures { IfOk result (λ bytes. bytes.items ≡ spec.name_of state.now subject) }
{
    match subject {
        Subject::Global(n) => match state.scope.variables.get(n as usize) {
            Some(variable) => Ok(Vec::from_slice(alloc, variable.name.as_slice())?),
            None => Ok(Vec::new(alloc)),
        },
        Subject::Function(n) => match state.scope.functions.get(n as usize) {
            Some(function) => Ok(Vec::from_slice(alloc, function.name.as_slice())?),
            None => Ok(Vec::new(alloc)),
        },
        Subject::Literals => literals_name(alloc, state),
    }
}

// ---- symbols

fn symbol_of(alloc: Global, state: &State, subject: Subject) -> Result<Symbol, OutOfMemory>
    ensures { IfOk result (λ symbol. symbol ≡ spec.symbol_of state.now subject) }
{
    let kind = if is_defined(state, subject) {
        SymbolKind::Defined
    } else {
        SymbolKind::Imported
    };
    let name = Bytes::from_vec(name_of(alloc, state, subject)?);
    let signature = Bytes::from_vec(signature_of(alloc, state, subject)?);
    Ok(Symbol {
        subject,
        kind,
        name,
        signature,
    })
}

/// The symbols of a source by what is known of it: its declared globals and functions in the order of their first declarations, without those that
/// it neither defines nor uses outside `sizeof`, and then its text literals, if there are any. The number of a symbol is its place in the list.
pub fn source_symbols(alloc: Global, state: &State) -> Result<Items<Symbol>, OutOfMemory>
    ensures { IfOk result (λ all. all ≡ spec.symbols_by state.now) }
{
    let subjects = subjects(alloc, state)?;
    let mut all = Items::new(alloc);
    'subjects: for subject in subjects.as_slice() {
        let symbol = symbol_of(alloc, state, *subject)?;
        all.push(symbol)?;
    }
    Ok(all)
}
