//! What is known of names.

ghost use Rattle.std.specs.Prelude.{◌≡◌, IfOk};
ghost use Rattle.std.specs.Str.{bytes_eq};
ghost use Rattle.std.specs.Option.{option_copied};
ghost use Rattle.c_check_rules.specs.Names as spec;

use crate::kinds::Type;
use crate::named::{HasName, NamedItems};
use crate::predeclared::{Bind, Found, predeclared};
use c_tree::Name;
use c_types::Layout;
use mx_base::OutOfMemory;
use sqlite_items::Items;
use std::alloc::Global;

/// A member of a struct.
#[derive(Drop)]
pub struct Member {
    pub name: Name,
    pub kind: Type,
}

impl HasName for Member {
    ghost name_of = { λ x. x.name };

    fn name(&self) -> &[u8] {
        self.name.as_slice()
    }
}

/// A struct by its tag. Its layout, its count of scalars (to 65) and its members are there once it is closed.
#[derive(Drop)]
pub struct StructInfo {
    pub tag: Name,
    pub laid: Option<Layout>,
    pub scalars: u64,
    pub members: NamedItems<Member>,
}

impl HasName for StructInfo {
    ghost name_of = { λ x. x.tag };

    fn name(&self) -> &[u8] {
        self.tag.as_slice()
    }
}

/// A global variable, and whether a declaration that defines it has been seen.
#[derive(Drop)]
pub struct Variable {
    pub name: Name,
    pub kind: Type,
    pub defined: bool,
}

impl HasName for Variable {
    ghost name_of = { λ x. x.name };

    fn name(&self) -> &[u8] {
        self.name.as_slice()
    }
}

/// A function, and whether its body has been seen.
#[derive(Drop)]
pub struct Function {
    pub name: Name,
    pub result: Type,
    pub params: Items<Type>,
    pub defined: bool,
}

impl HasName for Function {
    ghost name_of = { λ x. x.name };

    fn name(&self) -> &[u8] {
        self.name.as_slice()
    }
}

/// A parameter or local by its number in its function.
#[derive(Drop)]
pub struct Local {
    pub name: Name,
    pub kind: Type,
    pub number: u32,
}

impl HasName for Local {
    ghost name_of = { λ x. x.name };

    fn name(&self) -> &[u8] {
        self.name.as_slice()
    }
}

/// What is known at a place of a source: the structs, global variables and functions in the order in which they were first declared, and
/// the locals that are visible, the innermost last.
#[derive(Drop)]
pub struct Scope {
    pub structs: NamedItems<StructInfo>,
    pub variables: NamedItems<Variable>,
    pub functions: NamedItems<Function>,
    pub locals: NamedItems<Local>,
    /// Where the locals of the innermost block begin.
    pub from: usize,
    /// The types of all parameters and locals of the function so far, by their numbers.
    pub made: Items<Type>,
    /// The type of the function's result, where it is known.
    pub result: Option<Type>,
    pub in_loop: bool,
    /// Whether the block that comes is the function's body, whose names stand beside the parameters.
    pub at_body: bool,
}

/// A name once more.
pub fn copy_name(alloc: Global, name: &Name) -> Result<Name, OutOfMemory>
    ensures { IfOk result (λ n. n ≡ name.now) }
{
    let bytes = Vec::from_slice(alloc, name.as_slice())?;
    Ok(Name::from_vec(bytes))
}

/// Types once more.
pub fn copy_types(alloc: Global, all: &[Type]) -> Result<Items<Type>, OutOfMemory>
    ensures { IfOk result (λ copied. copied ≡ all.now) }
{
    let mut copied = Items::new(alloc);
    'all: for kind in all {
        let copy = kind.copy(alloc)?;
        copied.push(copy)?;
    }
    Ok(copied)
}

/// Whether two names are the same.
pub fn same_name(a: &[u8], b: &[u8]) -> bool
    ensures { result ≡ bytes_eq a.now b.now }
{
    a == b
}

/// A place as a number of 32 bits.
fn number_of(at: usize) -> u32
    ensures { result ≡ spec.numbered at }
{
    at.min(0xffff_ffff) as u32
}

impl Scope {
    /// The number of the struct with the tag.
    pub fn tag(&self, name: &[u8]) -> Option<usize>
        ensures { result ≡ spec.tag_at self.now name.now }
    {
        self.structs.find(name)
    }

    /// The number of the global variable of the name.
    pub fn variable(&self, name: &[u8]) -> Option<usize>
        ensures { result ≡ spec.variable_at self.now name.now }
    {
        self.variables.find(name)
    }

    /// The number of the function of the name.
    pub fn function(&self, name: &[u8]) -> Option<usize>
        ensures { result ≡ spec.function_at self.now name.now }
    {
        self.functions.find(name)
    }

    /// Where the innermost visible local of the name stands in `locals`.
    pub fn local(&self, name: &[u8]) -> Option<usize>
        ensures { result ≡ spec.local_at self.now name.now }
    {
        self.locals.find(name)
    }

    /// What a name stands for.
    #[tactic(auto, unfolding(crate::specs::Names::found_in))]
    pub fn find(&self, alloc: Global, name: &[u8]) -> Result<Found, OutOfMemory>
        ensures { IfOk result (λ found. found ≡ spec.found_in self.now name.now) }
    {
        if let Some(at) = self.local(name) {
            return local_found(alloc, self.locals.get(at));
        }
        if let Some(at) = self.variable(name) {
            return variable_found(alloc, at, self.variables.get(at));
        }
        if let Some(at) = self.function(name) {
            return function_found(alloc, at, self.functions.get(at));
        }
        predeclared(alloc, name)
    }
}

fn local_found(alloc: Global, local: Option<&Local>) -> Result<Found, OutOfMemory>
    ensures { IfOk result (λ found. found ≡ spec.local_found (option_copied local.entry)) }
{
    match local {
        Some(local) => {
            let kind = local.kind.copy(alloc)?;
            Ok(Found::Variable(Bind::Local(local.number), kind))
        }
        None => Ok(Found::Missing),
    }
}

fn variable_found(
    alloc: Global,
    at: usize,
    variable: Option<&Variable>,
) -> Result<Found, OutOfMemory>
    ensures { IfOk result (λ found. found ≡ spec.variable_found at (option_copied variable.entry)) }
{
    match variable {
        Some(variable) => {
            let kind = variable.kind.copy(alloc)?;
            Ok(Found::Variable(Bind::Global(number_of(at)), kind))
        }
        None => Ok(Found::Missing),
    }
}

fn function_found(
    alloc: Global,
    at: usize,
    function: Option<&Function>,
) -> Result<Found, OutOfMemory>
    ensures { IfOk result (λ found. found ≡ spec.function_found at (option_copied function.entry)) }
{
    match function {
        Some(function) => {
            let result_kind = function.result.copy(alloc)?;
            let params = copy_types(alloc, function.params.as_slice())?;
            Ok(Found::Callable(Bind::Fun(number_of(at)), result_kind, params))
        }
        None => Ok(Found::Missing),
    }
}

/// The type of the member of the name.
pub fn member_named(
    alloc: Global,
    members: &NamedItems<Member>,
    name: &[u8],
) -> Result<Option<Type>, OutOfMemory>
    ensures { IfOk result (λ t. t ≡ spec.member_named members.now name.now) }
{
    match members.find(name) {
        Some(place) => member_kind(alloc, members.get(place)),
        None => Ok(None),
    }
}

pub fn member_kind(alloc: Global, member: Option<&Member>) -> Result<Option<Type>, OutOfMemory>
    ensures { IfOk result (λ t. t ≡ spec.member_kind (option_copied member.entry)) }
{
    match member {
        Some(member) => {
            let kind = member.kind.copy(alloc)?;
            Ok(Some(kind))
        }
        None => Ok(None),
    }
}
