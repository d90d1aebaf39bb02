//! Types as values.

ghost use Rattle.std.specs.Prelude.{◌≡◌, IfOk};
ghost use Rattle.c_types.specs.Types.{Void, Int, Pointer, Array, Struct};
ghost use Rattle.c_check_rules.specs.Kinds.{shaped, core_kind, core_of, layered, outer_of, inner_of, same_kinds, same_layer};

use mx_base::{IntKind, OutOfMemory};
use sqlite_items::Items;
use std::alloc::Global;
use std::marker::Model;

/// What a type is without its pointers and arrays.
#[derive(Clone, Copy, Debug)]
pub enum Core {
    Void,
    Int(IntKind),
    /// A struct by its number: structs are numbered from 0 in the order in which they are opened.
    Struct(u32),
}

/// A pointer to, or an array of so many of, what follows.
#[derive(Clone, Copy, Debug)]
pub enum Layer {
    Pointer,
    Array(u64),
}

/// The outermost form of a type.
#[derive(Clone, Copy, Debug)]
pub enum Outer {
    Void,
    Int(IntKind),
    Pointer,
    Array(u64),
    Struct(u32),
}

/// A type: pointers and arrays, the outermost first, around a core. It is seen as the type.
#[derive(Drop)]
pub struct Type {
    core: Core,
    layers: Items<Layer>,
}

impl Model for Type {
    ghost use Rattle.c_types.specs.Types.{CType};
    ghost use Rattle.c_check_rules.specs.Kinds.{shaped};
    ghost use Rattle.c_check_rules.specs.Codes.{type_code};

    ghost Value = { CType };

    ghost coded = { type_code };

    ghost view = { λ t. shaped t.core t.layers };
}

impl Type {
    /// A type without pointers and arrays. It takes no memory.
    pub fn of_core(alloc: Global, core: Core) -> Type
        ensures { result ≡ core_kind core }
    {
        Type {
            core,
            layers: Items::new(alloc),
        }
    }

    /// An integer type. It takes no memory.
    pub fn int(alloc: Global, kind: IntKind) -> Type
        ensures { result ≡ Int kind }
    {
        Type::of_core(alloc, Core::Int(kind))
    }

    /// The type `void`. It takes no memory.
    pub fn void(alloc: Global) -> Type
        ensures { result ≡ Void }
    {
        Type::of_core(alloc, Core::Void)
    }

    /// The type `void *`.
    pub fn void_pointer(alloc: Global) -> Result<Type, OutOfMemory>
        ensures { IfOk result (λ t. t ≡ Pointer Void) }
    {
        let void = Type::void(alloc);
        void.pointer_to(alloc)
    }

    /// The same type once more.
    pub fn copy(&self, alloc: Global) -> Result<Type, OutOfMemory>
        ensures { IfOk result (λ t. t ≡ self.now) }
    {
        let layers = Items::from_slice(alloc, self.layers.as_slice())?;
        Ok(Type {
            core: self.core,
            layers,
        })
    }

    /// The type with one more layer around it.
    fn within(&self, alloc: Global, layer: Layer) -> Result<Type, OutOfMemory>
        ensures { IfOk result (λ t. t ≡ layered layer self.now) }
    {
        let mut layers = Items::new(alloc);
        layers.push(layer)?;
        let more = Items::from_slice(alloc, self.layers.as_slice())?;
        layers.append(more)?;
        Ok(Type {
            core: self.core,
            layers,
        })
    }

    /// The type of pointers to it.
    pub fn pointer_to(&self, alloc: Global) -> Result<Type, OutOfMemory>
        ensures { IfOk result (λ t. t ≡ Pointer self.now) }
    {
        self.within(alloc, Layer::Pointer)
    }

    /// The type of arrays of so many.
    pub fn array_of(&self, alloc: Global, count: u64) -> Result<Type, OutOfMemory>
        ensures { IfOk result (λ t. t ≡ Array self.now count) }
    {
        self.within(alloc, Layer::Array(count))
    }

    /// What a pointer points to, or an array has as elements. Any other type is its own.
    pub fn inner(&self, alloc: Global) -> Result<Type, OutOfMemory>
        ensures { IfOk result (λ t. t ≡ inner_of self.now) }
    {
        match self.layers.as_slice() {
            [] => self.copy(alloc),
            [Layer::Pointer, rest @ ..] => made_of(alloc, self.core, rest),
            [Layer::Array(_), rest @ ..] => made_of(alloc, self.core, rest),
        }
    }

    /// The outermost form of what a pointer points to, or an array has as elements.
    pub fn inner_outer(&self) -> Outer
        ensures { result ≡ outer_of (inner_of self.now) }
    {
        match self.layers.as_slice() {
            [] => outer_of_core(self.core),
            [Layer::Pointer, rest @ ..] => outer_of_parts(self.core, rest),
            [Layer::Array(_), rest @ ..] => outer_of_parts(self.core, rest),
        }
    }

    /// The outermost form.
    pub fn outer(&self) -> Outer
        ensures { result ≡ outer_of self.now }
    {
        outer_of_parts(self.core, self.layers.as_slice())
    }

    /// The core of the type.
    #[tactic(auto, using(crate::proofs::Shapes::core_shaped))]
    pub fn core(&self) -> Core
        ensures { result ≡ core_of self.now }
    {
        self.core
    }

    /// The pointers and arrays of the type, the outermost first.
    #[tactic(auto, using(crate::proofs::Shapes::core_shaped))]
    pub fn layers(&self) -> &[Layer]
        ensures { self.now ≡ shaped (core_of self.now) result.now }
    {
        self.layers.as_slice()
    }
}

fn made_of(alloc: Global, core: Core, layers: &[Layer]) -> Result<Type, OutOfMemory>
    ensures { IfOk result (λ t. t ≡ shaped core layers.now) }
{
    let layers = Items::from_slice(alloc, layers)?;
    Ok(Type { core, layers })
}

fn outer_of_parts(core: Core, layers: &[Layer]) -> Outer
    ensures { result ≡ outer_of (shaped core layers.now) }
{
    match layers {
        [] => outer_of_core(core),
        [Layer::Pointer, ..] => Outer::Pointer,
        [Layer::Array(count), ..] => Outer::Array(*count),
    }
}

fn outer_of_core(core: Core) -> Outer
    ensures { result ≡ outer_of (core_kind core) }
{
    match core {
        Core::Void => Outer::Void,
        Core::Int(kind) => Outer::Int(kind),
        Core::Struct(number) => Outer::Struct(number),
    }
}

fn same_cores(a: Core, b: Core) -> bool
    ensures { result ≡ same_kinds (core_kind a) (core_kind b) }
{
    match a {
        Core::Void => match b {
            Core::Void => true,
            Core::Int(_) => false,
            Core::Struct(_) => false,
        },
        Core::Int(k) => match b {
            Core::Int(l) => k == l,
            Core::Void => false,
            Core::Struct(_) => false,
        },
        Core::Struct(n) => match b {
            Core::Struct(m) => n == m,
            Core::Void => false,
            Core::Int(_) => false,
        },
    }
}

fn same_layers(a: Layer, b: Layer) -> bool
    ensures { result ≡ same_layer a b }
{
    match a {
        Layer::Pointer => match b {
            Layer::Pointer => true,
            Layer::Array(_) => false,
        },
        Layer::Array(n) => match b {
            Layer::Array(m) => n == m,
            Layer::Pointer => false,
        },
    }
}

/// Whether two types are the same.
#[tactic(auto, using(crate::proofs::Shapes::same_layered, crate::proofs::Shapes::same_lengths))]
pub fn same(a: &Type, b: &Type) -> bool
    ensures { result ≡ same_kinds a.now b.now }
{
    let left = a.layers();
    let right = b.layers();
    if left.len() != right.len() {
        return false;
    }
    'layers: for i in 0..left.len() {
        if !same_layers(left[i], right[i]) {
            return false;
        }
    }
    same_cores(a.core(), b.core())
}
