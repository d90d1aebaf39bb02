//! The table of types.

ghost use Rattle.std.specs.Prelude.{◌≡◌, ℕ, ◌+◌, ◌^◌, ◌<◌, ◌≤◌, true, false, ◌∷◌, [], ◌++◌, IfOk, OnOk, OnErr, IfSome, IfNone, All, map, length, slice_get, Some};
ghost use Rattle.c_types.specs.declared.shape.TypeId.{TypeId as Numbered};
ghost use Rattle.c_types.specs.Types.{Struct, no_types, IsOpen, AllDiffer, IsNew, structs_of, type_at, built, is_ended, members_of, members_at, IsIn, HasSize};
ghost use Rattle.c_types.specs.Layouts.{CanBuild, CanStand, Extends, layout_at, layout_of, layout_of_struct, size_of, member_layout, member_layouts, align_of, offset_of, offsets_from, struct_layout};
ghost use Rattle.c_types.specs.Sound.{kept_of};

use crate::layout::{Layout, StructLayout, bytes_of, round_up, scalar_layout, unsized_layout};
use crate::shape::{Shape, TypeId};
use indexmap::IndexMap;
use mx_base::OutOfMemory;
use std::alloc::Global;
use std::marker::Model;

/// A struct that was given its members.
#[derive(Drop)]
struct Ended {
    number: u32,
    members: Vec<TypeId>,
}

impl Model for Ended {
    ghost use Rattle.c_types.specs.Types.{Ended as Given};

    ghost Value = { Given };

    ghost view = { λ e. record { number = e.number; members = e.members.items } };
}

/// The types of a program by their numbers. It is seen as the list of their shapes, none twice, the count of structs that were
/// begun, and those that were given their members.
#[derive(Drop)]
pub struct TypeTable {
    alloc: Global,
    shapes: IndexMap<Shape, Layout>,
    structs: Vec<Option<StructLayout>>,
    ended: Vec<Ended>,
}

impl Model for TypeTable {
    ghost use Rattle.std.specs.Map.{values_of};
    ghost use Rattle.c_types.specs.Types.{Types};
    ghost use Rattle.c_types.specs.Sound.{table_of, IsSound};

    ghost Value = { Types };

    ghost view = { λ t. table_of t.shapes.entries t.structs.items t.ended.items };

    ghost invariant = { λ t. IsSound (table_of t.shapes.entries t.structs.items t.ended.items) (values_of t.shapes.entries) t.structs.items };
}

impl TypeTable {
    /// A table without types. It takes no memory yet.
    pub fn make(alloc: Global) -> Result<TypeTable, OutOfMemory>
        ensures { IfOk result (λ table. table ≡ no_types) }
    {
        Ok(TypeTable {
            alloc,
            shapes: IndexMap::new(alloc),
            structs: Vec::new(alloc),
            ended: Vec::new(alloc),
        })
    }

    /// The shape of a type.
    pub fn shape(&self, t: TypeId) -> Shape
        requires { IsIn self.now t }
        ensures shape { slice_get self.now.shapes t.0 ≡ Some result }
        ensures means { type_at self.now t ≡ built (type_at self.now) result }
        ensures within_limits { CanBuild self.now result }
        ensures once { AllDiffer self.now.shapes }
    {
        let (shape, _kept) = self.shapes.get_index(t.0 as usize).unwrap();
        *shape
    }

    /// Begins a struct, which has no members yet, and answers its number. For want of memory nothing changes.
    pub fn begin_struct(&mut self) -> Result<u32, OutOfMemory>
        requires { self.old.begun < 4294967295 }
        ensures number { IfOk result (λ number. number ≡ self.old.begun) }
        ensures begun { OnOk result (self.new ≡ record self.old { begun = self.old.begun + 1 }) }
        ensures unfinished { IfOk result (λ number. IsOpen self.new number) }
        ensures err { OnErr result (self.new ≡ self.old) }
        ensures extends { Extends self.old self.new }
    {
        let number = self.structs.len() as u32;
        self.structs.push(None)?;
        Ok(number)
    }

    /// Gives a struct that was begun its members. For want of memory nothing changes.
    pub fn end_struct(&mut self, s: u32, members: &[TypeId]) -> Result<(), OutOfMemory>
        requires unfinished { IsOpen self.old s }
        requires members { All (CanStand self.old) members.now }
        requires some { 1 ≤ length members.now }
        requires few { length members.now ≤ 32768 }
        ensures ended { OnOk result (self.new ≡ record self.old { ended = record { number = s; members = members.now } ∷ self.old.ended }) }
        ensures sized { OnOk result ((t : Numbered) → type_at self.new t ≡ Struct s → HasSize self.new t) }
        ensures members { OnOk result ((t : Numbered) → type_at self.new t ≡ Struct s → members_at self.new t ≡ map (type_at self.new) members.now) }
        ensures err { OnErr result (self.new ≡ self.old) }
        ensures extends { Extends self.old self.new }
    {
        let laid = self.lay_out(members)?;
        let members = Vec::from_slice(self.alloc, members)?;
        self.ended.push(Ended { number: s, members })?;
        self.structs[s as usize] = Some(laid);
        Ok(())
    }

    /// The number of the type of a shape: the one that it has, or the next. For want of memory nothing changes.
    pub fn intern(&mut self, s: Shape) -> Result<TypeId, OutOfMemory>
        requires room { length self.old.shapes < 4294967295 }
        requires built { CanBuild self.old s }
        ensures found { IfOk result (λ t. slice_get self.new.shapes t.0 ≡ Some s) }
        ensures known { IfOk result (λ t. IsIn self.old t → self.new ≡ self.old) }
        ensures added { IfOk result (λ t. length self.old.shapes ≤ t.0 → self.new ≡ record self.old { shapes = self.old.shapes ++ s ∷ [] }) }
        ensures once { OnOk result (AllDiffer self.new.shapes) }
        ensures means { IfOk result (λ t. type_at self.new t ≡ built (type_at self.new) s) }
        ensures more { length self.new.shapes ≤ length self.old.shapes + 1 }
        ensures structs { (self.new.begun ≡ self.old.begun) × (self.new.ended ≡ self.old.ended) }
        ensures err { OnErr result (self.new ≡ self.old) }
        ensures extends { Extends self.old self.new }
    {
        match self.known(s) {
            Some(t) => Ok(t),
            None => self.add(s),
        }
    }

    /// The type that has the shape, if one does.
    fn known(&self, s: Shape) -> Option<TypeId>
        requires { length self.now.shapes < 4294967295 }
        ensures found { IfSome result (λ t. slice_get self.now.shapes t.0 ≡ Some s) }
        ensures means { IfSome result (λ t. type_at self.now t ≡ built (type_at self.now) s) }
        ensures absent { IfNone result (IsNew self.now.shapes s) }
        ensures once { AllDiffer self.now.shapes }
        ensures itself { Extends self.now self.now }
    {
        match self.shapes.get_index_of(&s) {
            Some(place) => Some(TypeId(place as u32)),
            None => None,
        }
    }

    /// Adds a type of a shape that no type has.
    fn add(&mut self, s: Shape) -> Result<TypeId, OutOfMemory>
        requires room { length self.old.shapes < 4294967295 }
        requires built { CanBuild self.old s }
        requires absent { IsNew self.old.shapes s }
        ensures next { IfOk result (λ t. t.0 ≡ length self.old.shapes) }
        ensures added { OnOk result (self.new ≡ record self.old { shapes = self.old.shapes ++ s ∷ [] }) }
        ensures once { OnOk result (AllDiffer self.new.shapes) }
        ensures means { IfOk result (λ t. type_at self.new t ≡ built (type_at self.new) s) }
        ensures err { OnErr result (self.new ≡ self.old) }
        ensures extends { Extends self.old self.new }
    {
        let kept = self.kept_for(s);
        let next = self.shapes.len() as u32;
        self.shapes.insert(s, kept)?;
        Ok(TypeId(next))
    }

    /// The size of a type in bytes.
    pub fn size(&self, t: TypeId) -> u64
        requires inside { IsIn self.now t }
        requires sized { HasSize self.now t }
        ensures { result ≡ size_of self.now t }
    {
        self.layout(t).size
    }

    /// The alignment of a type in bytes.
    pub fn align(&self, t: TypeId) -> u64
        requires inside { IsIn self.now t }
        requires sized { HasSize self.now t }
        ensures { result ≡ align_of self.now t }
    {
        self.layout(t).align
    }

    /// Where a member of a struct stands, in bytes from the struct's start.
    pub fn offset(&self, t: TypeId, member: u32) -> u64
        requires inside { IsIn self.now t }
        requires member { member < length (members_at self.now t) }
        ensures { result ≡ offset_of self.now t member }
    {
        match self.shape(t) {
            Shape::Struct(number) => self.laid(number).offsets[member as usize],
            _ => unreachable!(),
        }
    }

    /// Law of every table: a struct is laid out by the layouts of its members, which all lie within its size.
    pub fn structs_hold_their_members(&self)
        ensures by_members { (t : Numbered) (number : ℕ) → IsIn self.now t → type_at self.now t ≡ Struct number → HasSize self.now t → layout_at self.now t ≡ struct_layout (member_layouts self.now t) }
        ensures within { (t : Numbered) (member : ℕ) → IsIn self.now t → member < length (members_at self.now t) → offset_of self.now t member + (member_layout self.now t member).size ≤ size_of self.now t }
    {
        let _invariant = &self.shapes;
    }

    /// Law of every table: two numbers are one where their types are the same.
    pub fn same_types_have_one_number(&self)
        ensures { (a b : Numbered) → IsIn self.now a → IsIn self.now b → type_at self.now a ≡ type_at self.now b → a ≡ b }
    {
        let _invariant = &self.shapes;
    }

    fn layout(&self, t: TypeId) -> Layout
        requires inside { IsIn self.now t }
        requires sized { HasSize self.now t }
        ensures { result ≡ layout_at self.now t }
    {
        match self.shape(t) {
            Shape::Struct(number) => self.laid(number).layout,
            _ => self.kept(t),
        }
    }

    /// What is kept with a type.
    fn kept(&self, t: TypeId) -> Layout
        requires { IsIn self.now t }
        ensures { result ≡ kept_of (structs_of self.now) (type_at self.now t) }
    {
        let (_shape, kept) = self.shapes.get_index(t.0 as usize).unwrap();
        *kept
    }

    /// What is kept of a struct that has its members.
    fn laid(&self, number: u32) -> &StructLayout
        requires begun { number < self.now.begun }
        requires ended { is_ended (structs_of self.now) number ≡ true }
        ensures layout { result.now.layout ≡ layout_of_struct (structs_of self.now) number }
        ensures offsets { result.now.offsets.items ≡ offsets_from 0 (map (layout_of (structs_of self.now)) (members_of (structs_of self.now) number)) }
    {
        match &self.structs[number as usize] {
            Some(laid) => laid,
            None => unreachable!(),
        }
    }

    /// What is to be kept with a type of the shape.
    fn kept_for(&self, s: Shape) -> Layout
        requires { CanBuild self.now s }
        ensures { result ≡ kept_of (structs_of self.now) (built (type_at self.now) s) }
    {
        match s {
            Shape::Void | Shape::Struct(_) => unsized_layout(),
            Shape::Int(kind) => scalar_layout(bytes_of(kind)),
            Shape::Pointer(_) => scalar_layout(8),
            Shape::Array(element, count) => {
                let layout = self.layout(element);
                Layout {
                    size: layout.size * count,
                    align: layout.align,
                }
            }
        }
    }

    /// The layout of a struct with these members, and where they stand.
    fn lay_out(&self, members: &[TypeId]) -> Result<StructLayout, OutOfMemory>
        requires members { All (CanStand self.now) members.now }
        requires few { length members.now ≤ 32768 }
        ensures layout { IfOk result (λ laid. laid.layout ≡ struct_layout (map (layout_at self.now) members.now)) }
        ensures offsets { IfOk result (λ laid. laid.offsets.items ≡ offsets_from 0 (map (layout_at self.now) members.now)) }
    {
        let mut offsets = Vec::with_capacity(self.alloc, members.len())?;
        let mut end = 0u64;
        let mut align = 1u64;
        for member in members {
            let layout = self.layout(*member);
            let offset = round_up(end, layout.align);
            offsets.push(offset)?;
            end = offset + layout.size;
            align = align.max(layout.align);
        }
        let size = round_up(end, align);
        Ok(StructLayout {
            layout: Layout { size, align },
            offsets,
        })
    }
}
