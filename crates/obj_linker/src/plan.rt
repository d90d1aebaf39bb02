//! Where everything stands.

ghost use Rattle.std.specs.Prelude.{◌≡◌};

use crate::names::Names;
use crate::parts::{Ends, Spot};
use std::marker::Model;

/// The addresses of objects' parts, in order of the objects.
#[derive(Drop)]
pub struct Spots {
    items: Vec<Spot>,
}

impl Model for Spots {
    ghost use Rattle.std.specs.Prelude.{List};
    ghost use Rattle.obj_linker.specs.declared.parts.Spot.{Spot};

    ghost Value = { List Spot };

    ghost view = { λ held. held.items.items };
}

/// What names mean, and where parts and stubs stand.
#[derive(Drop)]
pub struct Plan {
    /// The definition of each name.
    pub definitions: Names,
    /// The C functions, in order of their numbers.
    pub functions: Names,
    /// The legacy functions that C calls, in order of their first calls, each with the symbol by which it is called there.
    pub stubs: Names,
    pub spots: Spots,
    /// The address of the first stub.
    pub stubs_at: u64,
}

impl Spots {
    pub fn from_vec(items: Vec<Spot>) -> Spots
        ensures { result ≡ items.items }
    {
        Spots { items }
    }

    pub fn as_slice(&self) -> &[Spot]
        ensures { result.now ≡ self.now }
    {
        self.items.as_slice()
    }
}

/// The addresses of all parts, and those after the last ones.
#[derive(Drop)]
pub struct Places {
    pub spots: Spots,
    pub ends: Ends,
}

/// A plan, and the addresses after the last parts.
#[derive(Drop)]
pub struct Planned {
    pub plan: Plan,
    pub ends: Ends,
}
