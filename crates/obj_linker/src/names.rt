//! Names, each with a symbol.

ghost use Rattle.std.specs.Prelude.{◌≡◌, ◌<◌, [], length, OnOk, slice_get, Some};
ghost use Rattle.std.specs.Option.{option_map};
ghost use Rattle.obj_linker.specs.Symbols.{find, place_of, add_if_new, ids};

use crate::parts::SymbolId;
use indexmap::IndexMap;
use mx_base::OutOfMemory;
use std::alloc::Global;
use std::marker::Model;

/// Names in order of their first appearance, each with the symbol that it had there.
#[derive(Drop)]
pub struct Names {
    alloc: Global,
    map: IndexMap<Vec<u8>, SymbolId>,
}

impl Model for Names {
    ghost use Rattle.obj_linker.specs.Symbols.{Named, named_of};

    ghost Value = { Named };

    ghost view = { λ held. named_of held.map.entries };
}

impl Names {
    /// No names. It takes no memory.
    pub fn new(alloc: Global) -> Names
        ensures { result ≡ [] }
    {
        Names {
            alloc,
            map: IndexMap::new(alloc),
        }
    }

    pub fn len(&self) -> usize
        ensures { result ≡ length self.now }
    {
        self.map.len()
    }

    /// The symbol of a name.
    pub fn find(&self, name: &[u8]) -> Option<SymbolId>
        ensures { result ≡ find name.now self.now }
    {
        self.map.get(name).copied()
    }

    /// The place of a name, from 0; 0 where it is not there.
    pub fn place(&self, name: &[u8]) -> usize
        ensures { result ≡ place_of name.now self.now }
    {
        self.map.get_index_of(name).unwrap_or(0)
    }

    /// The symbol at a place.
    pub fn id(&self, place: usize) -> SymbolId
        requires { place < length self.now }
        ensures { slice_get (ids self.now) place ≡ Some result }
    {
        let (_, id) = self.map.get_index(place).unwrap();
        *id
    }

    /// One name more, at the end, unless it is there.
    pub fn add(&mut self, name: &[u8], id: SymbolId) -> Result<(), OutOfMemory>
        ensures { OnOk result (self.new ≡ add_if_new (find name.now self.old) name.now id self.old) }
    {
        if self.find(name).is_some() {
            return Ok(());
        }
        let key = Vec::from_slice(self.alloc, name)?;
        self.map.insert(key, id)?;
        Ok(())
    }
}
