//! Lists whose items are found by their names.

ghost use Rattle.std.specs.Prelude.{◌≡◌, ◌<◌, ℕ, List, [], ◌∷◌, ◌++◌, None, Some, map, length, slice_get, slice_set, MatchOption, OnOk, OnErr, OnSome};
ghost use Rattle.std.specs.Option.{option_copied};
ghost use Rattle.c_check_rules.specs.Named.{last_at};

use indexmap::IndexMap;
use mx_base::OutOfMemory;
use std::alloc::Global;
use std::marker::Model;

/// What has a name.
pub trait HasName {
    ghost name_of: { Self → List ℕ };

    fn name(&self) -> &[u8]
        ensures { result.now ≡ name_of self.now };
}

/// Items in a row, of which the last of each name is found by it. Contracts see the list of the items.
#[derive(Drop)]
pub struct NamedItems<T: HasName> {
    alloc: Global,
    items: Vec<T>,
    /// Of each item where the last one of its name stands before it.
    hidden: Vec<Option<usize>>,
    /// Of each name where its last item stands; a name whose items were all taken out has none.
    last: IndexMap<Vec<u8>, Option<usize>>,
}

impl<T: HasName> Model for NamedItems<T> {
    ghost use Rattle.std.specs.Prelude.{List, map};
    ghost use Rattle.std.specs.Coded.{coded_list};

    ghost Value = { List T };

    ghost coded = { coded_list T.code };

    ghost use Rattle.c_check_rules.specs.Named.{IsIndex};

    ghost view = { λ n. n.items.items };

    ghost invariant = { λ n. IsIndex (map T.name_of n.items.items) n.hidden.items n.last.entries };
}

impl<T: HasName> NamedItems<T> {
    /// No items. It takes no memory.
    pub fn new(alloc: Global) -> NamedItems<T>
        ensures { result ≡ [] }
    {
        NamedItems {
            alloc,
            items: Vec::new(alloc),
            hidden: Vec::new(alloc),
            last: IndexMap::new(alloc),
        }
    }

    pub fn as_slice(&self) -> &[T]
        ensures { result.now ≡ self.now }
    {
        self.items.as_slice()
    }

    pub fn len(&self) -> usize
        ensures { result ≡ length self.now }
    {
        self.items.len()
    }

    pub fn get(&self, at: usize) -> Option<&T>
        ensures { option_copied result ≡ slice_get self.now at }
    {
        self.items.get(at)
    }

    /// Where the last item of the name stands.
    pub fn find(&self, name: &[u8]) -> Option<usize>
        ensures { result ≡ last_at name.now (map T.name_of self.now) 0 None }
    {
        match self.last.get(name) {
            Some(place) => *place,
            None => None,
        }
    }

    /// One item more, at the end. For want of memory nothing changes.
    pub fn push(&mut self, item: T) -> Result<(), OutOfMemory>
    where
        T: Drop,
        ensures ok { OnOk result (self.new ≡ self.old ++ item ∷ []) }
        ensures err { OnErr result (self.new ≡ self.old) }
    {
        let place = self.len();
        let before = self.find(item.name());
        let name = Vec::from_slice(self.alloc, item.name())?;
        self.items.reserve(1)?;
        self.hidden.reserve(1)?;
        self.last.insert(name, Some(place))?;
        self.items.push_reserved(item);
        self.hidden.push_reserved(before);
        Ok(())
    }

    /// Another item of the same name in the place of one.
    pub fn set(&mut self, at: usize, item: T)
    where
        T: Drop,
        requires { slice_get (map T.name_of self.old) at ≡ Some (T.name_of item) }
        ensures { self.new ≡ slice_set self.old at item }
    {
        self.items[at] = item;
    }

    /// Takes the last item out.
    pub fn pop(&mut self) -> Option<T>
        ensures { MatchOption result ((self.old ≡ []) × (self.new ≡ [])) (λ last. self.old ≡ self.new ++ last ∷ []) }
    {
        let item = self.items.pop()?;
        if let Some(before) = self.hidden.pop() {
            if let Some(place) = self.last.get_mut(item.name()) {
                *place = before;
            }
        }
        Some(item)
    }
}
