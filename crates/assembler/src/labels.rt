//! Labels, found by their names.

ghost use Rattle.std.specs.Prelude.{◌≡◌, ◌&&◌, [], ◌∷◌, ◌++◌, None, option_map, OnOk};
ghost use Rattle.std.specs.List.{find};
ghost use Rattle.asm_text.specs.Assembly.{label_of, local_target, is_of, is_before};
ghost use Rattle.assembler.specs.Held as held;

use indexmap::IndexMap;
use mx_base::OutOfMemory;
use std::alloc::Global;
use std::marker::Model;

/// Where a label stands: its part, its offset there and its line, from 1.
#[derive(Clone, Copy, Drop)]
pub struct Mark {
    pub in_data: bool,
    pub offset: u64,
    pub line: u32,
}

/// Labels in order of appearance, none of a name twice.
#[derive(Drop)]
pub struct Labels {
    alloc: Global,
    map: IndexMap<Vec<u8>, Mark>,
}

impl Model for Labels {
    ghost use Rattle.std.specs.Prelude.{List};
    ghost use Rattle.asm_text.specs.Assembly.{Label};
    ghost use Rattle.assembler.specs.Held.{labels_in};

    ghost Value = { List Label };

    ghost view = { λ held. labels_in held.map.entries };
}

impl Labels {
    /// No labels. It takes no memory.
    pub fn new(alloc: Global) -> Labels
        ensures { result ≡ [] }
    {
        Labels {
            alloc,
            map: IndexMap::new(alloc),
        }
    }

    /// The label of a name.
    pub fn find(&self, name: &[u8]) -> Option<Mark>
        ensures { result ≡ option_map held.mark_of (label_of self.now name.now) }
    {
        self.map.get(name).copied()
    }

    /// The label of a name, if it stands before a line.
    pub fn earlier(&self, name: &[u8], line: u32) -> Option<Mark>
        requires { held.AreDistinct self.now }
        ensures { result ≡ option_map held.mark_of (find (λ l. is_of name.now l && is_before line l) self.now) }
    {
        match self.find(name) {
            Some(m) if m.line < line => Some(m),
            _ => None,
        }
    }

    /// The offset in the code of a local label.
    #[tactic(auto, unfolding(asm_text::specs::Assembly::local_target))]
    pub fn target(&self, name: &[u8]) -> Option<u64>
        ensures { result ≡ local_target self.now name.now }
    {
        match self.find(name) {
            Some(m) if !m.in_data => Some(m.offset),
            _ => None,
        }
    }

    /// One label more, of a name that has none.
    pub fn add(&mut self, name: &[u8], mark: Mark) -> Result<(), OutOfMemory>
        requires { label_of self.old name.now ≡ None }
        ensures { OnOk result (self.new ≡ self.old ++ held.label name.now mark ∷ []) }
    {
        let key = Vec::from_slice(self.alloc, name)?;
        self.map.insert(key, mark)?;
        Ok(())
    }
}
