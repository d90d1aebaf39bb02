//! What names are bound to that are used, which clauses see as a list.

ghost use Rattle.std.specs.Prelude.{◌≡◌, ◌∷◌, ◌++◌, [], OnOk, length, take};

use c_check_rules::Bind;
use std::alloc::{AllocError, Global};
use std::marker::Model;

/// What the names in expressions outside of `sizeof` are bound to, in tree order.
#[derive(Drop)]
pub struct Uses {
    binds: Vec<Bind>,
}

impl Model for Uses {
    ghost use Rattle.std.specs.Prelude.{List};
    ghost use Rattle.c_check_rules.specs.declared.predeclared.Bind.{Bind};

    ghost Value = { List Bind };

    ghost view = { λ uses. uses.binds.items };
}

impl Uses {
    /// No uses. It takes no memory.
    pub fn new(alloc: Global) -> Uses
        ensures { result ≡ [] }
    {
        Uses {
            binds: Vec::new(alloc),
        }
    }

    pub fn as_slice(&self) -> &[Bind]
        ensures { result.now ≡ self.now }
    {
        self.binds.as_slice()
    }

    pub fn len(&self) -> usize
        ensures { result ≡ length self.now }
    {
        self.binds.len()
    }

    pub fn push(&mut self, bind: Bind) -> Result<(), AllocError>
        ensures { OnOk result (self.new ≡ self.old ++ bind ∷ []) }
    {
        self.binds.push(bind)?;
        Ok(())
    }

    /// Keeps the first uses alone.
    pub fn truncate(&mut self, count: usize)
        ensures { self.new ≡ take count self.old }
    {
        self.binds.truncate(count);
    }
}
