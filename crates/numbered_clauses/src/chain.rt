//! A derivation of one clause from others by resolution.
//!
//! A chain begins with a clause and resolves it, step by step, with further ones. It names clauses
//! by their numbers and says on which variable each step resolves; the clauses themselves stand
//! elsewhere.
ghost use Rattle.std.specs.Prelude.{◌≡◌, IfOk};

use std::alloc::AllocError;
use std::marker::Model;

/// The steps of a chain: each a variable, and the number of the clause that is resolved with on it.
pub struct ChainSteps {
    items: Vec<(u32, u64)>,
}

impl Drop for ChainSteps {
    fn drop(self) {
        let ChainSteps { items: _ } = self;
    }
}

impl Model for ChainSteps {
    ghost use Rattle.std.specs.Prelude.{ℕ, List};

    ghost Value = { List (ℕ × ℕ) };

    ghost view = { λ l. l.items.items };
}

impl ChainSteps {
    /// These steps.
    pub fn of(items: Vec<(u32, u64)>) -> Self
        ensures { result ≡ items.items }
    {
        ChainSteps { items }
    }

    /// They, in order.
    pub fn items(&self) -> &[(u32, u64)]
        ensures { result.now ≡ self.now }
    {
        self.items.as_slice()
    }

    /// The same steps again.
    pub fn copy(&self) -> Result<Self, AllocError>
        ensures { IfOk result (λ l. l ≡ self.now) }
    {
        let items = self.items.as_slice().to_vec(*self.items.allocator())?;
        Ok(ChainSteps { items })
    }

    /// They as a vector again, without memory.
    pub fn into_items(self) -> Vec<(u32, u64)>
        ensures { result.items ≡ self }
    {
        let ChainSteps { items } = self;
        items
    }
}

/// Where a derivation begins, and its steps.
pub struct Chain {
    /// The number of the clause that it begins with.
    pub first: u64,
    /// Its steps, in order.
    pub steps: ChainSteps,
}

impl Drop for Chain {
    fn drop(self) {
        let Chain { first: _, steps: _ } = self;
    }
}
