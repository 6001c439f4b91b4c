//! The ground problem: domains, constraints and goals.
ghost use Rattle.std.specs.Prelude.{◌≡◌, IfOk};

use crate::con::Con;
use crate::lists::Domains;
use std::alloc::{AllocError, Global};
use std::marker::Model;

/// A variable whose value is to be as great, or as small, as can be.
#[derive(Clone, Copy, Debug)]
pub struct GroundGoal {
    /// The variable.
    pub var: u32,
    /// Whether greater is better; else smaller is.
    pub max: bool,
}

/// A ground problem. Its first `search` variables are those that a search decides; each of the
/// others has a definition.
#[derive(Drop)]
pub struct Ground {
    /// The domain of each variable.
    pub domains: Domains,
    /// How many of the variables are searched: the first ones.
    pub search: u32,
    /// The constraints.
    pub cons: Cons,
    /// The goals, the one that counts most first.
    pub goals: Goals,
}

/// Constraints.
pub struct Cons {
    items: Vec<Con>,
}

impl Drop for Cons {
    fn drop(self) {
        let Cons { items: _ } = self;
    }
}

impl Model for Cons {
    ghost use Rattle.std.specs.Prelude.{List};
    ghost use Rattle.ground_form.specs.declared.con.Con.{Con};

    ghost Value = { List Con };

    ghost view = { λ l. l.items.items };
}

impl Cons {
    /// These constraints.
    pub fn of(items: Vec<Con>) -> Self
        ensures { result ≡ items.items }
    {
        Cons { items }
    }

    /// They, in order.
    pub fn items(&self) -> &[Con]
        ensures { result.now ≡ self.now }
    {
        self.items.as_slice()
    }

    /// The same constraints again.
    pub fn copy(&self) -> Result<Self, AllocError>
        ensures { IfOk result (λ l. l ≡ self.now) }
    {
        let items = copy_cons(*self.items.allocator(), self.items())?;
        Ok(Cons { items })
    }

    /// They as a vector again, without memory.
    pub fn into_items(self) -> Vec<Con>
        ensures { result.items ≡ self }
    {
        let Cons { items } = self;
        items
    }
}

/// Goals, the one that counts most first.
pub struct Goals {
    items: Vec<GroundGoal>,
}

impl Drop for Goals {
    fn drop(self) {
        let Goals { items: _ } = self;
    }
}

impl Model for Goals {
    ghost use Rattle.std.specs.Prelude.{List};
    ghost use Rattle.ground_form.specs.declared.ground.GroundGoal.{GroundGoal};

    ghost Value = { List GroundGoal };

    ghost view = { λ l. l.items.items };
}

impl Goals {
    /// These goals.
    pub fn of(items: Vec<GroundGoal>) -> Self
        ensures { result ≡ items.items }
    {
        Goals { items }
    }

    /// They, in order.
    pub fn items(&self) -> &[GroundGoal]
        ensures { result.now ≡ self.now }
    {
        self.items.as_slice()
    }

    /// The same goals again.
    pub fn copy(&self) -> Result<Self, AllocError>
        ensures { IfOk result (λ l. l ≡ self.now) }
    {
        let items = self.items.as_slice().to_vec(*self.items.allocator())?;
        Ok(Goals { items })
    }

    /// They as a vector again, without memory.
    pub fn into_items(self) -> Vec<GroundGoal>
        ensures { result.items ≡ self }
    {
        let Goals { items } = self;
        items
    }
}

/// The same constraints again.
fn copy_cons(alloc: Global, cons: &[Con]) -> Result<Vec<Con>, AllocError>
    ensures { IfOk result (λ l. l.items ≡ cons.now) }
{
    let mut out = Vec::new(alloc);
    for con in cons {
        out.push(con.copy()?)?;
    }
    Ok(out)
}
