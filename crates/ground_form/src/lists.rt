//! The small lists that constraints and ground problems hold.
//!
//! Each is made of a vector and gives it back, without memory, and a contract sees each as the
//! plain list of its items.
ghost use Rattle.std.specs.Prelude.{◌≡◌, ◌↔◌, ◌++◌, ◌∷◌, [], IsTrue, IfOk, OnOk};
ghost use Rattle.std.specs.List.{All};
ghost use Rattle.signed_clause.specs.Ranges.{IsValid};

use signed_clause::IntSet;
use std::alloc::{AllocError, Global};
use std::marker::Model;

/// A sum: terms, each a coefficient and a variable. In `ElementDef` items, each a value of the
/// index and a variable.
pub struct Terms {
    items: Vec<(i64, u32)>,
}

impl Drop for Terms {
    fn drop(self) {
        let Terms { items: _ } = self;
    }
}

impl Model for Terms {
    ghost use Rattle.std.specs.Prelude.{ℕ, ℤ, List};

    ghost Value = { List (ℤ × ℕ) };

    ghost view = { λ l. l.items.items };
}

impl Terms {
    /// The sum of these terms.
    pub fn of(items: Vec<(i64, u32)>) -> Self
        ensures { result ≡ items.items }
    {
        Terms { items }
    }

    /// They, in order.
    pub fn items(&self) -> &[(i64, u32)]
        ensures { result.now ≡ self.now }
    {
        self.items.as_slice()
    }

    /// The same list again.
    pub fn copy(&self) -> Result<Self, AllocError>
        ensures { IfOk result (λ l. l ≡ self.now) }
    {
        let items = self.items.as_slice().to_vec(*self.items.allocator())?;
        Ok(Terms { items })
    }

    /// Whether the other has the same items in the same order.
    pub fn same(&self, o: &Self) -> bool
        ensures { IsTrue result ↔ (self.now ≡ o.now) }
    {
        self.items() == o.items()
    }

    /// They as a vector again, without memory.
    pub fn into_items(self) -> Vec<(i64, u32)>
        ensures { result.items ≡ self }
    {
        let Terms { items } = self;
        items
    }
}

/// Variables of a conjunction, each with the truth that it wants.
pub struct Parts {
    items: Vec<(u32, bool)>,
}

impl Drop for Parts {
    fn drop(self) {
        let Parts { items: _ } = self;
    }
}

impl Model for Parts {
    ghost use Rattle.std.specs.Prelude.{ℕ, Bool, List};

    ghost Value = { List (ℕ × Bool) };

    ghost view = { λ l. l.items.items };
}

impl Parts {
    /// The conjunction of these parts.
    pub fn of(items: Vec<(u32, bool)>) -> Self
        ensures { result ≡ items.items }
    {
        Parts { items }
    }

    /// They, in order.
    pub fn items(&self) -> &[(u32, bool)]
        ensures { result.now ≡ self.now }
    {
        self.items.as_slice()
    }

    /// The same list again.
    pub fn copy(&self) -> Result<Self, AllocError>
        ensures { IfOk result (λ l. l ≡ self.now) }
    {
        let items = self.items.as_slice().to_vec(*self.items.allocator())?;
        Ok(Parts { items })
    }

    /// Whether the other has the same items in the same order.
    pub fn same(&self, o: &Self) -> bool
        ensures { IsTrue result ↔ (self.now ≡ o.now) }
    {
        self.items() == o.items()
    }

    /// They as a vector again, without memory.
    pub fn into_items(self) -> Vec<(u32, bool)>
        ensures { result.items ≡ self }
    {
        let Parts { items } = self;
        items
    }
}

/// Variables.
pub struct VarList {
    items: Vec<u32>,
}

impl Drop for VarList {
    fn drop(self) {
        let VarList { items: _ } = self;
    }
}

impl Model for VarList {
    ghost use Rattle.std.specs.Prelude.{ℕ, List};

    ghost Value = { List ℕ };

    ghost view = { λ l. l.items.items };
}

impl VarList {
    /// These variables.
    pub fn of(items: Vec<u32>) -> Self
        ensures { result ≡ items.items }
    {
        VarList { items }
    }

    /// They, in order.
    pub fn items(&self) -> &[u32]
        ensures { result.now ≡ self.now }
    {
        self.items.as_slice()
    }

    /// The same list again.
    pub fn copy(&self) -> Result<Self, AllocError>
        ensures { IfOk result (λ l. l ≡ self.now) }
    {
        let items = self.items.as_slice().to_vec(*self.items.allocator())?;
        Ok(VarList { items })
    }

    /// Whether the other has the same items in the same order.
    pub fn same(&self, o: &Self) -> bool
        ensures { IsTrue result ↔ (self.now ≡ o.now) }
    {
        self.items() == o.items()
    }

    /// They as a vector again, without memory.
    pub fn into_items(self) -> Vec<u32>
        ensures { result.items ≡ self }
    {
        let VarList { items } = self;
        items
    }
}

/// Items to be packed: each item's variables of place, size and room.
pub struct PackItems {
    items: Vec<(u32, u32, u32)>,
}

impl Drop for PackItems {
    fn drop(self) {
        let PackItems { items: _ } = self;
    }
}

impl Model for PackItems {
    ghost use Rattle.std.specs.Prelude.{ℕ, List};

    ghost Value = { List (ℕ × ℕ × ℕ) };

    ghost view = { λ l. l.items.items };
}

impl PackItems {
    /// These items.
    pub fn of(items: Vec<(u32, u32, u32)>) -> Self
        ensures { result ≡ items.items }
    {
        PackItems { items }
    }

    /// They, in order.
    pub fn items(&self) -> &[(u32, u32, u32)]
        ensures { result.now ≡ self.now }
    {
        self.items.as_slice()
    }

    /// The same list again.
    pub fn copy(&self) -> Result<Self, AllocError>
        ensures { IfOk result (λ l. l ≡ self.now) }
    {
        let items = self.items.as_slice().to_vec(*self.items.allocator())?;
        Ok(PackItems { items })
    }

    /// Whether the other has the same items in the same order.
    pub fn same(&self, o: &Self) -> bool
        ensures { IsTrue result ↔ (self.now ≡ o.now) }
    {
        self.items() == o.items()
    }

    /// They as a vector again, without memory.
    pub fn into_items(self) -> Vec<(u32, u32, u32)>
        ensures { result.items ≡ self }
    {
        let PackItems { items } = self;
        items
    }
}

/// The domain of each variable.
pub struct Domains {
    items: Vec<IntSet>,
}

impl Drop for Domains {
    fn drop(self) {
        let Domains { items: _ } = self;
    }
}

impl Model for Domains {
    ghost use Rattle.std.specs.Prelude.{ℤ, List};

    ghost Value = { List (List (ℤ × ℤ)) };

    ghost view = { λ l. l.items.items };
}

impl Domains {
    /// These domains, that of variable 0 first.
    pub fn of(items: Vec<IntSet>) -> Self
        ensures { result ≡ items.items }
    {
        Domains { items }
    }

    /// They, in order.
    pub fn items(&self) -> &[IntSet]
        ensures { result.now ≡ self.now }
    {
        self.items.as_slice()
    }

    /// The same domains again.
    pub fn copy(&self) -> Result<Self, AllocError>
        ensures list { IfOk result (λ l. l ≡ self.now) }
        ensures valid { IfOk result (λ l. All (λ d. IsValid d) l) }
    {
        let items = copy_sets(*self.items.allocator(), self.items())?;
        Ok(Domains { items })
    }

    /// They as a vector again, without memory.
    pub fn into_items(self) -> Vec<IntSet>
        ensures { result.items ≡ self }
    {
        let Domains { items } = self;
        items
    }
}

/// The same sets again.
pub fn copy_sets(alloc: Global, sets: &[IntSet]) -> Result<Vec<IntSet>, AllocError>
    ensures list { IfOk result (λ l. l.items ≡ sets.now) }
    ensures valid { IfOk result (λ l. All (λ d. IsValid d) l.items) }
{
    let mut out = Vec::new(alloc);
    for set in sets {
        push_set(&mut out, set)?;
    }
    Ok(out)
}

/// Adds the same set again.
fn push_set(out: &mut Vec<IntSet>, set: &IntSet) -> Result<(), AllocError>
    ensures list { OnOk result (out.new.items ≡ out.old.items ++ set.now ∷ []) }
    ensures valid { OnOk result (IsValid set.now) }
{
    out.push(set.copy()?)?;
    Ok(())
}
