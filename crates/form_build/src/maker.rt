//! The maker of forms: a problem in the making in which equal definitions are made once.
//!
//! A maker is seen as the ground problem that it has come to. That problem is well made, and no
//! box in it is empty. After want of memory nothing is said of what was added, and the maker is to
//! be dropped.
ghost use Rattle.std.specs.Prelude.{◌≡◌, ◌<◌, ◌≤◌, ◌+◌, ◌-◌, ◌^◌, ◌↔◌, [], true, int_le, length, Contains, IfOk, IsTrue, OnErr, OnOk};
ghost use Rattle.std.specs.List.{All};
ghost use Rattle.std.specs.Ordering.{int_eq};
ghost use Rattle.signed_clause.specs.Ranges.{has};
ghost use Rattle.signed_clause.specs.Clauses.{clause_true};
ghost use Rattle.ground_form.specs.declared.con.Con.TheVariants.{AllDiff, Pack};
ghost use Rattle.ground_form.specs.Meaning.{value_of, sum_at, parts_true, all_differ, rooms_hold};
ghost use Rattle.ground_form.specs.Bounds.{weight_of, IsPackBounded, most_sum};
ghost use Rattle.ground_form.specs.WellMade.{distinct_values, IsWellMade};
ghost use Rattle.ground_build.specs.Growing.{HasRoom, IsFlag, HoldsDomain, AreItemVariables};
ghost use Rattle.ground_build.specs.NewDomains.{picked_domain, when_domain};
ghost use Rattle.form_build.specs.Forms.{linear_at};
ghost use Rattle.form_build.specs.Worlds.{Adds, Defines, IsFew, HasRoomFor, AreSome, IsFlagOf, IsVariableOf, IsPickOf, IsItemWhere};
ghost use Rattle.form_build.specs.Sums.{least_linear, greatest_linear, IsLinear};

use crate::form::Linear;
use crate::sharing::{Sharing, mixed, with_number, with_parts, with_set, with_terms};
use crate::{shared, stated, values};
use ground_build::Builder;
use ground_form::Con;
use signed_clause::{Clause, IntSet};
use std::alloc::{AllocError, Global};
use std::marker::Model;

/// A problem in the making, and where its definitions stand.
pub struct Maker {
    builder: Builder,
    sharing: Sharing,
    alloc: Global,
}

impl Drop for Maker {
    fn drop(self) {
        let Maker {
            builder: _,
            sharing: _,
            alloc: _,
        } = self;
    }
}

impl Model for Maker {
    ghost use Rattle.ground_form.specs.declared.ground.Ground.{Ground};
    ghost use Rattle.form_build.specs.Worlds.{AreSome};

    ghost Value = { Ground };

    ghost view = { λ m. m.builder };

    ghost invariant = { λ m. AreSome m.builder.domains };
}

/// Whether n more can be numbered, where so many are.
fn have_room(count: usize, n: u32) -> bool
    ensures { IsTrue result ↔ count + n ≤ 2 ^ 32 - 1 }
{
    let most = u32::MAX as usize;
    count <= most && n as usize <= most - count
}

impl Maker {
    /// A maker over what a builder holds. No box may be empty.
    pub fn over(alloc: Global, builder: Builder) -> Maker
        requires { AreSome builder.domains }
        ensures { result ≡ builder }
    {
        Maker {
            builder,
            sharing: Sharing::new(alloc),
            alloc,
        }
    }

    /// The builder again, with what was made.
    pub fn into_builder(self) -> Builder
        ensures { result ≡ self }
    {
        let Maker {
            builder,
            sharing: _,
            alloc: _,
        } = self;
        builder
    }

    /// Where memory comes from.
    pub fn alloc(&self) -> Global {
        self.alloc
    }

    /// The domains of the variables so far: no one is empty.
    pub fn domains(&self) -> &[IntSet]
        ensures items { result.now ≡ self.now.domains }
        ensures well_made { IsWellMade self.now }
        ensures some { AreSome self.now.domains }
    {
        self.builder.domains()
    }

    /// How many variables are searched: the first ones.
    pub fn search(&self) -> u32
        ensures { result ≡ self.now.search }
    {
        self.builder.search()
    }

    /// The constraints so far.
    pub fn cons(&self) -> &[Con]
        ensures { result.now ≡ self.now.cons }
    {
        self.builder.cons()
    }

    /// Whether so many more variables and constraints can be numbered: where not, it is said that
    /// memory lacks. Who makes one thing after the other asks before each step.
    pub fn ask(&self, n: u32) -> Result<(), AllocError>
        ensures room { OnOk result (HasRoomFor n self.now) }
        ensures refused { OnErr result (HasRoomFor n self.now → ⊥) }
    {
        let variables = self.builder.domains().len();
        let constraints = self.builder.cons().len();
        if have_room(variables, n) && have_room(constraints, n) {
            return Ok(());
        }
        Err(AllocError)
    }

    /// A flag that says whether the value of `x` is in the set.
    pub fn member(&mut self, x: u32, set: IntSet) -> Result<u32, AllocError>
        requires room { HasRoom self.old }
        requires variable { x < length self.old.domains }
        ensures flag { IfOk result (λ f. IsFlagOf self.new f (λ a. has set (value_of a x))) }
        ensures adds { IfOk result (λ f. Defines self.old self.new) }
        ensures few { IfOk result (λ f. IsFew 1 self.old self.new) }
    {
        let key = with_set(mixed(1, x as u64), &set);
        let hint = self.sharing.place_of(key, self.builder.cons().len())?;
        let f = shared::member(&mut self.builder, hint, x, set)?;
        Ok(f)
    }

    /// A flag that says whether the terms add up to at most the bound.
    pub fn at_most(&mut self, terms: &[(i64, u32)], bound: i64) -> Result<u32, AllocError>
        requires room { HasRoom self.old }
        requires variables { All (λ t. t.1 < length self.old.domains) terms.now }
        requires bounded { weight_of terms.now self.old.domains ≤ most_sum }
        ensures flag { IfOk result (λ f. IsFlagOf self.new f
            (λ a. int_le (sum_at terms.now a) bound)) }
        ensures adds { IfOk result (λ f. Defines self.old self.new) }
        ensures few { IfOk result (λ f. IsFew 1 self.old self.new) }
    {
        let key = with_terms(with_number(2, bound), terms);
        let hint = self.sharing.place_of(key, self.builder.cons().len())?;
        let f = shared::at_most(&mut self.builder, hint, terms, bound)?;
        Ok(f)
    }

    /// A flag that says whether two variables have the same value.
    pub fn same(&mut self, l: u32, r: u32) -> Result<u32, AllocError>
        requires room { HasRoom self.old }
        requires left { l < length self.old.domains }
        requires right { r < length self.old.domains }
        ensures flag { IfOk result (λ f. IsFlagOf self.new f
            (λ a. int_eq (value_of a l) (value_of a r))) }
        ensures adds { IfOk result (λ f. Defines self.old self.new) }
        ensures few { IfOk result (λ f. IsFew 1 self.old self.new) }
    {
        let key = mixed(mixed(3, l.min(r) as u64), l.max(r) as u64);
        let hint = self.sharing.place_of(key, self.builder.cons().len())?;
        if l <= r {
            let f = shared::same(&mut self.builder, hint, l, r)?;
            Ok(f)
        } else {
            let f = shared::same(&mut self.builder, hint, r, l)?;
            Ok(f)
        }
    }

    /// A flag that says whether each part, a flag, has the truth that it wants.
    pub fn all_of(&mut self, parts: &[(u32, bool)]) -> Result<u32, AllocError>
        requires room { HasRoom self.old }
        requires variables { All (λ p. p.0 < length self.old.domains) parts.now }
        requires flags { All (λ p. IsFlag self.old p.0) parts.now }
        ensures flag { IfOk result (λ f. IsFlagOf self.new f (λ a. parts_true parts.now a)) }
        ensures adds { IfOk result (λ f. Defines self.old self.new) }
        ensures few { IfOk result (λ f. IsFew 1 self.old self.new) }
    {
        let key = with_parts(4, parts);
        let hint = self.sharing.place_of(key, self.builder.cons().len())?;
        let f = shared::all_of(&mut self.builder, hint, parts)?;
        Ok(f)
    }

    /// A variable that is the sum, its box between the sum's ends.
    pub fn linear(&mut self, f: &Linear) -> Result<u32, AllocError>
        requires room { HasRoom self.old }
        requires linear { IsLinear most_sum self.old.domains f.now }
        ensures variable { IfOk result (λ x. IsVariableOf self.new x
            (least_linear f.now self.old.domains) (greatest_linear f.now self.old.domains)
            (λ a. linear_at f.now a)) }
        ensures adds { IfOk result (λ x. Defines self.old self.new) }
        ensures few { IfOk result (λ x. IsFew 1 self.old self.new) }
    {
        let key = with_terms(with_number(5, f.offset), f.terms.items());
        let hint = self.sharing.place_of(key, self.builder.cons().len())?;
        let x = values::linear(&mut self.builder, hint, f)?;
        Ok(x)
    }

    /// The variable of the item whose value the index has. The items' values are distinct and hold
    /// the index's domain. Its box is the join of the items' boxes.
    pub fn pick(&mut self, index: u32, items: &[(i64, u32)]) -> Result<u32, AllocError>
        requires room { HasRoom self.old }
        requires index { index < length self.old.domains }
        requires variables { All (λ t. t.1 < length self.old.domains) items.now }
        requires distinct { distinct_values items.now ≡ true }
        requires held { HoldsDomain self.old index items.now }
        ensures variable { IfOk result (λ x. IsPickOf self.new x
            (picked_domain [] items.now self.old.domains) index items.now) }
        ensures adds { IfOk result (λ x. Defines self.old self.new) }
        ensures few { IfOk result (λ x. IsFew 1 self.old self.new) }
    {
        let key = with_terms(mixed(6, index as u64), items);
        let hint = self.sharing.place_of(key, self.builder.cons().len())?;
        let x = values::pick(&mut self.builder, self.alloc, hint, index, items)?;
        Ok(x)
    }

    /// What the item is where the flag is 1, and 0 where it is 0. Its box is the item's box and 0.
    pub fn when(&mut self, flag: u32, item: u32) -> Result<u32, AllocError>
        requires room { HasRoom self.old }
        requires flag { flag < length self.old.domains }
        requires item { item < length self.old.domains }
        requires truths { IsFlag self.old flag }
        ensures variable { IfOk result (λ x. IsItemWhere self.new x
            (when_domain item self.old.domains) flag item) }
        ensures adds { IfOk result (λ x. Defines self.old self.new) }
        ensures few { IfOk result (λ x. IsFew 1 self.old self.new) }
    {
        let key = mixed(mixed(7, flag as u64), item as u64);
        let hint = self.sharing.place_of(key, self.builder.cons().len())?;
        let x = values::when(&mut self.builder, self.alloc, hint, flag, item)?;
        Ok(x)
    }

    /// States a clause.
    pub fn require(&mut self, c: Clause) -> Result<(), AllocError>
        requires room { length self.old.cons < 2 ^ 32 - 1 }
        requires variables { All (λ l. l.0 < length self.old.domains) c }
        ensures says { OnOk result (Adds [] self.old self.new (λ a. clause_true c a)) }
        ensures few { OnOk result (IsFew 1 self.old self.new) }
    {
        stated::require(&mut self.builder, c)?;
        Ok(())
    }

    /// States that the terms add up to at most the bound.
    pub fn require_at_most(&mut self, terms: &[(i64, u32)], bound: i64) -> Result<(), AllocError>
        requires room { length self.old.cons < 2 ^ 32 - 1 }
        requires variables { All (λ t. t.1 < length self.old.domains) terms.now }
        requires bounded { weight_of terms.now self.old.domains ≤ most_sum }
        ensures says { OnOk result (Adds [] self.old self.new
            (λ a. int_le (sum_at terms.now a) bound)) }
        ensures few { OnOk result (IsFew 1 self.old self.new) }
    {
        stated::require_at_most(&mut self.builder, terms, bound)?;
        Ok(())
    }

    /// States that the values at different places of the list differ.
    pub fn require_different(&mut self, vars: &[u32]) -> Result<(), AllocError>
        requires room { length self.old.cons < 2 ^ 32 - 1 }
        requires variables { All (λ x. x < length self.old.domains) vars.now }
        ensures says { OnOk result (Adds [] self.old self.new (λ a. all_differ vars.now a)) }
        ensures stands { OnOk result (Contains self.new.cons (AllDiff vars.now)) }
        ensures few { OnOk result (IsFew 1 self.old self.new) }
    {
        stated::require_different(&mut self.builder, vars)?;
        Ok(())
    }

    /// States that of each item (place, size, room), the sizes at its place add up to at most its
    /// room.
    pub fn require_pack(&mut self, items: &[(u32, u32, u32)]) -> Result<(), AllocError>
        requires room { length self.old.cons < 2 ^ 32 - 1 }
        requires variables { All (λ i. AreItemVariables self.old i) items.now }
        requires bounded { IsPackBounded items.now self.old.domains }
        ensures says { OnOk result (Adds [] self.old self.new
            (λ a. rooms_hold items.now items.now a)) }
        ensures stands { OnOk result (Contains self.new.cons (Pack items.now)) }
        ensures few { OnOk result (IsFew 1 self.old self.new) }
    {
        stated::require_pack(&mut self.builder, items)?;
        Ok(())
    }
}
