//! The builder of ground problems.
//!
//! A builder holds a ground problem without goals, and that problem is always well made. Each call
//! adds one constraint; those from `linear` to `when` add one variable too, with that constraint as
//! its definition, and answer its number. So values of the cells leave no choice of the other
//! variables: a configuration that had one extension has one still, the same with one value more.
//! After want of memory a builder is as before.
//!
//! Everything ends in one of two steps: `define` adds a variable with its definition, `state` adds
//! a statement.
ghost use Rattle.std.specs.Prelude.{◌≡◌, ◌<◌, ◌≤◌, ◌^◌, ◌-◌, ◌+◌, ◌+ℤ◌, [], true, int_le, unsigned_abs, length, IfOk, OnOk, OnErr};
ghost use Rattle.std.specs.List.{All};
ghost use Rattle.std.specs.Ordering.{int_eq};
ghost use Rattle.signed_clause.specs.Ranges.{has};
ghost use Rattle.ground_form.specs.declared.con.Con.TheVariants.{LinLe, LinDef, ReifLe, AndDef, MemberDef, EqDef, ElementDef, CondDef, ClauseCon, AllDiff, Pack};
ghost use Rattle.ground_form.specs.Meaning.{value_of, bit, sum_at, parts_true};
ghost use Rattle.ground_form.specs.Bounds.{weight_of, IsPackBounded, most_sum};
ghost use Rattle.ground_form.specs.WellMade.{distinct_values, IsWellMade};
ghost use Rattle.ground_build.specs.Growing.{over_cells, with_goals, HasRoom, IsFlag, HoldsDomain, AreItemVariables, Means, IsPicked, IsItemOrNought, IsDefined, IsRequired};
ghost use Rattle.ground_build.specs.Defining.{IsNewDefinition, IsNewStatement, Determines};
ghost use Rattle.ground_build.specs.NewDomains.{truth_values, linear_domain, picked_domain, when_domain};

use crate::constraints::{
    all_of_con, at_most_con, bound_con, different_con, linear_con, member_con, pack_con, pick_con,
    same_con, when_con,
};
use crate::domains::{item_or_nought, picked, sums, truths};
use ground_form::{Con, Cons, Domains, Goals, Ground, copy_sets};
use signed_clause::{Clause, IntSet};
use std::alloc::{AllocError, Global};
use std::marker::Model;

/// A ground problem in the making, without goals.
pub struct Builder {
    domains: Vec<IntSet>,
    search: u32,
    cons: Vec<Con>,
}

impl Drop for Builder {
    fn drop(self) {
        let Builder {
            domains: _,
            search: _,
            cons: _,
        } = self;
    }
}

impl Model for Builder {
    ghost use Rattle.ground_form.specs.declared.ground.Ground.{Ground};
    ghost use Rattle.ground_form.specs.WellMade.{IsWellMade};
    ghost use Rattle.ground_build.specs.Growing.{problem};

    ghost Value = { Ground };

    ghost view = { λ b. problem b.domains.items b.search b.cons.items };

    ghost invariant = { λ b. IsWellMade (problem b.domains.items b.search b.cons.items) };
}

impl Builder {
    /// A builder over these cells, all of them searched.
    pub fn new(alloc: Global, cells: &[IntSet]) -> Result<Builder, AllocError>
        requires { length cells.now < 2 ^ 32 }
        ensures { IfOk result (λ b. b ≡ over_cells cells.now) }
    {
        let domains = copy_sets(alloc, cells)?;
        Ok(Builder {
            search: domains.len() as u32,
            domains,
            cons: Vec::new(alloc),
        })
    }

    /// A builder that holds what a ground problem does, without its goals.
    pub fn over(g: &Ground) -> Result<Builder, AllocError>
        requires { IsWellMade g.now }
        ensures { IfOk result (λ b. b ≡ with_goals g.now []) }
    {
        let domains = g.domains.copy()?.into_items();
        let cons = g.cons.copy()?.into_items();
        Ok(Builder {
            domains,
            search: g.search,
            cons,
        })
    }

    /// A builder that holds what a ground problem did, without its goals. It takes no memory.
    pub fn over_owned(g: Ground) -> Builder
        requires { IsWellMade g }
        ensures { result ≡ with_goals g [] }
    {
        let search = g.search;
        let domains = g.domains.into_items();
        let cons = g.cons.into_items();
        Builder {
            domains,
            search,
            cons,
        }
    }

    /// The domains of the variables so far.
    pub fn domains(&self) -> &[IntSet]
        ensures items { result.now ≡ self.now.domains }
        ensures well_made { IsWellMade self.now }
    {
        self.domains.as_slice()
    }

    /// How many variables are searched: the first ones.
    pub fn search(&self) -> u32
        ensures { result ≡ self.now.search }
    {
        self.search
    }

    /// The constraints so far.
    pub fn cons(&self) -> &[Con]
        ensures { result.now ≡ self.now.cons }
    {
        self.cons.as_slice()
    }

    /// A variable that is what the terms and the offset add up to. Its domain lies between the
    /// least and the greatest sum, and is empty where a term's is.
    pub fn linear(&mut self, terms: &[(i64, u32)], offset: i64) -> Result<u32, AllocError>
        requires room { HasRoom self.old }
        requires variables { All (λ t. t.1 < length self.old.domains) terms.now }
        requires bounded { weight_of terms.now self.old.domains + unsigned_abs offset ≤ most_sum }
        ensures ok { IfOk result (λ x. IsDefined self.old self.new x
            (linear_domain terms.now offset self.old.domains) (LinDef x terms.now offset)) }
        ensures means { IfOk result (λ x. Means self.new x (λ a. sum_at terms.now a +ℤ offset)) }
        ensures err { OnErr result (self.new ≡ self.old) }
    {
        let alloc = *self.domains.allocator();
        let domain = sums(alloc, self.domains(), terms, offset);
        let con = linear_con(alloc, self.next(), terms, offset)?;
        self.define(domain, con)
    }

    /// A flag that says whether the terms add up to at most the bound. Its domain is 0..1.
    pub fn at_most(&mut self, terms: &[(i64, u32)], bound: i64) -> Result<u32, AllocError>
        requires room { HasRoom self.old }
        requires variables { All (λ t. t.1 < length self.old.domains) terms.now }
        requires bounded { weight_of terms.now self.old.domains ≤ most_sum }
        ensures ok { IfOk result (λ x. IsDefined self.old self.new x truth_values
            (ReifLe x terms.now bound)) }
        ensures means { IfOk result (λ x. Means self.new x
            (λ a. bit (int_le (sum_at terms.now a) bound))) }
        ensures err { OnErr result (self.new ≡ self.old) }
    {
        let alloc = *self.domains.allocator();
        let domain = truths(alloc);
        let con = at_most_con(alloc, self.next(), terms, bound)?;
        self.define(domain, con)
    }

    /// A flag that says whether each part has the truth that it wants; of no parts it is 1. Its
    /// domain is 0..1.
    pub fn all_of(&mut self, parts: &[(u32, bool)]) -> Result<u32, AllocError>
        requires room { HasRoom self.old }
        requires variables { All (λ p. p.0 < length self.old.domains) parts.now }
        requires flags { All (λ p. IsFlag self.old p.0) parts.now }
        ensures ok { IfOk result (λ x. IsDefined self.old self.new x truth_values
            (AndDef x parts.now)) }
        ensures means { IfOk result (λ x. Means self.new x (λ a. bit (parts_true parts.now a))) }
        ensures err { OnErr result (self.new ≡ self.old) }
    {
        let alloc = *self.domains.allocator();
        let domain = truths(alloc);
        let con = all_of_con(alloc, self.next(), parts)?;
        self.define(domain, con)
    }

    /// A flag that says whether the value of `x` is in the set. Its domain is 0..1.
    pub fn member(&mut self, x: u32, set: IntSet) -> Result<u32, AllocError>
        requires room { HasRoom self.old }
        requires variable { x < length self.old.domains }
        ensures ok { IfOk result (λ y. IsDefined self.old self.new y truth_values
            (MemberDef y x set)) }
        ensures means { IfOk result (λ y. Means self.new y (λ a. bit (has set (value_of a x)))) }
        ensures err { OnErr result (self.new ≡ self.old) }
    {
        let domain = truths(*self.domains.allocator());
        let con = member_con(self.next(), x, set);
        self.define(domain, con)
    }

    /// A flag that says whether `l` and `r` have the same value. Its domain is 0..1.
    pub fn same(&mut self, l: u32, r: u32) -> Result<u32, AllocError>
        requires room { HasRoom self.old }
        requires left { l < length self.old.domains }
        requires right { r < length self.old.domains }
        ensures ok { IfOk result (λ x. IsDefined self.old self.new x truth_values (EqDef x l r)) }
        ensures means { IfOk result (λ x. Means self.new x
            (λ a. bit (int_eq (value_of a l) (value_of a r)))) }
        ensures err { OnErr result (self.new ≡ self.old) }
    {
        let domain = truths(*self.domains.allocator());
        let con = same_con(self.next(), l, r);
        self.define(domain, con)
    }

    /// The variable of the item whose value the index has. The items' values are distinct and hold
    /// the index's domain. The domain of the new variable is the join of the items' domains.
    pub fn pick(&mut self, index: u32, items: &[(i64, u32)]) -> Result<u32, AllocError>
        requires room { HasRoom self.old }
        requires index { index < length self.old.domains }
        requires variables { All (λ t. t.1 < length self.old.domains) items.now }
        requires distinct { distinct_values items.now ≡ true }
        requires held { HoldsDomain self.old index items.now }
        ensures ok { IfOk result (λ x. IsDefined self.old self.new x
            (picked_domain [] items.now self.old.domains) (ElementDef x index items.now)) }
        ensures means { IfOk result (λ x. IsPicked self.new x index items.now) }
        ensures err { OnErr result (self.new ≡ self.old) }
    {
        let alloc = *self.domains.allocator();
        let domain = picked(alloc, self.domains(), items)?;
        let con = pick_con(alloc, self.next(), index, items)?;
        self.define(domain, con)
    }

    /// What the item is where the flag is 1, and 0 where it is 0. The domain of the new variable is
    /// the item's domain and 0.
    pub fn when(&mut self, flag: u32, item: u32) -> Result<u32, AllocError>
        requires room { HasRoom self.old }
        requires flag { flag < length self.old.domains }
        requires item { item < length self.old.domains }
        requires truths { IsFlag self.old flag }
        ensures ok { IfOk result (λ x. IsDefined self.old self.new x
            (when_domain item self.old.domains) (CondDef x flag item)) }
        ensures means { IfOk result (λ x. IsItemOrNought self.new x flag item) }
        ensures err { OnErr result (self.new ≡ self.old) }
    {
        let alloc = *self.domains.allocator();
        let domain = item_or_nought(alloc, self.domains(), item)?;
        let con = when_con(self.next(), flag, item);
        self.define(domain, con)
    }

    /// States a clause.
    pub fn require(&mut self, c: Clause) -> Result<(), AllocError>
        requires room { length self.old.cons < 2 ^ 32 - 1 }
        requires variables { All (λ l. l.0 < length self.old.domains) c }
        ensures ok { OnOk result (IsRequired self.old self.new (ClauseCon c)) }
        ensures err { OnErr result (self.new ≡ self.old) }
    {
        let con = Con::of_clause(*self.domains.allocator(), c)?;
        self.state(con)
    }

    /// States that the terms add up to at most the bound.
    pub fn require_at_most(&mut self, terms: &[(i64, u32)], bound: i64) -> Result<(), AllocError>
        requires room { length self.old.cons < 2 ^ 32 - 1 }
        requires variables { All (λ t. t.1 < length self.old.domains) terms.now }
        requires bounded { weight_of terms.now self.old.domains ≤ most_sum }
        ensures ok { OnOk result (IsRequired self.old self.new (LinLe terms.now bound)) }
        ensures err { OnErr result (self.new ≡ self.old) }
    {
        let con = bound_con(*self.domains.allocator(), terms, bound)?;
        self.state(con)
    }

    /// States that the values at different places of the list differ.
    pub fn require_different(&mut self, vars: &[u32]) -> Result<(), AllocError>
        requires room { length self.old.cons < 2 ^ 32 - 1 }
        requires variables { All (λ x. x < length self.old.domains) vars.now }
        ensures ok { OnOk result (IsRequired self.old self.new (AllDiff vars.now)) }
        ensures err { OnErr result (self.new ≡ self.old) }
    {
        let con = different_con(*self.domains.allocator(), vars)?;
        self.state(con)
    }

    /// States that of each item (place, size, room), the sizes at its place add up to at most its
    /// room.
    pub fn require_pack(&mut self, items: &[(u32, u32, u32)]) -> Result<(), AllocError>
        requires room { length self.old.cons < 2 ^ 32 - 1 }
        requires variables { All (λ i. AreItemVariables self.old i) items.now }
        requires bounded { IsPackBounded items.now self.old.domains }
        ensures ok { OnOk result (IsRequired self.old self.new (Pack items.now)) }
        ensures err { OnErr result (self.new ≡ self.old) }
    {
        let con = pack_con(*self.domains.allocator(), items)?;
        self.state(con)
    }

    /// The number of the next variable.
    fn next(&self) -> u32
        requires { length self.now.domains < 2 ^ 32 }
        ensures { result ≡ length self.now.domains }
    {
        self.domains.len() as u32
    }

    /// Adds a variable with its definition, and answers its number.
    fn define(&mut self, domain: IntSet, con: Con) -> Result<u32, AllocError>
        requires room { HasRoom self.old }
        requires new { IsNewDefinition self.old domain con }
        requires determined { Determines self.old.domains domain con }
        ensures ok { IfOk result (λ x. IsDefined self.old self.new x domain con) }
        ensures err { OnErr result (self.new ≡ self.old) }
    {
        let x = self.next();
        self.domains.reserve(1)?;
        self.cons.reserve(1)?;
        self.domains.push_reserved(domain);
        self.cons.push_reserved(con);
        Ok(x)
    }

    /// Adds a statement.
    fn state(&mut self, con: Con) -> Result<(), AllocError>
        requires room { length self.old.cons < 2 ^ 32 - 1 }
        requires new { IsNewStatement self.old con }
        ensures ok { OnOk result (IsRequired self.old self.new con) }
        ensures err { OnErr result (self.new ≡ self.old) }
    {
        self.cons.push(con)?;
        Ok(())
    }

    /// What was built, with these goals. It takes no memory.
    pub fn finish(self, goals: Goals) -> Ground
        requires { All (λ goal. goal.var < length self.domains) goals }
        ensures problem { result ≡ with_goals self goals }
        ensures well_made { IsWellMade result }
    {
        let Builder {
            domains,
            search,
            cons,
        } = self;
        Ground {
            domains: Domains::of(domains),
            search,
            cons: Cons::of(cons),
            goals,
        }
    }
}
