//! Random small problems: all kinds of constraints, empty domains, variables that stand twice in a
//! constraint, coefficients below 0, and none to three goals.
ghost use Rattle.std.specs.Prelude.{◌<◌};

use crate::rows::set_of;
use ground_form::{
    Con, Cons, Domains, Goals, Ground, GroundGoal, Kind, PackItems, Parts, Terms, VarList,
};
use signed_clause::{Clause, IntSet};
use std::alloc::{AllocError, Global};
use test_problems::Random;
use test_well_made::is_constraint_well_made;

/// A problem in the making.
#[derive(Drop)]
struct Making {
    alloc: Global,
    numbers: Random,
    domains: Vec<IntSet>,
    cons: Vec<Con>,
}

/// The kinds that define a variable; the first three can do so without inputs.
const DEFINING: [Kind; 7] = [
    Kind::LinDef,
    Kind::ReifLe,
    Kind::AndDef,
    Kind::MemberDef,
    Kind::EqDef,
    Kind::ElementDef,
    Kind::CondDef,
];

/// The kinds that only state.
const STATING: [Kind; 4] = [Kind::LinLe, Kind::ClauseCon, Kind::AllDiff, Kind::Pack];

/// The values 0 and 1, as bits.
const FLAG: u64 = 0x300;

/// Whether the kind defines a flag.
fn is_truth(kind: Kind) -> bool {
    matches!(
        kind,
        Kind::ReifLe | Kind::AndDef | Kind::MemberDef | Kind::EqDef
    )
}

/// The numbers of a seed; those of neighbours are unlike each other.
fn numbers_of(seed: u64) -> Random {
    Random::of(seed.wrapping_mul(0x9e37_79b9_7f4a_7c15).wrapping_add(1))
}

/// One of the `count` numbers from `least` on.
fn number_from(numbers: &mut Random, least: i64, count: u32) -> i64
    requires { 0 < count }
{
    least.saturating_add(i64::from(numbers.below(count)))
}

/// True in one of `count` cases.
fn one_in(numbers: &mut Random, count: u32) -> bool
    requires { 0 < count }
{
    numbers.below(count) == 0
}

impl Making {
    /// A set of some of the values from `least` on.
    fn some_of(&mut self, least: u32, count: u32) -> u64 {
        let bits = u64::from(self.numbers.below(256));
        let first = (1u64 << (count % 9)).wrapping_sub(1);
        (bits & first) << (least % 32)
    }

    /// The bits of a searched variable's domain.
    fn domain(&mut self) -> u64 {
        match self.numbers.below(8) {
            0 | 1 | 2 => FLAG,
            3 => 0x700,
            4 => self.some_of(8, 3),
            5 => self.some_of(8, 3) | 0x100,
            _ => self.some_of(6, 6),
        }
    }

    /// The bits of a defined variable's domain.
    fn defined_domain(&mut self, kind: Kind) -> u64 {
        if is_truth(kind) {
            return if one_in(&mut self.numbers, 8) {
                0x200
            } else {
                FLAG
            };
        }
        self.some_of(5, 8) | self.some_of(5, 8)
    }

    /// Adds a variable of these values.
    fn add(&mut self, mask: u64) -> Result<(), AllocError> {
        self.domains.push(set_of(self.alloc, mask)?)?;
        Ok(())
    }

    /// A variable below `count`, or else 0.
    fn var(&mut self, count: u32) -> u32 {
        if count == 0 {
            0
        } else {
            self.numbers.below(count)
        }
    }

    /// A variable below `count` whose values lie from 0 to `most`, where a few looks find one.
    fn var_upto(&mut self, count: u32, most: i64) -> u32 {
        let mut x = self.var(count);
        for _ in 0..6u32 {
            if let Some(set) = self.domains.get(x as usize) {
                if set.least().unwrap_or(0) >= 0 && set.greatest().unwrap_or(0) <= most {
                    return x;
                }
            }
            x = self.var(count);
        }
        x
    }

    /// Up to three, and none where there is no variable.
    fn few(&mut self, count: u32) -> u32 {
        if count == 0 { 0 } else { self.numbers.below(4) }
    }

    /// Up to three terms.
    fn terms(&mut self, count: u32) -> Result<Terms, AllocError> {
        let mut terms = Vec::new(self.alloc);
        for _ in 0..self.few(count) {
            let term = (number_from(&mut self.numbers, -3, 7), self.var(count));
            terms.push(term)?;
        }
        Ok(Terms::of(terms))
    }

    /// Up to three parts.
    fn parts(&mut self, count: u32) -> Result<Parts, AllocError> {
        let mut parts = Vec::new(self.alloc);
        for _ in 0..self.few(count) {
            let part = (self.var_upto(count, 1), one_in(&mut self.numbers, 2));
            parts.push(part)?;
        }
        Ok(Parts::of(parts))
    }

    /// Up to three items of the values 0, 1 and so on.
    fn choices(&mut self, count: u32) -> Result<Terms, AllocError> {
        let mut items = Vec::new(self.alloc);
        for k in 0..self.numbers.below(4) {
            let item = (i64::from(k), self.var(count));
            items.push(item)?;
        }
        Ok(Terms::of(items))
    }

    /// Up to four variables.
    fn vars(&mut self, count: u32) -> Result<VarList, AllocError> {
        let mut vars = Vec::new(self.alloc);
        for _ in 0..self.numbers.below(5) {
            let x = self.var(count);
            vars.push(x)?;
        }
        Ok(VarList::of(vars))
    }

    /// Up to three items to be packed.
    fn items(&mut self, count: u32) -> Result<PackItems, AllocError> {
        let mut items = Vec::new(self.alloc);
        for _ in 0..self.numbers.below(4) {
            let place = self.var_upto(count, 50);
            let size = self.var_upto(count, 50);
            let room = self.var(count);
            items.push((place, size, room))?;
        }
        Ok(PackItems::of(items))
    }

    /// A clause of some of the variables.
    fn clause(&mut self, count: u32) -> Result<Clause, AllocError> {
        let mut literals = Vec::new(self.alloc);
        for x in 0..count {
            let mask = self.some_of(6, 6);
            if mask != 0 && one_in(&mut self.numbers, 2) {
                literals.push((x, set_of(self.alloc, mask)?))?;
            }
        }
        match Clause::of(literals) {
            Ok(clause) => Ok(clause),
            Err(_) => Err(AllocError),
        }
    }

    /// A constraint that defines the flag by variables below `count`.
    fn truth(&mut self, kind: Kind, flag: u32, count: u32) -> Result<Con, AllocError> {
        Ok(match kind {
            Kind::ReifLe => Con::ReifLe {
                flag,
                terms: self.terms(count)?,
                bound: number_from(&mut self.numbers, -3, 9),
            },
            Kind::AndDef => Con::AndDef {
                flag,
                parts: self.parts(count)?,
            },
            Kind::MemberDef => {
                let mask = self.some_of(6, 6);
                Con::MemberDef {
                    flag,
                    var: self.var(count),
                    set: set_of(self.alloc, mask)?,
                }
            }
            _ => Con::EqDef {
                flag,
                left: self.var(count),
                right: self.var(count),
            },
        })
    }

    /// A constraint that defines `out` by variables below `count`.
    fn definition(&mut self, kind: Kind, out: u32, count: u32) -> Result<Con, AllocError> {
        match kind {
            Kind::LinDef => Ok(Con::LinDef {
                out,
                terms: self.terms(count)?,
                offset: number_from(&mut self.numbers, -2, 5),
            }),
            Kind::ElementDef => Ok(Con::ElementDef {
                out,
                index: self.var_upto(count, 2),
                items: self.choices(count)?,
            }),
            Kind::CondDef => Ok(Con::CondDef {
                out,
                flag: self.var_upto(count, 1),
                item: self.var(count),
            }),
            _ => self.truth(kind, out, count),
        }
    }

    /// A constraint over the variables; one that defines defines a searched one.
    fn statement(&mut self, kind: Kind, searched: u32) -> Result<Con, AllocError> {
        let count = self.domains.len().min(8) as u32;
        match kind {
            Kind::LinLe => Ok(Con::LinLe {
                terms: self.terms(count)?,
                bound: number_from(&mut self.numbers, -2, 7),
            }),
            Kind::ClauseCon => {
                let clause = self.clause(count)?;
                Con::of_clause(self.alloc, clause)
            }
            Kind::AllDiff => Ok(Con::AllDiff {
                vars: self.vars(count)?,
            }),
            Kind::Pack => Ok(Con::Pack {
                items: self.items(count)?,
            }),
            _ => {
                let most = if is_truth(kind) { 1 } else { 50 };
                let out = self.var_upto(searched, most);
                self.definition(kind, out, count)
            }
        }
    }

    /// A kind that defines, one without inputs where there are none.
    fn defining_kind(&mut self, count: u32) -> Kind {
        if count == 0 {
            DEFINING[self.numbers.below(3) as usize]
        } else {
            DEFINING[self.numbers.below(7) as usize]
        }
    }

    /// A kind of a statement, in half of the cases one that doesn't define.
    fn stating_kind(&mut self, searched: u32) -> Kind {
        if searched == 0 || one_in(&mut self.numbers, 2) {
            STATING[self.numbers.below(4) as usize]
        } else {
            DEFINING[self.numbers.below(7) as usize]
        }
    }

    /// Adds a variable with its definition, where that is well made.
    fn define(&mut self) -> Result<(), AllocError> {
        let out = self.domains.len().min(8) as u32;
        let kind = self.defining_kind(out);
        let mask = self.defined_domain(kind);
        self.add(mask)?;
        let con = self.definition(kind, out, out)?;
        if is_constraint_well_made(&con, self.domains.as_slice(), self.alloc)? {
            self.cons.push(con)?;
        } else {
            self.domains.pop();
        }
        Ok(())
    }

    /// Adds a constraint, where it is well made.
    fn state(&mut self, searched: u32) -> Result<(), AllocError> {
        let kind = self.stating_kind(searched);
        let con = self.statement(kind, searched)?;
        if is_constraint_well_made(&con, self.domains.as_slice(), self.alloc)? {
            self.cons.push(con)?;
        }
        Ok(())
    }

    /// None to three goals.
    fn goals(&mut self) -> Result<Goals, AllocError> {
        let mut goals = Vec::new(self.alloc);
        let count = self.domains.len().min(8) as u32;
        for _ in 0..self.numbers.below(4) {
            if count != 0 {
                let var = self.numbers.below(count);
                let max = one_in(&mut self.numbers, 2);
                goals.push(GroundGoal { var, max })?;
            }
        }
        Ok(Goals::of(goals))
    }
}

/// The problem of a seed: up to five searched variables and up to two with a definition.
///
/// # Errors
/// Want of memory.
pub fn problem(alloc: Global, seed: u64) -> Result<Ground, AllocError> {
    let mut making = Making {
        alloc,
        numbers: numbers_of(seed),
        domains: Vec::new(alloc),
        cons: Vec::new(alloc),
    };
    let searched = making.numbers.below(6);
    for _ in 0..searched {
        let mask = making.domain();
        making.add(mask)?;
    }
    for _ in 0..making.numbers.below(3) {
        making.define()?;
    }
    for _ in 0..making.numbers.below(6) {
        making.state(searched)?;
    }
    let goals = making.goals()?;
    Ok(Ground {
        domains: Domains::of(making.domains),
        search: searched,
        cons: Cons::of(making.cons),
        goals,
    })
}

/// A hint for each of the searched variables, or none.
///
/// # Errors
/// Want of memory.
pub fn hints(alloc: Global, seed: u64, count: u32) -> Result<Vec<Option<i64>>, AllocError> {
    let mut numbers = numbers_of(seed);
    let mut hints = Vec::new(alloc);
    for _ in 0..count {
        let value = number_from(&mut numbers, -2, 6);
        hints.push(if one_in(&mut numbers, 3) {
            None
        } else {
            Some(value)
        })?;
    }
    Ok(hints)
}
