//! The constraint, one variant for each kind.
//!
//! A variable is named by its number. `true` and `false` are the values 1 and 0 of a variable,
//! which is then called a flag. Five kinds define a flag as the truth of something, three define
//! the value of a variable, and three only state.
ghost use Rattle.std.specs.Prelude.{◌≡◌, IfOk};
ghost use Rattle.signed_clause.specs.Clauses.{IsClause};
ghost use Rattle.ground_form.specs.declared.con.Con.TheVariants.{ClauseCon};

use crate::lists::{PackItems, Parts, Terms, VarList};
use signed_clause::{Clause, ClauseHandle, IntSet};
use std::alloc::{AllocError, Global};

/// A constraint over the values of variables.
#[derive(Drop)]
pub enum Con {
    /// The sum of the terms is at most the bound.
    LinLe {
        /// The terms.
        terms: Terms,
        /// The bound.
        bound: i64,
    },
    /// `out` is the sum of the terms and the offset.
    LinDef {
        /// The variable that is defined.
        out: u32,
        /// The terms.
        terms: Terms,
        /// The offset.
        offset: i64,
    },
    /// The flag says whether the sum of the terms is at most the bound.
    ReifLe {
        /// The flag that is defined.
        flag: u32,
        /// The terms.
        terms: Terms,
        /// The bound.
        bound: i64,
    },
    /// The flag says whether each part has the truth that it wants.
    AndDef {
        /// The flag that is defined.
        flag: u32,
        /// The parts.
        parts: Parts,
    },
    /// The flag says whether the value of `var` is in the set.
    MemberDef {
        /// The flag that is defined.
        flag: u32,
        /// The variable.
        var: u32,
        /// The set.
        set: IntSet,
    },
    /// The flag says whether two variables have the same value.
    EqDef {
        /// The flag that is defined.
        flag: u32,
        /// The one variable.
        left: u32,
        /// The other variable.
        right: u32,
    },
    /// `out` is the variable of the item whose value the index has.
    ElementDef {
        /// The variable that is defined.
        out: u32,
        /// The variable that picks the item.
        index: u32,
        /// The items: a value of the index and a variable each, the values distinct.
        items: Terms,
    },
    /// `out` is the item where the flag is 1, and 0 where it is 0.
    CondDef {
        /// The variable that is defined.
        out: u32,
        /// The flag.
        flag: u32,
        /// The item.
        item: u32,
    },
    /// Some literal's variable has a value in its set.
    ClauseCon {
        /// The clause, which copies of the constraint share.
        clause: ClauseHandle,
    },
    /// The values at different places of the list differ.
    AllDiff {
        /// The variables.
        vars: VarList,
    },
    /// For each item, the sizes of the items at its place add up to at most its room.
    Pack {
        /// The items.
        items: PackItems,
    },
}

impl Con {
    /// The clause as a constraint.
    pub fn of_clause(alloc: Global, clause: Clause) -> Result<Con, AllocError>
        ensures value { IfOk result (λ con. con ≡ ClauseCon clause) }
        ensures form { IsClause clause }
    {
        let _literals = clause.literals();
        match ClauseHandle::of(alloc, clause) {
            Ok(clause) => Ok(Con::ClauseCon { clause }),
            Err(_) => Err(AllocError),
        }
    }

    /// The same constraint again. A clause's literals are shared, and not copied.
    pub fn copy(&self) -> Result<Con, AllocError>
        ensures { IfOk result (λ con. con ≡ self.now) }
    {
        Ok(match self {
            Con::LinLe { terms, bound } => Con::LinLe {
                terms: terms.copy()?,
                bound: *bound,
            },
            Con::LinDef { out, terms, offset } => {
                Con::LinDef {
                    out: *out,
                    terms: terms.copy()?,
                    offset: *offset,
                }
            }
            Con::ReifLe { flag, terms, bound } => {
                Con::ReifLe {
                    flag: *flag,
                    terms: terms.copy()?,
                    bound: *bound,
                }
            }
            Con::AndDef { flag, parts } => Con::AndDef {
                flag: *flag,
                parts: parts.copy()?,
            },
            Con::MemberDef { flag, var, set } => {
                Con::MemberDef {
                    flag: *flag,
                    var: *var,
                    set: set.copy()?,
                }
            }
            Con::EqDef { flag, left, right } => Con::EqDef {
                flag: *flag,
                left: *left,
                right: *right,
            },
            Con::ElementDef { out, index, items } => {
                Con::ElementDef {
                    out: *out,
                    index: *index,
                    items: items.copy()?,
                }
            }
            Con::CondDef { out, flag, item } => Con::CondDef {
                out: *out,
                flag: *flag,
                item: *item,
            },
            Con::ClauseCon { clause } => Con::ClauseCon {
                clause: clause.copy()?,
            },
            Con::AllDiff { vars } => Con::AllDiff { vars: vars.copy()? },
            Con::Pack { items } => Con::Pack {
                items: items.copy()?,
            },
        })
    }
}
