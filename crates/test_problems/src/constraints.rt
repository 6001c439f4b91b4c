//! Constraints as texts: the name of the kind, and behind it the fields in the order in which the
//! kind declares them, but a list last. A term or an item of an element is `COEFFICIENT*VARIABLE`,
//! a part `VARIABLE` or `!VARIABLE`, an item of a packing `BIN,SIZE,ROOM`, and sets and clauses are
//! written as `sets` says. So `LinLe 7 2*0 3*1` says that twice variable 0 and three times
//! variable 1 are at most 7, and `AndDef 0 1 !2` that flag 0 is that 1 holds and 2 doesn't.
use crate::sets::{clause_of, set_of};
use crate::words::{Unread, number, variable};
use ground_form::{Con, PackItems, Parts, Terms, VarList};
use std::alloc::Global;

/// The term of a word.
fn term(word: &str) -> Result<(i64, u32), Unread> {
    match word.split_once('*') {
        Some((coefficient, x)) => Ok((number(coefficient)?, variable(x)?)),
        None => Err(Unread::Form),
    }
}

/// The terms of words.
fn terms(alloc: Global, words: &[&str]) -> Result<Terms, Unread> {
    let mut terms = Vec::new(alloc);
    for word in words {
        terms.push(term(word)?)?;
    }
    Ok(Terms::of(terms))
}

/// The part of a word.
fn part(word: &str) -> Result<(u32, bool), Unread> {
    match word.strip_prefix('!') {
        Some(x) => Ok((variable(x)?, false)),
        None => Ok((variable(word)?, true)),
    }
}

/// The parts of words.
fn parts(alloc: Global, words: &[&str]) -> Result<Parts, Unread> {
    let mut parts = Vec::new(alloc);
    for word in words {
        parts.push(part(word)?)?;
    }
    Ok(Parts::of(parts))
}

/// The variables of words.
fn variables(alloc: Global, words: &[&str]) -> Result<VarList, Unread> {
    let mut variables = Vec::new(alloc);
    for word in words {
        variables.push(variable(word)?)?;
    }
    Ok(VarList::of(variables))
}

/// The item of a word.
fn item(word: &str) -> Result<(u32, u32, u32), Unread> {
    let Some((bin, behind)) = word.split_once(',') else {
        return Err(Unread::Form);
    };
    let Some((size, room)) = behind.split_once(',') else {
        return Err(Unread::Form);
    };
    Ok((variable(bin)?, variable(size)?, variable(room)?))
}

/// The items of words.
fn items(alloc: Global, words: &[&str]) -> Result<PackItems, Unread> {
    let mut items = Vec::new(alloc);
    for word in words {
        items.push(item(word)?)?;
    }
    Ok(PackItems::of(items))
}

/// `LinLe BOUND TERM ..`.
fn bounded_sum(alloc: Global, words: &[&str]) -> Result<Con, Unread> {
    match words {
        [bound, behind @ ..] => {
            let terms = terms(alloc, behind)?;
            let bound = number(bound)?;
            Ok(Con::LinLe { terms, bound })
        }
        _ => Err(Unread::Form),
    }
}

/// `LinDef OUT OFFSET TERM ..`.
fn defining_sum(alloc: Global, words: &[&str]) -> Result<Con, Unread> {
    match words {
        [out, offset, behind @ ..] => {
            let terms = terms(alloc, behind)?;
            let out = variable(out)?;
            let offset = number(offset)?;
            Ok(Con::LinDef { out, terms, offset })
        }
        _ => Err(Unread::Form),
    }
}

/// `ReifLe FLAG BOUND TERM ..`.
fn flag_of_bound(alloc: Global, words: &[&str]) -> Result<Con, Unread> {
    match words {
        [flag, bound, behind @ ..] => {
            let terms = terms(alloc, behind)?;
            let flag = variable(flag)?;
            let bound = number(bound)?;
            Ok(Con::ReifLe { flag, terms, bound })
        }
        _ => Err(Unread::Form),
    }
}

/// `AndDef FLAG PART ..`.
fn conjunction(alloc: Global, words: &[&str]) -> Result<Con, Unread> {
    match words {
        [flag, behind @ ..] => {
            let parts = parts(alloc, behind)?;
            let flag = variable(flag)?;
            Ok(Con::AndDef { flag, parts })
        }
        _ => Err(Unread::Form),
    }
}

/// `MemberDef FLAG VARIABLE SET`.
fn membership(alloc: Global, words: &[&str]) -> Result<Con, Unread> {
    match words {
        [flag, var, set] => {
            let set = set_of(alloc, set)?;
            let flag = variable(flag)?;
            let var = variable(var)?;
            Ok(Con::MemberDef { flag, var, set })
        }
        _ => Err(Unread::Form),
    }
}

/// `EqDef FLAG LEFT RIGHT`.
fn equality(words: &[&str]) -> Result<Con, Unread> {
    match words {
        [flag, left, right] => {
            let flag = variable(flag)?;
            let left = variable(left)?;
            let right = variable(right)?;
            Ok(Con::EqDef { flag, left, right })
        }
        _ => Err(Unread::Form),
    }
}

/// `ElementDef OUT INDEX ITEM ..`.
fn element(alloc: Global, words: &[&str]) -> Result<Con, Unread> {
    match words {
        [out, index, behind @ ..] => {
            let items = terms(alloc, behind)?;
            let out = variable(out)?;
            let index = variable(index)?;
            Ok(Con::ElementDef { out, index, items })
        }
        _ => Err(Unread::Form),
    }
}

/// `CondDef OUT FLAG ITEM`.
fn conditional(words: &[&str]) -> Result<Con, Unread> {
    match words {
        [out, flag, item] => {
            let out = variable(out)?;
            let flag = variable(flag)?;
            let item = variable(item)?;
            Ok(Con::CondDef { out, flag, item })
        }
        _ => Err(Unread::Form),
    }
}

/// A constraint that only states, or a defined element or conditional.
fn other_constraint(alloc: Global, kind: &str, words: &[&str]) -> Result<Con, Unread> {
    match kind {
        "ElementDef" => element(alloc, words),
        "CondDef" => conditional(words),
        "ClauseCon" => {
            let clause = clause_of(alloc, words)?;
            Ok(Con::of_clause(alloc, clause)?)
        }
        "AllDiff" => {
            let vars = variables(alloc, words)?;
            Ok(Con::AllDiff { vars })
        }
        "Pack" => {
            let items = items(alloc, words)?;
            Ok(Con::Pack { items })
        }
        _ => Err(Unread::Form),
    }
}

/// The constraint of a kind and the words behind it.
fn constraint_of_kind(alloc: Global, kind: &str, words: &[&str]) -> Result<Con, Unread> {
    match kind {
        "LinLe" => bounded_sum(alloc, words),
        "LinDef" => defining_sum(alloc, words),
        "ReifLe" => flag_of_bound(alloc, words),
        "AndDef" => conjunction(alloc, words),
        "MemberDef" => membership(alloc, words),
        "EqDef" => equality(words),
        _ => other_constraint(alloc, kind, words),
    }
}

/// The constraint of words.
///
/// # Errors
/// `Form` where they are none; want of memory.
pub fn constraint_of(alloc: Global, words: &[&str]) -> Result<Con, Unread> {
    match words {
        [kind, behind @ ..] => constraint_of_kind(alloc, kind, behind),
        _ => Err(Unread::Form),
    }
}
