//! Constraints of `n` parts, each with boxes in which it has nothing to say and boxes in which it
//! has.
ghost use Rattle.std.specs.Prelude.{◌≤ℤ◌};

use crate::packs::{items, push_sizes};
use ground_form::{Con, Parts, Terms, VarList};
use signed_clause::{Clause, IntSet};
use std::alloc::{AllocError, Global};

/// A constraint, and boxes of its variables.
#[derive(Drop)]
pub(crate) struct Case {
    /// What the row of the table is called.
    pub name: &'static str,
    /// The constraint.
    pub con: Con,
    /// Boxes in which it has nothing to say.
    pub idle: Vec<IntSet>,
    /// Boxes in which it has.
    pub acting: Vec<IntSet>,
}

/// Ranges of which all but the last are the same.
fn ranges(
    alloc: Global,
    n: u32,
    each: (i64, i64),
    last: (i64, i64),
) -> Result<Vec<IntSet>, AllocError>
    requires each { each.0 ≤ℤ each.1 }
    requires last { last.0 ≤ℤ last.1 }
{
    let mut boxes = Vec::new(alloc);
    for _ in 1..n {
        boxes.push(IntSet::range(alloc, each.0, each.1))?;
    }
    boxes.push(IntSet::range(alloc, last.0, last.1))?;
    Ok(boxes)
}

/// Every second value from the number on, `n` of them.
fn comb(alloc: Global, n: u32, from: i64) -> Result<IntSet, AllocError> {
    let mut values = Vec::new(alloc);
    for i in 0..n {
        let v = i64::from(i).saturating_mul(2).saturating_add(from);
        values.push((v, v))?;
    }
    match IntSet::of(alloc, values.as_slice())? {
        Some(set) => Ok(set),
        None => Ok(IntSet::empty(alloc)),
    }
}

/// The first `n` variables, each once.
fn sum(alloc: Global, n: u32) -> Result<Terms, AllocError> {
    let mut terms = Vec::new(alloc);
    for x in 0..n {
        terms.push((1i64, x))?;
    }
    Ok(Terms::of(terms))
}

/// The first `n` variables, numbered from 0.
fn numbered(alloc: Global, n: u32) -> Result<Terms, AllocError> {
    let mut items = Vec::new(alloc);
    for x in 0..n {
        items.push((i64::from(x), x))?;
    }
    Ok(Terms::of(items))
}

/// One of the literals is true: all are open, or all but one are false.
fn clause(alloc: Global, n: u32) -> Result<Case, AllocError> {
    let mut literals = Vec::new(alloc);
    for x in 0..n {
        literals.push((x, IntSet::range(alloc, 1, 1)))?;
    }
    let con = match Clause::of(literals) {
        Ok(clause) => Con::of_clause(alloc, clause)?,
        Err(_) => Con::AllDiff {
            vars: VarList::of(Vec::new(alloc)),
        },
    };
    Ok(Case {
        name: "ClauseCon",
        con,
        idle: ranges(alloc, n, (0, 1), (0, 1))?,
        acting: ranges(alloc, n, (0, 0), (0, 1))?,
    })
}

/// A sum within its bound, or one term that may be too much.
fn bound(alloc: Global, n: u32) -> Result<Case, AllocError> {
    Ok(Case {
        name: "LinLe",
        con: Con::LinLe {
            terms: sum(alloc, n)?,
            bound: i64::from(n).saturating_mul(9),
        },
        idle: ranges(alloc, n, (0, 9), (0, 9))?,
        acting: ranges(alloc, n, (9, 9), (0, 12))?,
    })
}

/// The sum of variables: it may be all that they allow, or less.
fn definition(alloc: Global, n: u32) -> Result<Case, AllocError> {
    let parts = n.saturating_add(1);
    let most = i64::from(n).saturating_mul(9);
    Ok(Case {
        name: "LinDef",
        con: Con::LinDef {
            out: n,
            terms: sum(alloc, n)?,
            offset: 0,
        },
        idle: ranges(alloc, parts, (0, 9), (0, most.max(0)))?,
        acting: ranges(alloc, parts, (0, 9), (0, 5))?,
    })
}

/// Whether a sum keeps a bound: that is open, or it has to.
fn flag(alloc: Global, n: u32) -> Result<Case, AllocError> {
    let parts = n.saturating_add(1);
    Ok(Case {
        name: "ReifLe",
        con: Con::ReifLe {
            flag: n,
            terms: sum(alloc, n)?,
            bound: 5,
        },
        idle: ranges(alloc, parts, (0, 9), (0, 1))?,
        acting: ranges(alloc, parts, (0, 9), (1, 1))?,
    })
}

/// Whether all parts are 1: that is open, or they are.
fn conjunction(alloc: Global, n: u32) -> Result<Case, AllocError> {
    let all = n.saturating_add(1);
    let mut parts = Vec::new(alloc);
    for x in 0..n {
        parts.push((x, true))?;
    }
    Ok(Case {
        name: "AndDef",
        con: Con::AndDef {
            flag: n,
            parts: Parts::of(parts),
        },
        idle: ranges(alloc, all, (0, 1), (0, 1))?,
        acting: ranges(alloc, all, (1, 1), (0, 1))?,
    })
}

/// Whether a value is in a set of `n` ranges: that is open, or it is.
fn membership(alloc: Global, n: u32) -> Result<Case, AllocError> {
    let open = IntSet::range(alloc, 0, 1);
    let yes = IntSet::range(alloc, 1, 1);
    Ok(Case {
        name: "MemberDef",
        con: Con::MemberDef {
            flag: 1,
            var: 0,
            set: comb(alloc, n, 2)?,
        },
        idle: vec![in alloc; comb(alloc, n, 0)?, open]?,
        acting: vec![in alloc; comb(alloc, n, 0)?, yes]?,
    })
}

/// Whether two values of `n` ranges are the same: that is open, or they are.
fn equality(alloc: Global, n: u32) -> Result<Case, AllocError> {
    let open = IntSet::range(alloc, 0, 1);
    let yes = IntSet::range(alloc, 1, 1);
    Ok(Case {
        name: "EqDef",
        con: Con::EqDef {
            flag: 2,
            left: 0,
            right: 1,
        },
        idle: vec![in alloc; comb(alloc, n, 0)?, comb(alloc, n, 2)?, open]?,
        acting: vec![in alloc; comb(alloc, n, 0)?, comb(alloc, n, 2)?, yes]?,
    })
}

/// One of `n` variables: out may be what each of them may, or more.
fn element(alloc: Global, n: u32) -> Result<Case, AllocError> {
    let last = i64::from(n.saturating_sub(1));
    let mut idle = ranges(alloc, n.saturating_add(1), (0, 9), (0, 9))?;
    idle.push(IntSet::range(alloc, 0, last.max(0)))?;
    let mut acting = ranges(alloc, n.saturating_add(1), (0, 9), (0, 12))?;
    acting.push(IntSet::range(alloc, 0, last.max(0)))?;
    Ok(Case {
        name: "ElementDef, ranges",
        con: Con::ElementDef {
            out: n,
            index: n.saturating_add(1),
            items: numbered(alloc, n)?,
        },
        idle,
        acting,
    })
}

/// The numbers 2, 4, 6 and 8 in turn, `n` of them.
fn four_numbers(alloc: Global, n: u32) -> Result<Vec<IntSet>, AllocError> {
    let mut boxes = Vec::new(alloc);
    for i in 0..n {
        let v = i64::from(i % 4).saturating_mul(2).saturating_add(2);
        boxes.push(IntSet::range(alloc, v, v))?;
    }
    Ok(boxes)
}

/// One of `n` numbers, four of them different: out may be each of these, or other numbers too.
fn numbers(alloc: Global, n: u32) -> Result<Case, AllocError> {
    let last = i64::from(n.saturating_sub(1));
    let mut idle = four_numbers(alloc, n)?;
    idle.push(comb(alloc, 4, 2)?)?;
    idle.push(IntSet::range(alloc, 0, last.max(0)))?;
    let mut acting = four_numbers(alloc, n)?;
    acting.push(IntSet::range(alloc, 2, 8))?;
    acting.push(IntSet::range(alloc, 0, last.max(0)))?;
    Ok(Case {
        name: "ElementDef, numbers",
        con: Con::ElementDef {
            out: n,
            index: n.saturating_add(1),
            items: numbered(alloc, n)?,
        },
        idle,
        acting,
    })
}

/// A value of `n` ranges or 0: that is open, or it has to be the value.
fn conditional(alloc: Global, n: u32) -> Result<Case, AllocError> {
    let open = IntSet::range(alloc, 0, 1);
    let yes = IntSet::range(alloc, 1, 1);
    Ok(Case {
        name: "CondDef",
        con: Con::CondDef {
            out: 2,
            flag: 1,
            item: 0,
        },
        idle: vec![in alloc; comb(alloc, n, 0)?, open, comb(alloc, n, 0)?]?,
        acting: vec![in alloc; comb(alloc, n, 2)?, yes, comb(alloc, n, 0)?]?,
    })
}

/// `n` places for as many values, of which none is fixed, or one.
fn different(alloc: Global, n: u32) -> Result<Case, AllocError> {
    let last = i64::from(n.saturating_sub(1)).max(0);
    let mut vars = Vec::new(alloc);
    for x in 0..n {
        vars.push(x)?;
    }
    Ok(Case {
        name: "AllDiff",
        con: Con::AllDiff {
            vars: VarList::of(vars),
        },
        idle: ranges(alloc, n, (0, last), (0, last))?,
        acting: ranges(alloc, n, (0, last), (0, 0))?,
    })
}

// ---- items to be packed

/// Items of size 1, half as many places, rooms of 4: there is room for all, or the last, which is
/// fixed, may be too large.
fn roomy(alloc: Global, n: u32) -> Result<Case, AllocError> {
    let last = i64::from((n / 2).saturating_sub(1)).max(0);
    let mut idle = ranges(alloc, n, (0, last), (0, last))?;
    push_sizes(&mut idle, alloc, n, 1, (4, 4))?;
    let mut acting = ranges(alloc, n, (0, last), (0, 0))?;
    push_sizes(&mut acting, alloc, n, 9, (4, 4))?;
    Ok(Case {
        name: "Pack, roomy",
        con: Con::Pack {
            items: items(alloc, n)?,
        },
        idle,
        acting,
    })
}

/// The same with rooms of 4 and 1 in turn.
fn unlike(alloc: Global, n: u32) -> Result<Case, AllocError> {
    let last = i64::from((n / 2).saturating_sub(1)).max(0);
    let mut idle = ranges(alloc, n, (0, last), (0, last))?;
    push_sizes(&mut idle, alloc, n, 1, (4, 1))?;
    let mut acting = ranges(alloc, n, (0, last), (0, 0))?;
    push_sizes(&mut acting, alloc, n, 9, (4, 1))?;
    Ok(Case {
        name: "Pack, unlike rooms",
        con: Con::Pack {
            items: items(alloc, n)?,
        },
        idle,
        acting,
    })
}

/// The first quarter of the items one by one at places of room 1, the others, of rooms of 4, at any
/// of the rest; or the last also at the small places.
fn small_places(alloc: Global, n: u32) -> Result<Case, AllocError> {
    let small = n / 4;
    let last = i64::from(n.saturating_sub(1).max(small));
    let mut idle = Vec::new(alloc);
    let mut acting = Vec::new(alloc);
    for i in 0..n {
        let at = if i < small {
            (i64::from(i), i64::from(i))
        } else {
            (i64::from(small), last)
        };
        idle.push(span(alloc, at))?;
        let low = if i.saturating_add(1) == n { 0 } else { at.0 };
        acting.push(span(alloc, (low, at.1)))?;
    }
    push_rooms(&mut idle, alloc, n, small)?;
    push_rooms(&mut acting, alloc, n, small)?;
    Ok(Case {
        name: "Pack, small places",
        con: Con::Pack {
            items: items(alloc, n)?,
        },
        idle,
        acting,
    })
}

/// The numbers from the first to the second, or the first alone where the second is below it.
fn span(alloc: Global, at: (i64, i64)) -> IntSet {
    IntSet::range(alloc, at.0, at.1.max(at.0))
}

/// Adds sizes of 1, and rooms of 1 for the first items and 4 for the others.
fn push_rooms(
    boxes: &mut Vec<IntSet>,
    alloc: Global,
    n: u32,
    small: u32,
) -> Result<(), AllocError> {
    for _ in 0..n {
        boxes.push(IntSet::range(alloc, 1, 1))?;
    }
    for i in 0..n {
        let room = if i < small { 1 } else { 4 };
        boxes.push(IntSet::range(alloc, room, room))?;
    }
    Ok(())
}

/// The first half of the items two by two at the first places, the others at any place from `first`
/// on.
fn half_placed(alloc: Global, n: u32, first: u32) -> Result<Vec<IntSet>, AllocError> {
    let last = i64::from(n.saturating_sub(1).max(first));
    let mut boxes = Vec::new(alloc);
    for i in 0..n {
        if i / 4 * 4 < n / 2 {
            boxes.push(IntSet::range(alloc, i64::from(i / 2), i64::from(i / 2)))?;
        } else {
            boxes.push(IntSet::range(alloc, i64::from(first), last))?;
        }
    }
    Ok(boxes)
}

/// Rooms of 2 at as many places as there are items, of which half are placed, two by two: the
/// others may only be at free places, or also at full ones.
fn half_packed(alloc: Global, n: u32) -> Result<Case, AllocError> {
    let free = (n / 2).saturating_add(4) / 2;
    let mut idle = half_placed(alloc, n, free)?;
    push_sizes(&mut idle, alloc, n, 1, (2, 2))?;
    let mut acting = half_placed(alloc, n, 0)?;
    push_sizes(&mut acting, alloc, n, 1, (2, 2))?;
    Ok(Case {
        name: "Pack, half packed",
        con: Con::Pack {
            items: items(alloc, n)?,
        },
        idle,
        acting,
    })
}

/// All sizes are just all room, or the last may be more.
fn tight(alloc: Global, n: u32) -> Result<Case, AllocError> {
    let last = i64::from((n / 2).saturating_sub(1)).max(0);
    let mut idle = ranges(alloc, n, (0, last), (0, last))?;
    push_sizes(&mut idle, alloc, n, 1, (2, 2))?;
    let mut acting = ranges(alloc, n, (0, last), (0, last))?;
    push_sizes(&mut acting, alloc, n, 2, (2, 2))?;
    Ok(Case {
        name: "Pack, tight",
        con: Con::Pack {
            items: items(alloc, n)?,
        },
        idle,
        acting,
    })
}

/// The case of a row of the table, which has `ROWS`.
pub(crate) fn nth_case(alloc: Global, row: u32, n: u32) -> Result<Case, AllocError> {
    match row {
        0 => clause(alloc, n),
        1 => bound(alloc, n),
        2 => definition(alloc, n),
        3 => flag(alloc, n),
        4 => conjunction(alloc, n),
        5 => membership(alloc, n),
        6 => equality(alloc, n),
        7 => element(alloc, n),
        8 => numbers(alloc, n),
        9 => conditional(alloc, n),
        10 => different(alloc, n),
        11 => roomy(alloc, n),
        12 => unlike(alloc, n),
        13 => small_places(alloc, n),
        14 => half_packed(alloc, n),
        _ => tight(alloc, n),
    }
}

/// How many rows there are.
pub(crate) const ROWS: u32 = 16;
