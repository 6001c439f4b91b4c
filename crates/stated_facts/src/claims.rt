//! What follows from the value of a variable, by the constraints that define it: values that others
//! have, and values that they don't have.
ghost use Rattle.std.specs.Prelude.{◌≡◌, ◌≤ℤ◌, ◌+ℤ◌, ◌∷◌, [], ℤ, List, pos, true, false, int_le, Contains, IfOk, IfSome, OnOk};
ghost use Rattle.std.specs.List.{All};
ghost use Rattle.std.specs.Ordering.{int_eq};
ghost use Rattle.signed_clause.specs.Ranges.{has};
ghost use Rattle.ground_form.specs.Meaning.{value_of, bit, sum_at, parts_true};
ghost use Rattle.form_build.specs.Worlds.{IsInBoxes, IsWorld, AllHold};
ghost use Rattle.stated_facts.specs.Claims.{IsLoad, AreZero, Hold, Leads};

use crate::constants::only_value;
use crate::definitions::definition;
use form_build::Maker;
use ground_form::{Con, ends_of};
use signed_clause::IntSet;
use std::alloc::{AllocError, Global};

/// So many claims are looked at.
const MOST_CLAIMS: usize = 1 << 14;

/// Values that variables have, and values that they don't have.
#[derive(Drop)]
pub struct Claims {
    /// Variables with values that they have.
    pub values: Vec<(u32, i64)>,
    /// Variables with values that they don't have.
    pub others: Vec<(u32, u64)>,
}

// ---- flags that ask about a variable

/// The value of a set, where it has just one.
fn single(set: &IntSet) -> Option<i64>
    ensures { IfSome result (λ v. set.now ≡ (v, v) ∷ []) }
{
    match set.ranges() {
        [r] => { if r.0 == r.1 { Some(r.0) } else { None } }
        _ => None,
    }
}

/// The box of a variable, in which its value lies.
fn box_at(maker: &Maker, x: u32) -> Option<&IntSet>
    ensures { IfSome result (λ s. (a : List ℤ) → IsInBoxes maker.now.domains a
        → has s.now (value_of a x) ≡ true) }
{
    let boxes = maker.domains();
    if (x as usize) < boxes.len() {
        Some(&boxes[x as usize])
    } else {
        None
    }
}

/// The values that are left to a variable in a set.
fn left_in(maker: &Maker, x: u32, set: &IntSet) -> Result<Option<IntSet>, AllocError>
    ensures { IfOk result (λ o. IfSome o (λ left. (a : List ℤ) → IsInBoxes maker.now.domains a
        → has set.now (value_of a x) ≡ true → has left (value_of a x) ≡ true)) }
{
    match box_at(maker, x) {
        Some(at) => {
            let left = at.meet(set)?;
            Ok(Some(left))
        }
        None => Ok(None),
    }
}

/// The values that are left to a variable outside a set.
fn left_out(maker: &Maker, x: u32, set: &IntSet) -> Result<Option<IntSet>, AllocError>
    ensures { IfOk result (λ o. IfSome o (λ left. (a : List ℤ) → IsInBoxes maker.now.domains a
        → has set.now (value_of a x) ≡ false → has left (value_of a x) ≡ true)) }
{
    match box_at(maker, x) {
        Some(at) => {
            let left = at.less(set)?;
            Ok(Some(left))
        }
        None => Ok(None),
    }
}

/// Whether a constraint defines the variable as a flag or a sum.
fn is_defined(maker: &Maker, indexes: &[usize], x: u32) -> bool {
    match definition(maker, indexes, x) {
        Some(Con::MemberDef { flag, .. }) => *flag == x,
        Some(Con::AndDef { flag, .. }) => *flag == x,
        Some(Con::ReifLe { flag, .. }) => *flag == x,
        Some(Con::LinDef { out, .. }) => *out == x,
        _ => false,
    }
}

/// Claims that a variable has a value.
fn claim_value(c: &mut Claims, x: u32, v: i64) -> Result<(), AllocError>
    ensures { OnOk result ((a : List ℤ) → value_of a x ≡ v → Hold c.old a → Hold c.new a) }
{
    c.values.push((x, v))?;
    Ok(())
}

/// Claims that a variable doesn't have a value.
fn claim_other(c: &mut Claims, x: u32, v: u64) -> Result<(), AllocError>
    ensures { OnOk result ((a : List ℤ) → int_eq (value_of a x) (pos v) ≡ false → Hold c.old a
        → Hold c.new a) }
{
    c.others.push((x, v))?;
    Ok(())
}

/// Claims that a variable has the value that is left to it. Says whether it is one.
fn claim_only(c: &mut Claims, x: u32, left: &IntSet) -> Result<bool, AllocError>
    ensures { IfOk result (λ ok. ok ≡ true → (a : List ℤ) → has left.now (value_of a x) ≡ true
        → Hold c.old a → Hold c.new a) }
{
    match single(left) {
        Some(v) => {
            claim_value(c, x, v)?;
            Ok(true)
        }
        None => Ok(false),
    }
}

/// Claims what it tells of a variable that it is in a set. Says whether it tells something.
fn claim_inside(maker: &Maker, c: &mut Claims, x: u32, set: &IntSet) -> Result<bool, AllocError>
    ensures { IfOk result (λ ok. ok ≡ true → (a : List ℤ) → IsInBoxes maker.now.domains a
        → has set.now (value_of a x) ≡ true → Hold c.old a → Hold c.new a) }
{
    match left_in(maker, x, set)? {
        Some(left) => {
            let ok = claim_only(c, x, &left)?;
            Ok(ok)
        }
        None => Ok(false),
    }
}

/// Claims that a variable isn't the value of a set that has one alone. Says whether it has.
fn claim_away(c: &mut Claims, x: u32, set: &IntSet) -> Result<bool, AllocError>
    ensures { IfOk result (λ ok. ok ≡ true → (a : List ℤ) → has set.now (value_of a x) ≡ false
        → Hold c.old a → Hold c.new a) }
{
    match only_value(set) {
        Some(v) => {
            claim_other(c, x, v)?;
            Ok(true)
        }
        None => Ok(false),
    }
}

/// Claims what it tells of a variable that it isn't in a set: of one that is defined by others its
/// value, of a cell a value that it doesn't have. Says whether it tells something.
fn claim_outside(
    maker: &Maker,
    indexes: &[usize],
    c: &mut Claims,
    x: u32,
    set: &IntSet,
) -> Result<bool, AllocError>
    ensures { IfOk result (λ ok. ok ≡ true → (a : List ℤ) → IsInBoxes maker.now.domains a
        → has set.now (value_of a x) ≡ false → Hold c.old a → Hold c.new a) }
{
    if !is_defined(maker, indexes, x) {
        let ok = claim_away(c, x, set)?;
        return Ok(ok);
    }
    match left_out(maker, x, set)? {
        Some(left) => {
            let ok = claim_only(c, x, &left)?;
            Ok(ok)
        }
        None => Ok(false),
    }
}

/// Claims what the flag that asks whether a variable is in a set tells of it by its value. Says
/// whether it tells something.
fn claim_member(
    maker: &Maker,
    indexes: &[usize],
    c: &mut Claims,
    x: u32,
    set: &IntSet,
    value: i64,
) -> Result<bool, AllocError>
    ensures { IfOk result (λ ok. ok ≡ true → (a : List ℤ) → IsInBoxes maker.now.domains a
        → value ≡ bit (has set.now (value_of a x)) → Hold c.old a → Hold c.new a) }
{
    if value == 1 {
        let ok = claim_inside(maker, c, x, set)?;
        return Ok(ok);
    }
    if value == 0 {
        let ok = claim_outside(maker, indexes, c, x, set)?;
        return Ok(ok);
    }
    Ok(false)
}

/// The value that stands for a truth.
pub fn bit_of(b: bool) -> i64
    ensures { result ≡ bit b }
{
    if b { 1 } else { 0 }
}

/// Claims of each part the truth that it wants.
fn claim_parts(c: &mut Claims, parts: &[(u32, bool)]) -> Result<(), AllocError>
    ensures { OnOk result ((a : List ℤ) → parts_true parts.now a ≡ true → Hold c.old a
        → Hold c.new a) }
{
    for part in parts {
        claim_value(c, part.0, bit_of(part.1))?;
    }
    Ok(())
}

// ---- sums

/// Whether the term's variable is never below 0, and its factor has this sign.
fn is_load(boxes: &[IntSet], t: (i64, u32), rises: bool) -> bool
    ensures { result ≡ true → IsLoad boxes.now rises t }
{
    t.0 != 0
        && (t.0 > 0) == rises
        && (t.1 as usize) < boxes.len()
        && ends_of(&boxes[t.1 as usize]).0 >= 0
}

/// Whether that is so of all terms.
fn are_loads(boxes: &[IntSet], terms: &[(i64, u32)], rises: bool) -> bool
    ensures { result ≡ true → All (IsLoad boxes.now rises) terms.now }
{
    for t in terms {
        if !is_load(boxes, *t, rises) {
            return false;
        }
    }
    true
}

/// Claims that each term's variable is 0.
fn claim_zeros(c: &mut Claims, terms: &[(i64, u32)]) -> Result<(), AllocError>
    ensures { OnOk result ((a : List ℤ) → AreZero terms.now a → Hold c.old a → Hold c.new a) }
{
    for t in terms {
        claim_value(c, t.1, 0)?;
    }
    Ok(())
}

/// Claims that the terms, which add up to at most 0 where they rise, and else to at least 0, are
/// 0. Says whether that is so.
fn claim_nothing(
    maker: &Maker,
    c: &mut Claims,
    terms: &[(i64, u32)],
    rises: bool,
) -> Result<bool, AllocError>
    ensures { IfOk result (λ ok. ok ≡ true → (a : List ℤ) → IsInBoxes maker.now.domains a
        → (rises ≡ true → sum_at terms.now a ≤ℤ pos 0)
        → (rises ≡ false → pos 0 ≤ℤ sum_at terms.now a) → Hold c.old a → Hold c.new a) }
{
    if !are_loads(maker.domains(), terms, rises) {
        return Ok(false);
    }
    claim_zeros(c, terms)?;
    Ok(true)
}

/// Claims what the flag that asks whether terms add up to at most a bound tells of them by this
/// value. Says whether it tells something.
fn claim_bounded(
    maker: &Maker,
    c: &mut Claims,
    terms: &[(i64, u32)],
    bound: i64,
    value: i64,
) -> Result<bool, AllocError>
    ensures { IfOk result (λ ok. ok ≡ true → (a : List ℤ) → IsInBoxes maker.now.domains a
        → value ≡ bit (int_le (sum_at terms.now a) bound) → Hold c.old a → Hold c.new a) }
{
    if value == 1 && bound <= 0 {
        let ok = claim_nothing(maker, c, terms, true)?;
        return Ok(ok);
    }
    if value == 0 && bound >= -1 {
        let ok = claim_nothing(maker, c, terms, false)?;
        return Ok(ok);
    }
    Ok(false)
}

/// Claims what a sum tells of its terms by its value. Says whether it tells something.
fn claim_sum(
    maker: &Maker,
    c: &mut Claims,
    terms: &[(i64, u32)],
    offset: i64,
    value: i64,
) -> Result<bool, AllocError>
    ensures { IfOk result (λ ok. ok ≡ true → (a : List ℤ) → IsInBoxes maker.now.domains a
        → value ≡ (sum_at terms.now a +ℤ offset) → Hold c.old a → Hold c.new a) }
{
    if value != offset {
        return Ok(false);
    }
    let rises = match terms {
        [t, ..] => t.0 > 0,
        _ => true,
    };
    let ok = claim_nothing(maker, c, terms, rises)?;
    Ok(ok)
}

// ---- all that follows

/// Claims what the flag that asks whether parts have the truths that they want tells of them by its
/// value. Says whether it tells something.
fn claim_all(c: &mut Claims, parts: &[(u32, bool)], value: i64) -> Result<bool, AllocError>
    ensures { IfOk result (λ ok. ok ≡ true → (a : List ℤ) → value ≡ bit (parts_true parts.now a)
        → Hold c.old a → Hold c.new a) }
{
    if value != 1 {
        return Ok(false);
    }
    claim_parts(c, parts)?;
    Ok(true)
}

/// Claims what a constraint tells that defines the variable, by the value. Says whether it does.
fn claim_by(
    maker: &Maker,
    indexes: &[usize],
    c: &mut Claims,
    con: &Con,
    k: (u32, i64),
) -> Result<bool, AllocError>
    requires { Contains maker.now.cons con.now }
    ensures { IfOk result (λ ok. ok ≡ true → Leads maker.now k c.old c.new) }
{
    match con {
        Con::MemberDef { flag, var, set } => {
            if *flag != k.0 {
                return Ok(false);
            }
            let ok = claim_member(maker, indexes, c, *var, set, k.1)?;
            Ok(ok)
        }
        Con::AndDef { flag, parts } => {
            if *flag != k.0 {
                return Ok(false);
            }
            let ok = claim_all(c, parts.items(), k.1)?;
            Ok(ok)
        }
        Con::ReifLe { flag, terms, bound } => {
            if *flag != k.0 {
                return Ok(false);
            }
            let ok = claim_bounded(maker, c, terms.items(), *bound, k.1)?;
            Ok(ok)
        }
        Con::LinDef { out, terms, offset } => {
            if *out != k.0 {
                return Ok(false);
            }
            let ok = claim_sum(maker, c, terms.items(), *offset, k.1)?;
            Ok(ok)
        }
        _ => Ok(false),
    }
}

/// Claims what follows from a claim. Says whether something does.
fn claim_more(
    maker: &Maker,
    indexes: &[usize],
    c: &mut Claims,
    k: (u32, i64),
) -> Result<bool, AllocError>
    ensures { IfOk result (λ ok. ok ≡ true → Leads maker.now k c.old c.new) }
{
    match definition(maker, indexes, k.0) {
        Some(con) => {
            let ok = claim_by(maker, indexes, c, con, k)?;
            Ok(ok)
        }
        None => Ok(false),
    }
}

/// The claim of this number that a variable has a value.
fn claim_at(c: &Claims, i: usize) -> Option<(u32, i64)>
    ensures { IfSome result (λ k. Contains c.now.values.items k) }
{
    if i < c.values.len() {
        Some(c.values[i])
    } else {
        None
    }
}

/// What is claimed at first.
fn claims_from(alloc: Global, x: u32, value: i64) -> Result<Claims, AllocError>
    ensures { IfOk result (λ c. (a : List ℤ) → value_of a x ≡ value → Hold c a) }
{
    let mut values = Vec::new(alloc);
    values.push((x, value))?;
    Ok(Claims {
        values,
        others: Vec::new(alloc),
    })
}

/// What follows where the variable has the value, down to values that variables don't have. None
/// where some claim leads to nothing more.
pub fn claims_of(
    maker: &Maker,
    indexes: &[usize],
    x: u32,
    value: i64,
) -> Result<Option<Claims>, AllocError>
    ensures { IfOk result (λ o. IfSome o (λ c. (a : List ℤ) → IsWorld maker.now a
        → AllHold maker.now a → value_of a x ≡ value → Hold c a)) }
{
    let mut c = claims_from(maker.alloc(), x, value)?;
    for i in 0..MOST_CLAIMS {
        let Some(k) = claim_at(&c, i) else {
            return Ok(Some(c));
        };
        if !claim_more(maker, indexes, &mut c, k)? {
            return Ok(None);
        }
    }
    Ok(None)
}
