//! Truths as numbers, and sums that count where a truth holds.
ghost use Rattle.std.specs.Prelude.{◌≡◌, ◌<◌, ◌≤◌, ◌^◌, ◌≤ℤ◌, ℕ, ℤ, Bool, List, [], true, false, cond, length, pos, neg_ℤ, unsigned_abs, IfOk, IfSome};
ghost use Rattle.std.specs.Int.{int_max, int_min};
ghost use Rattle.model_limits.specs.Limits.{most_width};
ghost use Rattle.signed_clause.specs.Ranges.{has};
ghost use Rattle.signed_clause.specs.Clauses.{Boxes, box_of};
ghost use Rattle.ground_form.specs.Meaning.{value_of, bit};
ghost use Rattle.ground_build.specs.Growing.{HasRoom, IsFlag};
ghost use Rattle.form_build.specs.Forms.{linear_at, truth_at, HasVariable};
ghost use Rattle.form_build.specs.Worlds.{IsWorld, Defines, IsFew, IsFlagOf, HasRoomFor};
ghost use Rattle.form_build.specs.Sums.{IsLinear, IsSum, LiesFrom, least_linear, greatest_linear};
ghost use Rattle.form_truths.specs.Parts.{IsOwnPart};

use crate::compare::is_number;
use crate::flags::own_want_at;
use form_build::{Linear, Maker, Truth, settled, variable};
use signed_clause::IntSet;
use std::alloc::{AllocError, Global};

/// Whether the variable's box is a flag's, and just its value 1 is in the set.
fn is_own_flag(boxes: &[IntSet], x: u32, set: &IntSet) -> bool
    requires { x < length boxes.now }
    ensures { result ≡ true → IsOwnPart (box_of boxes.now x) set.now true }
{
    match own_want_at(boxes, x, set) {
        Some(want) => want,
        None => false,
    }
}

/// The number of a truth.
fn number_of(alloc: Global, b: bool) -> Linear
    ensures value { (a : List ℤ) → linear_at result a ≡ bit b }
    ensures linear { (boxes : Boxes) → IsLinear 1 boxes result }
    ensures lies { (boxes : Boxes) → LiesFrom (bit b) (bit b) boxes result }
{
    if b {
        Linear::number(alloc, 1)
    } else {
        Linear::number(alloc, 0)
    }
}

/// A flag that has this value in every world.
fn fixed_flag(m: &mut Maker, b: bool) -> Result<u32, AllocError>
    requires room { HasRoom m.old }
    ensures flag { IfOk result (λ f. IsFlagOf m.new f (λ a. b)) }
    ensures adds { IfOk result (λ f. Defines m.old m.new) }
    ensures few { IfOk result (λ f. IsFew 1 m.old m.new) }
{
    let value = number_of(m.alloc(), b);
    let f = m.linear(&value)?;
    Ok(f)
}

/// A flag that is 1 exactly where the truth holds.
pub fn flag_of(m: &mut Maker, t: &Truth) -> Result<u32, AllocError>
    requires room { HasRoom m.old }
    requires variable { HasVariable (length m.old.domains) t.now }
    ensures flag { IfOk result (λ f. IsFlagOf m.new f (λ a. truth_at t.now a)) }
    ensures adds { IfOk result (λ f. Defines m.old m.new) }
    ensures few { IfOk result (λ f. IsFew 1 m.old m.new) }
{
    match t {
        Truth::Fixed(b) => {
            let f = fixed_flag(m, *b)?;
            Ok(f)
        }
        Truth::In(x, set) => {
            let f = flag_in(m, *x, set)?;
            Ok(f)
        }
    }
}

/// A flag that is 1 exactly where the variable's value is in the set.
fn flag_in(m: &mut Maker, x: u32, set: &IntSet) -> Result<u32, AllocError>
    requires room { HasRoom m.old }
    requires exists { x < length m.old.domains }
    ensures flag { IfOk result (λ f. IsFlagOf m.new f (λ a. has set.now (value_of a x))) }
    ensures adds { IfOk result (λ f. Defines m.old m.new) }
    ensures few { IfOk result (λ f. IsFew 1 m.old m.new) }
{
    if is_own_flag(m.domains(), x, set) {
        return Ok(x);
    }
    let f = m.member(x, set.copy()?)?;
    Ok(f)
}

/// A sum where the flag is 1, and 0 where it is 0.
pub fn counted(m: &mut Maker, flag: u32, f: &Linear) -> Result<Linear, AllocError>
    requires room { HasRoomFor 2 m.old }
    requires exists { flag < length m.old.domains }
    requires flag { IsFlag m.old flag }
    requires linear { IsLinear (2 ^ 58) m.old.domains f.now }
    requires low { neg_ℤ (pos most_width) ≤ℤ least_linear f.now m.old.domains }
    requires high { greatest_linear f.now m.old.domains ≤ℤ pos most_width }
    ensures value { IfOk result (λ r. (a : List ℤ) (b : Bool) → IsWorld m.new a
        → value_of a flag ≡ bit b → linear_at r a ≡ cond b (linear_at f.now a) (pos 0)) }
    ensures sum { IfOk result (λ r. IsSum m.new.domains
        (int_min (pos 0) (least_linear f.now m.old.domains))
        (int_max (pos 0) (greatest_linear f.now m.old.domains)) r) }
    ensures adds { IfOk result (λ r. Defines m.old m.new) }
    ensures few { IfOk result (λ r. IsFew 2 m.old m.new) }
{
    let item = settled(m, f)?;
    let x = m.when(flag, item)?;
    let _domains = m.domains();
    let r = variable(m, x)?;
    Ok(r)
}

/// A number where the flag is 1, and 0 where it is 0: a term of the flag, and no new variable.
fn number_where(m: &Maker, flag: u32, f: &Linear) -> Result<Linear, AllocError>
    requires exists { flag < length m.now.domains }
    requires flag { IsFlag m.now flag }
    requires number { f.now.terms ≡ [] }
    requires small { unsigned_abs f.now.offset ≤ 2 ^ 58 }
    ensures value { IfOk result (λ r. (a : List ℤ) (b : Bool) → IsWorld m.now a
        → value_of a flag ≡ bit b → linear_at r a ≡ cond b (linear_at f.now a) (pos 0)) }
    ensures sum { IfOk result (λ r. IsSum m.now.domains
        (int_min (pos 0) (least_linear f.now m.now.domains))
        (int_max (pos 0) (greatest_linear f.now m.now.domains)) r) }
{
    let _domains = m.domains();
    let one = variable(m, flag)?;
    let r = one.times(m.alloc(), f.offset)?;
    Ok(r)
}

/// A sum where the truth holds, and 0 where it doesn't.
pub fn times_truth(m: &mut Maker, f: &Linear, t: &Truth) -> Result<Linear, AllocError>
    requires room { HasRoomFor 3 m.old }
    requires variable { HasVariable (length m.old.domains) t.now }
    requires linear { IsLinear (2 ^ 58) m.old.domains f.now }
    requires low { neg_ℤ (pos most_width) ≤ℤ least_linear f.now m.old.domains }
    requires high { greatest_linear f.now m.old.domains ≤ℤ pos most_width }
    ensures value { IfOk result (λ r. (a : List ℤ) → IsWorld m.new a
        → linear_at r a ≡ cond (truth_at t.now a) (linear_at f.now a) (pos 0)) }
    ensures sum { IfOk result (λ r. IsSum m.new.domains
        (int_min (pos 0) (least_linear f.now m.old.domains))
        (int_max (pos 0) (greatest_linear f.now m.old.domains)) r) }
    ensures adds { IfOk result (λ r. Defines m.old m.new) }
    ensures few { IfOk result (λ r. IsFew 3 m.old m.new) }
{
    let flag = flag_of(m, t)?;
    if is_number(f) {
        let r = number_where(m, flag, f)?;
        return Ok(r);
    }
    let r = counted(m, flag, f)?;
    Ok(r)
}
