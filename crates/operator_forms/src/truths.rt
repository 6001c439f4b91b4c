//! Truths joined: both, one of two, one where the other is, and truths that are the same.
//!
//! Nothing is made where one side is fixed, or where both ask about one variable and are joined.
ghost use Rattle.std.specs.Prelude.{◌≡◌, ◌&&◌, ◌||◌, true, not, List, ℤ, length, IfOk, IfSome};
ghost use Rattle.conf_eval.specs.Meaning.{truth_same};
ghost use Rattle.form_build.specs.Forms.{truth_at, HasVariable};
ghost use Rattle.form_build.specs.Worlds.{IsWorld, Defines, IsFew, HasRoomFor};
ghost use Rattle.form_truths.specs.Tests.{wanted};
ghost use Rattle.operator_forms.specs.Operating.{takes_truths, truth_between};

use conf_syntax::Op;
use form_build::{Maker, Truth, turned};
use form_truths::{Disjunction, copy_truth, flag_of, same_truth, truth_of};
use std::alloc::AllocError;

/// The truth that holds where another doesn't.
fn opposite(maker: &Maker, t: &Truth) -> Result<Truth, AllocError>
    requires variable { HasVariable (length maker.now.domains) t.now }
    ensures variable { IfOk result (λ u. HasVariable (length maker.now.domains) u) }
    ensures value { IfOk result (λ u. (a : List ℤ) → IsWorld maker.now a
        → truth_at u a ≡ not (truth_at t.now a)) }
{
    let u = turned(maker.alloc(), maker.domains(), t)?;
    Ok(u)
}

/// Whether one of two truths holds.
fn some_of(maker: &mut Maker, p: Truth, q: Truth) -> Result<Truth, AllocError>
    requires room { HasRoomFor 3 maker.old }
    requires left { HasVariable (length maker.old.domains) p }
    requires right { HasVariable (length maker.old.domains) q }
    ensures variable { IfOk result (λ t. HasVariable (length maker.new.domains) t) }
    ensures value { IfOk result (λ t. (a : List ℤ) → IsWorld maker.new a
        → truth_at t a ≡ (truth_at p a || truth_at q a)) }
    ensures adds { IfOk result (λ t. Defines maker.old maker.new) }
    ensures few { IfOk result (λ t. IsFew 3 maker.old maker.new) }
{
    let mut d = Disjunction::new(maker.alloc());
    d.push(p)?;
    d.push(q)?;
    let t = truth_of(maker, &d)?;
    Ok(t)
}

/// Whether both truths hold.
fn both_of(maker: &mut Maker, p: &Truth, q: &Truth) -> Result<Truth, AllocError>
    requires room { HasRoomFor 3 maker.old }
    requires left { HasVariable (length maker.old.domains) p.now }
    requires right { HasVariable (length maker.old.domains) q.now }
    ensures variable { IfOk result (λ t. HasVariable (length maker.new.domains) t) }
    ensures value { IfOk result (λ t. (a : List ℤ) → IsWorld maker.new a
        → truth_at t a ≡ (truth_at p.now a && truth_at q.now a)) }
    ensures adds { IfOk result (λ t. Defines maker.old maker.new) }
    ensures few { IfOk result (λ t. IsFew 3 maker.old maker.new) }
{
    let not_p = opposite(maker, p)?;
    let not_q = opposite(maker, q)?;
    let missing = some_of(maker, not_p, not_q)?;
    let t = opposite(maker, &missing)?;
    Ok(t)
}

/// Whether the second truth holds where the first does.
fn implied(maker: &mut Maker, p: &Truth, q: &Truth) -> Result<Truth, AllocError>
    requires room { HasRoomFor 3 maker.old }
    requires left { HasVariable (length maker.old.domains) p.now }
    requires right { HasVariable (length maker.old.domains) q.now }
    ensures variable { IfOk result (λ t. HasVariable (length maker.new.domains) t) }
    ensures value { IfOk result (λ t. (a : List ℤ) → IsWorld maker.new a
        → truth_at t a ≡ (not (truth_at p.now a) || truth_at q.now a)) }
    ensures adds { IfOk result (λ t. Defines maker.old maker.new) }
    ensures few { IfOk result (λ t. IsFew 3 maker.old maker.new) }
{
    let not_p = opposite(maker, p)?;
    let then = copy_truth(q)?;
    let t = some_of(maker, not_p, then)?;
    Ok(t)
}

/// Whether one of two truths holds, which stay.
fn either_of(maker: &mut Maker, p: &Truth, q: &Truth) -> Result<Truth, AllocError>
    requires room { HasRoomFor 3 maker.old }
    requires left { HasVariable (length maker.old.domains) p.now }
    requires right { HasVariable (length maker.old.domains) q.now }
    ensures variable { IfOk result (λ t. HasVariable (length maker.new.domains) t) }
    ensures value { IfOk result (λ t. (a : List ℤ) → IsWorld maker.new a
        → truth_at t a ≡ (truth_at p.now a || truth_at q.now a)) }
    ensures adds { IfOk result (λ t. Defines maker.old maker.new) }
    ensures few { IfOk result (λ t. IsFew 3 maker.old maker.new) }
{
    let left = copy_truth(p)?;
    let right = copy_truth(q)?;
    let t = some_of(maker, left, right)?;
    Ok(t)
}

/// The truth that is fixed, where it is.
fn fixed(t: &Truth) -> Option<bool>
    ensures { IfSome result (λ b. (a : List ℤ) → truth_at t.now a ≡ b) }
{
    match t {
        Truth::Fixed(b) => Some(*b),
        Truth::In(_, _) => None,
    }
}

/// The truth itself, or the one that holds where it doesn't.
fn as_wanted(maker: &Maker, t: &Truth, want: bool) -> Result<Truth, AllocError>
    requires variable { HasVariable (length maker.now.domains) t.now }
    ensures variable { IfOk result (λ u. HasVariable (length maker.now.domains) u) }
    ensures value { IfOk result (λ u. (a : List ℤ) → IsWorld maker.now a
        → truth_at u a ≡ wanted want (truth_at t.now a)) }
{
    if want {
        let u = copy_truth(t)?;
        return Ok(u);
    }
    let u = opposite(maker, t)?;
    Ok(u)
}

/// Whether two flags that are these truths are the same, or aren't.
fn same_flags(maker: &mut Maker, p: &Truth, q: &Truth, want: bool) -> Result<Truth, AllocError>
    requires room { HasRoomFor 3 maker.old }
    requires left { HasVariable (length maker.old.domains) p.now }
    requires right { HasVariable (length maker.old.domains) q.now }
    ensures variable { IfOk result (λ t. HasVariable (length maker.new.domains) t) }
    ensures value { IfOk result (λ t. (a : List ℤ) → IsWorld maker.new a
        → truth_at t a ≡ wanted want (truth_same (truth_at p.now a) (truth_at q.now a))) }
    ensures adds { IfOk result (λ t. Defines maker.old maker.new) }
    ensures few { IfOk result (λ t. IsFew 3 maker.old maker.new) }
{
    let x = flag_of(maker, p)?;
    let y = flag_of(maker, q)?;
    let t = same_truth(maker, x, y, want)?;
    Ok(t)
}

/// Whether it is so that two truths are the same, or that they aren't. Where one is fixed, that is
/// the other one, or its opposite.
fn same_truths(maker: &mut Maker, p: &Truth, q: &Truth, want: bool) -> Result<Truth, AllocError>
    requires room { HasRoomFor 3 maker.old }
    requires left { HasVariable (length maker.old.domains) p.now }
    requires right { HasVariable (length maker.old.domains) q.now }
    ensures variable { IfOk result (λ t. HasVariable (length maker.new.domains) t) }
    ensures value { IfOk result (λ t. (a : List ℤ) → IsWorld maker.new a
        → truth_at t a ≡ wanted want (truth_same (truth_at p.now a) (truth_at q.now a))) }
    ensures adds { IfOk result (λ t. Defines maker.old maker.new) }
    ensures few { IfOk result (λ t. IsFew 3 maker.old maker.new) }
{
    if let Some(b) = fixed(p) {
        let t = as_wanted(maker, q, b == want)?;
        return Ok(t);
    }
    if let Some(b) = fixed(q) {
        let t = as_wanted(maker, p, b == want)?;
        return Ok(t);
    }
    let t = same_flags(maker, p, q, want)?;
    Ok(t)
}

/// What an operator makes of two truths.
pub(crate) fn joined(maker: &mut Maker, op: Op, p: &Truth, q: &Truth) -> Result<Truth, AllocError>
    requires room { HasRoomFor 3 maker.old }
    requires takes { takes_truths op ≡ true }
    requires left { HasVariable (length maker.old.domains) p.now }
    requires right { HasVariable (length maker.old.domains) q.now }
    ensures variable { IfOk result (λ t. HasVariable (length maker.new.domains) t) }
    ensures value { IfOk result (λ t. (a : List ℤ) → IsWorld maker.new a → truth_at t a
        ≡ truth_between op (truth_at p.now a) (truth_at q.now a)) }
    ensures adds { IfOk result (λ t. Defines maker.old maker.new) }
    ensures few { IfOk result (λ t. IsFew 3 maker.old maker.new) }
{
    match op {
        Op::And => both_of(maker, p, q),
        Op::Or => either_of(maker, p, q),
        Op::Implies => implied(maker, p, q),
        Op::Eq => same_truths(maker, p, q, true),
        Op::Ne => same_truths(maker, p, q, false),
        _ => unreachable!(),
    }
}
