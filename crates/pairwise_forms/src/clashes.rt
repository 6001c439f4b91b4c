//! Whether some two members have one value.
//!
//! Of few members all pairs are the parts of one conjunction. Where a conjunction holds it tells of
//! one part in each call, and looks for that part from the first on, so of many members each has a
//! conjunction of its own, of its pairs with those behind it.
ghost use Rattle.std.specs.Prelude.{◌≡◌, ◌&&◌, ◌||◌, true, false, not, List, [], ◌∷◌, ℤ, length, IfOk, OnOk};
ghost use Rattle.std.specs.List.{All, list_any};
ghost use Rattle.form_build.specs.Forms.{truth_at, HasVariable};
ghost use Rattle.form_build.specs.Worlds.{IsWorld, Defines};
ghost use Rattle.form_truths.specs.Disjunctions.{disjunction_at, IsWithin};
ghost use Rattle.pairwise_forms.specs.Clashing.{clash_at, some_clash, IsKeyed, HasKeyPart, AreKeyed};

use crate::bodies::first_key;
use crate::members::Keyed;
use crate::same_keys::{is_out, same_keys};
use form_build::{Maker, Truth};
use form_truths::{Disjunction, copy_truth};
use quantifier_forms::{Part, none_from, push_turned};
use std::alloc::AllocError;

/// How many members have all their pairs in one conjunction.
const FEW: usize = 64;

/// The part as a member by its value.
fn keyed_part(maker: &mut Maker, p: &Part) -> Result<Keyed, AllocError>
    requires part { HasKeyPart maker.old.domains p.now }
    ensures keyed { IfOk result (λ e. AreKeyed maker.new (p.now ∷ []) (e ∷ [])) }
    ensures adds { IfOk result (λ e. Defines maker.old maker.new) }
{
    let key = first_key(maker, &p.bodies)?;
    let kept = copy_truth(&p.kept)?;
    Ok(Keyed { kept, key })
}

/// The parts as members by their values.
pub(crate) fn keyed(maker: &mut Maker, parts: &[Part]) -> Result<Vec<Keyed>, AllocError>
    requires parts { All (HasKeyPart maker.old.domains) parts.now }
    ensures keyed { IfOk result (λ es. AreKeyed maker.new parts.now es.items) }
    ensures adds { IfOk result (λ es. Defines maker.old maker.new) }
{
    let mut members = Vec::new(maker.alloc());
    for p in parts {
        let member = keyed_part(maker, p)?;
        members.push(member)?;
    }
    Ok(members)
}

/// Whether all three hold.
fn all_three(maker: &mut Maker, s: &Truth, t: &Truth, u: &Truth) -> Result<Truth, AllocError>
    requires first { HasVariable (length maker.old.domains) s.now }
    requires second { HasVariable (length maker.old.domains) t.now }
    requires third { HasVariable (length maker.old.domains) u.now }
    ensures variable { IfOk result (λ r. HasVariable (length maker.new.domains) r) }
    ensures value { IfOk result (λ r. (a : List ℤ) → IsWorld maker.new a → truth_at r a
        ≡ ((truth_at s.now a && truth_at t.now a) && truth_at u.now a)) }
    ensures adds { IfOk result (λ r. Defines maker.old maker.new) }
{
    let mut spared = Disjunction::new(maker.alloc());
    push_turned(maker, &mut spared, s)?;
    push_turned(maker, &mut spared, t)?;
    push_turned(maker, &mut spared, u)?;
    let r = none_from(maker, &spared)?;
    Ok(r)
}

/// Whether one of the two is surely left out.
fn is_one_out(e: &Keyed, f: &Keyed) -> bool
    ensures { result ≡ true → (a : List ℤ) → clash_at e.now f.now a ≡ false }
{
    is_out(&e.kept) || is_out(&f.kept)
}

/// Whether both members are kept and have one value.
pub(crate) fn clash_of(maker: &mut Maker, e: &Keyed, f: &Keyed) -> Result<Truth, AllocError>
    requires left { IsKeyed (length maker.old.domains) e.now }
    requires right { IsKeyed (length maker.old.domains) f.now }
    ensures variable { IfOk result (λ t. HasVariable (length maker.new.domains) t) }
    ensures value { IfOk result (λ t. (a : List ℤ) → IsWorld maker.new a
        → truth_at t a ≡ clash_at e.now f.now a) }
    ensures adds { IfOk result (λ t. Defines maker.old maker.new) }
{
    if is_one_out(e, f) {
        return Ok(Truth::Fixed(false));
    }
    let alike = same_keys(maker, e.key, f.key)?;
    if is_out(&alike) {
        return Ok(Truth::Fixed(false));
    }
    let t = all_three(maker, &e.kept, &f.kept, &alike)?;
    Ok(t)
}

/// Adds that both members are kept and have one value. Where the disjunction holds in any case
/// nothing is made.
fn push_clash(
    maker: &mut Maker,
    d: &mut Disjunction,
    e: &Keyed,
    f: &Keyed,
) -> Result<(), AllocError>
    requires left { IsKeyed (length maker.old.domains) e.now }
    requires right { IsKeyed (length maker.old.domains) f.now }
    requires exist { IsWithin (length maker.old.domains) d.old.1 }
    ensures value { OnOk result ((a : List ℤ) → IsWorld maker.new a → disjunction_at d.new a
        ≡ (disjunction_at d.old a || clash_at e.now f.now a)) }
    ensures exist { OnOk result (IsWithin (length maker.new.domains) d.new.1) }
    ensures adds { OnOk result (Defines maker.old maker.new) }
{
    if d.holds() {
        return Ok(());
    }
    let clash = clash_of(maker, e, f)?;
    d.push(clash)?;
    Ok(())
}

/// Adds that the member clashes with one of these.
fn push_clashes(
    maker: &mut Maker,
    d: &mut Disjunction,
    e: &Keyed,
    others: &[Keyed],
) -> Result<(), AllocError>
    requires left { IsKeyed (length maker.old.domains) e.now }
    requires right { All (IsKeyed (length maker.old.domains)) others.now }
    requires exist { IsWithin (length maker.old.domains) d.old.1 }
    ensures value { OnOk result ((a : List ℤ) → IsWorld maker.new a → disjunction_at d.new a
        ≡ (disjunction_at d.old a || list_any (λ f. clash_at e.now f a) others.now)) }
    ensures exist { OnOk result (IsWithin (length maker.new.domains) d.new.1) }
    ensures adds { OnOk result (Defines maker.old maker.new) }
{
    for f in others {
        push_clash(maker, d, e, f)?;
    }
    Ok(())
}

/// Adds that the member clashes with one of these, as one truth.
fn push_row(
    maker: &mut Maker,
    d: &mut Disjunction,
    e: &Keyed,
    others: &[Keyed],
) -> Result<(), AllocError>
    requires left { IsKeyed (length maker.old.domains) e.now }
    requires right { All (IsKeyed (length maker.old.domains)) others.now }
    requires exist { IsWithin (length maker.old.domains) d.old.1 }
    ensures value { OnOk result ((a : List ℤ) → IsWorld maker.new a → disjunction_at d.new a
        ≡ (disjunction_at d.old a || list_any (λ f. clash_at e.now f a) others.now)) }
    ensures exist { OnOk result (IsWithin (length maker.new.domains) d.new.1) }
    ensures adds { OnOk result (Defines maker.old maker.new) }
{
    let mut row = Disjunction::new(maker.alloc());
    push_clashes(maker, &mut row, e, others)?;
    let apart = none_from(maker, &row)?;
    push_turned(maker, d, &apart)?;
    Ok(())
}

/// Adds that the member clashes with one of these, of many members as one truth.
fn push_member(
    maker: &mut Maker,
    d: &mut Disjunction,
    many: bool,
    e: &Keyed,
    others: &[Keyed],
) -> Result<(), AllocError>
    requires left { IsKeyed (length maker.old.domains) e.now }
    requires right { All (IsKeyed (length maker.old.domains)) others.now }
    requires exist { IsWithin (length maker.old.domains) d.old.1 }
    ensures value { OnOk result ((a : List ℤ) → IsWorld maker.new a → disjunction_at d.new a
        ≡ (disjunction_at d.old a || list_any (λ f. clash_at e.now f a) others.now)) }
    ensures exist { OnOk result (IsWithin (length maker.new.domains) d.new.1) }
    ensures adds { OnOk result (Defines maker.old maker.new) }
{
    if many {
        push_row(maker, d, e, others)?;
        return Ok(());
    }
    push_clashes(maker, d, e, others)?;
    Ok(())
}

/// Whether no two members clash.
pub(crate) fn no_clash(maker: &mut Maker, members: &[Keyed]) -> Result<Truth, AllocError>
    requires members { All (IsKeyed (length maker.old.domains)) members.now }
    ensures variable { IfOk result (λ t. HasVariable (length maker.new.domains) t) }
    ensures value { IfOk result (λ t. (a : List ℤ) → IsWorld maker.new a
        → truth_at t a ≡ not (some_clash members.now a)) }
    ensures adds { IfOk result (λ t. Defines maker.old maker.new) }
{
    let many = members.len() > FEW;
    let mut clashes = Disjunction::new(maker.alloc());
    for i in 0..members.len() {
        push_member(maker, &mut clashes, many, &members[i], &members[i + 1..])?;
    }
    let t = none_from(maker, &clashes)?;
    Ok(t)
}
