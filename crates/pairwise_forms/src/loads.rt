//! How much counts at an item's place, and whether that is more than its room.
ghost use Rattle.std.specs.Prelude.{◌≡◌, ◌^◌, ◌-ℤ◌, ◌&&◌, not, List, [], ◌∷◌, ℤ, pos, cond, length, map, int_le, IfOk};
ghost use Rattle.std.specs.List.{All};
ghost use Rattle.std.specs.Int.{int_max, int_min};
ghost use Rattle.form_build.specs.Forms.{linear_at, truth_at, HasVariable};
ghost use Rattle.form_build.specs.Sums.{IsLinear, IsSum};
ghost use Rattle.form_build.specs.Worlds.{IsWorld, Defines};
ghost use Rattle.quantifier_forms.specs.Quantified.{IsNarrow};
ghost use Rattle.pairwise_forms.specs.Packing.{counts_at, size_there, load_there, is_overfull, some_overfull, IsPacked, HasItemPart, AreItems, AreNarrow};

use crate::bodies::{first_key, second_of, third_of};
use crate::members::Packed;
use crate::same_keys::{is_out, same_keys};
use form_build::{Linear, Maker, Truth};
use form_truths::{Disjunction, copy_truth, is_below};
use quantifier_forms::{Part, none_from, push_turned, sum_where, total};
use std::alloc::AllocError;

/// The part as an item.
fn packed_part(maker: &mut Maker, p: &Part) -> Result<Packed, AllocError>
    requires part { HasItemPart maker.old.domains p.now }
    ensures item { IfOk result (λ e. AreItems maker.new (p.now ∷ []) (e ∷ [])) }
    ensures adds { IfOk result (λ e. Defines maker.old maker.new) }
{
    let place = first_key(maker, &p.bodies)?;
    let kept = copy_truth(&p.kept)?;
    let size = second_of(maker.alloc(), &p.bodies)?;
    let room = third_of(maker.alloc(), &p.bodies)?;
    Ok(Packed {
        kept,
        place,
        size,
        room,
    })
}

/// The parts as items.
pub(crate) fn packed(maker: &mut Maker, parts: &[Part]) -> Result<Vec<Packed>, AllocError>
    requires parts { All (HasItemPart maker.old.domains) parts.now }
    ensures items { IfOk result (λ es. AreItems maker.new parts.now es.items) }
    ensures adds { IfOk result (λ es. Defines maker.old maker.new) }
{
    let mut items = Vec::new(maker.alloc());
    for p in parts {
        let item = packed_part(maker, p)?;
        items.push(item)?;
    }
    Ok(items)
}

/// Whether both hold.
fn both(maker: &mut Maker, s: &Truth, t: &Truth) -> Result<Truth, AllocError>
    requires left { HasVariable (length maker.old.domains) s.now }
    requires right { HasVariable (length maker.old.domains) t.now }
    ensures variable { IfOk result (λ u. HasVariable (length maker.new.domains) u) }
    ensures value { IfOk result (λ u. (a : List ℤ) → IsWorld maker.new a
        → truth_at u a ≡ (truth_at s.now a && truth_at t.now a)) }
    ensures adds { IfOk result (λ u. Defines maker.old maker.new) }
{
    let mut lacking = Disjunction::new(maker.alloc());
    push_turned(maker, &mut lacking, s)?;
    push_turned(maker, &mut lacking, t)?;
    let u = none_from(maker, &lacking)?;
    Ok(u)
}

/// Whether the second item counts at the place of the first.
fn counts(maker: &mut Maker, e: &Packed, f: &Packed) -> Result<Truth, AllocError>
    requires left { IsPacked maker.old.domains e.now }
    requires right { IsPacked maker.old.domains f.now }
    ensures variable { IfOk result (λ t. HasVariable (length maker.new.domains) t) }
    ensures value { IfOk result (λ t. (a : List ℤ) → IsWorld maker.new a
        → truth_at t a ≡ counts_at e.now f.now a) }
    ensures adds { IfOk result (λ t. Defines maker.old maker.new) }
{
    if is_out(&f.kept) {
        return Ok(Truth::Fixed(false));
    }
    let alike = same_keys(maker, e.place, f.place)?;
    let t = both(maker, &f.kept, &alike)?;
    Ok(t)
}

/// What the second item adds at the place of the first.
fn added(maker: &mut Maker, e: &Packed, f: &Packed) -> Result<Linear, AllocError>
    requires left { IsPacked maker.old.domains e.now }
    requires right { IsPacked maker.old.domains f.now }
    requires narrow { IsNarrow maker.old.domains f.now.size }
    ensures value { IfOk result (λ r. (a : List ℤ) → IsWorld maker.new a
        → linear_at r a ≡ size_there e.now f.now a) }
    ensures sum { IfOk result (λ r. (low high : ℤ)
        → IsSum maker.old.domains low high f.now.size
        → IsSum maker.new.domains (int_min low (pos 0)) (int_max high (pos 0)) r) }
    ensures adds { IfOk result (λ r. Defines maker.old maker.new) }
{
    let t = counts(maker, e, f)?;
    let r = sum_where(maker, &f.size, &t)?;
    Ok(r)
}

/// What each item adds at the place of one.
fn all_added(maker: &mut Maker, e: &Packed, items: &[Packed]) -> Result<Vec<Linear>, AllocError>
    requires item { IsPacked maker.old.domains e.now }
    requires items { All (IsPacked maker.old.domains) items.now }
    requires narrow { All (λ f. IsNarrow maker.old.domains f.size) items.now }
    ensures values { IfOk result (λ sums. (a : List ℤ) → IsWorld maker.new a
        → map (λ r. linear_at r a) sums.items ≡ map (λ f. size_there e.now f a) items.now) }
    ensures sums { IfOk result (λ sums. (low high : ℤ)
        → All (λ f. IsSum maker.old.domains low high f.size) items.now
        → All (IsSum maker.new.domains (int_min low (pos 0)) (int_max high (pos 0))) sums.items) }
    ensures count { IfOk result (λ sums. length sums.items ≡ length items.now) }
    ensures adds { IfOk result (λ sums. Defines maker.old maker.new) }
{
    let mut sums = Vec::new(maker.alloc());
    for f in items {
        let r = added(maker, e, f)?;
        sums.push(r)?;
    }
    Ok(sums)
}

/// What counts at the place of an item.
fn load(maker: &mut Maker, e: &Packed, items: &[Packed]) -> Result<Linear, AllocError>
    requires item { IsPacked maker.old.domains e.now }
    requires items { All (IsPacked maker.old.domains) items.now }
    requires narrow { AreNarrow maker.old.domains items.now }
    ensures value { IfOk result (λ r. (a : List ℤ) → IsWorld maker.new a
        → linear_at r a ≡ load_there e.now items.now a) }
    ensures linear { IfOk result (λ r. IsLinear (2 ^ 58) maker.new.domains r) }
    ensures adds { IfOk result (λ r. Defines maker.old maker.new) }
{
    let sums = all_added(maker, e, items)?;
    let r = total(maker, sums.as_slice())?;
    Ok(r)
}

/// A sum less another. Nothing is made for it.
fn difference(maker: &Maker, f: &Linear, g: &Linear) -> Result<Linear, AllocError>
    requires left { IsLinear (2 ^ 58) maker.now.domains f.now }
    requires right { IsLinear (2 ^ 58) maker.now.domains g.now }
    ensures value { IfOk result (λ r. (a : List ℤ)
        → linear_at r a ≡ linear_at f.now a -ℤ linear_at g.now a) }
    ensures linear { IfOk result (λ r. IsLinear (2 ^ 59) maker.now.domains r) }
{
    let _search = maker.search();
    let less = g.times(maker.alloc(), -1)?;
    let r = f.plus(maker.alloc(), &less)?;
    Ok(r)
}

/// Whether the first sum is at most the second.
fn is_at_most(maker: &mut Maker, f: &Linear, g: &Linear) -> Result<Truth, AllocError>
    requires left { IsLinear (2 ^ 58) maker.old.domains f.now }
    requires right { IsLinear (2 ^ 58) maker.old.domains g.now }
    ensures variable { IfOk result (λ t. HasVariable (length maker.new.domains) t) }
    ensures value { IfOk result (λ t. (a : List ℤ) → IsWorld maker.new a
        → truth_at t a ≡ int_le (linear_at f.now a) (linear_at g.now a)) }
    ensures adds { IfOk result (λ t. Defines maker.old maker.new) }
{
    maker.ask(1)?;
    let less = difference(maker, f, g)?;
    let t = is_below(maker, &less)?;
    Ok(t)
}

/// Whether what counts at the place of an item is at most its room.
fn fits(maker: &mut Maker, e: &Packed, items: &[Packed]) -> Result<Truth, AllocError>
    requires item { IsPacked maker.old.domains e.now }
    requires items { All (IsPacked maker.old.domains) items.now }
    requires narrow { AreNarrow maker.old.domains items.now }
    ensures variable { IfOk result (λ t. HasVariable (length maker.new.domains) t) }
    ensures value { IfOk result (λ t. (a : List ℤ) → IsWorld maker.new a
        → truth_at t a ≡ int_le (load_there e.now items.now a) (linear_at e.now.room a)) }
    ensures adds { IfOk result (λ t. Defines maker.old maker.new) }
{
    let all = load(maker, e, items)?;
    let t = is_at_most(maker, &all, &e.room)?;
    Ok(t)
}

/// Whether the item is kept, and its place is overfull. Nothing is made for one that is left out.
fn overfull(maker: &mut Maker, e: &Packed, items: &[Packed]) -> Result<Truth, AllocError>
    requires item { IsPacked maker.old.domains e.now }
    requires items { All (IsPacked maker.old.domains) items.now }
    requires narrow { AreNarrow maker.old.domains items.now }
    ensures variable { IfOk result (λ t. HasVariable (length maker.new.domains) t) }
    ensures value { IfOk result (λ t. (a : List ℤ) → IsWorld maker.new a
        → truth_at t a ≡ is_overfull items.now e.now a) }
    ensures adds { IfOk result (λ t. Defines maker.old maker.new) }
{
    if is_out(&e.kept) {
        return Ok(Truth::Fixed(false));
    }
    let fitting = fits(maker, e, items)?;
    let mut spared = Disjunction::new(maker.alloc());
    push_turned(maker, &mut spared, &e.kept)?;
    spared.push(fitting)?;
    let t = none_from(maker, &spared)?;
    Ok(t)
}

/// Whether no item's place is overfull.
pub(crate) fn none_overfull(maker: &mut Maker, items: &[Packed]) -> Result<Truth, AllocError>
    requires items { All (IsPacked maker.old.domains) items.now }
    requires narrow { AreNarrow maker.old.domains items.now }
    ensures variable { IfOk result (λ t. HasVariable (length maker.new.domains) t) }
    ensures value { IfOk result (λ t. (a : List ℤ) → IsWorld maker.new a
        → truth_at t a ≡ not (some_overfull items.now a)) }
    ensures adds { IfOk result (λ t. Defines maker.old maker.new) }
{
    let mut some = Disjunction::new(maker.alloc());
    for e in items {
        let t = overfull(maker, e, items)?;
        some.push(t)?;
    }
    let t = none_from(maker, &some)?;
    Ok(t)
}
