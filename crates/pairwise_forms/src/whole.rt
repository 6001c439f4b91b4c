//! Quantifiers that compare their members, as constraints of their own.
//!
//! Where all members are kept in any case, and numbers are small, this is one constraint of the kind
//! that was made for it, or of many members that differ one for each two blocks of them, and a
//! packing. Else that values differ is stated pair by pair, and a packing by its form.
ghost use Rattle.std.specs.Prelude.{◌≡◌, ◌<◌, ◌≤◌, ◌∷◌, [], List, ℤ, true, not, length, map, Contains, IfOk, OnOk};
ghost use Rattle.std.specs.List.{All};
ghost use Rattle.conf_eval.specs.Meaning.{truth_of};
ghost use Rattle.conf_syntax.specs.declared.tree.QuantKind.TheVariants as kind;
ghost use Rattle.ground_build.specs.Growing.{AreItemVariables};
ghost use Rattle.ground_form.specs.declared.con.Con.TheVariants.{AllDiff};
ghost use Rattle.ground_form.specs.Meaning.{all_differ};
ghost use Rattle.form_build.specs.declared.form.Truth.TheVariants as truth;
ghost use Rattle.form_build.specs.Worlds.{IsWorld, Adds, Defines};
ghost use Rattle.quantifier_forms.specs.PartValues.{kept_values, over_values};
ghost use Rattle.quantifier_forms.specs.Quantified.{AreParts};
ghost use Rattle.pairwise_forms.specs.AlikeParts.{AreAlike, AreSizes};
ghost use Rattle.pairwise_forms.specs.Clashing.{some_clash, IsKeyed};
ghost use Rattle.pairwise_forms.specs.Packing.{some_overfull, IsPacked, AreNarrow};
ghost use Rattle.pairwise_forms.specs.Rows.{AreRows};
ghost use Rattle.pairwise_forms.specs.Wholes.{AreKept, HasDifferent, HasPacking, HasItems};

use crate::apart::state_no_clash;
use crate::blocks::state_blocks;
use crate::clashes::keyed;
use crate::counted::state_counted;
use crate::loads::{none_overfull, packed};
use crate::members::{Keyed, Packed};
use form_build::{Maker, Truth, settled};
use form_truths::state_truth;
use packed_rows::are_bounded;
use quantifier_forms::Part;
use std::alloc::{AllocError, Global};

/// Whether the truth holds in any case.
fn is_sure(t: &Truth) -> bool
    ensures sure { result ≡ true → t.now ≡ truth.Fixed true }
    ensures all { t.now ≡ truth.Fixed true → result ≡ true }
{
    match t {
        Truth::Fixed(b) => *b,
        Truth::In(_, _) => false,
    }
}

/// Whether each member is kept in any case.
fn are_kept(members: &[Keyed]) -> bool
    ensures kept { result ≡ true → All (λ e. e.kept ≡ truth.Fixed true) members.now }
    ensures all { All (λ e. e.kept ≡ truth.Fixed true) members.now → result ≡ true }
{
    for e in members {
        if !is_sure(&e.kept) {
            return false;
        }
    }
    true
}

/// The variables of the members.
fn keys(alloc: Global, members: &[Keyed]) -> Result<Vec<u32>, AllocError>
    ensures { IfOk result (λ xs. xs.items ≡ map (λ e. e.key) members.now) }
{
    let mut vars = Vec::new(alloc);
    for e in members {
        vars.push(e.key)?;
    }
    Ok(vars)
}

/// The most members of one constraint that values differ. What it costs to look at grows with the
/// third power of their number.
const MOST_DIFFERENT: usize = 64;

/// The most members of one packing. What it costs to look at packed items grows with their number
/// and that of bins.
pub const MOST_PACKED: usize = 1024;

/// States that the values of the variables differ: of many by blocks, and as one packing.
fn state_values(maker: &mut Maker, vars: &[u32]) -> Result<(), AllocError>
    requires variables { All (λ x. x < length maker.old.domains) vars.now }
    ensures says { OnOk result (Adds [] maker.old maker.new (λ a. all_differ vars.now a)) }
    ensures stands { OnOk result (length vars.now ≤ 64
        → Contains maker.new.cons (AllDiff vars.now)) }
{
    if vars.len() <= MOST_DIFFERENT {
        maker.ask(1)?;
        maker.require_different(vars)?;
        return Ok(());
    }
    state_blocks(maker, vars)?;
    if vars.len() <= MOST_PACKED {
        state_counted(maker, vars)?;
    }
    Ok(())
}

/// States that no two members clash, where all are kept.
fn require_different(maker: &mut Maker, members: &[Keyed]) -> Result<(), AllocError>
    requires members { All (IsKeyed (length maker.old.domains)) members.now }
    requires kept { All (λ e. e.kept ≡ truth.Fixed true) members.now }
    ensures says { OnOk result (Adds [] maker.old maker.new (λ a. not (some_clash members.now a))) }
    ensures stands { OnOk result (length members.now ≤ 64
        → Contains maker.new.cons (AllDiff (map (λ e. e.key) members.now))) }
{
    let vars = keys(maker.alloc(), members)?;
    state_values(maker, vars.as_slice())?;
    Ok(())
}

/// States that the values of all members that are kept differ.
pub fn state_different(maker: &mut Maker, parts: &[Part]) -> Result<(), AllocError>
    requires parts { AreParts maker.old.domains kind.AllDifferent parts.now }
    requires alike { AreAlike maker.old.domains parts.now }
    ensures says { OnOk result (Adds [] maker.old maker.new
        (λ a. truth_of (over_values kind.AllDifferent (kept_values parts.now a)))) }
    ensures whole { OnOk result (AreKept parts.now → length parts.now ≤ 64
        → HasDifferent maker.new (length parts.now) (λ a. Unit {0})
        (λ a. kept_values parts.now a)) }
{
    let members = keyed(maker, parts)?;
    if are_kept(&members) {
        require_different(maker, &members)?;
        return Ok(());
    }
    state_no_clash(maker, &members)?;
    Ok(())
}

/// Whether each item is kept in any case.
fn are_sure(items: &[Packed]) -> bool
    ensures kept { result ≡ true → All (λ e. e.kept ≡ truth.Fixed true) items.now }
    ensures all { All (λ e. e.kept ≡ truth.Fixed true) items.now → result ≡ true }
{
    for e in items {
        if !is_sure(&e.kept) {
            return false;
        }
    }
    true
}

/// The variables of an item: its place, its size and its room.
fn row_of(maker: &mut Maker, e: &Packed) -> Result<(u32, u32, u32), AllocError>
    requires item { IsPacked maker.old.domains e.now }
    ensures row { IfOk result (λ r. AreRows maker.new (e.now ∷ []) (r ∷ [])) }
    ensures adds { IfOk result (λ r. Defines maker.old maker.new) }
{
    maker.ask(1)?;
    let size = settled(maker, &e.size)?;
    maker.ask(1)?;
    let room = settled(maker, &e.room)?;
    Ok((e.place, size, room))
}

/// The variables of the items.
fn rows_of(maker: &mut Maker, items: &[Packed]) -> Result<Vec<(u32, u32, u32)>, AllocError>
    requires items { All (IsPacked maker.old.domains) items.now }
    ensures rows { IfOk result (λ rows. AreRows maker.new items.now rows.items) }
    ensures adds { IfOk result (λ rows. Defines maker.old maker.new) }
{
    let mut rows = Vec::new(maker.alloc());
    for e in items {
        let row = row_of(maker, e)?;
        rows.push(row)?;
    }
    Ok(rows)
}

/// States that no item's place is overfull, by way of a truth.
fn state_none_overfull(maker: &mut Maker, items: &[Packed]) -> Result<(), AllocError>
    requires items { All (IsPacked maker.old.domains) items.now }
    requires narrow { AreNarrow maker.old.domains items.now }
    ensures says { OnOk result (Adds [] maker.old maker.new
        (λ a. not (some_overfull items.now a))) }
{
    let t = none_overfull(maker, items)?;
    maker.ask(1)?;
    state_truth(maker, t)?;
    Ok(())
}

/// States that no item's place is overfull, where all are kept.
fn require_fitting(maker: &mut Maker, items: &[Packed]) -> Result<(), AllocError>
    requires items { All (IsPacked maker.old.domains) items.now }
    requires narrow { AreNarrow maker.old.domains items.now }
    requires kept { All (λ e. e.kept ≡ truth.Fixed true) items.now }
    ensures says { OnOk result (Adds [] maker.old maker.new
        (λ a. not (some_overfull items.now a))) }
    ensures whole { OnOk result (HasItems maker.new items.now) }
{
    let rows = rows_of(maker, items)?;
    maker.ask(1)?;
    if are_bounded(maker.domains(), rows.as_slice()) {
        maker.require_pack(rows.as_slice())?;
        return Ok(());
    }
    state_none_overfull(maker, items)?;
    Ok(())
}

/// States that all items that are kept fit.
pub fn state_pack(maker: &mut Maker, parts: &[Part]) -> Result<(), AllocError>
    requires parts { AreParts maker.old.domains kind.Pack parts.now }
    requires alike { AreAlike maker.old.domains parts.now }
    requires sizes { AreSizes maker.old.domains parts.now }
    ensures says { OnOk result (Adds [] maker.old maker.new
        (λ a. truth_of (over_values kind.Pack (kept_values parts.now a)))) }
    ensures whole { OnOk result (AreKept parts.now
        → HasPacking maker.new (length parts.now) (λ a. Unit {0})
        (λ a. kept_values parts.now a)) }
{
    let items = packed(maker, parts)?;
    if are_sure(&items) {
        require_fitting(maker, &items)?;
        return Ok(());
    }
    state_none_overfull(maker, &items)?;
    Ok(())
}
