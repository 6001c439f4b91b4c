//! How a propagator is asked, and compared with plain probing.
//!
//! A problem has four copies of one constraint over searched variables, and the last is asked
//! about. Whether it may be asked, since the problem is well made, is found out here; the other
//! functions want to know it.
ghost use Rattle.std.specs.Prelude.{◌≡◌, ◌<◌, true, length, IfOk};
ghost use Rattle.ground_form.specs.WellMade.{IsWellMade};

use crate::given::two_lists;
use ground_form::{Con, Cons, Domains, Goals, Ground, copy_sets, kind_of};
use rule_law::{Propagator, are_boxes_within, justified};
use signed_clause::{Clause, IntSet};
use std::alloc::{AllocError, Global};
use test_problems::{Prober, Unread, constraint_of, sets_of};
use test_well_made::is_search_well_made;

/// The number of the constraint that is asked about.
pub(crate) const ASKED: u32 = 3;

/// The constraint of a text, behind the domains and a bar, and the problem of four copies of it.
///
/// # Errors
/// `Form` where there is no bar, or what stands before or behind it can't be read; want of memory.
pub(crate) fn problem_of(alloc: Global, text: &[u8]) -> Result<(Con, Ground), Unread> {
    let (domains, constraint) = two_lists(alloc, text)?;
    let domains = sets_of(alloc, &domains)?;
    let con = constraint_of(alloc, &constraint)?;
    let g = Ground {
        search: domains.len().min(1_000_000) as u32,
        domains: Domains::of(domains),
        cons: Cons::of(vec![in alloc; con.copy()?, con.copy()?, con.copy()?, con.copy()?]?),
        goals: Goals::of(Vec::new(alloc)),
    };
    Ok((con, g))
}

/// Whether the problem is well made and has the constraint.
pub(crate) fn is_askable(g: &Ground, alloc: Global) -> Result<bool, AllocError>
    ensures well_made { IfOk result (λ yes. yes ≡ true → IsWellMade g.now) }
    ensures con { IfOk result (λ yes. yes ≡ true → 3 < length g.now.cons) }
{
    if g.cons.items().len() <= ASKED as usize {
        return Ok(false);
    }
    let made = is_search_well_made(g, alloc)?;
    Ok(made)
}

/// What one call comes to.
#[derive(Drop)]
pub(crate) enum Turn {
    /// There is nothing to say.
    Still,
    /// A box is narrowed to a set.
    Narrowed(u32, IntSet),
    /// Nothing is left.
    Conflict,
    /// The clause isn't justified, or the constraint or the boxes are none to be asked about.
    Wrong,
}

/// Asks once.
pub(crate) fn ask_once<P: Propagator>(
    p: &mut P,
    g: &Ground,
    boxes: &[IntSet],
) -> Result<Turn, AllocError>
    requires well_made { IsWellMade g.now }
    requires con { 3 < length g.now.cons }
{
    let con = &g.cons.items()[ASKED as usize];
    let domains = g.domains.items();
    if !p.handles(kind_of(con)) || !are_boxes_within(domains, boxes) {
        return Ok(Turn::Wrong);
    }
    let Some(clause) = p.prune(g, ASKED, boxes)? else {
        return Ok(Turn::Still);
    };
    if !justified(con, domains, &clause) {
        return Ok(Turn::Wrong);
    }
    match clause.unit(boxes)? {
        Some((x, set)) => Ok(Turn::Narrowed(x, set)),
        None => Ok(Turn::Conflict),
    }
}

/// The clause of one call.
///
/// # Errors
/// `Form` where the constraint or the boxes may not be asked about; want of memory.
pub(crate) fn answer_in<P: Propagator>(
    p: &mut P,
    g: &Ground,
    boxes: &[IntSet],
) -> Result<Option<Clause>, Unread>
    requires well_made { IsWellMade g.now }
    requires con { 3 < length g.now.cons }
{
    let con = &g.cons.items()[ASKED as usize];
    if !p.handles(kind_of(con)) || !are_boxes_within(g.domains.items(), boxes) {
        return Err(Unread::Form);
    }
    let answer = p.prune(g, ASKED, boxes)?;
    Ok(answer)
}

/// What many calls come to.
#[derive(Drop)]
pub(crate) enum Settled {
    /// The boxes where there is nothing more to say.
    Left(Vec<IntSet>),
    /// Nothing is left.
    Conflict,
    /// Something went wrong, or two propagators don't agree.
    Wrong,
}

/// Asks until there is nothing more to say.
pub(crate) fn settle<P: Propagator>(
    p: &mut P,
    g: &Ground,
    mut boxes: Vec<IntSet>,
) -> Result<Settled, AllocError>
    requires well_made { IsWellMade g.now }
    requires con { 3 < length g.now.cons }
{
    for _ in 0..40u32 {
        match ask_once(p, g, boxes.as_slice())? {
            Turn::Still => return Ok(Settled::Left(boxes)),
            Turn::Narrowed(x, set) => {
                if (x as usize) < boxes.len() {
                    boxes[x as usize] = set;
                }
            }
            Turn::Conflict => return Ok(Settled::Conflict),
            Turn::Wrong => return Ok(Settled::Wrong),
        }
    }
    Ok(Settled::Wrong)
}

/// Whether both have the same sets.
fn are_same(a: &[IntSet], b: &[IntSet]) -> bool {
    a.len() == b.len() && a.iter().zip(b).all(|(s, t)| s.same(t))
}

/// What the propagator leaves of the boxes; Wrong where plain probing leaves something else.
pub(crate) fn settle_alike<P: Propagator>(
    p: &mut P,
    g: &Ground,
    boxes: &[IntSet],
    alloc: Global,
) -> Result<Settled, AllocError>
    requires well_made { IsWellMade g.now }
    requires con { 3 < length g.now.cons }
{
    let quick = settle(p, g, copy_sets(alloc, boxes)?)?;
    let plain = settle(&mut Prober { alloc }, g, copy_sets(alloc, boxes)?)?;
    let same = match (&quick, &plain) {
        (Settled::Left(a), Settled::Left(b)) => are_same(a.as_slice(), b.as_slice()),
        (Settled::Conflict, Settled::Conflict) => true,
        _ => false,
    };
    if same { Ok(quick) } else { Ok(Settled::Wrong) }
}
