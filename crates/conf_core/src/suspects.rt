//! Which constraints are suspected: of each constraint of a model what the searches so far tell.
ghost use Rattle.std.specs.Prelude.{◌≡◌, ◌<◌, ◌^◌, All, length, replicate, slice_set, IfOk};
ghost use Rattle.conf_core.specs.Suspects.{IsFresh, cleared, is_kept, is_open, is_unsure, marked, settled};
ghost use Rattle.conf_core.specs.declared.suspects.Suspect.TheVariants as suspect;

use std::alloc::{AllocError, Global};

/// What is known of a constraint.
#[derive(Clone, Copy, PartialEq)]
pub(crate) enum Suspect {
    /// No configuration satisfies the others either.
    Cleared,
    /// It wasn't left out alone yet.
    Open,
    /// Without it the others have a configuration.
    Needed,
    /// Without it the others aren't decided.
    Unsure,
}

/// Whether it is among those that are to blame.
fn is_kept(one: Suspect) -> bool
    ensures { result ≡ is_kept one }
{
    !matches!(one, Suspect::Cleared)
}

/// Whether it may still be left out.
fn is_open(one: Suspect) -> bool
    ensures { result ≡ is_open one }
{
    matches!(one, Suspect::Open)
}

/// Whether it stays since a search was undecided.
fn is_unsure(one: Suspect) -> bool
    ensures { result ≡ is_unsure one }
{
    matches!(one, Suspect::Unsure)
}

/// Open where there is a mark, else cleared.
pub(crate) fn suspects_of(alloc: Global, marks: &[bool]) -> Result<Vec<Suspect>, AllocError>
    ensures count { IfOk result (λ list. length list.items ≡ length marks.now) }
    ensures fresh { IfOk result (λ list. All IsFresh list.items) }
{
    let mut list = Vec::new(alloc);
    for marked in marks {
        list.push(if *marked {
            Suspect::Open
        } else {
            Suspect::Cleared
        })?;
    }
    Ok(list)
}

/// All may be left out.
pub(crate) fn all_open(alloc: Global, count: usize) -> Result<Vec<Suspect>, AllocError>
    ensures { IfOk result (λ list. list.items ≡ replicate count suspect.Open) }
{
    let mut list = Vec::new(alloc);
    list.resize(count, Suspect::Open)?;
    Ok(list)
}

/// The indexes of those that are to blame so far.
pub(crate) fn kept_indexes(alloc: Global, suspects: &[Suspect]) -> Result<Vec<u32>, AllocError>
    requires { length suspects.now < 2 ^ 32 }
    ensures { IfOk result (λ list. list.items ≡ marked is_kept 0 suspects.now) }
{
    let mut list = Vec::new(alloc);
    for k in 0..suspects.len() {
        if is_kept(suspects[k]) {
            list.push(k as u32)?;
        }
    }
    Ok(list)
}

/// The indexes of those that may still be left out.
pub(crate) fn open_indexes(alloc: Global, suspects: &[Suspect]) -> Result<Vec<u32>, AllocError>
    requires { length suspects.now < 2 ^ 32 }
    ensures { IfOk result (λ list. list.items ≡ marked is_open 0 suspects.now) }
{
    let mut list = Vec::new(alloc);
    for k in 0..suspects.len() {
        if is_open(suspects[k]) {
            list.push(k as u32)?;
        }
    }
    Ok(list)
}

/// The indexes of those that stay since a search was undecided.
pub(crate) fn unsure_indexes(alloc: Global, suspects: &[Suspect]) -> Result<Vec<u32>, AllocError>
    requires { length suspects.now < 2 ^ 32 }
    ensures { IfOk result (λ list. list.items ≡ marked is_unsure 0 suspects.now) }
{
    let mut list = Vec::new(alloc);
    for k in 0..suspects.len() {
        if is_unsure(suspects[k]) {
            list.push(k as u32)?;
        }
    }
    Ok(list)
}

/// Tells something else of a constraint.
fn set(suspects: &mut Vec<Suspect>, k: u32, one: Suspect)
    ensures { suspects.new.items ≡ slice_set suspects.old.items k one }
{
    if (k as usize) < suspects.len() {
        suspects[k as usize] = one;
    }
}

/// These, where the constraints of a list are cleared.
pub(crate) fn with_cleared(
    alloc: Global,
    suspects: &[Suspect],
    list: &[u32],
) -> Result<Vec<Suspect>, AllocError>
    ensures { IfOk result (λ new. new.items ≡ cleared suspects.now list.now) }
{
    let mut new = suspects.to_vec(alloc)?;
    for k in list {
        set(&mut new, *k, Suspect::Cleared);
    }
    Ok(new)
}

/// Settles a constraint that is open: it stays.
pub(crate) fn settle(suspects: &mut Vec<Suspect>, k: u32, one: Suspect)
    ensures { suspects.new.items ≡ settled suspects.old.items k one }
{
    if (k as usize) < suspects.len() && is_open(suspects[k as usize]) {
        suspects[k as usize] = one;
    }
}
