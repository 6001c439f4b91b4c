//! The page of a former configuration and the answers' text.
ghost use Rattle.std.specs.Prelude.{◌≡◌, ◌≤◌, ◌<◌, ◌+◌, ◌^◌, IfErr, IfOk, OnOk};
ghost use Rattle.std.specs.List.{list_all};
ghost use Rattle.serde_json.specs.View.{view};
ghost use Rattle.view_page.specs.Adding.{HasShown, ShowsNext};
ghost use Rattle.view_page.specs.EntryViews.{entry_seen, entries_seen};
ghost use Rattle.view_page.specs.Page.{is_named, IsNoPage, IsPage};
ghost use Rattle.view_page.specs.PageViews.{wish_seen};

use crate::entries::{Entry, entries_of};
use crate::head::{push_head, push_tail};
use crate::sections::{Wish, push_answer, push_missing, push_said};
use serde_json::Value;
use std::alloc::{AllocError, Global};
use view_leaves::leaves_of;
use view_picture::has_attribute;

/// Why there is no page.
#[derive(Clone, Copy, Debug, PartialEq, Eq)]
pub enum PageError {
    /// A line begins as a configuration and is none.
    NotJson,
    /// No leaf of some configuration is an attribute of that name.
    NoAttribute,
    /// There was no memory.
    Memory,
}

impl From<AllocError> for PageError {
    ghost use Rattle.view_page.specs.declared.page.PageError.TheVariants.{Memory};

    ghost from_gives = { λ _ e. e ≡ Memory };

    fn from(_: AllocError) -> Self {
        PageError::Memory
    }
}

/// Whether an entry that is a configuration has such an attribute.
fn is_named(alloc: Global, entry: &Entry<'_>, attribute: &str) -> Result<bool, AllocError>
    ensures { IfOk result (λ is. is ≡ is_named attribute.now (entry_seen entry.now)) }
{
    match entry {
        Entry::Shown(whole) => {
            let leaves = leaves_of(alloc, whole)?;
            Ok(has_attribute(&leaves, attribute))
        }
        Entry::Missing | Entry::Said(_) => Ok(true),
    }
}

/// Whether all configurations have such an attribute.
fn are_named(alloc: Global, entries: &[Entry<'_>], attribute: &str) -> Result<bool, AllocError>
    ensures { IfOk result (λ are. are
        ≡ list_all (is_named attribute.now) (entries_seen entries.now)) }
{
    for entry in entries {
        if !is_named(alloc, entry, attribute)? {
            return Ok(false);
        }
    }
    Ok(true)
}

/// How many answers were shown, and the last configuration.
#[derive(Clone, Copy)]
struct Shown<'a> {
    number: u64,
    before: &'a Value,
}

/// Writes what an entry adds to a page.
#[tactic(auto, using(crate::proofs::ShownLaws::shown_next, crate::proofs::ShownLaws::missing_next, crate::proofs::ShownLaws::said_next))]
fn push_entry<'a>(
    alloc: Global,
    page: &mut Vec<u8>,
    wish: Wish<'_>,
    at: Shown<'a>,
    entry: &'a Entry<'_>,
) -> Result<Shown<'a>, AllocError>
    requires few { at.number + 1 < 2 ^ 64 }
    ensures number { IfOk result (λ next. next.number ≤ at.entry.number + 1) }
    ensures shown { IfOk result (λ next. ShowsNext (wish_seen wish.entry) at.entry.number
        (view at.entry.before.now) (entry_seen entry.now) next.number (view next.before.now)
        page.old.items page.new.items) }
{
    match entry {
        Entry::Shown(now) => {
            let number = at.number + 1;
            push_answer(alloc, page, wish, number, at.before, now)?;
            Ok(Shown {
                number,
                before: now,
            })
        }
        Entry::Missing => {
            let number = at.number + 1;
            push_missing(alloc, page, number)?;
            Ok(Shown {
                number,
                before: at.before,
            })
        }
        Entry::Said(line) => {
            push_said(page, line)?;
            Ok(at)
        }
    }
}

/// Writes what these entries add to a page.
fn push_entries<'a>(
    alloc: Global,
    page: &mut Vec<u8>,
    wish: Wish<'_>,
    former: &'a Value,
    entries: &'a [Entry<'_>],
) -> Result<(), AllocError>
    ensures { OnOk result (HasShown (wish_seen wish.entry) 0 (view former.now)
        (entries_seen entries.now) page.old.items page.new.items) }
{
    let mut at = Shown {
        number: 0,
        before: former,
    };
    for entry in entries {
        at = push_entry(alloc, page, wish, at, entry)?;
    }
    Ok(())
}

/// The page of what a session printed, behind a former configuration.
///
/// # Errors
///
/// `NotJson` where a line begins as a configuration and is none; `NoAttribute` where a
/// configuration has no leaf of that name; `Memory` where there is none left.
pub fn page_of(
    alloc: Global,
    former: &Value,
    answers: &[u8],
    wish: Wish<'_>,
) -> Result<Vec<u8>, PageError>
    ensures page { IfOk result (λ page. IsPage (wish_seen wish.entry) (view former.now) answers.now
        page.items) }
    ensures refused { IfErr result (IsNoPage (wish_seen wish.entry) answers.now) }
{
    let entries = match entries_of(alloc, answers) {
        Ok(entries) => entries,
        Err(error) => return Err(error),
    };
    if !are_named(alloc, &entries, wish.attribute)? {
        return Err(PageError::NoAttribute);
    }
    let mut page = Vec::new(alloc);
    push_head(&mut page)?;
    push_entries(alloc, &mut page, wish, former, &entries)?;
    push_tail(&mut page)?;
    Ok(page)
}
