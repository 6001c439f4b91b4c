//! What each line of a session's text adds to the page.
ghost use Rattle.std.specs.Prelude.{◌≡◌, ◌++◌, IfOk, OnOk};
ghost use Rattle.serde_json.specs.View.{view};
ghost use Rattle.view_page.specs.Adding.{HasAnswer};
ghost use Rattle.view_page.specs.Page.{title_text, boxed_text, drawn_text, picture_text, missing_text, said_text, IsMoved};
ghost use Rattle.view_page.specs.PageViews.{wish_seen};

use serde_json::Value;
use std::alloc::{AllocError, Global};
use view_drawing::{push_escaped, svg_of};
use view_leaves::leaves_of;
use view_picture::{Size, holdings};
use view_plan::{plan, plan_text};
use view_tables::chosen;

/// What of the answers is shown.
#[derive(Clone, Copy)]
pub struct Wish<'a> {
    /// The attribute by which guests refer to holders.
    pub attribute: &'a str,
    /// The sizes, and under which names holders have their capacities.
    pub sizes: &'a [Size<'a>],
}

/// Writes the number of an answer.
fn push_title(alloc: Global, page: &mut Vec<u8>, number: u64) -> Result<(), AllocError>
    ensures { OnOk result (page.new.items ≡ page.old.items ++ title_text number) }
{
    let title = format!(in alloc; "<section><div><h2>{number}</h2>\n")?;
    page.extend_from_slice(title.as_bytes())
}

/// Writes a text that stands in a box of its own.
fn push_boxed(page: &mut Vec<u8>, text: &[u8]) -> Result<(), AllocError>
    ensures { OnOk result (page.new.items ≡ page.old.items ++ boxed_text text.now) }
{
    page.extend_from_slice(b"<pre>")?;
    push_escaped(page, text)?;
    page.extend_from_slice(b"</pre></div>\n")?;
    Ok(())
}

/// The plan from one configuration to the next, of the leaves of one name.
fn moved_between(
    alloc: Global,
    before: &Value,
    now: &Value,
    attribute: &str,
) -> Result<Vec<u8>, AllocError>
    ensures { IfOk result (λ text. IsMoved attribute.now (view before.now) (view now.now)
        text.items) }
{
    let old = leaves_of(alloc, before)?;
    let new = leaves_of(alloc, now)?;
    let all = plan(alloc, &old, &new)?;
    let lines = chosen(alloc, all, &[attribute])?;
    let text = plan_text(alloc, &lines)?;
    Ok(text)
}

/// The picture of a configuration.
#[tactic(auto, unfolding(crate::specs::Page::drawn_text))]
fn drawn(alloc: Global, wish: Wish<'_>, whole: &Value) -> Result<Vec<u8>, AllocError>
    ensures { IfOk result (λ svg. svg.items ≡ drawn_text (wish_seen wish.entry) (view whole.now)) }
{
    let leaves = leaves_of(alloc, whole)?;
    let held = holdings(alloc, whole, &leaves, wish.attribute, wish.sizes)?;
    let svg = svg_of(alloc, &[], &held)?;
    Ok(svg)
}

/// Writes the picture of a configuration.
fn push_picture(
    alloc: Global,
    page: &mut Vec<u8>,
    wish: Wish<'_>,
    whole: &Value,
) -> Result<(), AllocError>
    ensures { OnOk result (page.new.items ≡ page.old.items
        ++ picture_text (wish_seen wish.entry) (view whole.now)) }
{
    let svg = drawn(alloc, wish, whole)?;
    page.extend_from_slice(&svg)?;
    page.extend_from_slice(b"</section>\n")?;
    Ok(())
}

/// Writes an answer that is a configuration: what moved since the one before, and its picture.
pub(crate) fn push_answer(
    alloc: Global,
    page: &mut Vec<u8>,
    wish: Wish<'_>,
    number: u64,
    before: &Value,
    now: &Value,
) -> Result<(), AllocError>
    ensures { OnOk result (HasAnswer (wish_seen wish.entry) number (view before.now) (view now.now)
        page.old.items page.new.items) }
{
    let moved = moved_between(alloc, before, now, wish.attribute)?;
    push_title(alloc, page, number)?;
    push_boxed(page, &moved)?;
    push_picture(alloc, page, wish, now)?;
    Ok(())
}

/// Writes an answer that there is no configuration.
pub(crate) fn push_missing(alloc: Global, page: &mut Vec<u8>, number: u64) -> Result<(), AllocError>
    ensures { OnOk result (page.new.items ≡ page.old.items ++ missing_text number) }
{
    push_title(alloc, page, number)?;
    push_boxed(page, b"none exists\n")?;
    page.extend_from_slice(b"</section>\n")
}

/// Writes what is said beside an answer.
pub(crate) fn push_said(page: &mut Vec<u8>, line: &[u8]) -> Result<(), AllocError>
    ensures { OnOk result (page.new.items ≡ page.old.items ++ said_text line.now) }
{
    page.extend_from_slice(b"<p>")?;
    push_escaped(page, line)?;
    page.extend_from_slice(b"</p>\n")
}
