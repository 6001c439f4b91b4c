//! The plan between two configurations, as a text.
ghost use Rattle.std.specs.Prelude.{◌≡◌, ◌++◌, false, map, IfOk, OnOk, string_bytes};
ghost use Rattle.std.specs.List.{list_any};
ghost use Rattle.serde_json.specs.View.{view};
ghost use Rattle.view_plan.specs.Text.{shows_fraction};
ghost use Rattle.view_plan.specs.Views.{lines_seen};
ghost use Rattle.view_run.specs.Answers.{IsPlanText, has_some, listed_text, weights_text};

use crate::options::{lists_table, only_of, weights_of};
use serde_json::Value;
use std::alloc::{AllocError, Global};
use view_leaves::leaves_of;
use view_plan::{Line, plan, plan_text};
use view_tables::{chosen, plan_table, push_weight, weight};

/// A plan.
#[derive(Drop)]
pub struct Plan {
    /// Its text.
    pub text: Vec<u8>,
    /// Whether something differs.
    pub differs: bool,
}

/// Writes what lines weigh, by each of these names.
fn push_weights(
    text: &mut Vec<u8>,
    new: &Value,
    lines: &[Line<'_, '_>],
    names: &[&str],
) -> Result<(), AllocError>
    ensures { OnOk result (text.new.items ≡ text.old.items ++ weights_text (view new.now)
        (lines_seen lines.now) (map (λ w. w.now) names.now)) }
{
    for name in names {
        let sum = weight(new, lines, name);
        push_weight(text, sum, name)?;
    }
    Ok(())
}

/// The text of these lines.
fn listed(
    alloc: Global,
    new: &Value,
    lines: &[Line<'_, '_>],
    options: &[String],
) -> Result<Vec<u8>, AllocError>
    ensures { IfOk result (λ text. list_any shows_fraction (lines_seen lines.now) ≡ false
        → text.items ≡ listed_text (view new.now) (map string_bytes options.now)
        (lines_seen lines.now)) }
{
    if lists_table(options) {
        let text = plan_table(alloc, lines)?;
        return Ok(text);
    }
    let names = weights_of(alloc, options)?;
    let mut text = plan_text(alloc, lines)?;
    push_weights(&mut text, new, lines, &names)?;
    Ok(text)
}

/// Whether there are lines.
fn has_some(lines: &[Line<'_, '_>]) -> bool
    ensures { result ≡ has_some (lines_seen lines.now) }
{
    !lines.is_empty()
}

/// The plan from one configuration to another, of the lines that the options ask for.
pub fn plan_between(
    alloc: Global,
    old: &Value,
    new: &Value,
    options: &[String],
) -> Result<Plan, AllocError>
    ensures { IfOk result (λ made. IsPlanText (view old.now) (view new.now)
        (map string_bytes options.now) made.text.items made.differs) }
{
    let before = leaves_of(alloc, old)?;
    let behind = leaves_of(alloc, new)?;
    let names = only_of(alloc, options)?;
    let all = plan(alloc, &before, &behind)?;
    let lines = chosen(alloc, all, &names)?;
    let text = listed(alloc, new, &lines, options)?;
    Ok(Plan {
        text,
        differs: has_some(&lines),
    })
}
