//! What the lines of a plan weigh.
ghost use Rattle.std.specs.Prelude.{◌≡◌, ◌++◌, map, IfOk, OnOk};
ghost use Rattle.serde_json.specs.View.{view};
ghost use Rattle.view_leaves.specs.Views.{step_seen};
ghost use Rattle.view_picture.specs.Mentions.{owner};
ghost use Rattle.view_plan.specs.Views.{line_seen, lines_seen};
ghost use Rattle.view_tables.specs.Weights.{line_weight, weight, weight_text};

use itoa::Buffer;
use serde_json::Value;
use std::alloc::AllocError;
use view_leaves::{Step, push_word};
use view_picture::amount;
use view_plan::Line;

/// Who has the leaf of a path.
#[tactic(auto, using(crate::proofs::LineLaws::owner_short, crate::proofs::LineLaws::owner_long))]
fn owner<'l, 'a>(path: &'l [Step<'a>]) -> &'l [Step<'a>]
    ensures { map step_seen result.now ≡ owner (map step_seen path.now) }
{
    if path.len() < 2 {
        return path;
    }
    &path[..path.len() - 1]
}

/// What a line weighs: what the owner of its leaf has under a name, where the line counts.
fn line_weight(whole: &Value, line: &Line<'_, '_>, name: &str) -> i64
    ensures { result ≡ line_weight (view whole.now) name.now (line_seen line.now) }
{
    if line.change.is_counted() {
        amount(whole, owner(line.path), name)
    } else {
        0
    }
}

/// What lines weigh together, by what their owners have under a name in the new configuration.
pub fn weight(whole: &Value, lines: &[Line<'_, '_>], name: &str) -> i128
    ensures { result ≡ weight (view whole.now) name.now (lines_seen lines.now) }
{
    let mut sum: i128 = 0;
    for line in lines {
        sum += line_weight(whole, line, name) as i128;
    }
    sum
}

/// Writes a line that says what lines weigh together.
pub fn push_weight(text: &mut Vec<u8>, sum: i128, name: &str) -> Result<(), AllocError>
    ensures { OnOk result (text.new.items ≡ text.old.items ++ weight_text sum name.now) }
{
    text.extend_from_slice(Buffer::new().format(sum).as_bytes())?;
    text.extend_from_slice(b" ")?;
    push_word(text, name)?;
    text.extend_from_slice(b"\n")
}
