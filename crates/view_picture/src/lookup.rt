//! Values by their paths.
ghost use Rattle.std.specs.Prelude.{◌≡◌, codes, map, option_map, option_and_then};
ghost use Rattle.serde_json.specs.Find.{get, as_str};
ghost use Rattle.serde_json.specs.View.{view};
ghost use Rattle.view_leaves.specs.Views.{step_seen};
ghost use Rattle.view_picture.specs.Lookup.{value_into, value_at, number_of, class_of};

use serde_json::Value;
use view_leaves::Step;

/// What stands where this step goes.
fn value_into<'a>(value: &'a Value, step: Step<'_>) -> Option<&'a Value>
    ensures { option_map (λ v. view v.now) result
        ≡ value_into (step_seen step.entry) (view value.now) }
{
    match step {
        Step::Index(number) => value.get(number as usize),
        Step::Key(key) => value.get(key),
    }
}

/// What stands at a path.
pub(crate) fn value_at<'a>(whole: &'a Value, path: &[Step<'_>]) -> Option<&'a Value>
    ensures { option_map (λ v. view v.now) result
        ≡ value_at (map step_seen path.now) (view whole.now) }
{
    let mut value = whole;
    for step in path {
        match value_into(value, *step) {
            Some(part) => value = part,
            None => return None,
        }
    }
    Some(value)
}

/// The number that an object has under a name: a whole one of 64 bits.
pub(crate) fn number_of(object: &Value, name: &str) -> Option<i64>
    ensures { result ≡ number_of name.now (view object.now) }
{
    object.get(name)?.as_i64()
}

/// The class of an object, where it has one.
pub(crate) fn class_of(object: &Value) -> Option<&str>
    ensures { option_map (λ w. w.now) result ≡ class_of (view object.now) }
{
    object.get("class")?.as_str()
}
