//! How two values of one leaf differ.
ghost use Rattle.std.specs.Prelude.{◌≡◌, [], map, IfOk, option_map};
ghost use Rattle.serde_json.specs.View.{view, number_view, items_view};
ghost use Rattle.view_plan.specs.Changes.{same_number, same_value, members_change, change_between, alike, fits, is_counted, is_whole, set_change};
ghost use Rattle.view_plan.specs.Views.{change_seen};
ghost use Rattle.view_plan.specs.Words.{words_of};

use crate::sets::{lacking, words_of};
use serde_json::{Number, Value};
use std::alloc::{AllocError, Global};
use std::collections::BTreeSet;

/// What became of a leaf.
#[derive(Drop)]
pub enum Change<'a> {
    /// It wasn't there before.
    Added(&'a Value),
    /// It is there no more.
    Removed(&'a Value),
    /// It had the first value and has the second.
    Changed(&'a Value, &'a Value),
    /// The members that were added to a set, and those taken from it, each in order; and whether
    /// both sets were of one size, without a member that stands twice.
    Members(Vec<&'a str>, Vec<&'a str>, bool),
}

/// Whether two numbers have one value. A whole number is none that is written with a fraction.
fn same_number(left: &Number, right: &Number) -> bool
    ensures { result ≡ same_number (number_view left.now) (number_view right.now) }
{
    match (left.as_i128(), right.as_i128()) {
        (Some(m), Some(n)) => m <= n && n <= m,
        (Some(_), None) => false,
        (None, Some(_)) => false,
        (None, None) => match (left.as_f64(), right.as_f64()) {
            (Some(x), Some(y)) => x == y,
            _ => false,
        },
    }
}

/// Whether the values of two leaves, of which none is a set, are the same.
fn same_value(left: &Value, right: &Value) -> bool
    ensures { result ≡ same_value (view left.now) (view right.now) }
{
    match left {
        Value::Null => right.is_null(),
        Value::Bool(truth) => match right.as_bool() {
            Some(other) => *truth == other,
            None => false,
        },
        Value::Number(number) => match right.as_number() {
            Some(other) => same_number(number, other),
            None => false,
        },
        Value::String(word) => match right.as_str() {
            Some(other) => word.as_str() == other,
            None => false,
        },
        Value::Array(_) => false,
        Value::Object(_) => right.is_object(),
    }
}

/// Whether both arrays are of one size, and no word stands twice in the first, of which these are
/// the words.
#[tactic(auto, using(crate::proofs::SetLaws::items_counted, crate::proofs::SetLaws::words_counted))]
fn fits(old: &[Value], new: &[Value], words: &BTreeSet<&str>) -> bool
    requires { map (λ k. k.now) words.now.keys ≡ words_of [] (items_view old.now) }
    ensures { result ≡ fits (items_view old.now) (items_view new.now) }
{
    old.len() == words.len() && old.len() == new.len()
}

/// The change of a set to which these words were added, and from which those were taken.
fn set_change<'a>(added: Vec<&'a str>, taken: Vec<&'a str>, both: bool) -> Option<Change<'a>>
    ensures { option_map change_seen result
        ≡ set_change (map (λ w. w.now) added.entry.items) (map (λ w. w.now) taken.entry.items) both }
{
    if added.is_empty() && taken.is_empty() {
        None
    } else {
        Some(Change::Members(added, taken, both))
    }
}

/// How two sets differ.
fn members_change<'a>(
    alloc: Global,
    old: &'a [Value],
    new: &'a [Value],
) -> Result<Option<Change<'a>>, AllocError>
    ensures { IfOk result (λ change. option_map change_seen change
        ≡ members_change (items_view old.now) (items_view new.now)) }
{
    let before = words_of(alloc, old)?;
    let after = words_of(alloc, new)?;
    let added = lacking(alloc, &after, &before)?;
    let taken = lacking(alloc, &before, &after)?;
    let both = fits(old, new, &before);
    Ok(set_change(added, taken, both))
}

/// How a leaf that had the first value differs where it has the second; None where it doesn't.
pub fn change_between<'a>(
    alloc: Global,
    old: &'a Value,
    new: &'a Value,
) -> Result<Option<Change<'a>>, AllocError>
    ensures { IfOk result (λ change. option_map change_seen change
        ≡ change_between (view old.now) (view new.now)) }
{
    match (old.as_array(), new.as_array()) {
        (Some(olds), Some(news)) => members_change(alloc, olds, news),
        (Some(_), None) => Ok(Some(Change::Changed(old, new))),
        (None, Some(_)) => Ok(Some(Change::Changed(old, new))),
        (None, None) if same_value(old, new) => Ok(None),
        (None, None) => Ok(Some(Change::Changed(old, new))),
    }
}

/// Whether a number is whole.
fn is_whole(number: &Number) -> bool
    ensures { result ≡ is_whole (number_view number.now) }
{
    number.as_i128().is_some()
}

/// Whether two values are of one kind: truth values, whole numbers or words.
fn alike(left: &Value, right: &Value) -> bool
    ensures { result ≡ alike (view left.now) (view right.now) }
{
    match left {
        Value::Null => false,
        Value::Bool(_) => right.as_bool().is_some(),
        Value::Number(number) => match right.as_number() {
            Some(other) => is_whole(number) && is_whole(other),
            None => false,
        },
        Value::String(_) => right.is_string(),
        Value::Array(_) => false,
        Value::Object(_) => false,
    }
}

impl Change<'_> {
    /// Whether the change counts: the leaf had a value of its kind before and has another one now.
    pub fn is_counted(&self) -> bool
        ensures { result ≡ is_counted (change_seen self.now) }
    {
        match self {
            Change::Added(_) => false,
            Change::Removed(_) => false,
            Change::Changed(old, new) => alike(old, new),
            Change::Members(_, _, both) => *both,
        }
    }
}
