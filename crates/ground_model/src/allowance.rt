//! How many variables and constraints the ground problem of a model may have.
ghost use Rattle.std.specs.Prelude.{◌≡◌, ◌≤◌, true, filter, length};
ghost use Rattle.object_alloc.specs.Walk.{walk, leaves_in};
ghost use Rattle.model_limits.specs.Limits.{most_weight};
ghost use Rattle.conf_types.specs.Typing.{IsTypedModel};
ghost use Rattle.conf_limits.specs.Measures.{model_weight};
ghost use Rattle.ground_model.specs.Allowance.{HasAtMost, allowance, is_open_set};

use class_table::Resolved;
use conf_limits::model_weight;
use conf_types::TypedModel;
use ground_form::Ground;
use object_alloc::{Leaf, Objects};

/// Whether a leaf is a reference set that has cells.
fn is_open_set(objects: &Objects<'_>, leaf: Leaf) -> bool
    ensures { result ≡ is_open_set objects.now leaf }
{
    match leaf.shape {
        Resolved::RefSet(_, _) => objects.own_cells(leaf.owner, leaf.attribute).len() != 0,
        Resolved::Span(_, _)
        | Resolved::Truth
        | Resolved::Choice(_)
        | Resolved::One(_)
        | Resolved::Many(_, _)
        | Resolved::Ref(_) => false,
    }
}

/// How many reference sets have cells.
fn open_sets(objects: &Objects<'_>) -> usize
    ensures { result ≡ length (filter (is_open_set objects.now) (leaves_in (walk objects.now))) }
{
    let leaves = objects.leaves();
    let mut count = 0;
    for leaf in leaves {
        if is_open_set(objects, *leaf) {
            count += 1;
        }
    }
    count
}

/// One for each cell, two for each reference set that has cells, one more, and 1024 for each unit
/// of the model's weight.
pub(crate) fn allowance(model: &TypedModel, objects: &Objects<'_>) -> u128
    requires typed { IsTypedModel objects.now model.now.constraints model.now.goals }
    ensures within { result ≤ allowance objects.now model.now.constraints model.now.goals }
    ensures whole { model_weight objects.now model.now.constraints model.now.goals ≤ most_weight
        → result ≡ allowance objects.now model.now.constraints model.now.goals }
{
    let cells = objects.cells().len() as u128;
    let sets = open_sets(objects) as u128;
    let weight = model_weight(model, objects) as u128;
    cells + 2 * sets + 1 + 1024 * weight
}

/// Whether a problem has at most so many variables, and at most so many constraints.
pub(crate) fn has_at_most(g: &Ground, n: u128) -> bool
    ensures within { result ≡ true → HasAtMost n g.now }
    ensures whole { HasAtMost n g.now → result ≡ true }
{
    g.domains.items().len() as u128 <= n && g.cons.items().len() as u128 <= n
}
