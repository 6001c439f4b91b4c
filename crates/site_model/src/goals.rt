//! What a placement is to be best at.
ghost use Rattle.std.specs.Prelude.{◌≡◌, ◌++◌, IfOk, OnOk, None, Some, decimal, length, map, option_map};
ghost use Rattle.std.specs.List.{flat_map, list_any};
ghost use Rattle.site_model.specs.Goals.{aim_of, kept_seen, own_attributes, most_digits, most_line, loads_line, total_line, spread_text, kept_by, kept_line, is_moves, moves_goal, goal_text};
ghost use Rattle.site_tables.specs.Grid.{behind as site_behind};
ghost use Rattle.site_tables.specs.Views.{row_seen};

use crate::lines::{nines, push_all};
use site_names::word_of;
use site_tables::{Row, ServiceColumn, behind, column_of, header, longest_at};
use std::alloc::{AllocError, Global};

/// A service, and the host on which it runs today, if it runs.
#[derive(Clone, Copy)]
pub struct Kept<'k> {
    pub name: &'k [u8],
    pub host: Option<&'k [u8]>,
}

/// What a placement is to be best at.
#[derive(Clone, Copy)]
pub enum Goal<'g> {
    /// Nothing.
    Nothing,
    /// As few hosts in use as can be.
    Fewest,
    /// The least greatest load of the resource of this name.
    Spread(&'g [u8]),
    /// The fewest moves from what runs where today; the cheapest where moves have costs.
    Keep(&'g [Kept<'g>]),
}

/// Writes the attributes of services that a goal needs.
pub(crate) fn push_own_attributes(text: &mut Vec<u8>, goal: Goal<'_>) -> Result<(), AllocError>
    ensures { OnOk result (text.new.items ≡ text.old.items ++ own_attributes (aim_of goal.entry)) }
{
    match goal {
        Goal::Keep(_) => text.extend_from_slice(b"  var moved as bool;\n"),
        Goal::Nothing | Goal::Fewest | Goal::Spread(_) => Ok(()),
    }
}

/// How many digits what a host has of a resource may have.
fn most_digits(hosts: &[Row<'_>], resource: &[u8]) -> usize
    ensures { result ≡ most_digits (map row_seen hosts.now) resource.now }
{
    let column = column_of(header(hosts), resource).unwrap_or(0);
    longest_at(behind(hosts), column)
}

/// A number in words of the language.
fn number(alloc: Global, count: usize) -> Result<Vec<u8>, AllocError>
    ensures { IfOk result (λ text. text.items ≡ decimal count) }
{
    Ok(format!(in alloc; "{count}")?.into_bytes())
}

/// How many hosts there are.
fn host_count(hosts: &[Row<'_>]) -> usize
    ensures { result ≡ length (site_behind (map row_seen hosts.now)) }
{
    let rows = behind(hosts);
    rows.len()
}

/// Writes the variable of the greatest load.
fn push_most(text: &mut Vec<u8>, most: &[u8]) -> Result<(), AllocError>
    ensures { OnOk result (text.new.items ≡ text.old.items ++ most_line most.now) }
{
    push_all(
        text,
        &[b"var most as 0..".as_slice(), most, b";\n".as_slice()],
    )
}

/// Writes that no load is greater.
fn push_loads(text: &mut Vec<u8>, word: &[u8]) -> Result<(), AllocError>
    ensures { OnOk result (text.new.items ≡ text.old.items ++ loads_line word.now) }
{
    push_all(
        text,
        &[
            b"where forall h in Host { sum s in Service where s.host = h { s.".as_slice(),
            word,
            b" } <= most; };\n".as_slice(),
        ],
    )
}

/// Writes that so many times it is no less than all loads, and that it is to be least.
fn push_total(text: &mut Vec<u8>, count: &[u8], word: &[u8]) -> Result<(), AllocError>
    ensures { OnOk result (text.new.items ≡ text.old.items ++ total_line count.now word.now) }
{
    push_all(
        text,
        &[
            b"where ".as_slice(),
            count,
            b" * most >= sum s in Service { s.".as_slice(),
            word,
            b" };\nminimize most;\n".as_slice(),
        ],
    )
}

/// Writes that the greatest load of a resource is to be least.
fn push_spread(
    alloc: Global,
    text: &mut Vec<u8>,
    hosts: &[Row<'_>],
    resource: &[u8],
) -> Result<(), AllocError>
    ensures { OnOk result (text.new.items
        ≡ text.old.items ++ spread_text (map row_seen hosts.now) resource.now) }
{
    let most = nines(alloc, most_digits(hosts, resource))?;
    let word = word_of(alloc, resource)?;
    let count = number(alloc, host_count(hosts))?;
    push_most(text, &most)?;
    push_loads(text, &word)?;
    push_total(text, &count, &word)?;
    Ok(())
}

/// Writes that a service that doesn't run today hasn't moved.
fn push_new(alloc: Global, text: &mut Vec<u8>, name: &[u8]) -> Result<(), AllocError>
    ensures { OnOk result (text.new.items ≡ text.old.items ++ kept_by name.now None) }
{
    let word = word_of(alloc, name)?;
    push_all(
        text,
        &[
            b"where not ".as_slice(),
            word.as_slice(),
            b".moved".as_slice(),
            b";  // ".as_slice(),
            name,
            b"\n".as_slice(),
        ],
    )
}

/// Writes when a service that runs on a host today has moved.
fn push_running(
    alloc: Global,
    text: &mut Vec<u8>,
    name: &[u8],
    host: &[u8],
) -> Result<(), AllocError>
    ensures { OnOk result (text.new.items ≡ text.old.items ++ kept_by name.now (Some host.now)) }
{
    let word = word_of(alloc, name)?;
    let host = word_of(alloc, host)?;
    push_all(
        text,
        &[
            b"where ".as_slice(),
            word.as_slice(),
            b".moved = (".as_slice(),
            word.as_slice(),
            b".host != ".as_slice(),
            host.as_slice(),
            b")".as_slice(),
            b";  // ".as_slice(),
            name,
            b"\n".as_slice(),
        ],
    )
}

/// Writes when a service has moved.
fn push_kept(alloc: Global, text: &mut Vec<u8>, kept: &Kept<'_>) -> Result<(), AllocError>
    ensures { OnOk result (text.new.items ≡ text.old.items ++ kept_line (kept_seen kept.now)) }
{
    match kept.host {
        None => push_new(alloc, text, kept.name),
        Some(host) => push_running(alloc, text, kept.name, host),
    }
}

/// Writes when each service has moved.
fn push_all_kept(alloc: Global, text: &mut Vec<u8>, list: &[Kept<'_>]) -> Result<(), AllocError>
    ensures { OnOk result (text.new.items
        ≡ text.old.items ++ flat_map kept_line (map kept_seen list.now)) }
{
    for kept in list {
        push_kept(alloc, text, kept)?;
    }
    Ok(())
}

/// Whether a column says what moves cost.
fn is_moves(column: ServiceColumn) -> bool
    ensures { result ≡ is_moves column }
{
    matches!(column, ServiceColumn::Moves)
}

/// Whether some column says what moves cost.
fn has_moves(kinds: &[ServiceColumn]) -> bool
    ensures { result ≡ list_any is_moves kinds.now }
{
    for kind in kinds {
        if is_moves(*kind) {
            return true;
        }
    }
    false
}

/// Writes that few services are to have moved, or cheap ones where moves have costs.
fn push_moves(text: &mut Vec<u8>, kinds: &[ServiceColumn]) -> Result<(), AllocError>
    ensures { OnOk result (text.new.items ≡ text.old.items ++ moves_goal kinds.now) }
{
    if has_moves(kinds) {
        text.extend_from_slice(b"minimize sum s in Service where s.moved { s.moves };\n")
    } else {
        text.extend_from_slice(b"minimize count s in Service { s.moved };\n")
    }
}

/// Writes that moves are to be few.
fn push_keep(
    alloc: Global,
    text: &mut Vec<u8>,
    kinds: &[ServiceColumn],
    list: &[Kept<'_>],
) -> Result<(), AllocError>
    ensures { OnOk result (text.new.items ≡ text.old.items
        ++ (flat_map kept_line (map kept_seen list.now) ++ moves_goal kinds.now)) }
{
    push_all_kept(alloc, text, list)?;
    push_moves(text, kinds)
}

/// Writes what a placement is to be best at.
pub(crate) fn push_goal(
    alloc: Global,
    text: &mut Vec<u8>,
    kinds: &[ServiceColumn],
    hosts: &[Row<'_>],
    goal: Goal<'_>,
) -> Result<(), AllocError>
    ensures { OnOk result (text.new.items ≡ text.old.items
        ++ goal_text kinds.now (map row_seen hosts.now) (aim_of goal.entry)) }
{
    match goal {
        Goal::Nothing => Ok(()),
        Goal::Fewest => text.extend_from_slice(
            b"minimize count h in Host { exists s in Service { s.host = h; } };\n",
        ),
        Goal::Spread(resource) => push_spread(alloc, text, hosts, resource),
        Goal::Keep(list) => push_keep(alloc, text, kinds, list),
    }
}
