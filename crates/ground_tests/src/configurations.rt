//! All configurations of a model that has few.
ghost use Rattle.std.specs.Prelude.{◌≡◌, ◌<◌, true, length, pos, slice_index_or, IfOk};
ghost use Rattle.object_alloc.specs.Cells.{IsDomainOf};
ghost use Rattle.object_alloc.specs.Configurations.{IsConfiguration, IsInDomain, IsOfExtent};

use object_alloc::{Domain, Objects};
use std::alloc::{AllocError, Global};

/// Models with more configurations aren't tried.
const MOST: u64 = 10_000;

/// The numbers from the least to the greatest, or the first of them.
fn span_values(alloc: Global, low: i64, high: i64) -> Result<Vec<i64>, AllocError> {
    let mut values = Vec::new(alloc);
    for k in 0..10_001_u32 {
        let value = low.saturating_add(i64::from(k));
        if value > high {
            break;
        }
        values.push(value)?;
    }
    Ok(values)
}

/// The numbers of the objects of a class.
fn extent_values(alloc: Global, objects: &Objects<'_>, class: u32) -> Result<Vec<i64>, AllocError>
    requires class { class < length objects.now.classes }
{
    let mut values = Vec::new(alloc);
    let extent = objects.extent(alloc, class)?;
    for object in extent.items() {
        values.push(i64::from(*object))?;
    }
    Ok(values)
}

/// The values of a domain.
fn domain_values(
    alloc: Global,
    objects: &Objects<'_>,
    domain: Domain,
) -> Result<Vec<i64>, AllocError>
    requires class { IsDomainOf (length objects.now.classes) domain }
{
    match domain {
        Domain::Span(low, high) => span_values(alloc, low, high),
        Domain::Extent(class) => extent_values(alloc, objects, class),
    }
}

/// The values of each cell.
pub(crate) fn choices(alloc: Global, objects: &Objects<'_>) -> Result<Vec<Vec<i64>>, AllocError> {
    let mut lists = Vec::new(alloc);
    for cell in objects.cells() {
        lists.push(domain_values(alloc, objects, cell.domain)?)?;
    }
    Ok(lists)
}

/// In how many ways each cell can be given one of its values; None where there are too many.
pub(crate) fn ways(lists: &[Vec<i64>]) -> Option<u64> {
    let mut count = 1_u64;
    for list in lists {
        count = count.saturating_mul(list.len() as u64);
    }
    if count <= MOST { Some(count) } else { None }
}

/// The values that number n picks, one of each list.
pub(crate) fn picked(alloc: Global, lists: &[Vec<i64>], n: u64) -> Result<Vec<i64>, AllocError> {
    let mut values = Vec::new(alloc);
    let mut rest = n;
    for list in lists {
        let count = (list.len() as u64).max(1);
        let at = (rest % count) as usize;
        values.push(list.get(at).copied().unwrap_or(0))?;
        rest /= count;
    }
    Ok(values)
}

/// Whether a value is the number of an object of a class.
fn is_of_extent(
    alloc: Global,
    objects: &Objects<'_>,
    class: u32,
    value: i64,
) -> Result<bool, AllocError>
    requires class { class < length objects.now.classes }
    ensures inside { IfOk result (λ found. found ≡ true → IsOfExtent objects.now class value) }
{
    let extent = objects.extent(alloc, class)?;
    for object in extent.items() {
        if i64::from(*object) == value {
            return Ok(true);
        }
    }
    Ok(false)
}

/// Whether the value of this number lies in a domain.
fn is_in(
    alloc: Global,
    objects: &Objects<'_>,
    domain: Domain,
    values: &[i64],
    i: usize,
) -> Result<bool, AllocError>
    requires there { i < length values.now }
    requires class { IsDomainOf (length objects.now.classes) domain }
    ensures inside { IfOk result (λ found. found ≡ true
        → IsInDomain objects.now domain (slice_index_or values.now i (pos 0))) }
{
    match domain {
        Domain::Span(low, high) => Ok(low <= values[i] && values[i] <= high),
        Domain::Extent(class) => {
            let found = is_of_extent(alloc, objects, class, values[i])?;
            Ok(found)
        }
    }
}

/// Whether these values are a configuration.
pub(crate) fn is_configuration(
    alloc: Global,
    objects: &Objects<'_>,
    values: &[i64],
) -> Result<bool, AllocError>
    ensures configuration { IfOk result (λ found. found ≡ true
        → IsConfiguration objects.now values.now) }
{
    let cells = objects.cells();
    if cells.len() != values.len() {
        return Ok(false);
    }
    for i in 0..cells.len() {
        let inside = is_in(alloc, objects, cells[i].domain, values, i)?;
        if !inside {
            return Ok(false);
        }
    }
    Ok(true)
}
