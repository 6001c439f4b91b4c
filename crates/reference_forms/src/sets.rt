//! The cells of a reference set as members.
ghost use Rattle.std.specs.Prelude.{◌≡◌, ◌++◌, ◌<◌, ℤ, List, [], length, filter_map, map, take, IfOk, OnOk};
ghost use Rattle.std.specs.List.{All, cons_option};
ghost use Rattle.object_alloc.specs.Cells.{cells};
ghost use Rattle.object_alloc.specs.Members.{member_at};
ghost use Rattle.form_build.specs.Forms.{HasVariable};
ghost use Rattle.form_build.specs.Worlds.{IsWorld};
ghost use Rattle.expr_forms.specs.declared.form.Member.{Member as AMember};
ghost use Rattle.expr_forms.specs.FormValues.{members_at};
ghost use Rattle.expr_forms.specs.Standing.{HasCells};
ghost use Rattle.reference_forms.specs.Attributes.{element_at};

use crate::variables::variable_truth;
use expr_forms::Member;
use form_build::Maker;
use object_alloc::Objects;
use std::alloc::AllocError;

/// The object of a reference set's cell.
fn element_of(objects: &Objects<'_>, cell: u32) -> Option<u32>
    ensures { result ≡ element_at (cells objects.now) cell }
{
    objects.cells().get(cell as usize)?.element
}

/// Adds the object of a reference set's cell, a member where the cell is 1.
fn push_member(
    maker: &Maker,
    objects: &Objects<'_>,
    members: &mut Vec<Member>,
    cell: u32,
) -> Result<(), AllocError>
    requires cells { HasCells objects.now maker.now }
    requires variables { All (λ (m : AMember). HasVariable (length maker.now.domains) m.is)
        members.old.items }
    ensures members { OnOk result ((a : List ℤ) → IsWorld maker.now a
        → members_at members.new.items a
        ≡ members_at members.old.items a
        ++ cons_option (member_at (cells objects.now) (take maker.now.search a) cell) []) }
    ensures objects { OnOk result (map (λ (m : AMember). m.object) members.new.items
        ≡ map (λ (m : AMember). m.object) members.old.items
        ++ cons_option (element_at (cells objects.now) cell) []) }
    ensures variables { OnOk result
        (All (λ (m : AMember). HasVariable (length maker.now.domains) m.is) members.new.items) }
{
    let Some(object) = element_of(objects, cell) else {
        return Ok(());
    };
    let is = variable_truth(maker, cell);
    members.push(Member { object, is })?;
    Ok(())
}

/// The objects of these cells of a reference set, each a member where its cell is 1.
pub(crate) fn set_members(
    maker: &Maker,
    objects: &Objects<'_>,
    owned: &[u32],
) -> Result<Vec<Member>, AllocError>
    requires cells { HasCells objects.now maker.now }
    ensures members { IfOk result (λ ms. (a : List ℤ) → IsWorld maker.now a → members_at ms.items a
        ≡ filter_map (member_at (cells objects.now) (take maker.now.search a)) owned.now) }
    ensures objects { IfOk result (λ ms. map (λ (m : AMember). m.object) ms.items
        ≡ filter_map (element_at (cells objects.now)) owned.now) }
    ensures variables { IfOk result
        (λ ms. All (λ (m : AMember). HasVariable (length maker.now.domains) m.is) ms.items) }
{
    let mut members = Vec::new(maker.alloc());
    for cell in owned {
        push_member(maker, objects, &mut members, *cell)?;
    }
    Ok(members)
}
