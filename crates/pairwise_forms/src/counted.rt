//! That the values of many variables differ, as a packing.
//!
//! Blocks of variables see no more than what two of them have. As items that fill the places which
//! their values are, one packing counts all of them, so that too few values for so many variables
//! are found out at once. It says nothing that the blocks don't.
ghost use Rattle.std.specs.Prelude.{◌≡◌, ◌<◌, map, true, length, IfOk, OnOk};
ghost use Rattle.std.specs.List.{All};
ghost use Rattle.ground_form.specs.Meaning.{all_differ};
ghost use Rattle.pairwise_forms.specs.Blocks.{Follows};

use form_build::{Linear, Maker, settled};
use packed_rows::are_bounded;
use std::alloc::{AllocError, Global};

/// The variables as items of this size, with room for one at each place.
fn items_of(alloc: Global, vars: &[u32], one: u32) -> Result<Vec<(u32, u32, u32)>, AllocError>
    ensures { IfOk result (λ items. items.items ≡ map (λ x. (x, one, one)) vars.now) }
{
    let mut items = Vec::new(alloc);
    for x in vars {
        items.push((*x, one, one))?;
    }
    Ok(items)
}

/// States, as a packing, what follows where the values of the variables differ. Where a value may
/// be below 0, nothing is stated.
pub(crate) fn state_counted(maker: &mut Maker, vars: &[u32]) -> Result<(), AllocError>
    requires variables { All (λ x. x < length maker.old.domains) vars.now }
    ensures follows { OnOk result (Follows maker.old maker.new (λ a. all_differ vars.now a)) }
{
    let number = Linear::number(maker.alloc(), 1);
    maker.ask(1)?;
    let one = settled(maker, &number)?;
    let items = items_of(maker.alloc(), vars, one)?;
    maker.ask(1)?;
    if !are_bounded(maker.domains(), items.as_slice()) {
        return Ok(());
    }
    maker.require_pack(items.as_slice())?;
    Ok(())
}
