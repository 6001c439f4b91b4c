//! The indexes of a list.
ghost use Rattle.std.specs.Prelude.{◌≡◌, ◌<◌, ◌^◌, All, AllPairs, IfOk};
ghost use Rattle.std.specs.List.{range_with_len};

use std::alloc::{AllocError, Global};

/// The indexes of a list of this length.
#[tactic(auto, using(crate::proofs::PartLists::all_ascend, crate::proofs::PartLists::all_exist, crate::proofs::PartLists::range_push))]
pub(crate) fn all_indexes(alloc: Global, count: usize) -> Result<Vec<u32>, AllocError>
    requires { count < 2 ^ 32 }
    ensures all { IfOk result (λ list. list.items ≡ range_with_len 0 count) }
    ensures ascend { IfOk result (λ list. AllPairs ◌<◌ list.items) }
    ensures exist { IfOk result (λ list. All (λ k. k < count) list.items) }
{
    let mut list = Vec::with_capacity(alloc, count)?;
    for k in 0..count {
        list.push(k as u32)?;
    }
    Ok(list)
}
