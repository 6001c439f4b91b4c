//! Sums added up by halves, so that each term is merged a few times only, however many sums there
//! are.
ghost use Rattle.std.specs.Prelude.{◌≡◌, ◌^◌, ◌*ℤ◌, ℤ, pos, List, map, length, IfOk};
ghost use Rattle.std.specs.List.{All};
ghost use Rattle.form_build.specs.Forms.{linear_at};
ghost use Rattle.form_build.specs.Worlds.{IsWorld, Defines};
ghost use Rattle.form_build.specs.Sums.{IsSum};
ghost use Rattle.conf_eval.specs.Meaning.{total};
ghost use Rattle.quantifier_forms.specs.Totals.{AreSummands};

use form_build::{Linear, Maker, plus};
use std::alloc::AllocError;

/// The same sum again.
pub(crate) fn copied(f: &Linear) -> Result<Linear, AllocError>
    ensures { IfOk result (λ r. r ≡ f.now) }
{
    Ok(Linear {
        terms: f.terms.copy()?,
        offset: f.offset,
    })
}

/// All of the sums together.
pub fn total(maker: &mut Maker, sums: &[Linear]) -> Result<Linear, AllocError>
    requires summands { AreSummands maker.old.domains sums.now }
    ensures value { IfOk result (λ r. (a : List ℤ) → IsWorld maker.new a
        → linear_at r a ≡ total (map (λ f. linear_at f a) sums.now)) }
    ensures sum { IfOk result (λ r. (low high : ℤ) → All (IsSum maker.old.domains low high) sums.now
        → IsSum maker.new.domains (pos (length sums.now) *ℤ low)
        (pos (length sums.now) *ℤ high) r) }
    ensures adds { IfOk result (λ r. Defines maker.old maker.new) }
{
    match sums {
        [] => Ok(Linear::number(maker.alloc(), 0)),
        [only] => {
            let r = copied(only)?;
            Ok(r)
        }
        _ => {
            let (front, back) = sums.split_at(sums.len() / 2);
            let f = total(maker, front)?;
            let g = total(maker, back)?;
            maker.ask(1)?;
            let r = plus(maker, &f, &g)?;
            Ok(r)
        }
    }
}
