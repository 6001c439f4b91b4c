//! Which constraints compare the members of a list. These are always stated by what the members
//! give, and never left to what follows from others.
ghost use Rattle.std.specs.Prelude.{◌≡◌, ℕ, true, false};
ghost use Rattle.conf_types.specs.TreeOf.{tree_of, quant_tree};
ghost use Rattle.quantifier_forms.specs.Quantified.{compares_members};
ghost use Rattle.ground_model.specs.WholesStand.{compares};

use conf_syntax::QuantKind;
use conf_types::{RExpr, RNode, RQuant};

/// Whether a quantifier of this kind compares its members.
fn compares_members(kind: QuantKind) -> bool
    ensures { result ≡ compares_members kind }
{
    match kind {
        QuantKind::AllDifferent | QuantKind::Pack => true,
        QuantKind::Forall | QuantKind::Exists | QuantKind::Sum | QuantKind::Count => false,
    }
}

/// Whether a quantifier compares its members.
#[tactic(auto, using(crate::proofs::WholeSteps::quant_compares))]
fn quant_compares(quant: &RQuant) -> bool
    ensures { (at : ℕ) → result ≡ compares (quant_tree quant.now at) }
{
    compares_members(quant.kind)
}

/// Whether an expression compares the members of a list.
fn compares(e: &RExpr) -> bool
    ensures { result ≡ compares (tree_of e.now) }
{
    match &e.node {
        RNode::Paren(inner) => compares(inner),
        RNode::Quant(quant) => quant_compares(quant),
        RNode::Minus(_) => false,
        RNode::Not(_) => false,
        RNode::Dot(_, _, _) => false,
        RNode::Pair(_, _, _) => false,
        RNode::Number(_) => false,
        RNode::Truth(_) => false,
        RNode::This => false,
        RNode::Local(_) => false,
        RNode::Own(_, _) => false,
        RNode::Root(_, _) => false,
        RNode::Value(_, _) => false,
        RNode::Class(_) => false,
    }
}

/// Of a packing with at most so many bins the sums are stated as well. They tell the same of each
/// bin by fewer machines, and with few bins their flags are few.
const FEW_BINS: usize = 16;

/// Whether a constraint of so many objects need not be stated for each of them, where it may be
/// stated as one packing.
pub(crate) fn is_told(packs: bool, e: &RExpr, count: usize) -> bool
    ensures packs { result ≡ true → packs ≡ true }
    ensures compares { result ≡ true → compares (tree_of e.now) ≡ false }
{
    if !packs || count <= FEW_BINS {
        return false;
    }
    !compares(e)
}
