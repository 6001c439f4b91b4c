//! Operators over forms of any kind.
ghost use Rattle.std.specs.Prelude.{◌≡◌, ◌<◌, true, false, not, ◌||◌, ℤ, List, length, IfOk};
ghost use Rattle.class_table.specs.Outline.{Outline};
ghost use Rattle.conf_limits.specs.declared.interval.Interval.{Interval as AnInterval};
ghost use Rattle.conf_eval.specs.Meaning.{operate as meant, same_value, truth_of as truth_in};
ghost use Rattle.form_build.specs.Forms.{truth_at, HasVariable};
ghost use Rattle.form_build.specs.Worlds.{IsWorld, Defines};
ghost use Rattle.expr_forms.specs.FormValues.{choice_at, form_value};
ghost use Rattle.conf_eval.specs.declared.value.Value.TheVariants as meaning;
ghost use Rattle.operator_forms.specs.Operating.{are_numbers, are_truths, is_plain};
ghost use Rattle.operator_forms.specs.Operating.{AreOperands, IsSide, IsOperated};
ghost use Rattle.identity_forms.specs.Choices.{IsChoice};
ghost use Rattle.ground_expr.specs.Usable.{IsUsable};

use crate::names::{choice_of, listing_of};
use conf_syntax::Op;
use conf_types::{OpClass, class_of};
use expr_forms::{Choice, Form};
use form_build::{Maker, Truth, turned};
use identity_forms::{is_member, same_choice};
use operator_forms::operate;
use std::alloc::AllocError;

/// Whether both are numbers, or both truths.
fn are_alike(l: &Form, r: &Form) -> bool
    ensures { result ≡ (are_numbers l.now r.now || are_truths l.now r.now) }
{
    match l {
        Form::Number(_) => matches!(r, Form::Number(_)),
        Form::Truth(_) => matches!(r, Form::Truth(_)),
        Form::Choice(_, _) | Form::Object(_, _) | Form::List(_) => false,
    }
}

/// Whether the operator neither compares objects or values of enumerations, nor asks for members.
fn is_plain(op: Op, l: &Form, r: &Form) -> bool
    ensures { result ≡ is_plain op l.now r.now }
{
    match class_of(op) {
        OpClass::Equality => are_alike(l, r),
        OpClass::Member => false,
        OpClass::Logic | OpClass::Order | OpClass::Sum | OpClass::Product => true,
    }
}

/// Whether a value of an enumeration is the same as this.
#[tactic(auto, using(crate::proofs::Operands::nothing_made))]
fn same_named(maker: &mut Maker, d: u32, c: &Choice, r: &Form) -> Result<Truth, AllocError>
    requires left { IsChoice maker.old.domains c.now }
    requires right { IsUsable maker.old.domains r.now }
    ensures variable { IfOk result (λ t. HasVariable (length maker.new.domains) t) }
    ensures value { IfOk result (λ t. (a : List ℤ) → IsWorld maker.new a → truth_at t a
        ≡ same_value (meaning.Choice d (choice_at c.now a)) (form_value r.now a)) }
    ensures adds { IfOk result (λ t. Defines maker.old maker.new) }
{
    let _domains = maker.domains();
    match r {
        Form::Choice(e, k) => {
            if d != *e {
                return Ok(Truth::Fixed(false));
            }
            let t = same_choice(maker, c, k)?;
            Ok(t)
        }
        Form::Number(_) | Form::Truth(_) | Form::Object(_, _) | Form::List(_) => {
            Ok(Truth::Fixed(false))
        }
    }
}

/// Whether an object is the same as this.
#[tactic(auto, using(crate::proofs::Operands::nothing_made))]
fn same_object(maker: &mut Maker, c: &Choice, r: &Form) -> Result<Truth, AllocError>
    requires left { IsChoice maker.old.domains c.now }
    requires right { IsUsable maker.old.domains r.now }
    ensures variable { IfOk result (λ t. HasVariable (length maker.new.domains) t) }
    ensures value { IfOk result (λ t. (a : List ℤ) → IsWorld maker.new a → truth_at t a
        ≡ same_value (meaning.Object (choice_at c.now a)) (form_value r.now a)) }
    ensures adds { IfOk result (λ t. Defines maker.old maker.new) }
{
    let _domains = maker.domains();
    match r {
        Form::Object(_, k) => {
            let t = same_choice(maker, c, k)?;
            Ok(t)
        }
        Form::Number(_) | Form::Truth(_) | Form::Choice(_, _) | Form::List(_) => {
            Ok(Truth::Fixed(false))
        }
    }
}

/// Whether two values of enumerations, or two objects, are the same.
#[tactic(auto, using(crate::proofs::Operands::nothing_made))]
fn same_target(maker: &mut Maker, l: &Form, r: &Form) -> Result<Truth, AllocError>
    requires left { IsUsable maker.old.domains l.now }
    requires right { IsUsable maker.old.domains r.now }
    requires unlike { (are_numbers l.now r.now || are_truths l.now r.now) ≡ false }
    ensures variable { IfOk result (λ t. HasVariable (length maker.new.domains) t) }
    ensures value { IfOk result (λ t. (a : List ℤ) → IsWorld maker.new a → truth_at t a
        ≡ same_value (form_value l.now a) (form_value r.now a)) }
    ensures adds { IfOk result (λ t. Defines maker.old maker.new) }
{
    let _domains = maker.domains();
    match l {
        Form::Choice(d, c) => {
            let t = same_named(maker, *d, c, r)?;
            Ok(t)
        }
        Form::Object(_, c) => {
            let t = same_object(maker, c, r)?;
            Ok(t)
        }
        Form::Number(_) | Form::Truth(_) | Form::List(_) => Ok(Truth::Fixed(false)),
    }
}

/// An operator that compares objects or values of enumerations, or asks for members.
fn targeted(maker: &mut Maker, op: Op, l: Form, r: Form) -> Result<Truth, AllocError>
    requires left { IsUsable maker.old.domains l }
    requires right { IsUsable maker.old.domains r }
    requires plain { is_plain op l r ≡ false }
    ensures variable { IfOk result (λ t. HasVariable (length maker.new.domains) t) }
    ensures value { IfOk result (λ t. (a : List ℤ) → IsWorld maker.new a → truth_at t a
        ≡ truth_in (meant op (form_value l a) (form_value r a))) }
    ensures adds { IfOk result (λ t. Defines maker.old maker.new) }
{
    match op {
        Op::In => {
            let list = listing_of(maker.alloc(), r);
            let t = is_member(maker, &choice_of(l), &list)?;
            Ok(t)
        }
        Op::Eq => {
            let t = same_target(maker, &l, &r)?;
            Ok(t)
        }
        Op::Ne => {
            let t = same_target(maker, &l, &r)?;
            let u = turned(maker.alloc(), maker.domains(), &t)?;
            Ok(u)
        }
        _ => unreachable!(),
    }
}

/// The form of an operator, of those of its sides.
pub(crate) fn operated(maker: &mut Maker, op: Op, l: Form, r: Form) -> Result<Form, AllocError>
    requires operands { AreOperands maker.old.domains op l r }
    requires left { IsUsable maker.old.domains l }
    requires right { IsUsable maker.old.domains r }
    ensures operated { IfOk result (λ f. (o : Outline) (i j : AnInterval)
        → IsSide maker.old.domains i l → IsSide maker.old.domains j r
        → IsOperated o maker.new op i j l r f) }
    ensures adds { IfOk result (λ f. Defines maker.old maker.new) }
{
    if is_plain(op, &l, &r) {
        let f = operate(maker, op, &l, &r)?;
        return Ok(f);
    }
    let t = targeted(maker, op, l, r)?;
    Ok(Form::Truth(t))
}
