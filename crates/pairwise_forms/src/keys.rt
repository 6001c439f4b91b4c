//! Forms as variables that tell their values apart.
//!
//! A number stands for itself, a truth for 1 or 0, and an object or a value of an enumeration for
//! its number. Forms that are the same share a variable.
ghost use Rattle.std.specs.Prelude.{◌≡◌, ◌<◌, ◌∷◌, ◌++◌, [], ℤ, List, pos, length, IfOk, OnOk};
ghost use Rattle.ground_form.specs.Meaning.{value_of};
ghost use Rattle.form_build.specs.Worlds.{IsWorld, Defines};
ghost use Rattle.expr_forms.specs.FormBounds.{IsMap};
ghost use Rattle.expr_forms.specs.FormValues.{number_for, choice_at};
ghost use Rattle.pairwise_forms.specs.KeyValues.{IsChoice, HasKey, IsKeyOf, AreConstants};

use expr_forms::{Choice, Form};
use form_build::{Linear, Maker, Truth, settled};
use form_truths::flag_of;
use std::alloc::AllocError;

/// A variable that is this number.
fn constant(maker: &mut Maker, n: u32) -> Result<u32, AllocError>
    ensures exists { IfOk result (λ x. x < length maker.new.domains) }
    ensures value { IfOk result (λ x. (a : List ℤ) → IsWorld maker.new a → value_of a x ≡ pos n) }
    ensures adds { IfOk result (λ x. Defines maker.old maker.new) }
{
    maker.ask(1)?;
    let number = Linear::number(maker.alloc(), i64::from(n));
    let x = maker.linear(&number)?;
    Ok(x)
}

/// Adds the pair's value with a variable.
fn push_item(items: &mut Vec<(i64, u32)>, pair: (i64, u32), x: u32) -> Result<(), AllocError>
    ensures { OnOk result (items.new.items ≡ items.old.items ++ (pair.0, x) ∷ []) }
{
    items.push((pair.0, x))?;
    Ok(())
}

/// Each value of a map with a variable that is the number that it gives.
fn constants(maker: &mut Maker, pairs: &[(i64, u32)]) -> Result<Vec<(i64, u32)>, AllocError>
    ensures items { IfOk result (λ items. AreConstants maker.new pairs.now items.items) }
    ensures adds { IfOk result (λ items. Defines maker.old maker.new) }
{
    let mut items = Vec::new(maker.alloc());
    for pair in pairs {
        let x = constant(maker, pair.1)?;
        push_item(&mut items, *pair, x)?;
    }
    Ok(items)
}

/// A variable that is the number that the map gives for the value of `x`.
fn picked(maker: &mut Maker, x: u32, pairs: &[(i64, u32)]) -> Result<u32, AllocError>
    requires exists { x < length maker.old.domains }
    requires pairs { IsMap maker.old.domains (λ n. Unit {0}) x pairs.now }
    ensures exists { IfOk result (λ y. y < length maker.new.domains) }
    ensures value { IfOk result (λ y. (a : List ℤ) → IsWorld maker.new a
        → value_of a y ≡ pos (number_for (value_of a x) pairs.now)) }
    ensures adds { IfOk result (λ y. Defines maker.old maker.new) }
{
    let items = constants(maker, pairs)?;
    maker.ask(1)?;
    let y = maker.pick(x, items.as_slice())?;
    Ok(y)
}

/// A variable that is the number of the object, or of the enumeration's value.
fn choice_key(maker: &mut Maker, c: &Choice) -> Result<u32, AllocError>
    requires choice { IsChoice maker.old.domains c.now }
    ensures exists { IfOk result (λ x. x < length maker.new.domains) }
    ensures value { IfOk result (λ x. (a : List ℤ) → IsWorld maker.new a
        → value_of a x ≡ pos (choice_at c.now a)) }
    ensures adds { IfOk result (λ x. Defines maker.old maker.new) }
{
    match c {
        Choice::Fixed(n) => {
            let x = constant(maker, *n)?;
            Ok(x)
        }
        Choice::Cell(x) => Ok(*x),
        Choice::Mapped(x, pairs) => {
            let y = picked(maker, *x, pairs)?;
            Ok(y)
        }
    }
}

/// A variable that tells the form's value from others of its type.
pub(crate) fn key_of(maker: &mut Maker, f: &Form) -> Result<u32, AllocError>
    requires form { HasKey maker.old.domains f.now }
    ensures key { IfOk result (λ x. IsKeyOf maker.new f.now x) }
    ensures adds { IfOk result (λ x. Defines maker.old maker.new) }
{
    match f {
        Form::Number(number) => {
            maker.ask(1)?;
            let x = settled(maker, number)?;
            Ok(x)
        }
        Form::Truth(truth) => {
            maker.ask(1)?;
            let x = flag_of(maker, truth)?;
            Ok(x)
        }
        Form::Choice(_, choice) => {
            let x = choice_key(maker, choice)?;
            Ok(x)
        }
        Form::Object(_, choice) => {
            let x = choice_key(maker, choice)?;
            Ok(x)
        }
        Form::List(_) => {
            let x = constant(maker, 0)?;
            Ok(x)
        }
    }
}
