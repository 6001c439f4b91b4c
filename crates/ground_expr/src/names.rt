//! What names stand for: an object that is known, a quantifier's variable, a class.
ghost use Rattle.std.specs.Prelude.{◌≡◌, ◌++◌, ◌∷◌, [], ◌<◌, ◌^◌, true, ℕ, ℤ, pos, List, unsigned_abs, length, IfOk};
ghost use Rattle.signed_clause.specs.Clauses.{Boxes};
ghost use Rattle.form_build.specs.Forms.{linear_at};
ghost use Rattle.form_build.specs.Sums.{IsLinear, LiesFrom};
ghost use Rattle.object_alloc.specs.Cells.{extent};
ghost use Rattle.object_alloc.specs.Walk.{objects as all_objects};
ghost use Rattle.conf_eval.specs.Evaluating.{IsRoom};
ghost use Rattle.conf_eval.specs.Meaning.{local_object, objects_of};
ghost use Rattle.expr_forms.specs.FormValues.{form_value, listing_at};
ghost use Rattle.expr_forms.specs.FixedForms.{is_fixed_form, is_fixed_list};
ghost use Rattle.ground_expr.specs.Chosen.{class_part, choice_part, slots_part};
ghost use Rattle.identity_forms.specs.Lists.{HasMembers, slot_objects};
ghost use Rattle.ground_expr.specs.Usable.{IsUsable};
ghost use Rattle.expr_forms.specs.declared.form.Choice.TheVariants as choice;
ghost use Rattle.expr_forms.specs.declared.form.Form.TheVariants as form;

use expr_forms::{Choice, Form, Listing};
use form_build::Linear;
use object_alloc::Objects;
use std::alloc::{AllocError, Global};

/// A number that stands in the source, as a sum.
pub(crate) fn number_sum(alloc: Global, n: u32) -> Linear
    ensures small { n < 2 ^ 32 }
    ensures value { (a : List ℤ) → linear_at result a ≡ pos n }
    ensures linear { (boxes : Boxes) → IsLinear (unsigned_abs (pos n)) boxes result }
    ensures lies { (boxes : Boxes) → LiesFrom (pos n) (pos n) boxes result }
{
    Linear::number(alloc, i64::from(n))
}

/// An object that is known.
pub(crate) fn object_form(objects: &Objects<'_>, object: u32) -> Form
    requires { object < length (all_objects objects.now) }
    ensures { (d : ℕ) × (result ≡ form.Object d (choice.Fixed object)) }
{
    Form::Object(objects.class(object), Choice::Fixed(object))
}

/// The object of the variable at this distance, 0 for the innermost.
pub(crate) fn local_object(vars: &[u32], k: u32) -> u32
    ensures { result ≡ local_object vars.now k }
{
    let at = vars.len().saturating_sub(k as usize + 1);
    vars.get(at).copied().unwrap_or(0)
}

/// All objects of a class, in order. The cost is the number of all objects, where there is one.
#[tactic(auto, using(std::proofs::lemmas::List::nil_from_length))]
pub(crate) fn class_objects(
    alloc: Global,
    objects: &Objects<'_>,
    class: u32,
) -> Result<Vec<u32>, AllocError>
    requires { class < length objects.now.classes }
    ensures { IfOk result (λ xs. xs.items ≡ extent objects.now class) }
{
    if objects.extent_count(class) == 0 {
        return Ok(Vec::new(alloc));
    }
    let numbers = objects.extent(alloc, class)?;
    let copy = Vec::from_slice(alloc, numbers.items())?;
    Ok(copy)
}

/// The number of the class that an object is chosen from; 0 of what is no object.
pub(crate) fn class_of(f: &Form) -> u32
    ensures { result ≡ class_part f.now }
{
    match f {
        Form::Object(class, _) => *class,
        Form::Number(_) | Form::Truth(_) | Form::Choice(_, _) | Form::List(_) => 0,
    }
}

/// The object that a form is; object 0 of what is none.
pub(crate) fn choice_of(f: Form) -> Choice
    ensures { result ≡ choice_part f }
{
    match f {
        Form::Object(_, choice) => choice,
        Form::Number(_) | Form::Truth(_) | Form::Choice(_, _) | Form::List(_) => Choice::Fixed(0),
    }
}

/// The list that a form is; nobody of what is none.
pub(crate) fn listing_of(alloc: Global, f: Form) -> Listing
    ensures value { (a : List ℤ) → listing_at result a ≡ objects_of (form_value f a) }
    ensures slots { slot_objects result ≡ slots_part f }
    ensures usable { (boxes : Boxes) → IsUsable boxes f → HasMembers boxes result }
    ensures fixed { is_fixed_form f ≡ true → is_fixed_list result ≡ true }
{
    match f {
        Form::List(list) => list,
        Form::Number(_) | Form::Truth(_) | Form::Choice(_, _) | Form::Object(_, _) => {
            Listing::All(Vec::new(alloc))
        }
    }
}

/// The variables, and room for one more.
pub(crate) fn with_room(alloc: Global, vars: &[u32]) -> Result<Vec<u32>, AllocError>
    ensures room { IfOk result (λ inner. IsRoom vars.now inner.items) }
{
    let mut inner = Vec::new(alloc);
    inner.extend_from_slice(vars)?;
    inner.push(0)?;
    Ok(inner)
}

/// Sets the innermost variable.
pub(crate) fn set_last(inner: &mut Vec<u32>, x: u32)
    ensures set { (outer : List ℕ) → IsRoom outer inner.old.items → inner.new.items ≡ outer
        ++ x ∷ [] }
{
    let count = inner.len();
    if count > 0 {
        inner[count - 1] = x;
    }
}
