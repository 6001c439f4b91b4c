//! What flags are, by the constraints that define them.
ghost use Rattle.std.specs.Prelude.{◌≡◌, [], ◌∷◌, pos, Contains, IfSome};
ghost use Rattle.ground_form.specs.declared.con.Con.TheVariants as con;

use crate::constants::only_value;
use form_build::Maker;
use ground_form::Con;
use std::alloc::AllocError;

/// The variable that the constraint defines by others.
fn variable_defined(con: &Con) -> Option<u32> {
    match con {
        Con::MemberDef { flag, .. } => Some(*flag),
        Con::AndDef { flag, .. } => Some(*flag),
        Con::ReifLe { flag, .. } => Some(*flag),
        Con::LinDef { out, .. } => Some(*out),
        Con::CondDef { out, .. } => Some(*out),
        _ => None,
    }
}

/// Notes that constraint k defines a variable.
fn note_index(indexes: &mut [usize], con: &Con, k: usize) {
    if let Some(found) = variable_defined(con) {
        let x = found as usize;
        if x < indexes.len() {
            indexes[x] = k;
        }
    }
}

/// For each variable the number of a constraint: of one that is defined by a question, by parts or
/// by a flag that of its definition. Who reads it looks whether it is.
pub fn definition_indexes(maker: &Maker) -> Result<Vec<usize>, AllocError> {
    let mut indexes = Vec::new(maker.alloc());
    indexes.resize(maker.domains().len(), 0)?;
    for (k, con) in maker.cons().iter().enumerate() {
        note_index(&mut indexes, con, k);
    }
    Ok(indexes)
}

/// The constraint that is noted for a variable.
pub fn definition<'a>(maker: &'a Maker, indexes: &[usize], x: u32) -> Option<&'a Con>
    ensures { IfSome result (λ c. Contains maker.now.cons c.now) }
{
    let x = x as usize;
    if x >= indexes.len() {
        return None;
    }
    let k = indexes[x];
    let cons = maker.cons();
    if k < cons.len() { Some(&cons[k]) } else { None }
}

/// The variable and the value, where the constraint says that the flag tells whether the variable
/// has that value.
fn asked_by(c: &Con, flag: u32) -> Option<(u32, u64)>
    ensures { IfSome result (λ q. c.now ≡ con.MemberDef flag q.0 ((pos q.1, pos q.1) ∷ [])) }
{
    match c {
        Con::MemberDef {
            flag: own,
            var,
            set,
        } => {
            let value = only_value(set)?;
            if *own == flag {
                Some((*var, value))
            } else {
                None
            }
        }
        _ => None,
    }
}

/// The variable and the value, where the flag tells whether the variable has that value.
pub fn question(maker: &Maker, indexes: &[usize], flag: u32) -> Option<(u32, u64)>
    ensures { IfSome result (λ q. Contains maker.now.cons
        (con.MemberDef flag q.0 ((pos q.1, pos q.1) ∷ []))) }
{
    let c = definition(maker, indexes, flag)?;
    asked_by(c, flag)
}
