//! The coefficients of a sum by variable. No promise rests on them.
use form_build::{Linear, Maker};
use std::alloc::AllocError;

/// The coefficient of each variable in a sum, 0 where it has none.
pub fn factors_of(maker: &Maker, f: &Linear) -> Result<Vec<i64>, AllocError> {
    let mut factors = Vec::new(maker.alloc());
    factors.resize(maker.domains().len(), 0)?;
    for t in f.terms.items() {
        set_factor(&mut factors, *t);
    }
    Ok(factors)
}

/// Notes the coefficient of a term.
fn set_factor(factors: &mut [i64], t: (i64, u32)) {
    let x = t.1 as usize;
    if x < factors.len() {
        factors[x] = t.0;
    }
}

/// The coefficient of a variable.
pub fn factor_at(factors: &[i64], x: u32) -> i64 {
    let x = x as usize;
    if x < factors.len() { factors[x] } else { 0 }
}
