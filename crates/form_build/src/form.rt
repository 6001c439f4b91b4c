//! The forms of ground expressions.
//!
//! A number is a sum over variables, and a truth is a question about one variable's value. What a
//! form means at values of the variables says `specs/Forms`.
use ground_form::Terms;
use signed_clause::IntSet;

/// A number: terms and an offset, added up.
#[derive(Drop)]
pub struct Linear {
    /// The terms.
    pub terms: Terms,
    /// The offset.
    pub offset: i64,
}

/// A truth: fixed, or whether a variable's value is in a set.
#[derive(Drop)]
pub enum Truth {
    /// Fixed.
    Fixed(bool),
    /// Whether the value of the variable is in the set.
    In(u32, IntSet),
}
