//! What one possible member gives to a quantifier.
use expr_forms::Form;
use form_build::Truth;

/// What one possible member gives to a quantifier.
#[derive(Drop)]
pub struct Part {
    /// Whether it is a member that meets the filter.
    pub kept: Truth,
    /// The forms of the bodies at it.
    pub bodies: Vec<Form>,
}
