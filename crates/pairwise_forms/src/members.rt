//! What is kept of a possible member to compare it with others.
use form_build::{Linear, Truth};

/// A possible member by its value.
#[derive(Drop)]
pub(crate) struct Keyed {
    /// Whether it is kept.
    pub kept: Truth,
    /// The variable that tells its value from others'.
    pub key: u32,
}

/// A possible member as an item.
#[derive(Drop)]
pub(crate) struct Packed {
    /// Whether it is kept.
    pub kept: Truth,
    /// The variable that tells its place from others'.
    pub place: u32,
    /// What it takes at its place.
    pub size: Linear,
    /// How much its place may hold for its sake.
    pub room: Linear,
}
