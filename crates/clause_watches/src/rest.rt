//! `Rest`, why a clause needs no look, or what is known of one that still does.

/// Whether a clause rests, and by which of its literals.
#[derive(Clone, Copy)]
pub enum Rest {
    /// Still to be looked at; nothing is known of it.
    Listed,
    /// Still to be looked at; the literal of this variable meets its box.
    Half(u32),
    /// It rests: the literals of these two variables meet their boxes.
    On(u32, u32),
    /// It rests: the box of this variable meets its literal's set and lies within it.
    Held(u32),
}
