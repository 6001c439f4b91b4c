//! What stands where, as a picture shows it.

use view_leaves::Step;

/// The names under which guests have a size, and a holder its capacity.
#[derive(Clone, Copy)]
pub struct Size<'a> {
    /// Of a guest's size.
    pub name: &'a str,
    /// Of what a holder can take.
    pub capacity: &'a str,
}

/// What the guests of a holder come to.
#[derive(Clone, Copy)]
pub struct Load<'s> {
    /// The name of their sizes.
    pub name: &'s str,
    /// The sum of their sizes.
    pub sum: i128,
    /// What the holder can take, where it says so.
    pub capacity: Option<i64>,
}

/// Who stands somewhere.
#[derive(Clone, Copy)]
pub struct Guest<'l, 'a> {
    /// The guest's path.
    pub path: &'l [Step<'a>],
    /// Its class, where it has one.
    pub class: Option<&'a str>,
}

/// A holder and what stands there.
#[derive(Drop)]
pub struct Holding<'s, 'l, 'a> {
    /// The holder's path.
    pub holder: &'l [Step<'a>],
    /// What its guests come to, a load for each size.
    pub loads: Vec<Load<'s>>,
    /// Its guests, in order of path.
    pub guests: Vec<Guest<'l, 'a>>,
}

/// What a part carries.
#[derive(Drop)]
pub struct Scale<'s> {
    /// How the part's path is spelled.
    pub text: Vec<u8>,
    /// What its guests come to, a load for each size.
    pub loads: Vec<Load<'s>>,
}
