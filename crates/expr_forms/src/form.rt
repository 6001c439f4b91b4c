//! The forms of expressions. What a form means at values of the variables says `specs/FormValues`.
use form_build::{Linear, Truth};

/// An object or a value of an enumeration, by its number.
#[derive(Drop)]
pub enum Choice {
    /// This one.
    Fixed(u32),
    /// The one whose number is the variable's value.
    Cell(u32),
    /// The one that the list gives for the variable's value.
    Mapped(u32, Vec<(i64, u32)>),
}

/// An object that may be a member of a list, and whether it is.
#[derive(Drop)]
pub struct Member {
    /// The object.
    pub object: u32,
    /// Whether it is a member.
    pub is: Truth,
}

/// An object that may be a member of a reference set of one of several owners.
#[derive(Drop)]
pub struct Slot {
    /// The object.
    pub object: u32,
    /// Each owner, with the cell that is 1 where the object is a member there.
    pub cells: Vec<(u32, u32)>,
}

/// A list of objects.
#[derive(Drop)]
pub enum Listing {
    /// All of these.
    All(Vec<u32>),
    /// Those of these that are members, in order.
    Some(Vec<Member>),
    /// The members, in order, of the reference set of the owner that goes with the value of the
    /// variable.
    Owned(u32, Vec<(i64, u32)>, Vec<Slot>),
}

/// What an expression is once it is ground.
#[derive(Drop)]
pub enum Form {
    /// A number.
    Number(Linear),
    /// A truth.
    Truth(Truth),
    /// A value of the enumeration of this number.
    Choice(u32, Choice),
    /// An object of the extent of the class of this number.
    Object(u32, Choice),
    /// A list of objects.
    List(Listing),
}
