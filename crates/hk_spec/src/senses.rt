//! The senses of expressions, and the places of a specification that have one.

/// How the value of an expression moves where the states that it is computed of give way to states
/// that cover them. The value is a number, a set, or whether a condition holds.
#[derive(Clone, Copy, Debug, PartialEq, Eq)]
pub enum Sense {
    /// It stays.
    Fixed,
    /// A number gets no less, a set loses no value, and a condition that holds goes on holding.
    Rises,
    /// A number gets no greater, a set gets no new value, and a condition that doesn't hold doesn't
    /// begin to.
    Falls,
    /// It may move either way.
    Mixed,
}

/// A place of a specification that has a sense: the test, or the step of the property at a place,
/// counted from 0, among the properties of its side.
#[derive(Clone, Copy, Debug, PartialEq, Eq)]
pub enum Place {
    Test,
    Down(u16),
    Up(u16),
}
