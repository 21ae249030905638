//! Points of a program, and the symbols that are opened for them.

/// A place in a program as it runs: its symbol, called with the integers of its variables.
#[derive(Clone, Copy, Debug, PartialEq, Eq)]
pub struct Point {
    /// The symbol's number.
    pub symbol: u32,
    /// How many variables it has: those of the slots in scope, then the intermediate results.
    pub width: u32,
}

/// A symbol as it is opened.
#[derive(Clone, Copy, Debug, PartialEq, Eq)]
pub struct Opening {
    /// How many variables it has.
    pub width: u32,
    /// Whether it is a frame, which waits for what a call returns.
    pub frame: bool,
}
