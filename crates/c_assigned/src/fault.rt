//! What may be wrong with the variables of a function.

/// A fault of a function, by the number of a token.
#[derive(Clone, Copy, Debug, PartialEq, Eq)]
pub enum Fault {
    /// This variable is read where it may have no value.
    MayBeUnset(u32),
    /// The end of the function of this name may be reached without a `return`.
    MayNotReturn(u32),
}
