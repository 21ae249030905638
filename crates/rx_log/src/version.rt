//! Versions of logs.

/// Which text a log has.
#[derive(Clone, Copy, Debug, PartialEq, Eq)]
pub enum Version {
    /// Without domains.
    One,
    /// With a domain for each symbol.
    Two,
}
