//! The domains of a log.
use rx_cert::Cert;
use rx_plain::Items;
use rx_row::Constraint;

/// A domain for each symbol, with certificates that the goal and the rules keep them.
#[derive(Drop)]
pub struct Domains {
    /// The domain of each symbol by its number: rows over its arguments v0, v1, and so on.
    pub rows: Items<Constraint>,
    /// For the goal, and then for each rule in order, one certificate for each row that isn't
    /// plain.
    pub keeps: Items<Items<Cert>>,
}
