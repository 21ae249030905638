//! Why a pair is lower.
use rx_cert::Cert;
use rx_plain::Items;

/// By which column a pair is lower, and why.
#[derive(Debug, Drop)]
pub struct PairCert {
    /// The column, counted from 1.
    pub column: u32,
    /// One certificate for each row asked for that isn't plain, in order.
    pub certs: Items<Cert>,
}
