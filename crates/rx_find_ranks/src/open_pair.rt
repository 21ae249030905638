//! Pairs that are open: no column has fallen at them so far.
use rx_cert::Cert;
use rx_pairs::Pair;
use rx_plain::Items;

/// A pair at which no column has fallen so far.
#[derive(Drop)]
pub struct OpenPair {
    /// Its number among all pairs.
    pub number: usize,
    /// The pair.
    pub pair: Pair,
    /// The certificates by which the columns so far hold at it.
    pub certs: Items<Cert>,
}
