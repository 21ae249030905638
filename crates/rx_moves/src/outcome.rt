//! What comes of a step before it is taken.
use rx_cert::Cert;
use rx_inference::FormedStep;
use rx_plain::Items;

/// What comes of a step before it is taken.
#[derive(Drop)]
pub enum Outcome {
    /// It is formed so, and what it asks is shown with those certificates.
    Shown {
        /// What it makes.
        made: FormedStep,
        /// The certificates.
        certs: Items<Cert>,
    },
    /// It isn't formed, or what it asks isn't shown.
    Fails,
    /// Something passes the limits.
    TooLarge,
}
