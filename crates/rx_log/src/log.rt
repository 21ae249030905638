//! Proofs as data that anybody can check.
ghost use Rattle.std.specs.Prelude.{◌≡◌};
ghost use Rattle.rx_log.specs.Lines.{version_of};

use crate::version::Version;
use rx_cover::CoverTree;
use rx_domain::Domains;
use rx_inference::Step;
use rx_pairs::{PairCert, RankTable};
use rx_plain::Items;

/// A proof that both sides of a goal are equal, whoever wrote it.
#[derive(Drop)]
pub struct Log {
    /// The domains of the symbols; None in version 1, where no symbol has one.
    pub domains: Option<Domains>,
    /// For each symbol, in order, the trees that are to cover it.
    pub covers: Items<Items<CoverTree>>,
    /// The steps, from the goal alone until no goal is left.
    pub steps: Items<Step>,
    /// The ranks of the symbols.
    pub table: RankTable,
    /// Why each pair is lower: those of the rules, and then those of the hypotheses that the steps
    /// keep.
    pub pairs: Items<PairCert>,
}

impl Log {
    /// Version 2 where the log has domains, and version 1 otherwise.
    pub fn version(&self) -> Version
        ensures { result ≡ version_of self.now }
    {
        match &self.domains {
            None => Version::One,
            Some(_) => Version::Two,
        }
    }
}
