//! What a cache holds of an answer.
ghost use Rattle.std.specs.Prelude.{◌≡◌, IfOk};
ghost use Rattle.rx_cache.specs.Cache.{Repeats, answer_of};

use rx_cert::Cert;
use rx_fm::FmEnd;
use rx_plain::NoMemory;
use std::alloc::Global;

/// An answer of a solver that says something of the rows.
#[derive(Debug, Drop)]
pub enum CachedAnswer {
    /// The certificate refutes them.
    Refuted(Cert),
    /// The refuter doesn't refute them.
    NotRefuted,
    /// The refuter passes its limits.
    TooLarge,
}

impl CachedAnswer {
    /// A copy of the answer, where it says something of the rows; none of the answer that memory
    /// ran out.
    pub(crate) fn from_answer(
        alloc: Global,
        answer: &Result<Option<Cert>, FmEnd>,
    ) -> Result<CachedAnswer, NoMemory>
        ensures { IfOk result (λ cached. answer.now ≡ answer_of cached) }
    {
        match answer {
            Ok(Some(cert)) => Ok(CachedAnswer::Refuted(cert.try_clone(alloc)?)),
            Ok(None) => Ok(CachedAnswer::NotRefuted),
            Err(FmEnd::Large) => Ok(CachedAnswer::TooLarge),
            Err(FmEnd::NoMemory) => Err(NoMemory),
        }
    }

    /// The answer once more; memory may run out where there is a certificate to copy.
    pub(crate) fn repeat(&self, alloc: Global) -> Result<Option<Cert>, FmEnd>
        ensures { Repeats self.now result }
    {
        match self {
            CachedAnswer::Refuted(cert) => Ok(Some(cert.try_clone(alloc)?)),
            CachedAnswer::NotRefuted => Ok(None),
            CachedAnswer::TooLarge => Err(FmEnd::Large),
        }
    }
}
