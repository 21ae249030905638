//! A solver behind a cache.
ghost use Rattle.std.specs.Prelude.{◌≡◌, ◌≤◌, [], ℕ, ℤ, IfOk, IfSome};
ghost use Rattle.rx_cache.specs.CachedSolver.{AfterAsk, IsCachedSolver, capacity_of};
ghost use Rattle.rx_cache.specs.CachedSolver.{entries_in, solver_in};
ghost use Rattle.rx_row.specs.Holds.{AllHold};
ghost use Rattle.rx_solve.specs.Answers.{Answers, IsSolver};

use crate::cache::{keep, recall};
use crate::cached_answer::CachedAnswer;
use lru::LruCache;
use rx_cert::Cert;
use rx_fm::FmEnd;
use rx_plain::NoMemory;
use rx_row::Constraint;
use std::alloc::Global;
use std::num::NonZeroUsize;

/// A solver, with the answers that it gave last.
#[derive(Drop)]
pub struct CachedSolver<S> {
    solve: S,
    cache: LruCache<Constraint, CachedAnswer>,
    alloc: Global,
}

impl<S: FnMut(&Constraint) -> Result<Option<Cert>, FmEnd>> CachedSolver<S> {
    /// The solver behind an empty cache that holds at most `capacity` answers: 1 to 65,536.
    pub fn new(alloc: Global, solve: S, capacity: u32) -> Result<CachedSolver<S>, NoMemory>
    where
        S: Drop,
        requires solver { IsSolver S.FnMut solve }
        requires low { 1 ≤ capacity }
        requires high { capacity ≤ 65536 }
        ensures known { IfOk result (IsCachedSolver S.FnMut) }
        ensures entries { IfOk result (λ c. entries_in c ≡ []) }
        ensures capacity { IfOk result (λ c. capacity_of c ≡ capacity) }
        ensures solve { IfOk result (λ c. solver_in c ≡ solve) }
    {
        let most = NonZeroUsize::new(capacity as usize).unwrap();
        let cache = LruCache::sparse(alloc, most)?;
        Ok(CachedSolver {
            solve,
            cache,
            alloc,
        })
    }

    /// A certificate that refutes the rows, where the refuter finds one. None exactly where it
    /// doesn't refute them, Large exactly where it passes its limits.
    ///
    /// Where the cache has these rows the answer is a copy of what it has, and the solver isn't
    /// asked; otherwise the answer is the solver's, and the cache has it from then on, where there
    /// is memory for that.
    pub fn refutes(&mut self, rows: &Constraint) -> Result<Option<Cert>, FmEnd>
        requires { IsCachedSolver S.FnMut self.old }
        ensures known { IsCachedSolver S.FnMut self.new }
        ensures answer { Answers rows.now result }
        ensures refuted { IfOk result (λ a. IfSome a (λ c. (a : ℕ → ℤ) → ¬ (AllHold a rows.now))) }
        ensures entries { AfterAsk S.FnMut self.old rows.now result self.new }
        ensures capacity { capacity_of self.new ≡ capacity_of self.old }
    {
        if let Some(answer) = recall(self.alloc, &mut self.cache, rows) {
            return answer;
        }
        let answer = (self.solve)(rows);
        let _ = keep(self.alloc, &mut self.cache, rows, &answer);
        answer
    }
}
