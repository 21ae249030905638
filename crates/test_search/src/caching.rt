//! The search by a cached solver.
ghost use Rattle.std.specs.Prelude.{◌≡◌, ◌≤◌, [], true};
ghost use Rattle.rx_cache.specs.CachedSolver.{IsCachedSolver};
ghost use Rattle.rx_find_cover.specs.Coverable.{is_coverable};
ghost use Rattle.rx_proofs.specs.Goals.{IsFitting};
ghost use Rattle.rx_solve.specs.Answers.{Answers};

use crate::by_solver::{MOST_KEPT, Task, searched_by};
use rx_cache::CachedSolver;
use rx_cert::Cert;
use rx_fm::FmEnd;
use rx_row::Constraint;
use rx_solve::refutes;
use rx_term::RuleSet;
use std::alloc::Global;

// What the search comes to by a cached solver.
fn search_cached<S: FnMut(&Constraint) -> Result<Option<Cert>, FmEnd>>(
    alloc: Global,
    set: &RuleSet,
    task: &Task,
    cached: CachedSolver<S>,
) -> Option<Vec<u8>>
where
    S: Drop,
    requires known { IsCachedSolver S.FnMut cached }
    requires no_domains { set.now.domains ≡ [] }
    requires coverable { is_coverable set.now ≡ true }
    requires fits { IsFitting set.now task.now.goal }
    requires depth { task.now.depth ≤ 12 }
{
    let mut cached = cached;
    let solve = move |rows: &Constraint| -> Result<Option<Cert>, FmEnd>
        requires { IsCachedSolver S.FnMut cached }
        ensures known { IsCachedSolver S.FnMut cached.exit }
        ensures answer { Answers rows.now result }
    { cached.refutes(rows) };
    searched_by(alloc, set, task, MOST_KEPT, solve)
}

/// What the search comes to by the refuter behind a cache that holds `capacity` answers.
pub fn search_after(alloc: Global, set: &RuleSet, task: &Task, capacity: u32) -> Option<Vec<u8>>
    requires no_domains { set.now.domains ≡ [] }
    requires coverable { is_coverable set.now ≡ true }
    requires fits { IsFitting set.now task.now.goal }
    requires depth { task.now.depth ≤ 12 }
    requires low { 1 ≤ capacity }
    requires high { capacity ≤ 65536 }
{
    let solve = |rows: &Constraint| refutes(alloc, rows);
    match CachedSolver::new(alloc, solve, capacity) {
        Ok(cached) => search_cached(alloc, set, task, cached),
        Err(_) => None,
    }
}
