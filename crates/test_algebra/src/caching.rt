//! How often a cached solver asks its solver.
ghost use Rattle.std.specs.Prelude.{◌≤◌};
ghost use Rattle.rx_cache.specs.CachedSolver.{IsCachedSolver};

use rx_cache::CachedSolver;
use rx_cert::Cert;
use rx_fm::FmEnd;
use rx_plain::NoMemory;
use rx_row::Constraint;
use rx_solve::refutes;
use std::alloc::Global;

// Asks for all these rows in turn: whether there was memory for each answer.
fn ask_all<S: FnMut(&Constraint) -> Result<Option<Cert>, FmEnd>>(
    cached: &mut CachedSolver<S>,
    questions: &[Constraint],
) -> bool
    requires known { IsCachedSolver S.FnMut cached.old }
    ensures known { IsCachedSolver S.FnMut cached.new }
{
    let mut answered = true;
    for rows in questions {
        if let Err(FmEnd::NoMemory) = cached.refutes(rows) {
            answered = false;
        }
    }
    answered
}

/// How often a solver is asked behind a cache that holds `capacity` answers, where these rows
/// are asked for in turn.
pub fn calls_after(alloc: Global, capacity: u32, questions: &[Constraint]) -> Result<u32, NoMemory>
    requires low { 1 ≤ capacity }
    requires high { capacity ≤ 65536 }
{
    let mut calls = 0u32;
    let solve = |rows: &Constraint| -> Result<Option<Cert>, FmEnd> {
        calls = calls.saturating_add(1);
        refutes(alloc, rows)
    };
    let mut cached = CachedSolver::new(alloc, solve, capacity)?;
    let answered = ask_all(&mut cached, questions);
    drop(cached);
    if answered { Ok(calls) } else { Err(NoMemory) }
}
