//! Asking a cached solver by a closure.
ghost use Rattle.rx_cache.specs.CachedSolver.{IsCachedSolver};
ghost use Rattle.rx_solve.specs.Answers.{Answers};

use crate::cached_solver::CachedSolver;
use rx_cert::Cert;
use rx_fm::FmEnd;
use rx_row::Constraint;
use rx_solve::ask;

/// What a cached solver answers of the rows where it is asked by a closure. That closure is a
/// solver: it may be handed to whoever takes one.
pub fn ask_cached<S: FnMut(&Constraint) -> Result<Option<Cert>, FmEnd>>(
    rows: &Constraint,
    cached: CachedSolver<S>,
) -> Result<Option<Cert>, FmEnd>
where
    S: Drop,
    requires { IsCachedSolver S.FnMut cached }
    ensures { Answers rows.now result }
{
    let mut cached = cached;
    let mut solve = move |rows: &Constraint| -> Result<Option<Cert>, FmEnd>
        requires { IsCachedSolver S.FnMut cached }
        ensures known { IsCachedSolver S.FnMut cached.exit }
        ensures answer { Answers rows.now result }
    { cached.refutes(rows) };
    ask(rows, &mut solve)
}
