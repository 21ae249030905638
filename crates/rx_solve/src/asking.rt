//! A question to a solver.
ghost use Rattle.std.specs.Prelude.{◌≡◌};
ghost use Rattle.rx_solve.specs.Answers.{Answers, IsSolver};

use rx_cert::Cert;
use rx_fm::FmEnd;
use rx_row::Constraint;

/// What the solver says of the rows: a certificate that refutes them, None where the refuter
/// doesn't refute them, Large where it passes its limits.
pub fn ask<S: FnMut(&Constraint) -> Result<Option<Cert>, FmEnd>>(
    rows: &Constraint,
    solve: &mut S,
) -> Result<Option<Cert>, FmEnd>
    requires solver { IsSolver S.FnMut solve.old }
    ensures solver { IsSolver S.FnMut solve.new }
    ensures answer { Answers rows.now result }
{
    solve(rows)
}
