//! Whether a column holds at a pair, or falls there, as the solver shows it.
ghost use Rattle.std.specs.Prelude.{◌≡◌, ◌∷◌, [], IfOk, IfErr};
ghost use Rattle.rx_cert.specs.Findings.{Beyond};
ghost use Rattle.rx_pairs.specs.Columns.{falls_rows, holds_rows};
ghost use Rattle.rx_plain.specs.Formed.{FormsAs};
ghost use Rattle.rx_rank.specs.Answers.{IsTold, joined};
ghost use Rattle.rx_rank.specs.PairTests.{falls, holds, less_by_one, row_said};
ghost use Rattle.rx_solve.specs.Answers.{IsSolver, one_formed};
ghost use Rattle.rx_row.specs.declared.row.Row.TheVariants.{Ge};
ghost use Rattle.rx_solve.specs.Shown.{IsAllShown};

use rx_cert::Cert;
use rx_fm::FmEnd;
use rx_pairs::{Pair, hold_row, on_left, on_right, one_less};
use rx_plain::{Items, NoMemory};
use rx_poly::{Poly, PolyEnd};
use rx_row::{Constraint, Row};
use rx_solve::{AllShown, show_all};
use std::alloc::Global;

/// Whether the row follows from the pair's.
fn show_row<S: FnMut(&Constraint) -> Result<Option<Cert>, FmEnd>>(
    alloc: Global,
    pair: &Pair,
    row: Row,
    solve: &mut S,
) -> Result<AllShown, NoMemory>
    requires solver { IsSolver S.FnMut solve.old }
    ensures solver { IsSolver S.FnMut solve.new }
    ensures answer { IfOk result (IsAllShown pair.now.phi (row ∷ [])) }
{
    let rows = vec![in alloc; row]?;
    show_all(alloc, &pair.phi, rows.as_slice(), solve)
}

/// Whether the rows that a column asks for where it is to hold are shown.
fn try_holds<S: FnMut(&Constraint) -> Result<Option<Cert>, FmEnd>>(
    alloc: Global,
    pair: &Pair,
    left: &Poly,
    right: &Poly,
    solve: &mut S,
) -> Result<AllShown, PolyEnd>
    requires solver { IsSolver S.FnMut solve.old }
    ensures solver { IsSolver S.FnMut solve.new }
    ensures answer { IfOk result (IsTold (holds pair.now left.now right.now) pair.now
        (holds_rows pair.now left.now right.now)) }
    ensures large { IfErr result (λ e. e ≡ PolyEnd.Large → holds pair.now left.now right.now ≡
        Beyond) }
{
    match hold_row(alloc, pair, left, right)? {
        Some(row) => show_row(alloc, pair, row, solve).map_err(|_| PolyEnd::NoMemory),
        None => Ok(AllShown::Shown(Items::new(alloc))),
    }
}

/// Whether a column with these polynomials for the left and the right symbol holds at the pair.
pub(crate) fn show_hold<S: FnMut(&Constraint) -> Result<Option<Cert>, FmEnd>>(
    alloc: Global,
    pair: &Pair,
    left: &Poly,
    right: &Poly,
    solve: &mut S,
) -> Result<AllShown, NoMemory>
    requires solver { IsSolver S.FnMut solve.old }
    ensures solver { IsSolver S.FnMut solve.new }
    ensures answer { IfOk result (IsTold (holds pair.now left.now right.now) pair.now
        (holds_rows pair.now left.now right.now)) }
{
    match try_holds(alloc, pair, left, right, solve) {
        Ok(answer) => Ok(answer),
        Err(PolyEnd::Large) => Ok(AllShown::TooLarge),
        Err(PolyEnd::NoMemory) => Err(NoMemory),
    }
}

/// The row that says that the right instance is less than the left one, which is at hand.
fn less_row(alloc: Global, pair: &Pair, here: &Poly, right: &Poly) -> Result<Row, PolyEnd>
    ensures { FormsAs (λ row. row) PolyEnd.Large result (less_by_one pair.now here.now right.now) }
{
    let there = on_right(alloc, pair, right)?;
    let less = one_less(alloc, here, &there)?;
    Ok(Row::Ge(less))
}

/// The rest of the test, where the left instance is shown to be at least 0, with those
/// certificates.
fn try_less<S: FnMut(&Constraint) -> Result<Option<Cert>, FmEnd>>(
    alloc: Global,
    pair: &Pair,
    here: &Poly,
    right: &Poly,
    solve: &mut S,
) -> Result<AllShown, PolyEnd>
    requires solver { IsSolver S.FnMut solve.old }
    ensures solver { IsSolver S.FnMut solve.new }
    ensures answer { IfOk result (IsTold (row_said pair.now
        (less_by_one pair.now here.now right.now)) pair.now
        (one_formed (less_by_one pair.now here.now right.now))) }
    ensures large { IfErr result (λ e. e ≡ PolyEnd.Large →
        row_said pair.now (less_by_one pair.now here.now right.now) ≡ Beyond) }
{
    let row = less_row(alloc, pair, here, right)?;
    show_row(alloc, pair, row, solve).map_err(|_| PolyEnd::NoMemory)
}

/// The certificates of both, where both are shown.
fn join(certs: Items<Cert>, later: AllShown) -> Result<AllShown, PolyEnd>
    ensures made { IfOk result (λ a. a ≡ joined certs later) }
    ensures memory { IfErr result (λ e. e ≡ PolyEnd.NoMemory) }
{
    match later {
        AllShown::Shown(more) => {
            let mut all = certs;
            all.append(more)?;
            Ok(AllShown::Shown(all))
        }
        other => Ok(other),
    }
}

/// Whether the left instance, which is at hand, is at least 0.
fn show_instance<S: FnMut(&Constraint) -> Result<Option<Cert>, FmEnd>>(
    alloc: Global,
    pair: &Pair,
    here: &Poly,
    solve: &mut S,
) -> Result<AllShown, NoMemory>
    requires solver { IsSolver S.FnMut solve.old }
    ensures solver { IsSolver S.FnMut solve.new }
    ensures answer { IfOk result (IsAllShown pair.now.phi (Ge here.now ∷ [])) }
{
    let row = Row::Ge(here.try_clone(alloc)?);
    show_row(alloc, pair, row, solve)
}

/// Whether the left instance is at least 0, and then whether the right one is less.
fn try_falls<S: FnMut(&Constraint) -> Result<Option<Cert>, FmEnd>>(
    alloc: Global,
    pair: &Pair,
    left: &Poly,
    right: &Poly,
    solve: &mut S,
) -> Result<AllShown, PolyEnd>
    requires solver { IsSolver S.FnMut solve.old }
    ensures solver { IsSolver S.FnMut solve.new }
    ensures answer { IfOk result (IsTold (falls pair.now left.now right.now) pair.now
        (falls_rows pair.now left.now right.now)) }
    ensures large { IfErr result (λ e. e ≡ PolyEnd.Large → falls pair.now left.now right.now ≡
        Beyond) }
{
    let here = on_left(alloc, pair, left)?;
    match show_instance(alloc, pair, &here, solve) {
        Ok(AllShown::Shown(certs)) => {
            let later = try_less(alloc, pair, &here, right, solve)?;
            join(certs, later)
        }
        Ok(AllShown::NotShown) => Ok(AllShown::NotShown),
        Ok(AllShown::TooLarge) => Ok(AllShown::TooLarge),
        Err(NoMemory) => Err(PolyEnd::NoMemory),
    }
}

/// Whether a column with these polynomials for the left and the right symbol falls at the pair.
pub(crate) fn show_fall<S: FnMut(&Constraint) -> Result<Option<Cert>, FmEnd>>(
    alloc: Global,
    pair: &Pair,
    left: &Poly,
    right: &Poly,
    solve: &mut S,
) -> Result<AllShown, NoMemory>
    requires solver { IsSolver S.FnMut solve.old }
    ensures solver { IsSolver S.FnMut solve.new }
    ensures answer { IfOk result (IsTold (falls pair.now left.now right.now) pair.now
        (falls_rows pair.now left.now right.now)) }
{
    match try_falls(alloc, pair, left, right, solve) {
        Ok(answer) => Ok(answer),
        Err(PolyEnd::Large) => Ok(AllShown::TooLarge),
        Err(PolyEnd::NoMemory) => Err(NoMemory),
    }
}
