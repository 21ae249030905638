//! Equations inside the domains.
ghost use Rattle.std.specs.Prelude.{◌≡◌, IfOk, OnOk};
ghost use Rattle.rx_plain.specs.Formed.{Forms};
ghost use Rattle.rx_inference.specs.Pieces.{all_pushed};
ghost use Rattle.rx_wider.specs.Tails as tails;
ghost use Rattle.rx_wider.specs.Wider as spec;

use rx_cert::is_plain;
use rx_plain::{Items, NoMemory};
use rx_poly::PolyEnd;
use rx_row::{Constraint, Row};
use rx_term::{Equation, RuleSet, inside_of};
use std::alloc::{AllocError, Global};

/// Adds the rows, each unless it is one of them.
fn push_rows(rows: &mut Constraint, more: Items<Row>) -> Result<(), AllocError>
    ensures { OnOk result (rows.new ≡ all_pushed rows.old more) }
{
    for row in more.into_vec() {
        match rows.push(row) {
            Ok(()) => {}
            Err(_) => return Err(AllocError),
        }
    }
    Ok(())
}

/// The lemma with the rows that put both its sides inside the domains, each once. Large exactly
/// where one of them passes the limits.
pub(crate) fn inside_lemma(
    alloc: Global,
    rules: &RuleSet,
    lemma: &Equation,
) -> Result<Equation, PolyEnd>
    ensures forms { Forms PolyEnd.Large result (tails.inside_lemma rules.now lemma.now) }
{
    let inside = inside_of(alloc, rules, lemma)?;
    let mut made = lemma.try_clone(alloc)?;
    push_rows(&mut made.rows, inside)?;
    Ok(made)
}

/// Whether nothing has to be shown for the rows to hold, even under none.
fn are_plain(alloc: Global, rows: &[Row]) -> bool
    ensures { result ≡ spec.are_plain rows.now }
{
    let none = Constraint::from_rows(Vec::new(alloc));
    rows.iter().all(|row| is_plain(&none, row))
}

/// Whether the sides of the goal are inside the domains without its rows.
pub(crate) fn is_inside_bare(
    alloc: Global,
    rules: &RuleSet,
    goal: &Equation,
) -> Result<bool, NoMemory>
    ensures { IfOk result (λ inside. inside ≡ spec.is_inside_bare rules.now goal.now) }
{
    match inside_of(alloc, rules, goal) {
        Ok(rows) => Ok(are_plain(alloc, rows.as_slice())),
        Err(PolyEnd::Large) => Ok(false),
        Err(PolyEnd::NoMemory) => Err(NoMemory),
    }
}
