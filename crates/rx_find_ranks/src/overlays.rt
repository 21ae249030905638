//! Polynomials by symbol, laid over others.
ghost use Rattle.std.specs.Prelude.{◌≡◌};
ghost use Rattle.rx_find_ranks.specs.Columns.{laid_at, overlaid};

use rx_poly::Poly;

/// The polynomials with that of one symbol, where it has one.
fn lay_one(values: &mut Vec<Option<Poly>>, at: usize, other: Option<Poly>)
    ensures { values.new.items ≡ laid_at values.old.items at other }
{
    let Some(poly) = other else {
        return;
    };
    if at < values.len() {
        values[at] = Some(poly);
    }
}

/// Lays polynomials by symbol over those values: where there is another of a symbol it is in the
/// place of its own. Others past the end of the values are dropped; no memory is taken.
pub fn overlay(values: &mut Vec<Option<Poly>>, others: Vec<Option<Poly>>)
    ensures { values.new.items ≡ overlaid values.old.items others.items }
{
    for (at, other) in others.into_iter().enumerate() {
        lay_one(values, at, other);
    }
}
