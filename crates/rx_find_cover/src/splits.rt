//! By which row a path is split.
ghost use Rattle.std.specs.Prelude.{◌≡◌, map, IfSome};
ghost use Rattle.std.specs.List.{find};
ghost use Rattle.std.specs.Option.{option_map};
ghost use Rattle.rx_cover.specs.Covering.{symbol};
ghost use Rattle.rx_find_cover.specs.Coverable.{first_open, is_open};
ghost use Rattle.rx_cover.specs.Redexes.{shape_at};
ghost use Rattle.rx_find_cover.specs.Trees.{IsOwnRow};
ghost use Rattle.rx_row.specs.Membership.{stands_among};
ghost use Rattle.rx_row.specs.Negation.{negation};
ghost use Rattle.rx_term.specs.Paired.{rules_of_shape};

use rx_cert::is_plain;
use rx_cover::{Redex, is_redex_of};
use rx_row::{Constraint, Row};
use rx_term::Rule;

/// Whether the row is the negation of one of the rows.
fn is_negation_among(rows: &[Row], row: &Row) -> bool
    ensures { result ≡ stands_among (map negation rows.now) row.now }
{
    for other in rows {
        if row.is_negation_of(other) {
            return true;
        }
    }
    false
}

/// Whether the path can be split by the row: it is neither plain nor the negation of a row of the
/// path.
fn is_open_row(path: &Constraint, row: &Row) -> bool
    ensures { result ≡ is_open path.now row.now }
{
    !(is_plain(path, row) || is_negation_among(path.rows(), row))
}

/// The first of the rows by which the path can be split.
fn first_open_row<'a>(path: &Constraint, rows: &'a [Row]) -> Option<&'a Row>
    ensures { option_map (λ r. r.now) result ≡ find (is_open path.now) rows.now }
{
    for row in rows {
        if is_open_row(path, row) {
            return Some(row);
        }
    }
    None
}

/// The first row of the rules of the shape by which the path can be split, in the order of the
/// rules.
fn find_open_row<'a>(
    rules: &'a [Rule],
    sym: usize,
    redex: Redex,
    path: &Constraint,
) -> Option<&'a Row>
    ensures { option_map (λ r. r.now) result ≡
        first_open path.now (rules_of_shape (shape_at (symbol sym) redex) rules.now) }
{
    for rule in rules {
        if is_redex_of(&rule.left, sym, redex) {
            let found = first_open_row(path, rule.rows.rows());
            if found.is_some() {
                return found;
            }
        }
    }
    None
}

/// The row that `find_open_row` finds, of which the contract says also that its variables are the
/// arguments.
pub(crate) fn find_split_row<'a>(
    rules: &'a [Rule],
    sym: usize,
    redex: Redex,
    path: &Constraint,
) -> Option<&'a Row>
    ensures row { option_map (λ r. r.now) result ≡
        first_open path.now (rules_of_shape (shape_at (symbol sym) redex) rules.now) }
    ensures own { IfSome result (λ r. IsOwnRow rules.now r.now) }
{
    find_open_row(rules, sym, redex, path)
}
