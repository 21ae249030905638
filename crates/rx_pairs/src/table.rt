//! Rank tables.
ghost use Rattle.std.specs.Prelude.{◌≡◌};
ghost use Rattle.std.specs.List.{list_all};
ghost use Rattle.rx_poly.specs.Variables.{uses_below};
ghost use Rattle.rx_pairs.specs.Ranks.{bad_rank, is_rank};

use rx_plain::Items;
use rx_poly::{Poly, uses_below};
use rx_term::RuleSet;

/// For each symbol a rank: equally many polynomials over its arguments, the columns.
#[derive(Debug, Drop)]
pub struct RankTable {
    /// How many columns there are.
    pub columns: u32,
    /// The ranks by the numbers of their symbols.
    pub ranks: Items<Items<Poly>>,
}

/// Whether all polynomials of the rank are over the first `arity` variables.
fn is_over(rank: &[Poly], arity: u32) -> bool
    ensures { result ≡ list_all (uses_below arity) rank.now }
{
    for column in rank {
        if !uses_below(column, arity) {
            return false;
        }
    }
    true
}

/// Whether the rank has that many columns, over the first `arity` variables.
fn is_lawful(rank: &[Poly], columns: u32, arity: u32) -> bool
    ensures { result ≡ is_rank columns arity rank.now }
{
    rank.len() == columns as usize && is_over(rank, arity)
}

/// The number of the first symbol without a rank of the table's width over its own arguments; where
/// each has one and there are more ranks, the number of symbols. None exactly where there is none.
/// Takes no memory.
pub fn bad_ranks(rules: &RuleSet, table: &RankTable) -> Option<usize>
    ensures { result ≡ bad_rank rules.now table.now }
{
    for (sym, rank) in table.ranks.as_slice().iter().enumerate() {
        let Some(info) = rules.symbols().get(sym) else {
            return Some(sym);
        };
        if !is_lawful(rank.as_slice(), table.columns, info.arity) {
            return Some(sym);
        }
    }
    if table.ranks.len() < rules.symbols().len() {
        Some(table.ranks.len())
    } else {
        None
    }
}
