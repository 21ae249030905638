//! A pair of symbols with their ranks.
ghost use Rattle.std.specs.Prelude.{◌≡◌, ◌++◌, slice_get, OnOk};
ghost use Rattle.std.specs.List.{list_all};
ghost use Rattle.rx_poly.specs.declared.body.Body.{Body};
ghost use Rattle.rx_text.specs.Polynomials.{poly_text};
ghost use Rattle.rx_words.specs.Words.{each_spaced};
ghost use Rattle.rx_goal_words.specs.PairTexts as spec;

use crate::rules::{push_number, push_rows};
use rx_pairs::{Pair, RankTable, have_roots, listed_pairs};
use rx_plain::{Items, NoMemory};
use rx_poly::Poly;
use rx_steps::State;
use rx_term::{Rule, RuleSet, Term};
use rx_term_words::push_term;
use rx_text::{push_natural, push_poly, push_word};
use std::alloc::Global;

// ---- ranks

// Adds the polynomials, each after a space.
fn push_columns(out: &mut Vec<u8>, columns: &[Poly]) -> Result<(), NoMemory>
    ensures { OnOk result (out.new.items ≡ out.old.items ++ each_spaced poly_text columns.now) }
{
    for column in columns {
        push_word(out, b" ")?;
        push_poly(out, column)?;
    }
    Ok(())
}

// Adds the line of a log that has this rank of the symbol with this number.
fn push_rank_line(out: &mut Vec<u8>, symbol: u32, rank: &[Poly]) -> Result<(), NoMemory>
    ensures { OnOk result (out.new.items ≡ out.old.items ++ spec.rank_line symbol rank.now) }
{
    push_word(out, b"  rank s")?;
    push_natural(out, symbol)?;
    push_columns(out, rank)?;
    push_word(out, b"\n")
}

// Adds the rank that the table has of the symbol, if it has one.
fn push_rank(out: &mut Vec<u8>, table: &RankTable, symbol: u32) -> Result<(), NoMemory>
    ensures { OnOk result (out.new.items ≡ out.old.items ++ spec.rank_text table.now symbol) }
{
    match table.ranks.as_slice().get(symbol as usize) {
        Some(rank) => push_rank_line(out, symbol, rank.as_slice()),
        None => Ok(()),
    }
}

// Adds those of both symbols; where they are the same, once.
fn push_ranks(out: &mut Vec<u8>, table: &RankTable, left: u32, right: u32) -> Result<(), NoMemory>
    ensures { OnOk result (out.new.items
        ≡ out.old.items ++ spec.ranks_text table.now left right) }
{
    push_rank(out, table, left)?;
    if left == right {
        return Ok(());
    }
    push_rank(out, table, right)
}

// ---- pairs

// Adds the one above the other.
fn push_sides(out: &mut Vec<u8>, left: &Term, right: &Term) -> Result<(), NoMemory>
    ensures { OnOk result (out.new.items ≡ out.old.items ++ spec.sides_text left.now right.now) }
{
    push_term(left, out)?;
    push_word(out, b" above ")?;
    push_term(right, out)
}

// Adds the pair with its number, and the rows under which it has to be lower.
fn push_pair_line(out: &mut Vec<u8>, number: usize, pair: Pair) -> Result<(), NoMemory>
    ensures { OnOk result (out.new.items ≡ out.old.items ++ spec.pair_line number pair) }
{
    let Pair {
        phi,
        left,
        left_args,
        right,
        right_args,
    } = pair;
    let above = Term::Call(left, left_args);
    let below = Term::Call(right, right_args);
    push_word(out, b"  pair ")?;
    push_number(out, number)?;
    push_word(out, b": ")?;
    push_sides(out, &above, &below)?;
    push_rows(out, phi.rows())?;
    push_word(out, b"\n")
}

// Adds the pair with the ranks of both its symbols, if there is a pair.
fn push_ranked_pair(
    out: &mut Vec<u8>,
    table: &RankTable,
    number: usize,
    pair: Option<Pair>,
) -> Result<(), NoMemory>
    ensures { OnOk result (out.new.items
        ≡ out.old.items ++ spec.ranked_pair table.now number pair) }
{
    match pair {
        Some(pair) => {
            let (left, right) = (pair.left.0, pair.right.0);
            push_pair_line(out, number, pair)?;
            push_ranks(out, table, left, right)
        }
        None => Ok(()),
    }
}

// ---- the pair with a number

// The pair with this number, if there is one.
fn pair_at(pairs: Items<Pair>, number: usize) -> Option<Pair>
    ensures { result ≡ slice_get pairs number }
{
    let mut pairs = pairs.into_vec();
    if number < pairs.len() {
        Some(pairs.swap_remove(number))
    } else {
        None
    }
}

// Whether no left side is a bare result.
fn all_have_roots(rules: &[Rule]) -> bool
    ensures { result ≡ list_all spec.has_root rules.now }
{
    have_roots(rules)
}

/// Adds the pair with this number, counted from 0, among those of the rules and then of the state's
/// hypotheses, inside the domains of the rules, with the ranks that the table has of both its
/// symbols, each in a line of its own; nothing where there is no such pair.
pub fn push_pair(
    alloc: Global,
    out: &mut Vec<u8>,
    rules: &RuleSet,
    state: &State,
    table: &RankTable,
    number: usize,
) -> Result<(), NoMemory>
    ensures { OnOk result (out.new.items
        ≡ out.old.items ++ spec.pair_text rules.now state.now table.now number) }
{
    if !all_have_roots(state.hypotheses()) {
        return Ok(());
    }
    let listing = listed_pairs(alloc, rules, state.hypotheses())?;
    push_ranked_pair(out, table, number, pair_at(listing.pairs, number))
}
