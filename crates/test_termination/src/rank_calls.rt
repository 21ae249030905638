//! Ranks of the example's symbols, and what they make lower: the pair of the example's call and the
//! call in its second rule, where v0 is at least 1, and pairs of rules and hypotheses.
use crate::example::{alone, first_rule, rules};
use crate::reading::certs;
use rx_cert::Cert;
use rx_pairs::{Pair, PairCert, PairEnd, RankTable, bad_ranks, decreases, have_roots, is_lower};
use rx_plain::Items;
use rx_poly::Poly;
use rx_term::{Rule, RuleSet, Sym};
use std::alloc::Global;
use test_lines::{Answer, poly, rows, told};

fn read_alone(alloc: Global, text: &str) -> Option<Items<Poly>> {
    alone(alloc, poly(alloc, text)?)
}

fn ranks(alloc: Global, columns: &str) -> Option<Items<Items<Poly>>> {
    let mut ranks = Items::new(alloc);
    for column in columns.split(' ') {
        ranks.push(read_alone(alloc, column)?).ok()?;
    }
    Some(ranks)
}

// One column, of each symbol.
fn table(alloc: Global, columns: &str) -> Option<RankTable> {
    Some(RankTable {
        columns: 1,
        ranks: ranks(alloc, columns)?,
    })
}

// Whether each symbol has a lawful rank, or the number of one that hasn't.
fn lawful(alloc: Global, columns: &str) -> Option<Answer> {
    let set = rules(alloc)?;
    let table = table(alloc, columns)?;
    match bad_ranks(&set, &table) {
        None => Some(Answer::Word("lawful")),
        Some(symbol) => Some(Answer::Number(symbol as i128)),
    }
}

fn pair_of(alloc: Global, left_args: Items<Poly>, right_args: Items<Poly>) -> Option<Pair> {
    Some(Pair {
        phi: rows(alloc, "1 ge:1*v0+-1")?,
        left: Sym(0),
        left_args,
        right: Sym(0),
        right_args,
    })
}

fn pair(alloc: Global) -> Option<Pair> {
    let left_args = read_alone(alloc, "1*v0")?;
    let right_args = read_alone(alloc, "1*v0+-1")?;
    pair_of(alloc, left_args, right_args)
}

fn is_pair_lower(alloc: Global, table: &RankTable, cert: &PairCert) -> Option<Answer> {
    let pair = pair(alloc)?;
    told(is_lower(alloc, &pair, table, cert).ok()?)
}

fn lower_by(alloc: Global, column: u32, certs: Items<Cert>) -> Option<Answer> {
    let table = table(alloc, "1*v0 1*v0")?;
    is_pair_lower(alloc, &table, &PairCert { column, certs })
}

// Whether the pair is lower by that column with these certificates.
fn lower(alloc: Global, column: &str, by: &str) -> Option<Answer> {
    let column = column.parse::<u32>().ok()?;
    lower_by(alloc, column, certs(alloc, by)?)
}

// Certificates that a pair is lower by the first column, all of whose rows are plain.
fn plain(alloc: Global, count: u32) -> Option<Items<PairCert>> {
    let mut made = Items::new(alloc);
    for _ in 0..count {
        let certs = Items::new(alloc);
        made.push(PairCert { column: 1, certs }).ok()?;
    }
    Some(made)
}

// Whether the ranks are lawful and all pairs lower, or the first that isn't; out of memory is no
// answer.
fn said(answer: Result<(), PairEnd>) -> Option<Answer> {
    match answer {
        Ok(()) => Some(Answer::Word("lower")),
        Err(PairEnd::BadRanks(_)) => Some(Answer::Word("ranks")),
        Err(PairEnd::NotLower(pair)) => Some(Answer::Number(pair as i128)),
        Err(PairEnd::Large(_)) => Some(Answer::Word("large")),
        Err(PairEnd::NoMemory) => None,
    }
}

// By the column that is 1 at s0 and 0 at s1.
fn by_heights(
    alloc: Global,
    set: &RuleSet,
    hypotheses: &[Rule],
    certs: &[PairCert],
) -> Option<Answer> {
    if !have_roots(hypotheses) {
        return None;
    }
    let table = table(alloc, "1 0")?;
    said(decreases(alloc, set, hypotheses, &table, certs))
}

fn with_plain(alloc: Global, set: &RuleSet, hypotheses: &[Rule], count: u32) -> Option<Answer> {
    let certs = plain(alloc, count)?;
    by_heights(alloc, set, hypotheses, certs.as_slice())
}

// Whether the first rule, and a hypothesis, make only lower pairs.
fn descends(alloc: Global, hypothesis: &str) -> Option<Answer> {
    let set = first_rule(alloc)?;
    let hypotheses = test_lines::rules(alloc, hypothesis)?;
    with_plain(alloc, &set, hypotheses.as_slice(), 1)
}

// Whether all rules make only lower pairs.
fn stays(alloc: Global) -> Option<Answer> {
    let set = rules(alloc)?;
    with_plain(alloc, &set, &[], 2)
}

/// What the call answers.
pub fn answer_to(alloc: Global, name: &str, first: &str, second: &str) -> Option<Answer> {
    match name {
        "lawful" => lawful(alloc, first),
        "lower" => lower(alloc, first, second),
        "descends" => descends(alloc, first),
        "stays" => stays(alloc),
        _ => None,
    }
}
