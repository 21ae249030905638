//! Whether a table is lawful, and all pairs of rules and hypotheses inside the domains are lower by
//! it.
ghost use Rattle.std.specs.Prelude.{◌≡◌, ◌≤◌, ◌<◌, ◌+◌, ◌∷◌, ◌++◌, Bool};
ghost use Rattle.std.specs.Prelude.{All, List, length, map, IfOk, OnOk};
ghost use Rattle.rx_pairs.specs.Descents.{Leaves, Tells, TellsRanked, lent_from, lent_listing};
ghost use Rattle.rx_pairs.specs.Inside.{bounded, descends_in, listed_before, listing, pairs_in};
ghost use Rattle.rx_pairs.specs.Lent.{all_lent, lent};
ghost use Rattle.rx_pairs.specs.Pairs.{HasRoot, SidesFit, pair_under};
ghost use Rattle.rx_pairs.specs.Ranks.{bad_rank, rank_of};
ghost use Rattle.rx_pairs.specs.declared.listing.Listing.{Listing};
ghost use Rattle.rx_pairs.specs.declared.pair.Pair.{Pair};
ghost use Rattle.rx_rewriting.specs.Premises.{Lowers};
ghost use Rattle.rx_rewriting.specs.Ranks.{weight_of};
ghost use Rattle.rx_rewriting.specs.Steps.{Either};
ghost use Rattle.rx_rewriting.specs.Terms.{Fits};
ghost use Rattle.rx_term.specs.Meaning.{Instance, signature};
ghost use Rattle.rx_term.specs.declared.rule.Rule.{Rule};

use crate::lower::is_lower;
use crate::pair_cert::PairCert;
use crate::pair_end::PairEnd;
use crate::pairs::{bounded_rows, pair};
use crate::parts::{Application, parts_of, root_part};
use crate::table::{RankTable, bad_ranks};
use rx_poly::PolyEnd;
use rx_row::Constraint;
use rx_term::{Rule, RuleSet};
use std::alloc::Global;

/// A table, and certificates that pairs are lower by it.
#[derive(Clone, Copy)]
struct Witness<'a> {
    /// The table.
    table: &'a RankTable,
    /// The certificates by the numbers of their pairs.
    certs: &'a [PairCert],
}

/// Whether the pair of the root and that part under the rows is lower by the certificate with that
/// number.
fn part_lowers(
    alloc: Global,
    rows: &Constraint,
    root: Application,
    part: Application,
    witness: Witness,
    number: usize,
) -> Result<(), PairEnd>
    ensures decides { (whole : Bool) (others : List Pair) →
        Leaves (λ _. lent_from witness.entry whole others (number + 1))
        (lent_from witness.entry whole
        (pair_under rows.now (lent root.entry) (lent part.entry) ∷ others) number) result }
    ensures there { OnOk result (number < length witness.entry.certs.now) }
{
    let Some(cert) = witness.certs.get(number) else {
        return Err(PairEnd::NotLower(number));
    };
    let pair = pair(alloc, rows, root, part)?;
    match is_lower(alloc, &pair, witness.table, cert) {
        Ok(true) => Ok(()),
        Ok(false) => Err(PairEnd::NotLower(number)),
        Err(PolyEnd::Large) => Err(PairEnd::Large(number)),
        Err(PolyEnd::NoMemory) => Err(PairEnd::NoMemory),
    }
}

/// Whether the pairs of the root and the parts under the rows are lower, the first having that
/// number; then the number of the next pair.
fn parts_lower(
    alloc: Global,
    rows: &Constraint,
    root: Application,
    parts: &[Application],
    witness: Witness,
    number: usize,
) -> Result<usize, PairEnd>
    requires { number ≤ length witness.certs.now }
    ensures decides { (whole : Bool) (others : List Pair) →
        Leaves (lent_from witness.entry whole others)
        (lent_from witness.entry whole
        (map (pair_under rows.now (lent root.entry)) (all_lent parts.now) ++ others) number)
        result }
    ensures there { IfOk result (λ next. next ≤ length witness.entry.certs.now) }
{
    let mut next = number;
    for part in parts {
        part_lowers(alloc, rows, root, *part, witness, next)?;
        next += 1;
    }
    Ok(next)
}

/// Whether the rule's pairs inside the domains are lower. They are made one after the other, and
/// let go.
fn rule_lowers(
    alloc: Global,
    rules: &RuleSet,
    rule: &Rule,
    witness: Witness,
    number: usize,
) -> Result<usize, PairEnd>
    requires root { HasRoot rule.now }
    requires there { number ≤ length witness.certs.now }
    ensures decides { (rest : Listing) →
        Leaves (lent_listing witness.entry rest)
        (lent_listing witness.entry (listed_before (pairs_in rules.now rule.now) rest) number)
        result }
    ensures there { IfOk result (λ next. next ≤ length witness.entry.certs.now) }
{
    let Some(root) = root_part(&rule.left) else {
        return Ok(number);
    };
    let made = parts_of(alloc, &rule.left, &rule.right)?;
    let parts = made.as_slice();
    if parts.is_empty() {
        return Ok(number);
    }
    match bounded_rows(alloc, rules, rule, root) {
        Ok(rows) => parts_lower(alloc, &rows, root, parts, witness, number),
        Err(PolyEnd::Large) => Err(PairEnd::Large(number)),
        Err(PolyEnd::NoMemory) => Err(PairEnd::NoMemory),
    }
}

/// Whether the pairs of the rules in the list inside the domains are lower.
fn list_lowers(
    alloc: Global,
    rules: &RuleSet,
    list: &[Rule],
    witness: Witness,
    number: usize,
) -> Result<usize, PairEnd>
    requires roots { All HasRoot list.now }
    requires there { number ≤ length witness.certs.now }
    ensures decides { (rest : List Rule) →
        Leaves (lent_listing witness.entry (listing rules.now rest))
        (lent_listing witness.entry (listing rules.now (list.now ++ rest)) number) result }
    ensures there { IfOk result (λ next. next ≤ length witness.entry.certs.now) }
{
    let mut next = number;
    for rule in list {
        next = rule_lowers(alloc, rules, rule, witness, next)?;
    }
    Ok(next)
}

/// Whether all pairs inside the domains are lower by the certificates, those of the rules first and
/// then those of the hypotheses, and no certificate is left.
fn both_lower(
    alloc: Global,
    rules: &RuleSet,
    all: &[Rule],
    hypotheses: &[Rule],
    witness: Witness,
) -> Result<(), PairEnd>
    requires rules { All HasRoot all.now }
    requires hypotheses { All HasRoot hypotheses.now }
    ensures { Tells (descends_in rules.now (all.now ++ hypotheses.now)
        witness.entry.table.now witness.entry.certs.now) result }
{
    let first = list_lowers(alloc, rules, all, witness, 0)?;
    let count = list_lowers(alloc, rules, hypotheses, witness, first)?;
    if count < witness.certs.len() {
        return Err(PairEnd::NotLower(count));
    }
    Ok(())
}

/// Whether each symbol has a lawful rank, and all pairs of the rules, and then of the hypotheses,
/// are lower by the table inside the domains, each by its certificate, and there are no more
/// certificates. Behind the rows of a pair stands the domain of its left symbol at its arguments.
/// Then, where the hypotheses fit, each step by both from a term inside makes its weight smaller.
/// BadRanks exactly where `bad_ranks` names a symbol, before any pair is looked at; NotLower exactly
/// at the first pair that isn't lower or has no certificate, or at the number of pairs where there
/// are more certificates; Large exactly at the first pair at which the limits are passed, with none
/// before it that fails. That is also the first pair of a rule whose domain passes the limits there,
/// with a certificate or without. Pairs are numbered as by `pairs_of`, made one by one, and let go.
///
/// The left side of a hypothesis must not be a bare result.
pub fn decreases(
    alloc: Global,
    rules: &RuleSet,
    hypotheses: &[Rule],
    table: &RankTable,
    certs: &[PairCert],
) -> Result<(), PairEnd>
    requires { All HasRoot hypotheses.now }
    ensures exact { TellsRanked (bad_rank rules.now table.now)
        (descends_in rules.now (rules.now.rules ++ hypotheses.now) table.now certs.now) result }
    ensures lowers { OnOk result (All (SidesFit rules.now) hypotheses.now →
        Lowers (weight_of (rank_of table.now)) (Fits (signature rules.now))
        (Either (Instance (map (bounded rules.now) rules.now.rules))
        (Instance (map (bounded rules.now) hypotheses.now)))) }
{
    if let Some(sym) = bad_ranks(rules, table) {
        return Err(PairEnd::BadRanks(sym));
    }
    let parts = rules.parts();
    let witness = Witness { table, certs };
    both_lower(alloc, rules, parts.rules.as_slice(), hypotheses, witness)
}
