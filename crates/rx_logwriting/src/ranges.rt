//! Which logs have a text: those in which all is in the ranges of the format.
ghost use Rattle.std.specs.Prelude.{◌≡◌, ◌==◌, List, length};
ghost use Rattle.std.specs.List.{list_all};
ghost use Rattle.rx_logtext.specs.Lines.{is_readable_line};
ghost use Rattle.rx_log.specs.Lines.{by_symbol};
ghost use Rattle.rx_logtext.specs.Logs.{has_ranges};
ghost use Rattle.rx_log.specs.declared.version.Version.TheVariants.{One};
ghost use Rattle.rx_logwriting.specs.Frames.{are_frames};
ghost use Rattle.rx_logwriting.specs.Ranges.{are_domains_in_range, are_parts_in_range, is_readable_pair};
ghost use Rattle.rx_logtext.specs.Steps.{is_readable_step, postulate_parts};
ghost use Rattle.rx_log.specs.declared.line.Line.TheVariants as line;
ghost use Rattle.rx_poly.specs.declared.body.Body.{Body};
ghost use Rattle.rx_words.specs.Certificates.{certificate_lists};
ghost use Rattle.rx_words.specs.Substitutions.{substitutions};
ghost use Rattle.rx_words.specs.Words.{pairs};

use crate::certificates::{cert_has_text, certs_have_text};
use crate::lists::is_count;
use crate::polynomials::{polys_have_text, row_has_text, rows_have_text};
use crate::substitutions::subst_has_text;
use crate::terms::equation_has_text;
use crate::trees::trees_have_text;
use rx_cert::Cert;
use rx_cover::CoverTree;
use rx_domain::Domains;
use rx_inference::{Delete, Step};
use rx_log::{Log, Version};
use rx_logtext::is_width;
use rx_pairs::PairCert;
use rx_plain::Items;
use rx_poly::Poly;
use rx_row::{Constraint, Row};
use rx_term::Term;

// ---- lines

/// Whether the domain of a symbol has a text, and the symbol's number has.
fn domain_has_text(rows: &[Row], symbol: usize) -> bool
    ensures { result ≡ is_readable_line One (line.Domain rows.now) symbol }
{
    is_count(symbol) && rows_have_text(rows)
}

/// Whether the trees of a symbol have a text, and its number has.
fn cover_has_text(trees: &[CoverTree], symbol: usize) -> bool
    ensures { result ≡ is_readable_line One (line.Cover trees.now) symbol }
{
    is_count(symbol) && trees_have_text(trees)
}

/// Whether the rank of a symbol has a text, and the symbol's number has.
fn rank_has_text(rank: &[Poly], symbol: usize) -> bool
    ensures { result ≡ is_readable_line One (line.Rank rank.now) symbol }
{
    is_count(symbol) && is_width(rank.len()) && polys_have_text(rank)
}

/// Whether the pair has a text.
fn pair_has_text(pair: &PairCert) -> bool
    ensures { result ≡ is_readable_pair pair.now }
{
    let _column = pair.column;
    certs_have_text(pair.certs.as_slice())
}

/// Whether a substitution and certificates have a text.
fn instance_has_text(subst: &[(u32, Poly)], certs: &[Cert]) -> bool
    ensures { result ≡ (pairs substitutions certificate_lists).in_range (subst.now, certs.now) }
{
    subst_has_text(subst) && certs_have_text(certs)
}

/// Whether a new goal and its certificates have a text in logs of the version.
fn postulate_has_text(
    version: Version,
    left: &Term,
    right: &Term,
    rows: &[Row],
    certs: &[Cert],
) -> bool
    ensures { result ≡ (postulate_parts version).in_range (
      record {
        left = left.now;
        right = right.now;
        rows = rows.now;
      },
      certs.now,
    ) }
{
    match version {
        Version::One => certs.is_empty() && equation_has_text(left, right, rows),
        Version::Two => equation_has_text(left, right, rows) && certs_have_text(certs),
    }
}

/// Whether the step has a text in logs of the version.
fn step_has_text(version: Version, step: &Step) -> bool
    ensures { result ≡ is_readable_step version step.now }
{
    match step {
        Step::Simplify { rule, certs, .. } => {
            let _rule = *rule;
            certs_have_text(certs.as_slice())
        }
        Step::Hyp {
            place,
            hyp,
            subst,
            certs,
            ..
        } => {
            let (_place, _hyp) = (*place, *hyp);
            instance_has_text(subst.as_slice(), certs.as_slice())
        }
        Step::Expand { .. } => true,
        Step::Delete(Delete::Absurd(cert)) => cert_has_text(cert),
        Step::Delete(Delete::Equal(certs)) => certs_have_text(certs.as_slice()),
        Step::EqDelete => true,
        Step::Generalise {
            left,
            right,
            rows,
            subst,
            certs,
        } => {
            equation_has_text(left, right, rows.rows())
                && instance_has_text(subst.as_slice(), certs.as_slice())
        }
        Step::Postulate {
            left,
            right,
            rows,
            certs,
        } => postulate_has_text(version, left, right, rows.rows(), certs.as_slice()),
        Step::Split { row } => row_has_text(row),
        Step::Decompose { certs } => certs_have_text(certs.as_slice()),
        Step::Results { left, right, certs } => {
            let (_left, _right) = (*left, *right);
            certs_have_text(certs.as_slice())
        }
    }
}

// ---- lists of lines

/// Whether all domains have a text.
fn rows_of_domains_have_text(domains: &[Constraint]) -> bool
    ensures { result ≡ are_frames (by_symbol line.Domain 0 domains.now) }
{
    for (symbol, rows) in domains.iter().enumerate() {
        if !domain_has_text(rows.rows(), symbol) {
            return false;
        }
    }
    true
}

/// Whether all certificates that the domains are kept have a text.
fn keeps_have_text(keeps: &[Items<Cert>]) -> bool
    ensures { result ≡ list_all certificate_lists.in_range keeps.now }
{
    for certs in keeps {
        if !certs_have_text(certs.as_slice()) {
            return false;
        }
    }
    true
}

/// Whether domains and their certificates have a text, where there are any.
fn domains_have_text(domains: &Option<Domains>) -> bool
    ensures { result ≡ are_domains_in_range domains.now }
{
    match domains {
        None => true,
        Some(domains) => {
            rows_of_domains_have_text(domains.rows.as_slice())
                && keeps_have_text(domains.keeps.as_slice())
        }
    }
}

/// Whether all covers have a text.
fn covers_have_text(covers: &[Items<CoverTree>]) -> bool
    ensures { result ≡ are_frames (by_symbol line.Cover 0 covers.now) }
{
    for (symbol, trees) in covers.iter().enumerate() {
        if !cover_has_text(trees.as_slice(), symbol) {
            return false;
        }
    }
    true
}

/// Whether all steps have a text in logs of the version.
fn steps_have_text(version: Version, steps: &[Step]) -> bool
    ensures { result ≡ list_all (is_readable_step version) steps.now }
{
    for step in steps {
        if !step_has_text(version, step) {
            return false;
        }
    }
    true
}

/// Whether all ranks have a text.
fn ranks_have_text(ranks: &[Items<Poly>]) -> bool
    ensures { result ≡ are_frames (by_symbol line.Rank 0 ranks.now) }
{
    for (symbol, rank) in ranks.iter().enumerate() {
        if !rank_has_text(rank.as_slice(), symbol) {
            return false;
        }
    }
    true
}

/// Whether all pairs have a text.
fn pairs_have_text(pairs: &[PairCert]) -> bool
    ensures { result ≡ list_all is_readable_pair pairs.now }
{
    for pair in pairs {
        if !pair_has_text(pair) {
            return false;
        }
    }
    true
}

/// Whether each rank has n columns.
fn are_as_wide(ranks: &[Items<Poly>], columns: u32) -> bool
    ensures { result ≡ list_all (λ (rank : List Body). length rank == columns) ranks.now }
{
    for rank in ranks {
        if rank.len() != columns as usize {
            return false;
        }
    }
    true
}

// ---- logs

/// Whether the domains, the covers, the steps, the ranks and the pairs have a text, and each rank
/// has as many columns as the table.
fn parts_have_text(log: &Log) -> bool
    ensures { result ≡ are_parts_in_range log.now }
{
    domains_have_text(&log.domains)
        && covers_have_text(log.covers.as_slice())
        && steps_have_text(log.version(), log.steps.as_slice())
        && is_width(log.table.columns as usize)
        && ranks_have_text(log.table.ranks.as_slice())
        && pairs_have_text(log.pairs.as_slice())
        && are_as_wide(log.table.ranks.as_slice(), log.table.columns)
}

/// Whether all in the log is in the ranges of the format. Its certificates and trees are walked no
/// deeper than 200.
pub(crate) fn is_in_range(log: &Log) -> bool
    ensures { result ≡ has_ranges log.now }
{
    parts_have_text(log)
}
