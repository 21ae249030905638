//! Logs are written, line by line.
ghost use Rattle.std.specs.Prelude.{◌≡◌, ◌≢◌, ◌+◌, ◌++◌, ◌∷◌, [], ℕ, true, false, codes, Some, IfErr, IfOk, OnOk};
ghost use Rattle.std.specs.List.{list_all};
ghost use Rattle.rx_inference.specs.Judging.{certificates};
ghost use Rattle.rx_log.specs.Depth.{are_shallow, is_shallow_log, is_shallow_tree};
ghost use Rattle.rx_logtext.specs.Lines.{symbol_text};
ghost use Rattle.rx_log.specs.Depth.{are_shallow_keeps};
ghost use Rattle.rx_log.specs.Lines.{before_covers, before_ranks, behind_steps, by_symbol, plain, version_of};
ghost use Rattle.rx_logwriting.specs.Frames.{frame_text, frame_texts};
ghost use Rattle.rx_logtext.specs.Logs.{IsLog, ended, has_ranges, line_texts, log_text};
ghost use Rattle.rx_log.specs.declared.line.Line.TheVariants as line;
ghost use Rattle.rx_logtext.specs.declared.log_end.LogEnd.TheVariants as end;
ghost use Rattle.rx_poly.specs.declared.body.Body.{Body};
ghost use Rattle.rx_text.specs.Polynomials.{poly_text};
ghost use Rattle.rx_term_words.specs.Trees.{tree_text};
ghost use Rattle.rx_words.specs.Words.{each_spaced};

use crate::depth::{are_shallow, are_shallow_trees};
use crate::ranges::is_in_range;
use crate::step_writing::push_step;
use rx_cert::Cert;
use rx_cover::CoverTree;
use rx_domain::Domains;
use rx_inference::Step;
use rx_log::{Log, Version};
use rx_logtext::LogEnd;
use rx_pairs::{PairCert, RankTable};
use rx_plain::{Items, NoMemory};
use rx_poly::Poly;
use rx_row::{Constraint, Row};
use rx_term_words::push_tree;
use rx_text::{push_natural, push_poly, push_word};
use rx_words::{push_certs, push_count, push_rows};
use std::alloc::Global;

// ---- lines

/// What a `domain`, a `cover` or a `rank` line has in front.
fn push_symbol(kind: &[u8], symbol: usize, out: &mut Vec<u8>) -> Result<(), NoMemory>
    ensures { OnOk result (out.new.items ≡ out.old.items ++ symbol_text kind.now symbol) }
{
    push_word(out, kind)?;
    push_word(out, b" s")?;
    push_count(out, symbol)
}

/// The trees, each after a space.
fn push_trees(trees: &[CoverTree], out: &mut Vec<u8>) -> Result<(), NoMemory>
    ensures { OnOk result (out.new.items ≡ out.old.items ++ each_spaced tree_text trees.now) }
{
    for tree in trees {
        push_word(out, b" ")?;
        push_tree(tree, out)?;
    }
    Ok(())
}

/// The polynomials, each after a space.
fn push_columns(columns: &[Poly], out: &mut Vec<u8>) -> Result<(), NoMemory>
    ensures { OnOk result (out.new.items ≡ out.old.items ++ each_spaced poly_text columns.now) }
{
    for column in columns {
        push_word(out, b" ")?;
        push_poly(out, column)?;
    }
    Ok(())
}

/// The domain of a symbol.
fn push_domain(rows: &[Row], symbol: usize, out: &mut Vec<u8>) -> Result<(), NoMemory>
    ensures { OnOk result (out.new.items ≡ out.old.items ++ frame_text (line.Domain rows.now) symbol) }
{
    push_symbol(b"domain", symbol, out)?;
    push_word(out, b" ")?;
    push_rows(rows, out)
}

/// Why the goal is inside the domains, or why a rule keeps them.
fn push_kept(certs: &Items<Cert>, out: &mut Vec<u8>) -> Result<(), NoMemory>
    ensures { OnOk result (out.new.items ≡ out.old.items ++ frame_text (line.Keep certs.now) 0) }
{
    push_word(out, b"keep ")?;
    push_certs(certs, out)
}

/// The trees of a symbol.
fn push_cover(trees: &[CoverTree], symbol: usize, out: &mut Vec<u8>) -> Result<(), NoMemory>
    ensures { OnOk result (out.new.items ≡ out.old.items ++ frame_text (line.Cover trees.now) symbol) }
{
    push_symbol(b"cover", symbol, out)?;
    push_trees(trees, out)
}

/// The rank of a symbol.
fn push_rank(rank: &[Poly], symbol: usize, out: &mut Vec<u8>) -> Result<(), NoMemory>
    ensures { OnOk result (out.new.items ≡ out.old.items ++ frame_text (line.Rank rank.now) symbol) }
{
    push_symbol(b"rank", symbol, out)?;
    push_columns(rank, out)
}

/// Why a pair is lower.
fn push_pair(pair: &PairCert, out: &mut Vec<u8>) -> Result<(), NoMemory>
    ensures { OnOk result (out.new.items ≡ out.old.items ++ frame_text (line.Pair pair.now) 0) }
{
    push_word(out, b"pair ")?;
    push_natural(out, pair.column)?;
    push_word(out, b" ")?;
    push_certs(&pair.certs, out)
}

/// How many columns the ranks have.
fn push_width(columns: u32, out: &mut Vec<u8>) -> Result<(), NoMemory>
    ensures { OnOk result (out.new.items ≡ out.old.items ++
        (frame_text (line.Ranks columns) 0 ++ 10 ∷ [])) }
{
    push_word(out, b"ranks ")?;
    push_natural(out, columns)?;
    push_word(out, b"\n")
}

// ---- lists of lines

/// The lines of the domains.
fn push_domains(domains: &[Constraint], out: &mut Vec<u8>) -> Result<(), NoMemory>
    ensures { OnOk result (out.new.items
        ≡ out.old.items ++ frame_texts (by_symbol line.Domain 0 domains.now)) }
{
    for (symbol, rows) in domains.iter().enumerate() {
        push_domain(rows.rows(), symbol, out)?;
        push_word(out, b"\n")?;
    }
    Ok(())
}

/// The lines of the certificates that the domains are kept.
fn push_keeps(keeps: &[Items<Cert>], out: &mut Vec<u8>) -> Result<(), NoMemory>
    ensures { OnOk result (out.new.items
        ≡ out.old.items ++ frame_texts (plain line.Keep keeps.now)) }
{
    for certs in keeps {
        push_kept(certs, out)?;
        push_word(out, b"\n")?;
    }
    Ok(())
}

/// The first line of version 2, the domains and the certificates.
fn push_both(domains: &Domains, out: &mut Vec<u8>) -> Result<(), NoMemory>
    ensures { OnOk result (out.new.items
        ≡ out.old.items ++ frame_texts (before_covers (Some domains.now))) }
{
    push_word(out, b"ctrl-log 2\n")?;
    push_domains(domains.rows.as_slice(), out)?;
    push_keeps(domains.keeps.as_slice(), out)
}

/// The lines of the covers.
fn push_covers(covers: &[Items<CoverTree>], out: &mut Vec<u8>) -> Result<(), NoMemory>
    ensures { OnOk result (out.new.items
        ≡ out.old.items ++ frame_texts (by_symbol line.Cover 0 covers.now)) }
{
    for (symbol, trees) in covers.iter().enumerate() {
        push_cover(trees.as_slice(), symbol, out)?;
        push_word(out, b"\n")?;
    }
    Ok(())
}

/// The lines of the steps in logs of the version.
fn push_steps(version: Version, steps: &[Step], out: &mut Vec<u8>) -> Result<(), NoMemory>
    ensures { OnOk result (out.new.items
        ≡ out.old.items ++ ended (line_texts version (plain line.Step steps.now))) }
{
    for step in steps {
        push_step(version, step, out)?;
        push_word(out, b"\n")?;
    }
    Ok(())
}

/// The lines of the ranks.
fn push_ranks(ranks: &[Items<Poly>], out: &mut Vec<u8>) -> Result<(), NoMemory>
    ensures { OnOk result (out.new.items
        ≡ out.old.items ++ frame_texts (by_symbol line.Rank 0 ranks.now)) }
{
    for (symbol, rank) in ranks.iter().enumerate() {
        push_rank(rank.as_slice(), symbol, out)?;
        push_word(out, b"\n")?;
    }
    Ok(())
}

/// The lines of the pairs.
fn push_pairs(pairs: &[PairCert], out: &mut Vec<u8>) -> Result<(), NoMemory>
    ensures { OnOk result (out.new.items
        ≡ out.old.items ++ frame_texts (plain line.Pair pairs.now)) }
{
    for pair in pairs {
        push_pair(pair, out)?;
        push_word(out, b"\n")?;
    }
    Ok(())
}

// ---- depth

/// Whether all certificates of the parts are at most so deep.
fn are_shallow_lists(keeps: &[Items<Cert>]) -> bool
    ensures { result ≡ list_all are_shallow keeps.now }
{
    for certs in keeps {
        if !are_shallow(certs.as_slice()) {
            return false;
        }
    }
    true
}

/// Whether all certificates that the domains are kept are, where there are domains.
fn are_shallow_domains(domains: &Option<Domains>) -> bool
    ensures { result ≡ are_shallow_keeps domains.now }
{
    match domains {
        None => true,
        Some(domains) => are_shallow_lists(domains.keeps.as_slice()),
    }
}

/// Whether all covers are at most so deep, and all certificates in them.
fn are_shallow_covers(covers: &[Items<CoverTree>]) -> bool
    ensures { result ≡ list_all (λ trees. list_all is_shallow_tree trees) covers.now }
{
    for trees in covers {
        if !are_shallow_trees(trees.as_slice()) {
            return false;
        }
    }
    true
}

/// Whether all certificates of the steps are.
fn are_shallow_steps(steps: &[Step]) -> bool
    ensures { result ≡ list_all (λ step. are_shallow (certificates step)) steps.now }
{
    for step in steps {
        if !are_shallow(step.certificates()) {
            return false;
        }
    }
    true
}

/// Whether all certificates of the pairs are.
fn are_shallow_pairs(pairs: &[PairCert]) -> bool
    ensures { result ≡ list_all (λ pair. are_shallow pair.certs) pairs.now }
{
    for pair in pairs {
        if !are_shallow(pair.certs.as_slice()) {
            return false;
        }
    }
    true
}

/// Whether all certificates and trees of the log are at most 200 deep.
fn is_shallow(log: &Log) -> bool
    ensures { result ≡ is_shallow_log log.now }
{
    are_shallow_domains(&log.domains)
        && are_shallow_covers(log.covers.as_slice())
        && are_shallow_steps(log.steps.as_slice())
        && are_shallow_pairs(log.pairs.as_slice())
}

// ---- logs

/// The first line and, in version 2, the domains and the certificates that they are kept.
fn push_before_covers(domains: &Option<Domains>, out: &mut Vec<u8>) -> Result<(), NoMemory>
    ensures { OnOk result (out.new.items
        ≡ out.old.items ++ frame_texts (before_covers domains.now)) }
{
    match domains {
        None => push_word(out, b"ctrl-log 1\n"),
        Some(domains) => push_both(domains, out),
    }
}

/// The first line, the covers and the steps.
fn push_before_ranks(log: &Log, out: &mut Vec<u8>) -> Result<(), NoMemory>
    ensures { OnOk result (out.new.items
        ≡ out.old.items ++ ended (line_texts (version_of log.now) (before_ranks log.now))) }
{
    push_before_covers(&log.domains, out)?;
    push_covers(log.covers.as_slice(), out)?;
    push_steps(log.version(), log.steps.as_slice(), out)
}

/// The ranks and the pairs.
fn push_after_steps(log: &Log, out: &mut Vec<u8>) -> Result<(), NoMemory>
    ensures { OnOk result (out.new.items
        ≡ out.old.items ++ frame_texts (behind_steps log.now)) }
{
    push_width(log.table.columns, out)?;
    push_ranks(log.table.ranks.as_slice(), out)?;
    push_pairs(log.pairs.as_slice(), out)
}

/// The whole text.
fn push_log(log: &Log, out: &mut Vec<u8>) -> Result<(), NoMemory>
    ensures { OnOk result (out.new.items ≡ out.old.items ++ log_text log.now) }
{
    push_before_ranks(log, out)?;
    push_after_steps(log, out)?;
    push_word(out, b"EQUIVALENT\n")
}

/// The text of the log, of version 2 where it has domains: the one that is read again as this log,
/// and no other. TooDeep exactly where a certificate or a tree is deeper than 200; nothing deeper
/// is walked. OutOfRange exactly where else something in the log has no text: a list of more than
/// 4,294,967,295 things, a variable of 1,000,000 or greater, no columns or more than 15, a rank
/// with more or fewer polynomials than that, or in version 1 a postulate with a certificate. Terms
/// may have as many frames as memory holds.
pub fn write_log(alloc: Global, log: &Log) -> Result<Vec<u8>, LogEnd>
    ensures text { IfOk result (λ text. text.items ≡ log_text log.now) }
    ensures is_log { IfOk result (λ text. IsLog text.items log.now) }
    ensures shallow { IfOk result (λ text. is_shallow_log log.now ≡ true) }
    ensures deep { IfErr result (λ e. e ≡ end.TooDeep → is_shallow_log log.now ≡ false) }
    ensures order { IfErr result (λ e. e ≡ end.OutOfRange → is_shallow_log log.now ≡ true) }
    ensures range { IfErr result (λ e. e ≡ end.OutOfRange → has_ranges log.now ≡ false) }
    ensures no_bad_line { IfErr result (λ e. (number : ℕ) → e ≢ end.BadLine number) }
{
    if !is_shallow(log) {
        return Err(LogEnd::TooDeep);
    }
    if !is_in_range(log) {
        return Err(LogEnd::OutOfRange);
    }
    let mut text = Vec::new(alloc);
    push_log(log, &mut text)?;
    Ok(text)
}
