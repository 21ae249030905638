//! Single checks, each with the failure that it comes to.
ghost use Rattle.std.specs.Prelude.{◌≡◌, ◌+◌, ℕ, Some, None, Err, [], drop, slice_get, if◌then◌else◌};
ghost use Rattle.std.specs.Prelude.{IfOk, OnErr};
ghost use Rattle.rx_check.specs.Answers.{Finds, named, of_step_end, of_step_outcome};
ghost use Rattle.rx_check.specs.LineByLine.{IsFailureOf, IsOutcome, once_lower, one_lower};
ghost use Rattle.rx_check.specs.LineByLine.{passed};
ghost use Rattle.rx_cover.specs.Covering.{Covers, covering_from, goes_on, one_covered};
ghost use Rattle.rx_log.specs.Acceptance as log_fault;
ghost use Rattle.rx_log.specs.Acceptance.{once_covered, once_ranked};
ghost use Rattle.rx_pairs.specs.Lowering.{Descends};
ghost use Rattle.rx_pairs.specs.Lowering as lowering;
ghost use Rattle.rx_pairs.specs.Ranks.{bad_rank};

use crate::check_end::{CheckEnd, LimitAt};
use rx_cover::{CoverTree, cover_one};
use rx_log::LineState;
use rx_pairs::{Listing, PairCert, RankTable, bad_ranks, is_lower, listed_pairs};
use rx_plain::NoMemory;
use rx_poly::PolyEnd;
use rx_steps::StepEnd;
use rx_term::RuleSet;
use std::alloc::Global;

/// The failure that the outcome of a check is, if it is one.
pub(crate) fn failure_of(outcome: Result<(), CheckEnd>) -> Result<Option<CheckEnd>, NoMemory>
    ensures ok { IfOk result (IsFailureOf outcome) }
    ensures err { OnErr result (outcome ≡ Err CheckEnd.NoMemory) }
{
    match outcome {
        Ok(()) => Ok(None),
        Err(end) => match end {
            CheckEnd::NoMemory => Err(NoMemory),
            other => Ok(Some(other)),
        },
    }
}

/// The number after this one; NoMemory where there is none.
pub(crate) fn count_after(count: usize) -> Result<usize, NoMemory>
    ensures { IfOk result (λ next. next ≡ count + 1) }
{
    match count.checked_add(1) {
        Some(next) => Ok(next),
        None => Err(NoMemory),
    }
}

/// Whether the trees cover the symbol.
#[tactic(auto, using(crate::proofs::Turns::not_covered))]
pub(crate) fn check_cover(
    alloc: Global,
    rules: &RuleSet,
    sym: usize,
    trees: &[CoverTree],
) -> Result<(), CheckEnd>
    ensures { Finds (λ done. done) result
        (once_covered (goes_on sym (one_covered rules.now sym trees.now) Covers) passed) }
{
    cover_one(alloc, rules, sym, trees)?;
    Ok(())
}

/// The first symbol without a list of trees, as a failure, where the place is after some covers.
pub(crate) fn missing_cover(rules: &RuleSet, place: LineState) -> Option<CheckEnd>
    ensures covers { (next : ℕ) → place ≡ LineState.InCovers next → IsOutcome result
        (once_covered (covering_from rules.now next (drop next rules.now.symbols) []) passed) }
    ensures steps { place ≡ LineState.InSteps → result ≡ None }
{
    match place {
        LineState::InCovers(next) => {
            if (next as usize) < rules.symbols().len() {
                Some(CheckEnd::NotCovered { sym: next as usize })
            } else {
                None
            }
        }
        _ => None,
    }
}

/// The end of a check by that of the step with that number.
fn step_end(step: usize, end: StepEnd) -> CheckEnd
    ensures { result ≡ of_step_end step end }
{
    match end {
        StepEnd::Large => CheckEnd::Large {
            place: LimitAt::Step(step),
        },
        StepEnd::NoMemory => CheckEnd::NoMemory,
        other => CheckEnd::Step { step, end: other },
    }
}

/// The outcome of the check that the step with that number is.
pub(crate) fn step_outcome(number: usize, outcome: Result<(), StepEnd>) -> Result<(), CheckEnd>
    ensures { result ≡ of_step_outcome number outcome }
{
    match outcome {
        Ok(()) => Ok(()),
        Err(end) => Err(step_end(number, end)),
    }
}

/// The first symbol without a lawful rank, as a failure, where the place is after some ranks.
pub(crate) fn bad_rank_at(rules: &RuleSet, place: LineState, table: &RankTable) -> Option<CheckEnd>
    ensures ranks { (columns next : ℕ) → place ≡ LineState.InRanks columns next →
        IsOutcome result (once_ranked (bad_rank rules.now table.now) passed) }
    ensures pairs { place ≡ LineState.InPairs → result ≡ None }
{
    match place {
        LineState::InRanks { .. } => match bad_ranks(rules, table) {
            Some(sym) => Some(CheckEnd::BadRanks { sym }),
            None => None,
        },
        _ => None,
    }
}

/// What a certificate comes to behind the last pair that is listed.
fn behind_pairs(whole: bool, number: usize) -> CheckEnd
    ensures { named result ≡ Some (if whole then log_fault.NotLower number
        else log_fault.PassesLimits (log_fault.AtPair number)) }
{
    if whole {
        CheckEnd::NotLower { pair: number }
    } else {
        CheckEnd::Large {
            place: LimitAt::Pair(number),
        }
    }
}

/// Whether the certificate shows that the pair with that number is lower.
pub(crate) fn check_pair(
    alloc: Global,
    listing: &Listing,
    number: usize,
    table: &RankTable,
    cert: &PairCert,
) -> Result<(), CheckEnd>
    ensures { Finds (λ done. done) result (once_lower (lowering.goes_on number
        (one_lower listing.now.whole table.now (slice_get listing.now.pairs number) cert.now)
        Descends) passed) }
{
    let Some(pair) = listing.pairs.as_slice().get(number) else {
        return Err(behind_pairs(listing.whole, number));
    };
    match is_lower(alloc, pair, table, cert) {
        Ok(true) => Ok(()),
        Ok(false) => Err(CheckEnd::NotLower { pair: number }),
        Err(PolyEnd::Large) => Err(CheckEnd::Large {
            place: LimitAt::Pair(number),
        }),
        Err(PolyEnd::NoMemory) => Err(CheckEnd::NoMemory),
    }
}
