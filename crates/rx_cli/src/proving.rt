//! The search for a proof.
ghost use Rattle.std.specs.Prelude.{◌≡◌, ◌≤◌, [], None, true, length, option_map, IfOk, IfSome};
ghost use Rattle.rx_command.specs.Commands.{functions_view, is_short};
ghost use Rattle.rx_cache.specs.CachedSolver.{IsCachedSolver};
ghost use Rattle.rx_find_cover.specs.Coverable.{is_coverable};
ghost use Rattle.rx_find_lemmas.specs.Finders.{FindsLemmas, IsLemmaFinder};
ghost use Rattle.rx_proofs.specs.Goals.{IsFitting};
ghost use Rattle.rx_log.specs.Depth.{is_shallow_log};
ghost use Rattle.rx_logtext.specs.Logs.{IsLog};
ghost use Rattle.rx_log.specs.Acceptance.{Accepted, verdict_over};
ghost use Rattle.rx_pairs.specs.Inside.{listing};
ghost use Rattle.rx_search.specs.Begun.{IsBegun, IsReady};
ghost use Rattle.rx_search.specs.Ends.{IsEnd};
ghost use Rattle.rx_search.specs.Search.{Searched, visited};
ghost use Rattle.rx_solve.specs.Answers.{Answers, IsSolver};
ghost use Rattle.rx_wider.specs.Wider.{wider};
ghost use Rattle.rx_report.specs.Reports.{IsReportable};
ghost use Rattle.rx_cli.specs.Proofs.{IsProved, OnProblem, OnSearched};
ghost use Rattle.rx_cli.specs.Searches.{sought};
ghost use Rattle.rx_cli.specs.Steps.{IsFound, IsFoundOver, SaysEnd, is_open, log_or, moves_of};
ghost use Rattle.rx_command.specs.declared.command.Effort.{Effort};
ghost use Rattle.rx_cli.specs.declared.problems.Problem.{Problem};
ghost use Rattle.rx_report.specs.Texts.{IsReportableVerdict};

use crate::dropping::dropped;
use crate::problems::{Problem, ask};
use c_front::Next;
use rx_cache::CachedSolver;
use rx_cert::Cert;
use rx_command::{Effort, Functions};
use rx_find_lemmas::{Lemma, find_lemmas};
use rx_fm::FmEnd;
use rx_has_ranks::RankMemo;
use rx_log::Log;
use rx_logwriting::{LogEnd, write_log};
use rx_plain::{Items, NoMemory};
use rx_rank::RankingKind;
use rx_report::{Answer, Verdict};
use rx_row::Constraint;
use rx_search::{
    Beginning, Inside, MOST_KEPT, SearchEnd, SearchSpace, SearchTask, begin, log_inside, log_of,
    rule_pairs, search_over, unranked_end,
};
use rx_solve::refutes;
use rx_term::{Equation, RuleSet};
use rx_wider::{Reach, wider_search};
use std::alloc::Global;

/// The text of a log in which nothing is too deep for one. Where the log has no text for another
/// reason, as for a list of more than 4,294,967,295 things or a variable of 1,000,000 or greater,
/// it is taken for what memory doesn't hold.
fn proof_text(alloc: Global, log: &Log) -> Result<Items<u8>, NoMemory>
    requires { is_shallow_log log.now ≡ true }
    ensures { IfOk result (λ text. IsLog text log.now) }
{
    match write_log(alloc, log) {
        Ok(text) => Ok(Items::from_vec(text)),
        Err(LogEnd::OutOfRange | LogEnd::NoMemory) => Err(NoMemory),
        Err(LogEnd::TooDeep) => unreachable!(),
        Err(LogEnd::BadLine { line: _ }) => unreachable!(),
    }
}

/// The verdict that names how a search ended without a log.
fn verdict_on(end: &SearchEnd) -> Result<Verdict, NoMemory>
    ensures says { IfOk result (SaysEnd end.now) }
    ensures line { IfOk result IsReportableVerdict }
{
    match end {
        SearchEnd::NoRanks => Ok(Verdict::NoRanks),
        SearchEnd::LargeRanks { rows: _ } => Ok(Verdict::LargeSearch),
        SearchEnd::NoPlan { depth } => Ok(Verdict::Depth(*depth)),
        SearchEnd::Spent { visits } => Ok(Verdict::Visits(*visits)),
        SearchEnd::Large { path: _, rows: _ } => Ok(Verdict::LargeSearch),
        SearchEnd::NoMemory => Err(NoMemory),
    }
}

/// Whether the wider search follows a search that ended so.
fn is_open(end: &SearchEnd) -> bool
    ensures { result ≡ is_open end.now }
{
    match end {
        SearchEnd::NoPlan { depth: _ } => true,
        SearchEnd::Large { path: _, rows: _ } => true,
        _ => false,
    }
}

/// The log of what the wider search over rules that have ranks finds, if it finds a proof.
fn wider_log<S: FnMut(&Constraint) -> Result<Option<Cert>, FmEnd>>(
    alloc: Global,
    space: &SearchSpace<'_>,
    goal: &Equation,
    effort: Effort,
    ranks: &mut RankMemo,
    solve: &mut S,
) -> Result<Option<Log>, NoMemory>
    requires fits { IsFitting space.now.rules.now goal.now }
    requires ready { IsReady space.now.kind space.now.rules.now }
    requires listed { space.now.listed.now ≡
        listing space.now.rules.now space.now.rules.now.rules }
    requires solver { IsSolver S.FnMut solve.old }
    ensures solver { IsSolver S.FnMut solve.new }
    ensures found { IfOk result (λ o. option_map moves_of o ≡
        wider space.now.kind space.now.rules.now goal.now effort.depth effort.budget) }
    ensures accepted { IfOk result (λ o.
        IfSome o (λ log. verdict_over space.now.rules.now goal.now log ≡ Accepted)) }
    ensures bare { IfOk result (λ o. IfSome o (λ log. log.domains ≡ None)) }
    ensures shallow { IfOk result (λ o. IfSome o (λ log. is_shallow_log log ≡ true)) }
{
    let reach = Reach {
        depth: effort.depth,
        budget: effort.budget,
    };
    let found = wider_search(
        alloc,
        space.kind,
        space.rules,
        space.listed,
        goal,
        reach,
        ranks,
        solve,
    )?;
    match found {
        Some(node) => {
            let steps = node.steps.as_slice();
            let hypotheses = node.at.state.hypotheses();
            let log = log_of(alloc, space, steps, hypotheses, ranks, solve)?;
            Ok(Some(log))
        }
        None => Ok(None),
    }
}

/// The log that the wider search made, or else the end that was there before it.
fn log_or(end: SearchEnd, made: Result<Option<Log>, NoMemory>) -> Result<Log, SearchEnd>
    ensures { result ≡ log_or end made }
{
    match made {
        Ok(None) => Err(end),
        Ok(Some(log)) => Ok(log),
        Err(NoMemory) => Err(SearchEnd::NoMemory),
    }
}

/// What is found over rules where the stated search ended so: the wider search may follow.
fn search_on<S: FnMut(&Constraint) -> Result<Option<Cert>, FmEnd>>(
    alloc: Global,
    space: &SearchSpace<'_>,
    goal: &Equation,
    effort: Effort,
    end: SearchEnd,
    ranks: &mut RankMemo,
    solve: &mut S,
) -> Result<Log, SearchEnd>
    requires fits { IsFitting space.now.rules.now goal.now }
    requires ready { IsReady space.now.kind space.now.rules.now }
    requires listed { space.now.listed.now ≡
        listing space.now.rules.now space.now.rules.now.rules }
    requires ended { IsEnd effort.depth effort.budget
        (visited space.now.kind space.now.rules.now goal.now effort.depth effort.budget) end }
    requires solver { IsSolver S.FnMut solve.old }
    ensures solver { IsSolver S.FnMut solve.new }
    ensures found { IsFoundOver space.now.kind space.now.rules.now goal.now effort result }
{
    if !is_open(&end) {
        return Err(end);
    }
    let made = wider_log(alloc, space, goal, effort, ranks, solve);
    log_or(end, made)
}

/// What both searches find over rules that have ranks: the stated search comes first.
fn search_both<
    S: FnMut(&Constraint) -> Result<Option<Cert>, FmEnd>,
    L: FnMut(&Equation, &RuleSet, &mut S) -> Result<Items<Lemma>, FmEnd>,
>(
    alloc: Global,
    space: &SearchSpace<'_>,
    goal: &Equation,
    effort: Effort,
    ranks: &mut RankMemo,
    solve: &mut S,
    lemma: &mut L,
) -> Result<Log, SearchEnd>
    requires fits { IsFitting space.now.rules.now goal.now }
    requires ready { IsReady space.now.kind space.now.rules.now }
    requires listed { space.now.listed.now ≡
        listing space.now.rules.now space.now.rules.now.rules }
    requires solver { IsSolver S.FnMut solve.old }
    requires lemma { IsLemmaFinder S.FnMut L.FnMut lemma.old }
    ensures solver { IsSolver S.FnMut solve.new }
    ensures lemma { IsLemmaFinder S.FnMut L.FnMut lemma.new }
    ensures found { IsFoundOver space.now.kind space.now.rules.now goal.now effort result }
{
    let task = SearchTask {
        goal,
        depth: effort.depth,
        budget: effort.budget,
        most_kept: MOST_KEPT,
    };
    match search_over(alloc, space, &task, ranks, solve, lemma) {
        Ok(log) => Ok(log),
        Err(end) => search_on(alloc, space, goal, effort, end, ranks, solve),
    }
}

/// What both searches find inside domains; a log gets the domains.
fn search_inside<
    S: FnMut(&Constraint) -> Result<Option<Cert>, FmEnd>,
    L: FnMut(&Equation, &RuleSet, &mut S) -> Result<Items<Lemma>, FmEnd>,
>(
    alloc: Global,
    problem: &Problem,
    effort: Effort,
    inside: Inside,
    ranks: &mut RankMemo,
    solve: &mut S,
    lemma: &mut L,
) -> Result<Log, SearchEnd>
    requires fits { IsFitting problem.now.rules problem.now.goal }
    requires begun { IsBegun problem.now.rules problem.now.goal (Beginning.Inside inside) }
    requires solver { IsSolver S.FnMut solve.old }
    requires lemma { IsLemmaFinder S.FnMut L.FnMut lemma.old }
    ensures solver { IsSolver S.FnMut solve.new }
    ensures lemma { IsLemmaFinder S.FnMut L.FnMut lemma.new }
    ensures found { IsFound problem.now effort
        (sought problem.now.rules problem.now.goal effort.depth effort.budget) result }
{
    let Inside {
        rules,
        listed,
        kind,
        ..
    } = &inside;
    let space = SearchSpace {
        rules,
        listed,
        kind: *kind,
    };
    match search_both(alloc, &space, &problem.goal, effort, ranks, solve, lemma) {
        Ok(log) => Ok(log_inside(log, inside)),
        Err(end) => Err(dropped(inside, end)),
    }
}

/// What both searches find for a problem, from where they begin.
fn search_from<
    S: FnMut(&Constraint) -> Result<Option<Cert>, FmEnd>,
    L: FnMut(&Equation, &RuleSet, &mut S) -> Result<Items<Lemma>, FmEnd>,
>(
    alloc: Global,
    problem: &Problem,
    effort: Effort,
    ranks: &mut RankMemo,
    solve: &mut S,
    lemma: &mut L,
) -> Result<Log, SearchEnd>
    requires fits { IsFitting problem.now.rules problem.now.goal }
    requires coverable { is_coverable problem.now.rules ≡ true }
    requires solver { IsSolver S.FnMut solve.old }
    requires lemma { IsLemmaFinder S.FnMut L.FnMut lemma.old }
    ensures solver { IsSolver S.FnMut solve.new }
    ensures lemma { IsLemmaFinder S.FnMut L.FnMut lemma.new }
    ensures found { IsFound problem.now effort
        (sought problem.now.rules problem.now.goal effort.depth effort.budget) result }
{
    let Problem { rules, goal } = problem;
    let listed = rule_pairs(alloc, rules)?;
    let begun = begin(alloc, rules, &listed, goal, ranks, solve)?;
    match begun {
        Beginning::Bare => {
            let space = SearchSpace {
                rules,
                listed: &listed,
                kind: RankingKind::Plain,
            };
            search_both(alloc, &space, goal, effort, ranks, solve, lemma)
        }
        Beginning::Inside(inside) => {
            search_inside(alloc, problem, effort, inside, ranks, solve, lemma)
        }
        Beginning::Unranked { noted } => Err(unranked_end(alloc, noted, goal)),
    }
}

/// The answer by what is found: the text of a log, or the verdict on an end.
fn answer_of(alloc: Global, found: Result<Log, SearchEnd>) -> Result<Answer, NoMemory>
    requires { IfOk found (λ log. is_shallow_log log ≡ true) }
    ensures answer { (problem : Problem) → (effort : Effort) → (searched : Searched) →
        IsFound problem effort searched found →
        IfOk result (OnSearched problem effort searched) }
    ensures reportable { IfOk result IsReportable }
{
    match found {
        Ok(log) => {
            let text = proof_text(alloc, &log)?;
            Ok(Answer::Proof(text))
        }
        Err(end) => {
            let verdict = verdict_on(&end)?;
            Ok(Answer::Line(verdict))
        }
    }
}

/// Searches for a proof that solves a problem: the stated search comes first. It takes its lemmas
/// by a closure that asks the same solver.
pub(crate) fn search_by<S: FnMut(&Constraint) -> Result<Option<Cert>, FmEnd>>(
    alloc: Global,
    problem: &Problem,
    effort: Effort,
    solve: &mut S,
) -> Result<Answer, NoMemory>
    requires fits { IsFitting problem.now.rules problem.now.goal }
    requires coverable { is_coverable problem.now.rules ≡ true }
    requires solver { IsSolver S.FnMut solve.old }
    ensures solver { IsSolver S.FnMut solve.new }
    ensures answer { IfOk result (OnProblem problem.now effort) }
    ensures reportable { IfOk result IsReportable }
{
    let mut lemma = |goal: &Equation, rules: &RuleSet, solve: &mut S| -> Result<Items<Lemma>, FmEnd>
        requires solver { IsSolver S.FnMut solve.old }
        ensures solver { IsSolver S.FnMut solve.new }
        ensures answer { FindsLemmas rules.now goal.now result }
    { find_lemmas(alloc, goal, rules, solve) };
    let mut ranks = RankMemo::new(alloc);
    let found = search_from(alloc, problem, effort, &mut ranks, solve, &mut lemma);
    answer_of(alloc, found)
}

/// Searches for a proof that solves a problem, with the answers of a cached solver.
fn search_cached<S: FnMut(&Constraint) -> Result<Option<Cert>, FmEnd>>(
    alloc: Global,
    problem: &Problem,
    effort: Effort,
    cached: CachedSolver<S>,
) -> Result<Answer, NoMemory>
where
    S: Drop,
    requires known { IsCachedSolver S.FnMut cached }
    requires fits { IsFitting problem.now.rules problem.now.goal }
    requires coverable { is_coverable problem.now.rules ≡ true }
    ensures answer { IfOk result (OnProblem problem.now effort) }
    ensures reportable { IfOk result IsReportable }
{
    let mut cached = cached;
    let mut solve = move |rows: &Constraint| -> Result<Option<Cert>, FmEnd>
        requires { IsCachedSolver S.FnMut cached }
        ensures known { IsCachedSolver S.FnMut cached.exit }
        ensures answer { Answers rows.now result }
    { cached.refutes(rows) };
    search_by(alloc, problem, effort, &mut solve)
}

/// How many answers of the refuter are kept.
pub(crate) const CACHED_ANSWERS: u32 = 4096;

/// Searches for a proof that solves a problem.
fn on_problem(alloc: Global, problem: &Problem, effort: Effort) -> Result<Answer, NoMemory>
    requires fits { IsFitting problem.now.rules problem.now.goal }
    requires coverable { is_coverable problem.now.rules ≡ true }
    requires depth { effort.depth ≤ 12 }
    ensures answer { IfOk result (OnProblem problem.now effort) }
    ensures reportable { IfOk result IsReportable }
{
    let solve = |rows: &Constraint| refutes(alloc, rows);
    let cached = CachedSolver::new(alloc, solve, CACHED_ANSWERS)?;
    search_cached(alloc, problem, effort, cached)
}

/// Searches for a proof that the two named functions of a text return the same, as far as the
/// effort goes.
pub fn prove(
    alloc: Global,
    source: &[u8],
    functions: &Functions<'_>,
    effort: Effort,
) -> Result<Answer, NoMemory>
    requires source { length source.now ≤ 1048576 }
    requires pre { is_short (functions_view functions.now).precondition ≡ true }
    requires depth { effort.depth ≤ 12 }
    ensures answer { IfOk result (IsProved (functions_view functions.now) effort source.now) }
    ensures reportable { IfOk result IsReportable }
{
    match ask(alloc, source, functions)? {
        Next::Ends(verdict) => Ok(Answer::Line(verdict)),
        Next::Goes(problem) => on_problem(alloc, &problem, effort),
    }
}
