//! The search.
ghost use Rattle.std.specs.Prelude.{◌≡◌, ◌≤◌, [], ℕ, All, None, IfErr, IfOk, map, true};
ghost use Rattle.rx_cert.specs.Findings.{Yes};
ghost use Rattle.rx_cover.specs.Covering.{Covers, covering};
ghost use Rattle.rx_find_cover.specs.Answers.{AreSmall};
ghost use Rattle.rx_find_cover.specs.Coverable.{is_coverable};
ghost use Rattle.rx_proofs.specs.Goals.{IsFitting};
ghost use Rattle.rx_domain.specs.Setting.{with_domains};
ghost use Rattle.rx_log.specs.Acceptance.{Accepted, IsAccepted, verdict_over};
ghost use Rattle.rx_log.specs.Depth.{are_shallow_keeps, is_shallow_log};
ghost use Rattle.rx_search.specs.Begun.{AreFound, BeginsOver, IsInside, IsReady, rows_of};
ghost use Rattle.rx_search.specs.Calls.{node_of};
ghost use Rattle.rx_pairs.specs.Inside.{listing};
ghost use Rattle.rx_pairs.specs.Pairs.{HasRoot, SidesFit};
ghost use Rattle.rx_rank.specs.Ranking.{ranked};
ghost use Rattle.rx_rank.specs.declared.kind.RankingKind.{RankingKind};
ghost use Rattle.rx_find_lemmas.specs.Finders.{IsLemmaFinder};
ghost use Rattle.rx_find_ranks.specs.Found.{HasColumns, LowersAll};
ghost use Rattle.rx_search.specs.Ends.{IsEnd};
ghost use Rattle.rx_search.specs.Nodes.{IsNode, IsProved};
ghost use Rattle.rx_search.specs.Search.{Closed, menu, searched, settled, start, unranked, visited};
ghost use Rattle.rx_solve.specs.Answers.{IsSolver};
ghost use Rattle.rx_term.specs.declared.rule.Equation.{Equation};
ghost use Rattle.rx_term.specs.declared.rule_set.RuleParts.{RuleParts};
ghost use Rattle.rx_moves.specs.Moves.{move_of};
ghost use Rattle.rx_deepening.specs.Outcomes.{outcome};
ghost use Rattle.rx_deepening.specs.Views.{IfClosed, seen_outcome};
ghost use Rattle.rx_deepening.specs.Visits.{all_visits};

use crate::beginning::{Beginning, Inside, begin, rule_pairs};
use crate::choices::MOST_STEPS;
use crate::dropping::dropped;
use crate::node::{Node, copied_rows};
use crate::plans::Plans;
use crate::search_end::SearchEnd;
use crate::search_space::SearchSpace;
use crate::search_task::SearchTask;
use rx_cert::Cert;
use rx_cover::CoverTree;
use rx_deepening::{Note, Outcome};
use rx_domain::Domains;
use rx_find_cover::find_cover;
use rx_find_lemmas::Lemma;
use rx_find_ranks::{Ranking, find_ranks_with};
use rx_fm::FmEnd;
use rx_has_ranks::RankMemo;
use rx_inference::Step;
use rx_log::Log;
use rx_memo::GoalMemo;
use rx_moves::LoopPoints;
use rx_plain::{Items, NoMemory, Shared};
use rx_rank::{PairMemo, RankingKind};
use rx_row::{Constraint, Row};
use rx_settle::{SettleMemo, own_steps};
use rx_term::{Equation, Rule, RuleSet};
use std::alloc::Global;

/// How many nodes are kept from one list of visits to the next, at most, unless another number is
/// given.
pub const MOST_KEPT: usize = 32_768;

/// What the visits of the plans for the goal come to.
fn visit_plans<
    S: FnMut(&Constraint) -> Result<Option<Cert>, FmEnd>,
    L: FnMut(&Equation, &RuleSet, &mut S) -> Result<Items<Lemma>, FmEnd>,
>(
    alloc: Global,
    space: &SearchSpace<'_>,
    task: &SearchTask<'_>,
    rank_memo: &mut RankMemo,
    solve: &mut S,
    lemma: &mut L,
) -> Result<Outcome<Node, Items<Row>>, NoMemory>
    requires listed { space.now.listed.now ≡
        listing space.now.rules.now space.now.rules.now.rules }
    requires fits { IsFitting space.now.rules.now task.now.goal.now }
    requires ranked { ranked space.now.kind space.now.rules.now [] ≡ Yes }
    requires solver { IsSolver S.FnMut solve.old }
    requires lemma { IsLemmaFinder S.FnMut L.FnMut lemma.old }
    ensures solver { IsSolver S.FnMut solve.new }
    ensures lemma { IsLemmaFinder S.FnMut L.FnMut lemma.new }
    ensures outcome { IfOk result (λ o. seen_outcome node_of o ≡
        outcome task.now.budget (all_visits (settled space.now.rules.now)
        (menu space.now.kind space.now.rules.now) task.now.depth (start task.now.goal.now))) }
    ensures node { IfOk result (λ o.
        IfClosed (IsNode space.now.kind space.now.rules.now task.now.goal.now) o) }
{
    let _made = space.rules.parts();
    let points = LoopPoints::new(alloc, space.rules)?;
    let mut settle_memo = SettleMemo::new(alloc)?;
    let mut choice_memo = GoalMemo::new(alloc)?;
    let start = Node::start(alloc, task.goal, MOST_STEPS)?;
    let mut plans = Plans {
        alloc,
        space,
        goal: task.goal,
        points: &points,
        settle_memo: &mut settle_memo,
        choice_memo: &mut choice_memo,
        rank_memo,
        solve,
        lemma,
    };
    let SearchTask {
        depth,
        budget,
        most_kept,
        ..
    } = task;
    rx_deepening::search(alloc, &mut plans, start, *depth, *budget, *most_kept)
}

/// Trees that cover the rules; as the rules are coverable, only running out of memory prevents it.
fn cover_of<S: FnMut(&Constraint) -> Result<Option<Cert>, FmEnd>>(
    alloc: Global,
    rules: &RuleSet,
    solve: &mut S,
) -> Result<Items<Items<CoverTree>>, NoMemory>
    requires coverable { is_coverable rules.now ≡ true }
    requires solver { IsSolver S.FnMut solve.old }
    ensures solver { IsSolver S.FnMut solve.new }
    ensures covers { IfOk result (λ lists. covering rules.now lists ≡ Covers) }
    ensures small { IfOk result (λ lists. All (AreSmall rules.now) lists) }
{
    match find_cover(alloc, rules, solve) {
        Ok(Some(lists)) => Ok(lists),
        _ => Err(NoMemory),
    }
}

/// Ranks by which all pairs are lower; as there are some, only running out of memory prevents it.
fn ranks_of<S: FnMut(&Constraint) -> Result<Option<Cert>, FmEnd>>(
    alloc: Global,
    space: &SearchSpace<'_>,
    hypotheses: &[Rule],
    memo: &mut PairMemo,
    solve: &mut S,
) -> Result<Ranking, NoMemory>
    requires ranked { ranked space.now.kind space.now.rules.now hypotheses.now ≡ Yes }
    requires roots { All HasRoot hypotheses.now }
    requires fits { All (SidesFit space.now.rules.now) hypotheses.now }
    requires solver { IsSolver S.FnMut solve.old }
    ensures solver { IsSolver S.FnMut solve.new }
    ensures lowers { IfOk result (LowersAll space.now.rules.now hypotheses.now) }
    ensures columns { IfOk result (λ ranking. HasColumns ranking.table) }
{
    match find_ranks_with(alloc, space.kind, space.rules, hypotheses, memo, solve) {
        Ok(Some(ranking)) => Ok(ranking),
        _ => Err(NoMemory),
    }
}

/// The log of these steps with these trees and ranks.
fn log_with(
    alloc: Global,
    steps: &[Shared<Step>],
    covers: Items<Items<CoverTree>>,
    ranking: Ranking,
) -> Result<Log, NoMemory>
    ensures { IfOk result (λ log. log ≡ record {
      domains = None;
      covers = covers;
      steps = steps.now;
      table = ranking.table;
      pairs = ranking.certs;
    }) }
{
    match own_steps(alloc, steps) {
        Ok(steps) => Ok(Log {
            domains: None,
            covers,
            steps,
            table: ranking.table,
            pairs: ranking.certs,
        }),
        Err(NoMemory) => Err(dropped((covers, ranking), NoMemory)),
    }
}

/// The log of steps that lead from a goal to no goal, where there are ranks with the hypotheses
/// that they kept. It has no domains, and is accepted for the goal and the rules with the domains
/// that these have; no certificate and no tree in it is deeper than 200, and its rank table has 1
/// to 15 columns. Fails only where there is no memory.
pub fn log_of<S: FnMut(&Constraint) -> Result<Option<Cert>, FmEnd>>(
    alloc: Global,
    space: &SearchSpace<'_>,
    steps: &[Shared<Step>],
    hypotheses: &[Rule],
    memo: &mut RankMemo,
    solve: &mut S,
) -> Result<Log, NoMemory>
    requires coverable { is_coverable space.now.rules.now ≡ true }
    requires proved { (goal : Equation) ×
        IsProved space.now.kind space.now.rules.now goal steps.now hypotheses.now }
    requires solver { IsSolver S.FnMut solve.old }
    ensures solver { IsSolver S.FnMut solve.new }
    ensures steps { IfOk result (λ log. log.steps ≡ steps.now) }
    ensures accepted { (goal : Equation) →
        IsProved space.now.kind space.now.rules.now goal steps.now hypotheses.now →
        IfOk result (λ log. verdict_over space.now.rules.now goal log ≡ Accepted) }
    ensures bare { IfOk result (λ log. log.domains ≡ None) }
    ensures shallow { IfOk result (λ log. is_shallow_log log ≡ true) }
    ensures columns { IfOk result (λ log. HasColumns log.table) }
{
    let covers = cover_of(alloc, space.rules, solve)?;
    match ranks_of(alloc, space, hypotheses, &mut memo.pairs, solve) {
        Ok(ranking) => log_with(alloc, steps, covers, ranking),
        Err(NoMemory) => Err(dropped(covers, NoMemory)),
    }
}

/// Searches for a proof over rules that have ranks, whose pairs are listed: the visits alone, as
/// many as the task allows. Tests of pairs are kept in the memo.
///
/// The answer is a log without domains, which is accepted for the goal and the rules with the
/// domains that these have; no certificate and no tree in it is deeper than 200, and its rank table
/// has 1 to 15 columns. `NoPlan`, `Spent` and `Large` are as of `Search::search`.
pub fn search_over<
    S: FnMut(&Constraint) -> Result<Option<Cert>, FmEnd>,
    L: FnMut(&Equation, &RuleSet, &mut S) -> Result<Items<Lemma>, FmEnd>,
>(
    alloc: Global,
    space: &SearchSpace<'_>,
    task: &SearchTask<'_>,
    memo: &mut RankMemo,
    solve: &mut S,
    lemma: &mut L,
) -> Result<Log, SearchEnd>
    requires ready { IsReady space.now.kind space.now.rules.now }
    requires listed { space.now.listed.now ≡
        listing space.now.rules.now space.now.rules.now.rules }
    requires fits { IsFitting space.now.rules.now task.now.goal.now }
    requires solver { IsSolver S.FnMut solve.old }
    requires lemma { IsLemmaFinder S.FnMut L.FnMut lemma.old }
    ensures solver { IsSolver S.FnMut solve.new }
    ensures lemma { IsLemmaFinder S.FnMut L.FnMut lemma.new }
    ensures steps { IfOk result (λ log.
        visited space.now.kind space.now.rules.now task.now.goal.now task.now.depth
        task.now.budget ≡ Closed (map move_of log.steps)) }
    ensures accepted { IfOk result (λ log.
        verdict_over space.now.rules.now task.now.goal.now log ≡ Accepted) }
    ensures bare { IfOk result (λ log. log.domains ≡ None) }
    ensures shallow { IfOk result (λ log. is_shallow_log log ≡ true) }
    ensures columns { IfOk result (λ log. HasColumns log.table) }
    ensures ends { IfErr result (λ e. IsEnd task.now.depth task.now.budget
        (visited space.now.kind space.now.rules.now task.now.goal.now task.now.depth
        task.now.budget) e) }
{
    let outcome = visit_plans(alloc, space, task, memo, solve, lemma)?;
    match outcome {
        Outcome::Closed(node) => {
            let steps = node.steps.as_slice();
            match log_of(alloc, space, steps, node.state.hypotheses(), memo, solve) {
                Ok(log) => Ok(dropped(node, log)),
                Err(NoMemory) => Err(dropped(node, SearchEnd::NoMemory)),
            }
        }
        Outcome::Noted(Note { path, noted }) => Err(SearchEnd::Large { path, rows: noted }),
        Outcome::Spent => Err(SearchEnd::Spent {
            visits: task.budget,
        }),
        Outcome::Through => Err(SearchEnd::NoPlan { depth: task.depth }),
    }
}

/// How a search ends that begins nowhere: where the limits are passed on the way to ranks, with the
/// rows of the goal.
pub fn unranked_end(alloc: Global, noted: bool, goal: &Equation) -> SearchEnd
    ensures { (depth budget : ℕ) → IsEnd depth budget (unranked noted goal.now) result }
{
    if !noted {
        return SearchEnd::NoRanks;
    }
    match copied_rows(alloc, goal.rows.rows()) {
        Ok(rows) => SearchEnd::LargeRanks { rows },
        Err(NoMemory) => SearchEnd::NoMemory,
    }
}

/// The log with these domains.
fn with_domains(log: Log, domains: Domains) -> Log
    ensures same { result ≡ record log { domains = Some domains } }
    ensures accepted { (kind : RankingKind) → (parts : RuleParts) → (goal : Equation) →
        AreFound kind parts goal domains →
        verdict_over (with_domains parts domains.rows) goal log ≡ Accepted →
        IsAccepted parts goal result }
    ensures shallow { is_shallow_log log ≡ true → are_shallow_keeps (Some domains) ≡ true →
        is_shallow_log result ≡ true }
{
    let Log {
        covers,
        steps,
        table,
        pairs,
        ..
    } = log;
    Log {
        domains: Some(domains),
        covers,
        steps,
        table,
        pairs,
    }
}

/// The log with the domains of the set that it is accepted over. For the rules and the goal that
/// these were found for, a log that is accepted over that set is accepted with them.
pub fn log_inside(log: Log, inside: Inside) -> Log
    ensures same { result ≡ record log { domains = Some inside.domains } }
    ensures accepted { (parts : RuleParts) → (goal : Equation) → IsInside parts goal inside →
        verdict_over inside.rules goal log ≡ Accepted → IsAccepted parts goal result }
    ensures shallow { is_shallow_log log ≡ true → are_shallow_keeps (Some inside.domains) ≡ true →
        is_shallow_log result ≡ true }
{
    let Inside { domains, .. } = inside;
    with_domains(log, domains)
}

/// Searches inside domains as `search_over` does; the log has the domains.
fn search_inside<
    S: FnMut(&Constraint) -> Result<Option<Cert>, FmEnd>,
    L: FnMut(&Equation, &RuleSet, &mut S) -> Result<Items<Lemma>, FmEnd>,
>(
    alloc: Global,
    inside: Inside,
    task: &SearchTask<'_>,
    memo: &mut RankMemo,
    solve: &mut S,
    lemma: &mut L,
) -> Result<Log, SearchEnd>
    requires ready { IsReady inside.kind inside.rules }
    requires listed { inside.listed ≡ listing inside.rules inside.rules.rules }
    requires fits { IsFitting inside.rules task.now.goal.now }
    requires solver { IsSolver S.FnMut solve.old }
    requires lemma { IsLemmaFinder S.FnMut L.FnMut lemma.old }
    ensures solver { IsSolver S.FnMut solve.new }
    ensures lemma { IsLemmaFinder S.FnMut L.FnMut lemma.new }
    ensures steps { IfOk result (λ log.
        visited inside.kind inside.rules task.now.goal.now task.now.depth task.now.budget ≡
        Closed (map move_of log.steps)) }
    ensures accepted { (parts : RuleParts) → IsInside parts task.now.goal.now inside →
        IfOk result (IsAccepted parts task.now.goal.now) }
    ensures shallow { are_shallow_keeps (Some inside.domains) ≡ true →
        IfOk result (λ log. is_shallow_log log ≡ true) }
    ensures domains { IfOk result (λ log. log.domains ≡ Some inside.domains) }
    ensures columns { IfOk result (λ log. HasColumns log.table) }
    ensures ends { IfErr result (λ e. IsEnd task.now.depth task.now.budget
        (visited inside.kind inside.rules task.now.goal.now task.now.depth task.now.budget) e) }
{
    let Inside {
        rules,
        listed,
        kind,
        ..
    } = &inside;
    let space = SearchSpace {
        rules,
        listed,
        kind: *kind,
    };
    match search_over(alloc, &space, task, memo, solve, lemma) {
        Ok(log) => Ok(log_inside(log, inside)),
        Err(end) => Err(dropped(inside, end)),
    }
}

/// Searches for a proof as `Search::search` does, with a memo of what was found out of pairs, in
/// which more is kept.
pub fn search_with<
    S: FnMut(&Constraint) -> Result<Option<Cert>, FmEnd>,
    L: FnMut(&Equation, &RuleSet, &mut S) -> Result<Items<Lemma>, FmEnd>,
>(
    alloc: Global,
    rules: &RuleSet,
    task: &SearchTask<'_>,
    memo: &mut RankMemo,
    solve: &mut S,
    lemma: &mut L,
) -> Result<Log, SearchEnd>
    requires coverable { is_coverable rules.now ≡ true }
    requires fits { IsFitting rules.now task.now.goal.now }
    requires solver { IsSolver S.FnMut solve.old }
    requires lemma { IsLemmaFinder S.FnMut L.FnMut lemma.old }
    ensures solver { IsSolver S.FnMut solve.new }
    ensures lemma { IsLemmaFinder S.FnMut L.FnMut lemma.new }
    ensures steps { IfOk result (λ log.
        searched rules.now task.now.goal.now task.now.depth task.now.budget ≡
        Closed (map move_of log.steps)) }
    ensures accepted { IfOk result (λ log. IsAccepted rules.now task.now.goal.now log) }
    ensures domains { IfOk result (λ log.
        BeginsOver rules.now task.now.goal.now (rows_of log.domains)) }
    ensures shallow { IfOk result (λ log. is_shallow_log log ≡ true) }
    ensures columns { IfOk result (λ log. HasColumns log.table) }
    ensures ends { IfErr result (λ e. IsEnd task.now.depth task.now.budget
        (searched rules.now task.now.goal.now task.now.depth task.now.budget) e) }
{
    let listed = rule_pairs(alloc, rules)?;
    let begun = begin(alloc, rules, &listed, task.goal, memo, solve)?;
    match begun {
        Beginning::Bare => {
            let space = SearchSpace {
                rules,
                listed: &listed,
                kind: RankingKind::Plain,
            };
            search_over(alloc, &space, task, memo, solve, lemma)
        }
        Beginning::Inside(inside) => search_inside(alloc, inside, task, memo, solve, lemma),
        Beginning::Unranked { noted } => Err(unranked_end(alloc, noted, task.goal)),
    }
}

/// A search for proofs, by what refutes rows and what finds lemmas.
#[derive(Drop)]
pub struct Search<S, L> {
    solve: S,
    lemma: L,
    most_kept: usize,
}

impl<
    S: FnMut(&Constraint) -> Result<Option<Cert>, FmEnd>,
    L: FnMut(&Equation, &RuleSet, &mut S) -> Result<Items<Lemma>, FmEnd>,
> Search<S, L> {
    /// A search that asks these closures: the second finds the lemmas of a goal, and is given the
    /// first. What they answer is taken as it is. Takes no memory.
    pub fn new(solve: S, lemma: L) -> Search<S, L>
        requires solver { IsSolver S.FnMut solve }
        requires lemma { IsLemmaFinder S.FnMut L.FnMut lemma }
        ensures solver { IsSolver S.FnMut result.solve }
        ensures lemma { IsLemmaFinder S.FnMut L.FnMut result.lemma }
    {
        Search {
            solve,
            lemma,
            most_kept: MOST_KEPT,
        }
    }

    /// The search that keeps at most `most_kept` nodes from one list of visits to the next, in
    /// place of 32,768. What it answers doesn't depend on that, only its time and its memory do.
    /// Takes no memory.
    pub fn keeping(self, most_kept: usize) -> Search<S, L>
        requires solver { IsSolver S.FnMut self.solve }
        requires lemma { IsLemmaFinder S.FnMut L.FnMut self.lemma }
        ensures solver { IsSolver S.FnMut result.solve }
        ensures lemma { IsLemmaFinder S.FnMut L.FnMut result.lemma }
    {
        Search {
            solve: self.solve,
            lemma: self.lemma,
            most_kept,
        }
    }

    /// Searches for a proof that both sides of the goal come to the same, over the rules where
    /// these have ranks, and else inside the domains that are found for the goal, where the rules
    /// have ranks and a cover, or inside the wider ones: nodes are visited by lists, the first with
    /// no choices on a path, the last with at most `depth` of them, and at most `budget` nodes are
    /// visited. The depth is at most 12, and the rules have no domains.
    ///
    /// The answer is a log that is accepted for the rules and the goal; no certificate and no tree
    /// in it is deeper than 200, and its rank table has 1 to 15 columns. It has domains exactly
    /// where the search went inside them. `LargeRanks` where the rules alone have no ranks, inside
    /// the domains that are found they have none or no cover, and a polynomial passed the limits on
    /// the way to the ranks; `NoRanks` where that is so but for the limits, and there are no wider
    /// domains; `NoPlan` where all lists are visited and no node is closed; `Spent` where there are
    /// more nodes than the budget; `Large`, before these two, where a polynomial passed the limits
    /// at a node that was visited. Each of these says exactly that; `NoMemory` says nothing else.
    pub fn search(
        &mut self,
        alloc: Global,
        rules: &RuleSet,
        goal: &Equation,
        depth: u32,
        budget: u32,
    ) -> Result<Log, SearchEnd>
        requires solver { IsSolver S.FnMut self.old.solve }
        requires lemma { IsLemmaFinder S.FnMut L.FnMut self.old.lemma }
        requires no_domains { rules.now.domains ≡ [] }
        requires coverable { is_coverable rules.now ≡ true }
        requires fits { IsFitting rules.now goal.now }
        requires depth { depth ≤ 12 }
        ensures solver { IsSolver S.FnMut self.new.solve }
        ensures lemma { IsLemmaFinder S.FnMut L.FnMut self.new.lemma }
        ensures steps { IfOk result (λ log. searched rules.now goal.now depth budget ≡
            Closed (map move_of log.steps)) }
        ensures accepted { IfOk result (λ log. IsAccepted rules.now goal.now log) }
        ensures domains { IfOk result (λ log.
            BeginsOver rules.now goal.now (rows_of log.domains)) }
        ensures shallow { IfOk result (λ log. is_shallow_log log ≡ true) }
        ensures columns { IfOk result (λ log. HasColumns log.table) }
        ensures ends { IfErr result (λ e. IsEnd depth budget
            (searched rules.now goal.now depth budget) e) }
    {
        let mut memo = RankMemo::new(alloc);
        let task = SearchTask {
            goal,
            depth,
            budget,
            most_kept: self.most_kept,
        };
        search_with(
            alloc,
            rules,
            &task,
            &mut memo,
            &mut self.solve,
            &mut self.lemma,
        )
    }
}
