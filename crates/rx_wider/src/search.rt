//! The wider search.
ghost use Rattle.std.specs.Prelude.{◌≡◌, [], min, IfOk, IfSome, option_map, option_and_then};
ghost use Rattle.rx_cert.specs.Findings.{Yes};
ghost use Rattle.rx_deepening.specs.Outcomes.{outcome};
ghost use Rattle.rx_deepening.specs.Views.{IfClosed, seen_outcome};
ghost use Rattle.rx_deepening.specs.Visits.{all_visits};
ghost use Rattle.rx_moves.specs.LoopPoints.{AreLoopPoints};
ghost use Rattle.rx_pairs.specs.Inside.{listing};
ghost use Rattle.rx_proofs.specs.Goals.{IsFitting};
ghost use Rattle.rx_rank.specs.Ranking.{ranked};
ghost use Rattle.rx_solve.specs.Answers.{IsSolver};
ghost use Rattle.rx_term.specs.declared.rule.Equation.{Equation};
ghost use Rattle.rx_wider.specs.Calls.{closed_of, moves_of, node_of, opening_of};
ghost use Rattle.rx_wider.specs.Reached.{IsBegun, IsClosedNode, IsNode, StartsAt};
ghost use Rattle.rx_wider.specs.Wider as spec;

use crate::explorer::Explorer;
use crate::inside::is_inside_bare;
use crate::lemmas::with_lemmas;
use crate::node::Node;
use crate::opening::{Begun, Setting};
use crate::tail_calls::tail_calls;
use crate::target::Target;
use crate::tree::WideTree;
use crate::trying::try_steps;
use rx_cert::Cert;
use rx_deepening::Outcome;
use rx_fm::FmEnd;
use rx_has_ranks::RankMemo;
use rx_inference::Step;
use rx_memo::GoalMemo;
use rx_moves::LoopPoints;
use rx_pairs::Listing;
use rx_plain::{Items, NoMemory};
use rx_rank::RankingKind;
use rx_row::Constraint;
use rx_settle::{SettleMemo, shared_steps};
use rx_steps::State;
use rx_term::{Equation, Rule, RuleSet};
use std::alloc::Global;

/// At most so many nodes are visited from a start, and kept from one list of visits to the next.
const MOST_VISITS: u32 = 200;

/// How far a search goes.
#[derive(Clone, Copy, Drop)]
pub struct Reach {
    /// How many choices there are on a path at most.
    pub depth: u32,
    /// How many nodes are visited at most.
    pub budget: u32,
}

/// The closed node of an outcome, if there is one.
fn closed_node(outcome: Outcome<Node, ()>) -> Option<Node>
    ensures { result ≡ closed_of outcome }
{
    match outcome {
        Outcome::Closed(node) => Some(node),
        _ => None,
    }
}

/// What the visits from the start node come to, where these lemmas stand before all.
fn visit_tree<S: FnMut(&Constraint) -> Result<Option<Cert>, FmEnd>>(
    target: &Target<'_>,
    tails: &[Rule],
    start: Node,
    reach: Reach,
    ranks: &mut RankMemo,
    solve: &mut S,
) -> Result<Outcome<Node, ()>, NoMemory>
    requires start { IsNode target.now.setting.now.kind target.now.setting.now.rules.now
        target.now.goal.now start }
    requires points { AreLoopPoints target.now.setting.now.rules.now
        target.now.setting.now.points.now }
    requires pairs { target.now.setting.now.pairs.now ≡
        listing target.now.setting.now.rules.now target.now.setting.now.rules.now.rules }
    requires solver { IsSolver S.FnMut solve.old }
    ensures solver { IsSolver S.FnMut solve.new }
    ensures outcome { IfOk result (λ o. seen_outcome node_of o ≡
        outcome (min reach.budget spec.most_visits)
        (all_visits (spec.settled target.now.setting.now.rules.now)
        (spec.menu target.now.setting.now.kind target.now.setting.now.rules.now tails.now)
        reach.depth
        (node_of start))) }
    ensures node { IfOk result (λ o.
        IfClosed (IsNode target.now.setting.now.kind target.now.setting.now.rules.now
        target.now.goal.now) o) }
{
    let setting = target.setting;
    let alloc = setting.alloc;
    let mut memo = SettleMemo::new(alloc)?;
    let mut known = GoalMemo::new(alloc)?;
    let explorer = Explorer {
        setting,
        tails,
        memo: &mut memo,
        solve,
    };
    let mut tree = WideTree {
        goal: target.goal,
        ranks,
        known: &mut known,
        explorer,
    };
    let budget = reach.budget.min(MOST_VISITS);
    let kept = MOST_VISITS as usize;
    rx_deepening::search(alloc, &mut tree, start, reach.depth, budget, kept)
}

/// The first closed node among the visits behind the opening.
fn visit_behind<S: FnMut(&Constraint) -> Result<Option<Cert>, FmEnd>>(
    setting: &Setting<'_>,
    from: &Equation,
    begun: Begun,
    reach: Reach,
    ranks: &mut RankMemo,
    solve: &mut S,
) -> Result<Option<Node>, NoMemory>
    requires begun { (goal : Equation) ×
        IsBegun setting.now.kind setting.now.rules.now from.now goal begun }
    requires points { AreLoopPoints setting.now.rules.now setting.now.points.now }
    requires pairs { setting.now.pairs.now ≡
        listing setting.now.rules.now setting.now.rules.now.rules }
    requires solver { IsSolver S.FnMut solve.old }
    ensures solver { IsSolver S.FnMut solve.new }
    ensures found { (goal : Equation) →
        IsBegun setting.now.kind setting.now.rules.now from.now goal begun →
        IfOk result (λ o. option_map moves_of o ≡
        spec.found_behind setting.now.kind setting.now.rules.now reach.depth reach.budget
        (opening_of begun)
        goal) }
    ensures closed { IfOk result (λ o.
        IfSome o (IsClosedNode setting.now.kind setting.now.rules.now from.now)) }
{
    let alloc = setting.alloc;
    let lemmas = begun.state.try_clone(alloc)?;
    let start = begun.into_node(alloc)?;
    let target = Target {
        setting,
        goal: from,
    };
    let outcome = visit_tree(&target, lemmas.hypotheses(), start, reach, ranks, solve)?;
    Ok(closed_node(outcome))
}

/// The first closed node among the visits from the goal alone, behind the lemmas on tail calls.
fn visit_from<S: FnMut(&Constraint) -> Result<Option<Cert>, FmEnd>>(
    target: &Target<'_>,
    from: &Equation,
    begun: Begun,
    reach: Reach,
    ranks: &mut RankMemo,
    solve: &mut S,
) -> Result<Option<Node>, NoMemory>
    requires begun { IsBegun target.now.setting.now.kind target.now.setting.now.rules.now from.now
        target.now.goal.now begun }
    requires points { AreLoopPoints target.now.setting.now.rules.now
        target.now.setting.now.points.now }
    requires pairs { target.now.setting.now.pairs.now ≡
        listing target.now.setting.now.rules.now target.now.setting.now.rules.now.rules }
    requires solver { IsSolver S.FnMut solve.old }
    ensures solver { IsSolver S.FnMut solve.new }
    ensures found { IfOk result (λ o. option_map moves_of o ≡
        spec.found_from target.now.setting.now.kind target.now.setting.now.rules.now reach.depth
        reach.budget target.now.goal.now
        (opening_of begun)) }
    ensures closed { IfOk result (λ o.
        IfSome o (IsClosedNode target.now.setting.now.kind target.now.setting.now.rules.now
        from.now)) }
{
    let setting = target.setting;
    let tails = tail_calls(setting.alloc, setting.rules, setting.points.loops())?;
    let mut memo = SettleMemo::new(setting.alloc)?;
    let opened = with_lemmas(target, begun, tails.as_slice(), ranks, &mut memo, solve)?;
    visit_behind(setting, from, opened, reach, ranks, solve)
}

/// The goal without its rows.
fn bare(alloc: Global, goal: &Equation) -> Result<Equation, NoMemory>
    ensures { IfOk result (λ e. e ≡ spec.bare goal.now) }
{
    Ok(Equation {
        left: goal.left.try_clone(alloc)?,
        right: goal.right.try_clone(alloc)?,
        rows: Constraint::from_rows(Vec::new(alloc)),
    })
}

/// The step that generalises the goal to this one, which has the same sides.
fn generalising(alloc: Global, to: &Equation) -> Result<Step, NoMemory>
    ensures { IfOk result (λ step. step ≡
        Step.Generalise to.now.left to.now.right to.now.rows [] []) }
{
    let Equation { left, right, rows } = to.try_clone(alloc)?;
    Ok(Step::Generalise {
        left,
        right,
        rows,
        subst: Items::new(alloc),
        certs: Items::new(alloc),
    })
}

/// The opening of the goal without its rows, where the goal can be generalised to that.
fn generalise_bare<S: FnMut(&Constraint) -> Result<Option<Cert>, FmEnd>>(
    setting: &Setting<'_>,
    goal: &Equation,
    to: &Equation,
    solve: &mut S,
) -> Result<Option<Begun>, NoMemory>
    requires bare { to.now ≡ spec.bare goal.now }
    requires start { StartsAt setting.now.kind setting.now.rules.now goal.now }
    requires solver { IsSolver S.FnMut solve.old }
    ensures solver { IsSolver S.FnMut solve.new }
    ensures opening { IfOk result (λ o. option_map opening_of o ≡
        spec.generalised_bare setting.now.rules.now goal.now) }
    ensures begun { IfOk result (λ o.
        IfSome o (IsBegun setting.now.kind setting.now.rules.now goal.now to.now)) }
{
    let alloc = setting.alloc;
    let mut state = State::start(alloc, goal.try_clone(alloc)?)?;
    let steps = [generalising(alloc, to)?];
    match try_steps(alloc, setting.rules, &mut state, steps.as_slice(), solve)? {
        Some(taken) => Ok(Some(Begun {
            steps: shared_steps(alloc, taken)?,
            state,
        })),
        None => Ok(None),
    }
}

/// The opening of the goal without its rows, where it is inside the domains without them, and can be
/// generalised to that.
fn begin_bare<S: FnMut(&Constraint) -> Result<Option<Cert>, FmEnd>>(
    setting: &Setting<'_>,
    goal: &Equation,
    to: &Equation,
    solve: &mut S,
) -> Result<Option<Begun>, NoMemory>
    requires bare { to.now ≡ spec.bare goal.now }
    requires start { StartsAt setting.now.kind setting.now.rules.now goal.now }
    requires solver { IsSolver S.FnMut solve.old }
    ensures solver { IsSolver S.FnMut solve.new }
    ensures opening { IfOk result (λ o. option_map opening_of o ≡
        spec.bare_opening setting.now.rules.now goal.now) }
    ensures begun { IfOk result (λ o.
        IfSome o (IsBegun setting.now.kind setting.now.rules.now goal.now to.now)) }
{
    if is_inside_bare(setting.alloc, setting.rules, goal)? {
        generalise_bare(setting, goal, to, solve)
    } else {
        Ok(None)
    }
}

/// The first closed node among the visits from the goal without its rows.
fn visit_bare<S: FnMut(&Constraint) -> Result<Option<Cert>, FmEnd>>(
    setting: &Setting<'_>,
    goal: &Equation,
    reach: Reach,
    ranks: &mut RankMemo,
    solve: &mut S,
) -> Result<Option<Node>, NoMemory>
    requires start { StartsAt setting.now.kind setting.now.rules.now goal.now }
    requires points { AreLoopPoints setting.now.rules.now setting.now.points.now }
    requires pairs { setting.now.pairs.now ≡
        listing setting.now.rules.now setting.now.rules.now.rules }
    requires solver { IsSolver S.FnMut solve.old }
    ensures solver { IsSolver S.FnMut solve.new }
    ensures found { IfOk result (λ o. option_map moves_of o ≡
        option_and_then
        (spec.found_from setting.now.kind setting.now.rules.now reach.depth reach.budget
        (spec.bare goal.now))
        (spec.bare_opening setting.now.rules.now goal.now)) }
    ensures closed { IfOk result (λ o.
        IfSome o (IsClosedNode setting.now.kind setting.now.rules.now goal.now)) }
{
    let to = bare(setting.alloc, goal)?;
    match begin_bare(setting, goal, &to, solve)? {
        Some(begun) => {
            let target = Target { setting, goal: &to };
            visit_from(&target, goal, begun, reach, ranks, solve)
        }
        None => Ok(None),
    }
}

/// The first closed node among the visits from the goal, and then from the goal without its rows.
fn visit_both<S: FnMut(&Constraint) -> Result<Option<Cert>, FmEnd>>(
    setting: &Setting<'_>,
    goal: &Equation,
    reach: Reach,
    ranks: &mut RankMemo,
    solve: &mut S,
) -> Result<Option<Node>, NoMemory>
    requires start { StartsAt setting.now.kind setting.now.rules.now goal.now }
    requires points { AreLoopPoints setting.now.rules.now setting.now.points.now }
    requires pairs { setting.now.pairs.now ≡
        listing setting.now.rules.now setting.now.rules.now.rules }
    requires solver { IsSolver S.FnMut solve.old }
    ensures solver { IsSolver S.FnMut solve.new }
    ensures found { IfOk result (λ o. option_map moves_of o ≡
        spec.wider setting.now.kind setting.now.rules.now goal.now reach.depth reach.budget) }
    ensures closed { IfOk result (λ o.
        IfSome o (IsClosedNode setting.now.kind setting.now.rules.now goal.now)) }
{
    let begun = Begun::new(setting.alloc, goal)?;
    let target = Target { setting, goal };
    if let Some(node) = visit_from(&target, goal, begun, reach, ranks, solve)? {
        return Ok(Some(node));
    }
    if goal.rows.rows().is_empty() {
        return Ok(None);
    }
    visit_bare(setting, goal, reach, ranks, solve)
}

/// Searches for what both sides of the goal keep while they are unfolded side by side: nodes are
/// visited by lists, the first with no choices on a path, the last with at most as many of them as
/// the depth of the reach, and at most as many nodes are visited as its budget, and at most 200.
/// Where none of them is closed and the goal has rows, but is inside the domains without them, with
/// nothing to be shown for that, they are visited from the goal without its rows in the same way.
///
/// The answer is the first closed node: its steps lead from the goal to no goal, no certificate is
/// deeper than 174, and there are ranks of this kind with the hypotheses that it kept. None exactly
/// where there is no such node. Fails only where there is no memory. The solver is asked in place
/// of the refuter.
pub fn wider_search<S: FnMut(&Constraint) -> Result<Option<Cert>, FmEnd>>(
    alloc: Global,
    kind: RankingKind,
    rules: &RuleSet,
    pairs: &Listing,
    goal: &Equation,
    reach: Reach,
    ranks: &mut RankMemo,
    solve: &mut S,
) -> Result<Option<Node>, NoMemory>
    requires fits { IsFitting rules.now goal.now }
    requires ranked { ranked kind rules.now [] ≡ Yes }
    requires pairs { pairs.now ≡ listing rules.now rules.now.rules }
    requires solver { IsSolver S.FnMut solve.old }
    ensures solver { IsSolver S.FnMut solve.new }
    ensures found { IfOk result (λ o. option_map moves_of o ≡
        spec.wider kind rules.now goal.now reach.depth reach.budget) }
    ensures closed { IfOk result (λ o. IfSome o (IsClosedNode kind rules.now goal.now)) }
{
    let _made = rules.parts();
    let points = LoopPoints::new(alloc, rules)?;
    let setting = Setting {
        alloc,
        rules,
        points: &points,
        pairs,
        kind,
    };
    visit_both(&setting, goal, reach, ranks, solve)
}
