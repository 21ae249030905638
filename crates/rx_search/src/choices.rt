//! The choices at a settled node: what is known of its first goal, put among the node's others.
ghost use Rattle.std.specs.Prelude.{◌≡◌, All, IfOk, IfSome, None, map};
ghost use Rattle.rx_pairs.specs.Inside.{listing};
ghost use Rattle.rx_pairs.specs.Pairs.{HasRoot, SidesFit};
ghost use Rattle.rx_rank.specs.Ranking.{ranked};
ghost use Rattle.rx_search.specs.Known.{IsRightAt, chosen_by, tried_at};
ghost use Rattle.rx_search.specs.Nodes.{AreChoices, IsNode, IsReached, IsTried, if_ranked};
ghost use Rattle.rx_solve.specs.Answers.{IsSolver};
ghost use Rattle.rx_term.specs.declared.rule.Equation.{Equation};

use crate::dropping::dropped;
use crate::node::Node;
use crate::node_choices::{Choices, KnownChoice};
use crate::search_space::SearchSpace;
use rx_cert::Cert;
use rx_fm::FmEnd;
use rx_has_ranks::{RankMemo, has_ranks_with};
use rx_plain::NoMemory;
use rx_rank::Attempt;
use rx_row::Constraint;
use std::alloc::Global;

/// How many steps settle a state at most.
pub(crate) const MOST_STEPS: u32 = 200;

/// What comes of a choice that leads to no node.
fn without_node(noted: bool) -> Attempt<Node>
    ensures { result ≡ record { made = None; noted = noted } }
{
    Attempt { made: None, noted }
}

/// What comes of a choice that leads to the node, where ranks are found with its hypotheses.
fn where_ranked<S: FnMut(&Constraint) -> Result<Option<Cert>, FmEnd>>(
    alloc: Global,
    space: &SearchSpace<'_>,
    node: Node,
    noted: bool,
    memo: &mut RankMemo,
    solve: &mut S,
) -> Result<Attempt<Node>, NoMemory>
    requires listed { space.now.listed.now ≡
        listing space.now.rules.now space.now.rules.now.rules }
    requires solver { IsSolver S.FnMut solve.old }
    requires roots { All HasRoot node.state.hypotheses }
    requires fits { All (SidesFit space.now.rules.now) node.state.hypotheses }
    ensures solver { IsSolver S.FnMut solve.new }
    ensures ranked { IfOk result (λ t. t ≡ if_ranked
        (ranked space.now.kind space.now.rules.now node.state.hypotheses) node noted) }
{
    match has_ranks_with(
        alloc,
        space.kind,
        space.rules,
        space.listed,
        node.state.hypotheses(),
        memo,
        solve,
    ) {
        Ok(true) => Ok(Attempt {
            made: Some(node),
            noted,
        }),
        Ok(false) => Ok(dropped(node, without_node(noted))),
        Err(FmEnd::Large) => Ok(dropped(node, without_node(true))),
        Err(FmEnd::NoMemory) => Err(dropped(node, NoMemory)),
    }
}

/// What comes of a choice at a node, as it is known of the node's first goal; where it keeps that
/// as a hypothesis, only where ranks are found with it.
fn try_known<S: FnMut(&Constraint) -> Result<Option<Cert>, FmEnd>>(
    alloc: Global,
    space: &SearchSpace<'_>,
    node: &Node,
    known: &KnownChoice,
    memo: &mut RankMemo,
    solve: &mut S,
) -> Result<Attempt<Node>, NoMemory>
    requires reached { (goal : Equation) × IsReached space.now.rules.now goal node.now }
    requires right { IsRightAt space.now.rules.now node.now.state known.now }
    requires listed { space.now.listed.now ≡
        listing space.now.rules.now space.now.rules.now.rules }
    requires solver { IsSolver S.FnMut solve.old }
    ensures solver { IsSolver S.FnMut solve.new }
    ensures tried { IfOk result (IsTried node.now
        (tried_at space.now.kind space.now.rules.now node.now.state known.now)) }
    ensures nodes { (goal : Equation) → IsNode space.now.kind space.now.rules.now goal node.now →
        IfOk result (λ t. IfSome t.made (IsNode space.now.kind space.now.rules.now goal)) }
{
    let trial = known.lead(alloc, node, MOST_STEPS)?;
    if !known.keeps {
        return Ok(trial);
    }
    let Attempt { made, noted } = trial;
    match made {
        Some(next) => where_ranked(alloc, space, next, noted, memo, solve),
        None => Ok(Attempt { made: None, noted }),
    }
}

/// The choices at a node, by what is known of those at its first goal, in that order.
pub(crate) fn find_choices<S: FnMut(&Constraint) -> Result<Option<Cert>, FmEnd>>(
    alloc: Global,
    space: &SearchSpace<'_>,
    node: &Node,
    known: &[KnownChoice],
    memo: &mut RankMemo,
    solve: &mut S,
) -> Result<Choices, NoMemory>
    requires reached { (goal : Equation) × IsReached space.now.rules.now goal node.now }
    requires right { All (IsRightAt space.now.rules.now node.now.state) known.now }
    requires listed { space.now.listed.now ≡
        listing space.now.rules.now space.now.rules.now.rules }
    requires solver { IsSolver S.FnMut solve.old }
    ensures solver { IsSolver S.FnMut solve.new }
    ensures choices { IfOk result (AreChoices node.now
        (map (chosen_by space.now.kind space.now.rules.now node.now.state) known.now)) }
    ensures nodes { (goal : Equation) → IsNode space.now.kind space.now.rules.now goal node.now →
        IfOk result (λ f. All (λ c. IsNode space.now.kind space.now.rules.now goal c.node)
        f.choices) }
{
    let mut found = Choices::new(alloc);
    for one in known {
        let trial = try_known(alloc, space, node, one, memo, solve)?;
        found.add(one.number, trial)?;
    }
    Ok(found)
}
