//! The tree of plans: its nodes are where steps lead from the goal, and its choices are steps.
ghost use Rattle.std.specs.Prelude.{◌≡◌, ◌++◌, IfOk};
ghost use Rattle.rx_search.specs.Calls.{node_of};
ghost use Rattle.rx_search.specs.NodeNodes.{is_closed};
ghost use Rattle.rx_search.specs.Nodes.{IsNode};
ghost use Rattle.rx_search.specs.Search.{settled};
ghost use Rattle.rx_rank.specs.declared.kind.RankingKind.{RankingKind};
ghost use Rattle.rx_settle.specs.Known.{AreKnown};
ghost use Rattle.rx_solve.specs.Answers.{IsSolver};
ghost use Rattle.rx_term.specs.declared.rule.Equation.{Equation};
ghost use Rattle.rx_moves.specs.LoopPoints.{AreLoopPoints};
ghost use Rattle.rx_deepening.specs.Views.{seen_settled};

use crate::dropping::dropped;
use crate::known::{ChoiceMemo, known_at};
use crate::menu::find_menu;
use crate::node::{Node, is_closed};
use crate::search_space::SearchSpace;
use rx_cert::Cert;
use rx_deepening::{Menu, Settled, Tree};
use rx_find_lemmas::Lemma;
use rx_fm::FmEnd;
use rx_has_ranks::RankMemo;
use rx_moves::LoopPoints;
use rx_plain::{Items, NoMemory};
use rx_row::{Constraint, Row};
use rx_settle::{SettleMemo, append_steps, settle};
use rx_term::{Equation, RuleSet};
use std::alloc::Global;

/// The node, whose state was settled so, with the steps that did it.
fn settled_by(
    alloc: Global,
    mut node: Node,
    found: rx_settle::Settled,
) -> Result<Settled<Node, Items<Row>>, NoMemory>
    ensures { IfOk result (λ s. s ≡ record {
      node = record { steps = node.steps ++ found.steps; state = node.state; left = found.left };
      closed = is_closed node.state.goals;
      note = found.note;
    }) }
{
    let rx_settle::Settled { steps, left, note } = found;
    let closed = is_closed(&node.state);
    node.left = left;
    match append_steps(alloc, &mut node.steps, steps) {
        Ok(()) => Ok(Settled { node, closed, note }),
        Err(NoMemory) => Err(dropped(node, dropped(note, NoMemory))),
    }
}

/// The node once it is settled.
fn settle_node<S: FnMut(&Constraint) -> Result<Option<Cert>, FmEnd>>(
    alloc: Global,
    rules: &RuleSet,
    points: &LoopPoints,
    memo: &mut SettleMemo,
    mut node: Node,
    solve: &mut S,
) -> Result<Settled<Node, Items<Row>>, NoMemory>
    requires points { AreLoopPoints rules.now points.now }
    requires known { AreKnown rules.now memo.old }
    requires solver { IsSolver S.FnMut solve.old }
    ensures known { AreKnown rules.now memo.new }
    ensures solver { IsSolver S.FnMut solve.new }
    ensures settled { IfOk result (λ s. seen_settled node_of s ≡
        settled rules.now (node_of node)) }
    ensures node { (kind : RankingKind) → (goal : Equation) → IsNode kind rules.now goal node →
        IfOk result (λ s. IsNode kind rules.now goal s.node) }
{
    match settle(alloc, rules, points, memo, &mut node.state, solve) {
        Ok(found) => settled_by(alloc, node, found),
        Err(NoMemory) => Err(dropped(node, NoMemory)),
    }
}

/// The plans for a goal over rules.
#[derive(Drop)]
pub(crate) struct Plans<'a, 'l, S, L> {
    /// The allocator.
    pub(crate) alloc: Global,
    /// The rules, and how they are ranked.
    pub(crate) space: &'a SearchSpace<'a>,
    /// The goal.
    pub(crate) goal: &'a Equation,
    /// The loop points of the rules.
    pub(crate) points: &'a LoopPoints,
    /// What settling knows of goals.
    pub(crate) settle_memo: &'a mut SettleMemo,
    /// What is known of the choices at goals.
    pub(crate) choice_memo: &'a mut ChoiceMemo,
    /// What was found out of pairs.
    pub(crate) rank_memo: &'a mut RankMemo,
    /// What refutes rows.
    pub(crate) solve: &'a mut S,
    /// What finds lemmas.
    pub(crate) lemma: &'l mut L,
}

impl<
    'a,
    'l,
    S: FnMut(&Constraint) -> Result<Option<Cert>, FmEnd>,
    L: FnMut(&Equation, &RuleSet, &mut S) -> Result<Items<Lemma>, FmEnd>,
> Tree for Plans<'a, 'l, S, L> {
    ghost use Rattle.std.specs.Prelude.{◌≡◌, List};
    ghost use Rattle.rx_find_lemmas.specs.Finders.{IsLemmaFinder};
    ghost use Rattle.rx_search.specs.Calls.{node_of};
    ghost use Rattle.rx_search.specs.NodeNodes as nodes;
    ghost use Rattle.rx_pairs.specs.Inside.{listing};
    ghost use Rattle.rx_row.specs.declared.row.Row.{Row};
    ghost use Rattle.rx_search.specs.Known.{AreRight};
    ghost use Rattle.rx_search.specs.Nodes.{IsNode, Problem};
    ghost use Rattle.rx_search.specs.Search as search;
    ghost use Rattle.rx_settle.specs.Known.{AreKnown};
    ghost use Rattle.rx_moves.specs.LoopPoints.{AreLoopPoints};
    ghost use Rattle.rx_solve.specs.Answers.{IsSolver};

    type Node = Node;

    type Note = Items<Row>;

    ghost World = { Problem };

    ghost world = { λ p. record {
      kind = p.space.now.kind;
      parts = p.space.now.rules.now;
      goal = p.goal.now;
      solver =
          p.solve.ghost_name;
      finder = p.lemma.ghost_name;
    } };

    ghost ready = { λ p. IsSolver S.FnMut p.solve.now ×
        IsLemmaFinder S.FnMut L.FnMut p.lemma.now × AreLoopPoints p.space.now.rules.now
        p.points.now ×
        (p.space.now.listed.now ≡ listing p.space.now.rules.now p.space.now.rules.now.rules) ×
        AreKnown p.space.now.rules.now p.settle_memo.now ×
        AreRight p.space.now.rules.now p.choice_memo.now };

    ghost View = { nodes.Node };

    ghost view = { node_of };

    ghost valid = { λ w n. IsNode w.kind w.parts w.goal n };

    ghost settled = { λ w v. search.settled w.parts v };

    ghost menu = { λ w v. search.menu w.kind w.parts v };

    fn settle(&mut self, node: Node) -> Result<Settled<Node, Items<Row>>, NoMemory> {
        settle_node(
            self.alloc,
            self.space.rules,
            self.points,
            self.settle_memo,
            node,
            self.solve,
        )
    }

    fn choices(&mut self, node: &Node) -> Result<Menu<Node, Items<Row>>, NoMemory> {
        let known = known_at(
            self.alloc,
            self.space.rules,
            node,
            self.choice_memo,
            self.solve,
            self.lemma,
        )?;
        find_menu(
            self.alloc,
            self.space,
            node,
            known,
            self.rank_memo,
            self.solve,
        )
    }
}
