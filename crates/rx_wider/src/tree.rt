//! The tree of the wider search: its nodes have tasks, and its choices keep equations or unfold a
//! side.
ghost use Rattle.std.specs.Prelude.{◌≡◌, ◌++◌, All, None, IfOk};
ghost use Rattle.rx_deepening.specs.Views.{seen_menu, seen_settled};
ghost use Rattle.rx_moves.specs.LoopPoints.{AreLoopPoints};
ghost use Rattle.rx_pairs.specs.Inside.{listing};
ghost use Rattle.rx_rank.specs.declared.kind.RankingKind.{RankingKind};
ghost use Rattle.rx_settle.specs.Known.{AreKnown};
ghost use Rattle.rx_settle.specs.Tasks.{descendants};
ghost use Rattle.rx_solve.specs.Answers.{IsSolver};
ghost use Rattle.rx_term.specs.declared.rule.Equation.{Equation};
ghost use Rattle.rx_wider.specs.Calls.{node_of};
ghost use Rattle.rx_wider.specs.Nodes.{is_closed};
ghost use Rattle.rx_wider.specs.Reached.{AreChoices, IsNode};
ghost use Rattle.rx_wider.specs.Wider.{menu, settled};

use crate::choices::find_choices;
use crate::dropping::dropped;
use crate::explorer::Explorer;
use crate::known::{CandidateMemo, known_candidates};
use crate::node::Node;
use rx_cert::Cert;
use rx_deepening::{Menu, Settled, Tree};
use rx_fm::FmEnd;
use rx_has_ranks::RankMemo;
use rx_plain::{Items, NoMemory};
use rx_row::Constraint;
use rx_settle::{TaskedSteps, append_steps, settle_tasks};
use rx_term::Equation;
use std::alloc::Global;

/// The node, whose state was settled so, with the steps that did it.
fn settled_by(
    alloc: Global,
    mut node: Node,
    found: TaskedSteps,
) -> Result<Settled<Node, ()>, NoMemory>
    ensures { IfOk result (λ s. s ≡ record {
      node = record { steps = node.steps ++ found.steps; at = node.at; left = found.left };
      closed = is_closed node.at.state.goals;
      note = None;
    }) }
{
    let TaskedSteps { steps, left } = found;
    let closed = node.at.state.goals() == 0;
    node.left = left;
    match append_steps(alloc, &mut node.steps, steps) {
        Ok(()) => Ok(Settled {
            node,
            closed,
            note: None,
        }),
        Err(NoMemory) => Err(dropped(node, NoMemory)),
    }
}

/// The node once it is settled.
fn settle_node<S: FnMut(&Constraint) -> Result<Option<Cert>, FmEnd>>(
    explorer: &mut Explorer<'_, S>,
    mut node: Node,
) -> Result<Settled<Node, ()>, NoMemory>
    requires points { AreLoopPoints explorer.old.setting.now.rules.now
        explorer.old.setting.now.points.now }
    requires known { AreKnown explorer.old.setting.now.rules.now explorer.old.memo.now }
    requires solver { IsSolver S.FnMut explorer.old.solve.now }
    ensures points { AreLoopPoints explorer.new.setting.now.rules.now
        explorer.new.setting.now.points.now }
    ensures known { AreKnown explorer.new.setting.now.rules.now explorer.new.memo.now }
    ensures solver { IsSolver S.FnMut explorer.new.solve.now }
    ensures rules { explorer.new.setting.now.rules.now ≡ explorer.old.setting.now.rules.now }
    ensures pairs { explorer.new.setting.now.pairs.now ≡ explorer.old.setting.now.pairs.now }
    ensures kind { explorer.new.setting.now.kind ≡ explorer.old.setting.now.kind }
    ensures tails { explorer.new.tails.now ≡ explorer.old.tails.now }
    ensures name { explorer.new.solve.ghost_name ≡ explorer.old.solve.ghost_name }
    ensures settled { IfOk result (λ s. seen_settled node_of s ≡
        settled explorer.old.setting.now.rules.now (node_of node)) }
    ensures node { (kind : RankingKind) → (goal : Equation) →
        IsNode kind explorer.old.setting.now.rules.now goal node →
        IfOk result (λ s. IsNode kind explorer.old.setting.now.rules.now goal s.node) }
{
    let alloc = explorer.setting.alloc;
    let found = settle_tasks(
        alloc,
        explorer.setting.rules,
        explorer.setting.points,
        explorer.memo,
        &mut node.at,
        explorer.solve,
    );
    match found {
        Ok(found) => settled_by(alloc, node, found),
        Err(NoMemory) => Err(dropped(node, NoMemory)),
    }
}

/// The choices at a settled node; there are none where settling took all steps, or no goal is left.
fn find_menu<S: FnMut(&Constraint) -> Result<Option<Cert>, FmEnd>>(
    node: &Node,
    ranks: &mut RankMemo,
    known: &mut CandidateMemo,
    explorer: &mut Explorer<'_, S>,
) -> Result<Menu<Node, ()>, NoMemory>
    requires node { (goal : Equation) ×
        IsNode explorer.old.setting.now.kind explorer.old.setting.now.rules.now goal node.now }
    requires pairs { explorer.old.setting.now.pairs.now ≡
        listing explorer.old.setting.now.rules.now explorer.old.setting.now.rules.now.rules }
    requires known { AreChoices explorer.old.setting.now.rules.now
        (descendants explorer.old.setting.now.rules.now explorer.old.tails.now) known.old }
    requires solver { IsSolver S.FnMut explorer.old.solve.now }
    requires points { AreLoopPoints explorer.old.setting.now.rules.now
        explorer.old.setting.now.points.now }
    requires settling { AreKnown explorer.old.setting.now.rules.now explorer.old.memo.now }
    ensures known { AreChoices explorer.old.setting.now.rules.now
        (descendants explorer.old.setting.now.rules.now explorer.old.tails.now) known.new }
    ensures solver { IsSolver S.FnMut explorer.new.solve.now }
    ensures points { AreLoopPoints explorer.new.setting.now.rules.now
        explorer.new.setting.now.points.now }
    ensures settling { AreKnown explorer.new.setting.now.rules.now explorer.new.memo.now }
    ensures rules { explorer.new.setting.now.rules.now ≡ explorer.old.setting.now.rules.now }
    ensures pairs { explorer.new.setting.now.pairs.now ≡ explorer.old.setting.now.pairs.now }
    ensures kind { explorer.new.setting.now.kind ≡ explorer.old.setting.now.kind }
    ensures tails { explorer.new.tails.now ≡ explorer.old.tails.now }
    ensures name { explorer.new.solve.ghost_name ≡ explorer.old.solve.ghost_name }
    ensures menu { IfOk result (λ m. seen_menu node_of m ≡
        menu explorer.old.setting.now.kind explorer.old.setting.now.rules.now explorer.old.tails.now
        (node_of node.now)) }
    ensures nodes { (goal : Equation) →
        IsNode explorer.old.setting.now.kind explorer.old.setting.now.rules.now goal node.now →
        IfOk result (λ m. All (λ c. IsNode explorer.old.setting.now.kind
        explorer.old.setting.now.rules.now goal c.node) m.choices) }
{
    let setting = explorer.setting;
    let alloc = setting.alloc;
    let Some(first) = node.open_goal()? else {
        return Ok(Menu {
            choices: Items::new(alloc),
            note: None,
        });
    };
    let loops = setting.points.loops();
    let all = known_candidates(alloc, setting.rules, loops, known, explorer, first)?;
    let candidates = all.get().as_slice();
    let choices = find_choices(setting, node, candidates, ranks, explorer.solve)?;
    Ok(Menu {
        choices,
        note: None,
    })
}

/// The plans for a goal over rules, behind lemmas.
#[derive(Drop)]
pub(crate) struct WideTree<'a, 'b, S> {
    /// The goal from which the first steps lead.
    pub(crate) goal: &'a Equation,
    /// What was found out of pairs.
    pub(crate) ranks: &'a mut RankMemo,
    /// What is known of the choices at goals.
    pub(crate) known: &'a mut CandidateMemo,
    /// What comes of goals over the rules and behind the lemmas.
    pub(crate) explorer: Explorer<'b, S>,
}

impl<'a, 'b, S: FnMut(&Constraint) -> Result<Option<Cert>, FmEnd>> Tree for WideTree<'a, 'b, S> {
    ghost use Rattle.std.specs.Prelude.{◌≡◌};
    ghost use Rattle.rx_moves.specs.LoopPoints.{AreLoopPoints};
    ghost use Rattle.rx_pairs.specs.Inside.{listing};
    ghost use Rattle.rx_settle.specs.Known.{AreKnown};
    ghost use Rattle.rx_settle.specs.Tasks.{descendants};
    ghost use Rattle.rx_solve.specs.Answers.{IsSolver};
    ghost use Rattle.rx_wider.specs.Calls.{node_of};
    ghost use Rattle.rx_wider.specs.Nodes as nodes;
    ghost use Rattle.rx_wider.specs.Reached.{AreChoices, IsNode, Problem};
    ghost use Rattle.rx_wider.specs.Wider as wider;

    type Node = Node;

    type Note = ();

    ghost World = { Problem };

    ghost world = { λ t. record {
      goal = t.goal.now;
      explored = record {
        kind = t.explorer.setting.now.kind;
        parts = t.explorer.setting.now.rules.now;
        pairs = t.explorer.setting.now.pairs.now;
        tails = t.explorer.tails.now;
        solver = t.explorer.solve.ghost_name;
      };
    } };

    ghost ready = { λ t. IsSolver S.FnMut t.explorer.solve.now ×
        AreLoopPoints t.explorer.setting.now.rules.now t.explorer.setting.now.points.now ×
        (t.explorer.setting.now.pairs.now ≡ listing t.explorer.setting.now.rules.now
        t.explorer.setting.now.rules.now.rules) ×
        AreKnown t.explorer.setting.now.rules.now t.explorer.memo.now ×
        AreChoices t.explorer.setting.now.rules.now
        (descendants t.explorer.setting.now.rules.now t.explorer.tails.now) t.known.now };

    ghost View = { nodes.Node };

    ghost view = { node_of };

    ghost valid = { λ w n. IsNode w.explored.kind w.explored.parts w.goal n };

    ghost settled = { λ w v. wider.settled w.explored.parts v };

    ghost menu = { λ w v. wider.menu w.explored.kind w.explored.parts w.explored.tails v };

    fn settle(&mut self, node: Node) -> Result<Settled<Node, ()>, NoMemory> {
        settle_node(&mut self.explorer, node)
    }

    fn choices(&mut self, node: &Node) -> Result<Menu<Node, ()>, NoMemory> {
        find_menu(node, self.ranks, self.known, &mut self.explorer)
    }
}
