//! The menu at a settled node.
ghost use Rattle.std.specs.Prelude.{◌≡◌, All, IfOk};
ghost use Rattle.rx_search.specs.Calls.{node_of};
ghost use Rattle.rx_pairs.specs.Inside.{listing};
ghost use Rattle.rx_search.specs.Known.{IsKnownAt};
ghost use Rattle.rx_search.specs.Nodes.{IsNode, IsReached};
ghost use Rattle.rx_search.specs.Search.{menu};
ghost use Rattle.rx_settle.specs.Settling.{rows_if};
ghost use Rattle.rx_solve.specs.Answers.{IsSolver};
ghost use Rattle.rx_term.specs.declared.rule.Equation.{Equation};
ghost use Rattle.rx_deepening.specs.Views.{seen_menu};

use crate::choices::find_choices;
use crate::dropping::dropped;
use crate::node::{Node, copied_rows};
use crate::node_choices::KnownChoice;
use crate::search_space::SearchSpace;
use rx_cert::Cert;
use rx_deepening::Menu;
use rx_fm::FmEnd;
use rx_has_ranks::RankMemo;
use rx_plain::{Items, NoMemory, Shared};
use rx_row::{Constraint, Row};
use rx_steps::State;
use std::alloc::Global;

/// The rows of the first goal, where something was noted.
fn noted_rows(alloc: Global, noted: bool, state: &State) -> Result<Option<Items<Row>>, NoMemory>
    ensures { IfOk result (λ note. note ≡ rows_if noted state.now.goals) }
{
    match state.first() {
        Some(goal) if noted => Ok(Some(copied_rows(alloc, goal.rows.rows())?)),
        _ => Ok(None),
    }
}

/// The menu at a settled node, by what is known of its choices.
pub(crate) fn find_menu<S: FnMut(&Constraint) -> Result<Option<Cert>, FmEnd>>(
    alloc: Global,
    space: &SearchSpace<'_>,
    node: &Node,
    known: Option<Shared<Items<KnownChoice>>>,
    memo: &mut RankMemo,
    solve: &mut S,
) -> Result<Menu<Node, Items<Row>>, NoMemory>
    requires reached { (goal : Equation) × IsReached space.now.rules.now goal node.now }
    requires known { IsKnownAt space.now.rules.now node.now known }
    requires listed { space.now.listed.now ≡
        listing space.now.rules.now space.now.rules.now.rules }
    requires solver { IsSolver S.FnMut solve.old }
    ensures solver { IsSolver S.FnMut solve.new }
    ensures menu { IfOk result (λ m. seen_menu node_of m ≡
        menu space.now.kind space.now.rules.now (node_of node.now)) }
    ensures nodes { (goal : Equation) → IsNode space.now.kind space.now.rules.now goal node.now →
        IfOk result (λ m. All (λ c. IsNode space.now.kind space.now.rules.now goal c.node)
        m.choices) }
{
    let Some(known) = known else {
        return Ok(Menu {
            choices: Items::new(alloc),
            note: None,
        });
    };
    let all = known.get().as_slice();
    let tried = find_choices(alloc, space, node, all, memo, solve);
    let found = dropped(known, tried)?;
    let note = noted_rows(alloc, found.noted, &node.state)?;
    Ok(Menu {
        choices: found.choices,
        note,
    })
}
