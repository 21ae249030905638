//! The choices at a node: each that applies leads to another one.
ghost use Rattle.std.specs.Prelude.{◌≡◌, ◌++◌, All, IfOk, IfSome, OnOk, map, option_map, option_to_list};
ghost use Rattle.std.specs.List.{filter_map};
ghost use Rattle.rx_deepening.specs.Views.{seen_choice};
ghost use Rattle.rx_pairs.specs.Inside.{listing};
ghost use Rattle.rx_solve.specs.Answers.{IsSolver};
ghost use Rattle.rx_term.specs.declared.rule.Equation.{Equation};
ghost use Rattle.rx_wider.specs.Calls.{node_of};
ghost use Rattle.rx_wider.specs.Menu.{led};
ghost use Rattle.rx_wider.specs.Reached.{CanBeTried, IsNode};
ghost use Rattle.rx_wider.specs.Wider.{child};

use crate::candidates::Candidate;
use crate::node::Node;
use crate::opening::Setting;
use crate::ranks::is_fit;
use crate::trying::try_steps;
use rx_cert::Cert;
use rx_deepening::Choice;
use rx_fm::FmEnd;
use rx_has_ranks::RankMemo;
use rx_plain::{Items, NoMemory};
use rx_row::Constraint;

/// The node that a choice leads to, where it applies.
fn lead<S: FnMut(&Constraint) -> Result<Option<Cert>, FmEnd>>(
    setting: &Setting<'_>,
    node: &Node,
    candidate: &Candidate,
    memo: &mut RankMemo,
    solve: &mut S,
) -> Result<Option<Node>, NoMemory>
    requires node { (goal : Equation) ×
        IsNode setting.now.kind setting.now.rules.now goal node.now }
    requires can { CanBeTried setting.now.rules.now candidate.now }
    requires pairs { setting.now.pairs.now ≡
        listing setting.now.rules.now setting.now.rules.now.rules }
    requires solver { IsSolver S.FnMut solve.old }
    ensures solver { IsSolver S.FnMut solve.new }
    ensures led { IfOk result (λ found. option_map node_of found ≡
        led setting.now.kind setting.now.rules.now (node_of node.now) candidate.now) }
    ensures nodes { (goal : Equation) →
        IsNode setting.now.kind setting.now.rules.now goal node.now →
        IfOk result (λ found. IfSome found (IsNode setting.now.kind setting.now.rules.now goal)) }
{
    let alloc = setting.alloc;
    let mut at = node.at.try_clone(alloc)?;
    let steps = candidate.steps.as_slice();
    let Some(taken) = try_steps(alloc, setting.rules, &mut at.state, steps, solve)? else {
        return Ok(None);
    };
    if is_fit(setting, candidate.keeps, &at.state, memo, solve)? {
        let next = node.after(alloc, taken, at, candidate.task.as_slice())?;
        Ok(Some(next))
    } else {
        Ok(None)
    }
}

/// One more choice, where it applies.
fn add_choice<S: FnMut(&Constraint) -> Result<Option<Cert>, FmEnd>>(
    setting: &Setting<'_>,
    node: &Node,
    candidate: &Candidate,
    found: &mut Items<Choice<Node>>,
    memo: &mut RankMemo,
    solve: &mut S,
) -> Result<(), NoMemory>
    requires node { (goal : Equation) ×
        IsNode setting.now.kind setting.now.rules.now goal node.now }
    requires can { CanBeTried setting.now.rules.now candidate.now }
    requires pairs { setting.now.pairs.now ≡
        listing setting.now.rules.now setting.now.rules.now.rules }
    requires solver { IsSolver S.FnMut solve.old }
    ensures solver { IsSolver S.FnMut solve.new }
    ensures added { OnOk result (map (seen_choice node_of) found.new ≡
        map (seen_choice node_of) found.old
        ++ option_to_list (child setting.now.kind setting.now.rules.now
        (node_of node.now) candidate.now)) }
    ensures nodes { (goal : Equation) →
        IsNode setting.now.kind setting.now.rules.now goal node.now →
        All (λ c. IsNode setting.now.kind setting.now.rules.now goal c.node) found.old →
        OnOk result (All (λ c. IsNode setting.now.kind setting.now.rules.now goal c.node)
        found.new) }
{
    match lead(setting, node, candidate, memo, solve)? {
        Some(next) => Ok(found.push(Choice {
            number: candidate.number,
            node: next,
        })?),
        None => Ok(()),
    }
}

/// The choices at the node that apply, in order.
pub(crate) fn find_choices<S: FnMut(&Constraint) -> Result<Option<Cert>, FmEnd>>(
    setting: &Setting<'_>,
    node: &Node,
    candidates: &[Candidate],
    memo: &mut RankMemo,
    solve: &mut S,
) -> Result<Items<Choice<Node>>, NoMemory>
    requires node { (goal : Equation) ×
        IsNode setting.now.kind setting.now.rules.now goal node.now }
    requires can { All (CanBeTried setting.now.rules.now) candidates.now }
    requires pairs { setting.now.pairs.now ≡
        listing setting.now.rules.now setting.now.rules.now.rules }
    requires solver { IsSolver S.FnMut solve.old }
    ensures solver { IsSolver S.FnMut solve.new }
    ensures choices { IfOk result (λ found. map (seen_choice node_of) found ≡
        filter_map (child setting.now.kind setting.now.rules.now
        (node_of node.now)) candidates.now) }
    ensures nodes { (goal : Equation) →
        IsNode setting.now.kind setting.now.rules.now goal node.now →
        IfOk result (λ found. All
        (λ c. IsNode setting.now.kind setting.now.rules.now goal c.node) found) }
{
    let mut found = Items::new(setting.alloc);
    for one in candidates {
        add_choice(setting, node, one, &mut found, memo, solve)?;
    }
    Ok(found)
}
