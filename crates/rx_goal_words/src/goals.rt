//! The first goal of a state, with what a step may use for it.
ghost use Rattle.std.specs.Prelude.{◌≡◌, ◌++◌, OnOk};
ghost use Rattle.std.specs.Option.{option_copied};
ghost use Rattle.rx_goal_words.specs.GoalTexts as spec;

use crate::rules::{push_all_rules, push_rows, push_rules_at};
use rx_plain::NoMemory;
use rx_steps::State;
use rx_term::{Equation, Rule, RuleSet, Term};
use rx_term_words::push_term;
use rx_text::push_word;

// Adds both sides, and the rows.
fn push_goal(out: &mut Vec<u8>, goal: &Equation) -> Result<(), NoMemory>
    ensures { OnOk result (out.new.items ≡ out.old.items ++ spec.goal_text goal.now) }
{
    push_word(out, b"  goal: ")?;
    push_term(&goal.left, out)?;
    push_word(out, b" = ")?;
    push_term(&goal.right, out)?;
    push_rows(out, goal.rows.rows())?;
    push_word(out, b"\n")
}

// Adds what the rules at a redex begin with.
fn push_side(out: &mut Vec<u8>, side: &[u8]) -> Result<(), NoMemory>
    ensures { OnOk result (out.new.items ≡ out.old.items ++ spec.side_text side.now) }
{
    push_word(out, b"  rules at the redex of ")?;
    push_word(out, side)?;
    push_word(out, b":\n")
}

// Adds the rules of the redex's shape.
fn push_redex(out: &mut Vec<u8>, side: &[u8], redex: &Term, rules: &[Rule]) -> Result<(), NoMemory>
    ensures { OnOk result (out.new.items
        ≡ out.old.items ++ spec.at_redex side.now redex.now rules.now) }
{
    push_side(out, side)?;
    push_rules_at(out, redex, rules)
}

// Adds the rules of the redex's shape, if there is a redex.
fn push_at_redex(
    out: &mut Vec<u8>,
    side: &[u8],
    redex: Option<&Term>,
    rules: &[Rule],
) -> Result<(), NoMemory>
    ensures { OnOk result (out.new.items
        ≡ out.old.items ++ spec.redex_text side.now (option_copied redex.entry) rules.now) }
{
    match redex {
        Some(redex) => push_redex(out, side, redex, rules),
        None => Ok(()),
    }
}

// Adds the hypotheses, if there are any.
fn push_hypotheses(out: &mut Vec<u8>, hypotheses: &[Rule]) -> Result<(), NoMemory>
    ensures { OnOk result (out.new.items
        ≡ out.old.items ++ spec.hypotheses_text hypotheses.now) }
{
    match hypotheses {
        [] => Ok(()),
        [_, ..] => {
            push_word(out, b"  hypotheses:\n")?;
            push_all_rules(out, hypotheses)
        }
    }
}

// Adds a goal with the rules at its redexes, and the hypotheses.
fn push_on_goal(
    out: &mut Vec<u8>,
    rules: &[Rule],
    hypotheses: &[Rule],
    goal: Option<&Equation>,
) -> Result<(), NoMemory>
    ensures { OnOk result (out.new.items ≡ out.old.items
        ++ spec.on_goal rules.now hypotheses.now (option_copied goal.entry)) }
{
    match goal {
        Some(goal) => {
            push_goal(out, goal)?;
            push_at_redex(out, b"l", goal.left.redex(), rules)?;
            push_at_redex(out, b"r", goal.right.redex(), rules)?;
            push_hypotheses(out, hypotheses)
        }
        None => push_word(out, b"  no goal is left\n"),
    }
}

/// Adds the first goal of the state with its rows, the rules at the redexes of both its sides with
/// their numbers, and the hypotheses with theirs, each in a line of its own.
pub fn push_state(out: &mut Vec<u8>, rules: &RuleSet, state: &State) -> Result<(), NoMemory>
    ensures { OnOk result (out.new.items ≡ out.old.items ++ spec.state_text rules.now state.now) }
{
    push_on_goal(out, rules.rules(), state.hypotheses(), state.first())
}
