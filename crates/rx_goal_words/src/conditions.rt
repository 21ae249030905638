//! A condition of a step: a row that it asks.
ghost use Rattle.std.specs.Prelude.{◌≡◌, ◌++◌, OnOk};
ghost use Rattle.std.specs.Option.{option_copied};
ghost use Rattle.rx_goal_words.specs.ConditionTexts as spec;

use crate::rules::push_number;
use rx_inference::{Asked, FormEnd, Group, Step, form};
use rx_plain::NoMemory;
use rx_row::Row;
use rx_steps::State;
use rx_term::RuleSet;
use rx_text::{push_row, push_word};
use std::alloc::Global;

// The row with this number, counted from 0 over all groups in order, if there is one.
#[tactic(auto, using(crate::proofs::RowLaws::in_first, crate::proofs::RowLaws::in_others))]
fn row_in(groups: &[Group], number: usize) -> Option<&Row>
    ensures { option_copied result ≡ spec.row_in groups.now number }
{
    let mut rest = groups;
    let mut left = number;
    while let Some((group, more)) = rest.split_first() {
        let rows = group.rows.as_slice();
        if left < rows.len() {
            return rows.get(left);
        }
        left -= rows.len();
        rest = more;
    }
    None
}

// Adds a row with its number, if there is one.
fn push_row_line(out: &mut Vec<u8>, number: usize, row: Option<&Row>) -> Result<(), NoMemory>
    ensures { OnOk result (out.new.items
        ≡ out.old.items ++ spec.row_line number (option_copied row.entry)) }
{
    match row {
        Some(row) => {
            push_word(out, b"  condition ")?;
            push_number(out, number)?;
            push_word(out, b": ")?;
            push_row(out, row)?;
            push_word(out, b"\n")
        }
        None => Ok(()),
    }
}

// Adds that condition among those that are asked.
fn push_asked(out: &mut Vec<u8>, asked: &Asked, number: usize) -> Result<(), NoMemory>
    ensures { OnOk result (out.new.items ≡ out.old.items ++ spec.asked_text asked.now number) }
{
    match asked {
        Asked::Refuted => push_word(
            out,
            b"  condition 0: no integers meet the rows of the goal\n",
        ),
        Asked::Rows(groups) => push_row_line(out, number, row_in(groups.as_slice(), number)),
    }
}

/// Adds the condition with this number, counted from 0, of the step on the first goal of the state,
/// as a row; nothing where the step isn't formed, or has no such condition.
pub fn push_condition(
    alloc: Global,
    out: &mut Vec<u8>,
    rules: &RuleSet,
    state: &State,
    step: &Step,
    number: u32,
) -> Result<(), NoMemory>
    ensures { OnOk result (out.new.items
        ≡ out.old.items ++ spec.condition_text rules.now state.now step.now number) }
{
    match form(alloc, rules, state.first(), state.hypotheses(), step) {
        Ok(formed) => push_asked(out, &formed.asked, number as usize),
        Err(FormEnd::NoMemory) => Err(NoMemory),
        Err(FormEnd::NoGoal | FormEnd::WrongShape | FormEnd::NoSuchRule | FormEnd::Large) => Ok(()),
    }
}
