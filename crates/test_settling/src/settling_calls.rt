//! A goal alone with a task under hypotheses: what settling makes of it, and its descendants.
use rx_inference::Side;
use rx_moves::LoopPoints;
use rx_plain::{Items, NoMemory};
use rx_row::Constraint;
use rx_settle::{SettleMemo, Tasked, descendants, settle_tasks};
use rx_solve::refutes;
use rx_steps::State;
use rx_term::{Equation, Rule, RuleSet};
use rx_text::push_word;
use rx_words::push_count;
use std::alloc::Global;
use test_lines::{Answer, equation, nothing, push_goal, push_list, rules, written};

/// There are fewer hypotheses than this.
const MOST_HYPOTHESES: usize = 1_000;

/// What settling begins with.
#[derive(Drop)]
struct Beginning {
    hypotheses: Items<Rule>,
    task: Items<Side>,
    goal: Equation,
}

/// What settling ends with.
#[derive(Drop)]
struct End {
    at: Tasked,
    left: u32,
}

// The side that the byte means, `l` or `r`.
fn side_of(byte: u8) -> Option<Side> {
    match byte {
        b'l' => Some(Side::Left),
        b'r' => Some(Side::Right),
        _ => None,
    }
}

// A task: a letter for each side, or `-` where there is none.
fn task_of(alloc: Global, word: &str) -> Option<Items<Side>> {
    let mut task = Items::new(alloc);
    if word == "-" {
        return Some(task);
    }
    for byte in word.as_bytes() {
        task.push(side_of(*byte)?).ok()?;
    }
    Some(task)
}

// A task, a goal and the list of hypotheses, with ` | ` between them.
fn read_beginning(alloc: Global, given: &str) -> Option<Beginning> {
    let (task, rest) = given.split_once(" | ")?;
    let (goal, hypotheses) = rest.split_once(" | ")?;
    Some(Beginning {
        hypotheses: rules(alloc, hypotheses)?,
        task: task_of(alloc, task)?,
        goal: equation(alloc, goal)?,
    })
}

// The goal alone with its task under the hypotheses, if these aren't too many.
fn tasked(alloc: Global, from: Beginning) -> Option<Tasked> {
    let mut goals = Vec::new(alloc);
    goals.push(from.goal).ok()?;
    let hypotheses = from.hypotheses.into_vec();
    if hypotheses.len() >= MOST_HYPOTHESES {
        return None;
    }
    let state = State::from_parts(alloc, goals, hypotheses).ok()?;
    Tasked::each_with(alloc, state, from.task.as_slice()).ok()
}

fn push_side(side: &Side, out: &mut Vec<u8>) -> Result<(), NoMemory> {
    match side {
        Side::Left => push_word(out, b"l"),
        Side::Right => push_word(out, b"r"),
    }
}

fn push_task(task: &Items<Side>, out: &mut Vec<u8>) -> Result<(), NoMemory> {
    if task.is_empty() {
        return push_word(out, b"-");
    }
    for side in task.as_slice() {
        push_side(side, out)?;
    }
    Ok(())
}

// How many moves are left; how many goals; the list of the tasks; and the first goal, if there is
// one.
fn push_end(end: &End, out: &mut Vec<u8>) -> Result<(), NoMemory> {
    push_count(out, end.left as usize)?;
    push_word(out, b" ")?;
    push_count(out, end.at.state.goals() as usize)?;
    push_word(out, b" ")?;
    push_list(end.at.tasks.as_slice(), out, push_task)?;
    if let Some(goal) = end.at.state.first() {
        push_word(out, b" ")?;
        push_goal(goal, out)?;
    }
    Ok(())
}

// What settling makes of the goal.
fn settled(alloc: Global, set: &RuleSet, from: Beginning) -> Option<Answer> {
    let points = LoopPoints::new(alloc, set).ok()?;
    let mut memo = SettleMemo::new(alloc).ok()?;
    let mut at = tasked(alloc, from)?;
    let mut solve = |rows: &Constraint| refutes(alloc, rows);
    let steps = settle_tasks(alloc, set, &points, &mut memo, &mut at, &mut solve).ok()?;
    let end = End {
        at,
        left: steps.left,
    };
    written(alloc, |out| push_end(&end, out))
}

// The descendants of the goal, or that there are none.
fn found(alloc: Global, set: &RuleSet, from: &Beginning) -> Option<Answer> {
    let points = LoopPoints::new(alloc, set).ok()?;
    let mut memo = SettleMemo::new(alloc).ok()?;
    let mut solve = |rows: &Constraint| refutes(alloc, rows);
    let hypotheses = from.hypotheses.as_slice();
    let task = from.task.as_slice();
    match descendants(
        alloc, set, &points, &mut memo, hypotheses, task, &from.goal, &mut solve,
    ) {
        Ok(Some(goals)) => written(alloc, |out| push_list(goals.as_slice(), out, push_goal)),
        Ok(None) => nothing(),
        Err(NoMemory) => None,
    }
}

/// What the call on a goal alone with a task under hypotheses answers; none where the line can't be
/// read, or there is no memory.
pub fn answer_to(alloc: Global, set: &RuleSet, call: &str, given: &str) -> Option<Answer> {
    let from = read_beginning(alloc, given)?;
    match call {
        "settled" => settled(alloc, set, from),
        "descendants" => found(alloc, set, &from),
        _ => None,
    }
}
