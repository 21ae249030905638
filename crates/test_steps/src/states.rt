//! States made of goals and hypotheses, copied, and packed and unpacked after other polynomials
//! were numbered.
use rx_bank::{Bank, Packed};
use rx_plain::NoMemory;
use rx_poly::Poly;
use rx_steps::State;
use rx_text::push_word;
use rx_words::push_count;
use std::alloc::Global;
use test_lines::{Answer, BAR, equations, push_goal, push_list, push_rule, rules, written};

/// A state has fewer goals and fewer hypotheses than this.
const LIMIT: usize = 1 << 32;

// How many other polynomials are numbered.
const OTHERS: u32 = 1_000;

// The state of these goals and hypotheses.
fn state(alloc: Global, given: &str) -> Option<State> {
    let (goals, hypotheses) = given.split_once(BAR)?;
    let goals = equations(alloc, goals)?.into_vec();
    let hypotheses = rules(alloc, hypotheses)?.into_vec();
    if goals.len() < LIMIT && hypotheses.len() < LIMIT {
        State::from_parts(alloc, goals, hypotheses).ok()
    } else {
        None
    }
}

fn with_number(alloc: Global, variable: &Poly, number: u32) -> Option<Poly> {
    let number = Poly::constant(alloc, number as i128).ok()?;
    variable.add(alloc, &number).ok()
}

// Gives numbers to polynomials of a variable that no line has.
fn number_others(alloc: Global, bank: &mut Bank) -> Option<()> {
    let variable = Poly::variable(alloc, 999_999).ok()?;
    for number in 0..OTHERS {
        bank.number(alloc, &with_number(alloc, &variable, number)?)
            .ok()?;
    }
    Some(())
}

// The state that is packed so, where the numbers are those of the bank.
fn unpacked_from(alloc: Global, bank: &Bank, packed: &Packed) -> Option<State> {
    if bank.holds(packed) {
        bank.unpack(alloc, packed).ok()
    } else {
        None
    }
}

// The state once it is packed, the others are numbered, and it is unpacked.
fn through(alloc: Global, bank: &mut Bank, state: &State) -> Option<State> {
    let packed = bank.pack(alloc, state).ok()?;
    number_others(alloc, bank)?;
    unpacked_from(alloc, bank, &packed)
}

fn again(alloc: Global, state: &State) -> Option<State> {
    let mut bank = Bank::new(alloc);
    through(alloc, &mut bank, state)
}

// The number of the goals, each, and also one behind them, if there were one.
fn push_goals(state: &State, out: &mut Vec<u8>) -> Result<(), NoMemory> {
    push_count(out, state.goals() as usize)?;
    for at in 0..=state.goals() {
        if let Some(goal) = state.goal(at) {
            push_word(out, b" ")?;
            push_goal(goal, out)?;
        }
    }
    Ok(())
}

fn push_state(state: &State, out: &mut Vec<u8>) -> Result<(), NoMemory> {
    push_goals(state, out)?;
    push_word(out, b" ")?;
    push_list(state.hypotheses(), out, |rule, out| push_rule(rule, out))
}

fn state_text(alloc: Global, state: &State) -> Option<Answer> {
    written(alloc, |out| push_state(state, out))
}

// The text of the copy of a state.
fn copied(alloc: Global, state: &State) -> Option<Answer> {
    state_text(alloc, &state.try_clone(alloc).ok()?)
}

// The text of a state that was packed and unpacked.
fn unpacked(alloc: Global, state: &State) -> Option<Answer> {
    state_text(alloc, &again(alloc, state)?)
}

// The text of the state, as it is or as the call makes it.
fn text_after(alloc: Global, call: &str, state: &State) -> Option<Answer> {
    match call {
        "state" => state_text(alloc, state),
        "copied" => copied(alloc, state),
        "unpacked" => unpacked(alloc, state),
        _ => None,
    }
}

/// The state of these goals and hypotheses: as it is made of them, its copy, or packed, and
/// unpacked after 1,000 other polynomials were numbered.
pub fn answer(alloc: Global, call: &str, given: &str) -> Option<Answer> {
    let state = state(alloc, given)?;
    text_after(alloc, call, &state)
}
