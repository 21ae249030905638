//! The functions that two functions reach by calls.
ghost use Rattle.std.specs.Prelude.{◌≡◌, ◌<◌, true, IfOk, length, [], ◌∷◌};
ghost use Rattle.c_ast.specs.Scoped.{is_scoped};
ghost use Rattle.rx_code.specs.Reached.{AreReached};
ghost use Rattle.rx_translate.specs.Marks.{MarksReached};

use crate::marks::{mark, marked, no_marks};
use c_ast::Resolved;
use rx_plain::{Items, NoMemory};
use std::alloc::{AllocError, Global};

/// The two functions, which wait for their marks.
fn first_waiting(alloc: Global, first: u32, second: u32) -> Result<Items<u32>, AllocError>
    ensures { IfOk result (λ waiting. waiting ≡ first ∷ second ∷ []) }
{
    let mut waiting = Items::new(alloc);
    waiting.push(first)?;
    waiting.push(second)?;
    Ok(waiting)
}

/// Marks of the functions that the two reach by calls, calls in unreachable code included. Each
/// body is walked once.
fn marks_of_reached(
    alloc: Global,
    program: &Resolved,
    first: u32,
    second: u32,
) -> Result<Vec<bool>, NoMemory>
    requires scoped { is_scoped program.now ≡ true }
    requires first_there { first < length program.now.functions }
    requires second_there { second < length program.now.functions }
    ensures { IfOk result (λ marks. MarksReached program.now first second marks.items) }
{
    let functions = program.functions.as_slice();
    let mut marks = no_marks(alloc, functions.len())?;
    let mut waiting = first_waiting(alloc, first, second)?;
    while let Some(place) = waiting.pop() {
        if !marks[place as usize] {
            mark(&mut marks, place);
            functions[place as usize].push_calls(&mut waiting)?;
        }
    }
    Ok(marks)
}

/// The places of the functions that the two reach by calls, calls in unreachable code included, in
/// the order of the text; fails only when out of memory. The time is linear in the program.
pub fn reached_functions(
    alloc: Global,
    program: &Resolved,
    first: u32,
    second: u32,
) -> Result<Items<u32>, NoMemory>
    requires scoped { is_scoped program.now ≡ true }
    requires first_there { first < length program.now.functions }
    requires second_there { second < length program.now.functions }
    ensures { IfOk result (λ fs. AreReached program.now first second fs) }
{
    let marks = marks_of_reached(alloc, program, first, second)?;
    Ok(marked(alloc, marks.as_slice())?)
}
