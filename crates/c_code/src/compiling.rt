//! The code of programs.
ghost use Rattle.std.specs.Prelude.{◌≡◌, IfOk};
ghost use Rattle.std.specs.Option.{option_copied};
ghost use Rattle.c_code.specs.Flat.{FunctionsLead, IsCode, Leads, WholeLeads, function_run};

use crate::code::{Code, Destination, Exits, Op, Operand, Work};
use crate::expressions::{compile_expr, emit};
use crate::statements::compile_sequence;
use c_ast::{Expr, Function, Resolved};
use rx_plain::NoMemory;
use std::alloc::Global;

/// The code of a function; returns the position at which it begins. At its end it returns 0.
fn compile_function<'a>(ops: &mut Vec<Op<'a>>, function: &'a Function) -> Result<usize, NoMemory>
    ensures { IfOk result (λ p. Leads ops.old.items ops.new.items p (function_run function.now)) }
{
    let ended = emit(
        ops,
        Op::Do(Work::Read(Operand::Constant(0)), Destination::Return(0)),
    )?;
    let exits = Exits {
        next: ended,
        broken: ended,
        continued: ended,
        scopes: 0,
    };
    compile_sequence(ops, function.body.as_slice(), exits)
}

/// The code of each function of a program.
fn compile_functions<'a>(
    alloc: Global,
    ops: &mut Vec<Op<'a>>,
    program: &'a Resolved,
) -> Result<Vec<usize>, NoMemory>
    ensures { IfOk result (λ entries. FunctionsLead ops.old.items ops.new.items entries.items
        program.now.functions) }
{
    let mut entries = Vec::new(alloc);
    for function in program.functions.as_slice() {
        let entry = compile_function(ops, function)?;
        entries.push(entry)?;
    }
    Ok(entries)
}

/// The code of an expression whose value ends the run, if there is one.
fn compile_whole(ops: &mut Vec<Op<'_>>, whole: Option<&Expr>) -> Result<Option<usize>, NoMemory>
    ensures { IfOk result (λ start. WholeLeads ops.old.items ops.new.items
        (option_copied whole.entry) start) }
{
    match whole {
        None => Ok(None),
        Some(e) => Ok(Some(compile_expr(ops, e, Destination::Return(0))?)),
    }
}

/// The code of a program and of an expression, if there is one; fails only out of memory.
pub fn compile<'a>(
    alloc: Global,
    program: &'a Resolved,
    whole: Option<&'a Expr>,
) -> Result<Code<'a>, NoMemory>
    ensures code { IfOk result (λ code. IsCode code) }
    ensures program { IfOk result (λ code. code.program ≡ program.entry) }
    ensures whole { IfOk result (λ code. code.whole ≡ whole.entry) }
{
    let mut ops = Vec::new(alloc);
    let entries = compile_functions(alloc, &mut ops, program)?;
    let start = compile_whole(&mut ops, whole)?;
    Ok(Code {
        program,
        whole,
        ops,
        entries,
        start,
    })
}
