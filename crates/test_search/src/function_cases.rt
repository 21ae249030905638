//! The code of a function of one parameter that returns it, and its rules.
use c_ast::{Expr, Function, Integers, Stmt};
use rx_code::Code;
use rx_exprs::Setting;
use rx_plain::Items;
use rx_row::Constraint;
use rx_stmts::function;
use rx_term::Sym;
use rx_translate::{entry_of, goal_of, parts_of};
use std::alloc::Global;

fn identity(alloc: Global) -> Option<Function> {
    let mut params = Items::new(alloc);
    params.push(0).ok()?;
    let mut body = Items::new(alloc);
    body.push(Stmt::Return(Expr::Var(0))).ok()?;
    Some(Function {
        name: 0,
        params,
        body,
    })
}

fn compile(alloc: Global, code: &mut Code) -> Option<()> {
    let identity = identity(alloc)?;
    let setting = Setting {
        alloc,
        integers: Integers::Unbounded,
    };
    function(setting, code, 0, &identity).ok()
}

fn compiled(alloc: Global) -> Option<Code> {
    let mut code = Code::new(alloc);
    compile(alloc, &mut code)?;
    Some(code)
}

// The entry and the end, with one action each; the entry is the first symbol.
fn opened(alloc: Global) -> Option<bool> {
    let code = compiled(alloc)?;
    Some(
        code.opened.len() == 2
            && code.instructions.len() == 2
            && entry_of(code.entries.as_slice(), 0) == 0,
    )
}

// One rule of the entry, and one of the end.
fn has_two_rules(alloc: Global, code: &Code) -> Option<bool> {
    let parts = parts_of(alloc, Integers::Unbounded, code).ok()?;
    Some(parts.symbols.len() == 2 && parts.rules.len() == 2)
}

fn ruled(alloc: Global) -> Option<bool> {
    let code = compiled(alloc)?;
    has_two_rules(alloc, &code)
}

// The entry against itself, on one variable.
fn stated(alloc: Global) -> Option<bool> {
    let rows = Constraint::from_rows(Vec::new(alloc));
    let goal = goal_of(alloc, Sym(0), Sym(0), 1, rows).ok()?;
    Some(goal.left.is_same(&goal.right))
}

/// Whether the case is as it is to be.
pub fn holds(alloc: Global, name: &str) -> Option<bool> {
    match name {
        "opened" => opened(alloc),
        "ruled" => ruled(alloc),
        "stated" => stated(alloc),
        _ => None,
    }
}
