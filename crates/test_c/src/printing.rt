//! Trees as text.
//!
//! An expression has its operator first; a name is `v8` by its number, a call `(call 0 v1)`, and a
//! function `f1( 4)` by its name and its parameters; `_` is a part that is left out.
use c_ast::{Expr, Function, Program, Prototype, Stmt};
use rx_plain::Boxed;
use test_lines::{put, put_debug, put_number};

/// Adds an expression, operator first.
#[cycle(expressions)]
pub fn put_expr(out: &mut String, e: &Expr) {
    match e {
        Expr::Lit(value) => put_debug(out, *value),
        Expr::Var(name) => put_number(out, "v", *name),
        Expr::Unary(op, a) => {
            put(out, "(");
            put_debug(out, *op);
            put_next(out, a.get());
            put(out, ")");
        }
        Expr::Binary(op, a, b) => {
            put(out, "(");
            put_debug(out, *op);
            put_next(out, a.get());
            put_next(out, b.get());
            put(out, ")");
        }
        Expr::Choose(c, a, b) => {
            put(out, "(?");
            put_next(out, c.get());
            put_next(out, a.get());
            put_next(out, b.get());
            put(out, ")");
        }
        Expr::Apply(name, arguments) => {
            put_number(out, "(call ", *name);
            for argument in arguments.as_slice() {
                put_next(out, argument);
            }
            put(out, ")");
        }
    }
}

// Adds an expression after a space.
#[cycle(expressions)]
fn put_next(out: &mut String, e: &Expr) {
    put(out, " ");
    put_expr(out, e);
}

// Adds the expression that may be left out.
fn put_option(out: &mut String, e: &Option<Expr>) {
    match e {
        None => put(out, "_"),
        Some(e) => put_expr(out, e),
    }
}

// Adds a word, a number, a word, an expression that may be left out, and a semicolon.
fn put_named(out: &mut String, word: &str, name: u32, value: &Option<Expr>) {
    put_number(out, word, name);
    put(out, " ");
    put_option(out, value);
    put(out, ";");
}

// Adds a change of a variable.
fn put_change(out: &mut String, name: u32, value: &Expr) {
    put_number(out, "", name);
    put(out, " = ");
    put_expr(out, value);
    put(out, ";");
}

// Adds a word, an expression, and what comes after it.
fn put_test(out: &mut String, word: &str, test: &Expr, after: &str) {
    put(out, word);
    put_expr(out, test);
    put(out, after);
}

// Adds a keyword with its token.
fn put_jump(out: &mut String, word: &str, token: u32) {
    put_number(out, word, token);
    put(out, ";");
}

/// Adds a statement, parts in order.
#[cycle(statements)]
pub fn put_stmt(out: &mut String, s: &Stmt) {
    match s {
        Stmt::Empty => put(out, ";"),
        Stmt::Declare(name, value) => put_named(out, "int ", *name, value),
        Stmt::Assign(name, value) => put_change(out, *name, value),
        Stmt::Break(token) => put_jump(out, "break ", *token),
        Stmt::Continue(token) => put_jump(out, "continue ", *token),
        Stmt::Return(value) => put_test(out, "return ", value, ";"),
        Stmt::Block(inner) => put_all(out, inner.as_slice()),
        Stmt::If(test, then, other) => {
            put_test(out, "if ", test, " ");
            put_stmt(out, then.get());
            if let Some(other) = other {
                put(out, " else ");
                put_stmt(out, other.get());
            }
        }
        Stmt::While(test, body) => {
            put_test(out, "while ", test, " ");
            put_stmt(out, body.get());
        }
        Stmt::DoWhile(body, test) => {
            put(out, "do ");
            put_stmt(out, body.get());
            put_test(out, " while ", test, ";");
        }
        Stmt::For(first, test, change, body) => {
            put(out, "for ");
            put_all(out, first.as_slice());
            put(out, " ");
            put_option(out, test);
            put_step(out, change);
            put_stmt(out, body.get());
        }
    }
}

// Adds the change after each turn, between spaces, `_` where it is left out.
#[cycle(statements)]
fn put_step(out: &mut String, change: &Option<Boxed<Stmt>>) {
    put(out, " ");
    match change {
        None => put(out, "_"),
        Some(change) => put_stmt(out, change.get()),
    }
    put(out, " ");
}

// Adds the statements in braces.
#[cycle(statements)]
fn put_all(out: &mut String, statements: &[Stmt]) {
    put(out, "{");
    for statement in statements {
        put_stmt(out, statement);
    }
    put(out, "}");
}

// Adds a function: its name, its parameters and its body.
fn put_function(out: &mut String, function: &Function) {
    put_number(out, "f", function.name);
    put(out, "(");
    for param in function.params.as_slice() {
        put_number(out, " ", *param);
    }
    put(out, ")");
    put_all(out, function.body.as_slice());
}

/// Adds the functions.
pub fn put_functions(out: &mut String, functions: &[Function]) {
    for function in functions {
        put_function(out, function);
    }
}

// Adds a prototype.
fn put_prototype(out: &mut String, prototype: &Prototype) {
    put_number(out, "p", prototype.name);
    match prototype.params {
        None => put(out, "(_)"),
        Some(count) => {
            put_number(out, "(", count);
            put(out, ")");
        }
    }
}

/// Adds a program: the functions, and then the prototypes.
pub fn put_program(out: &mut String, program: &Program) {
    put_functions(out, program.functions.as_slice());
    for prototype in program.prototypes.as_slice() {
        put_prototype(out, prototype);
    }
}
