//! Which blocks need no scope: those whose statements add no slot.
ghost use Rattle.std.specs.Bool.{OnTrue};
ghost use Rattle.c_code.specs.Scopes.{AddNoSlots, AddsNoSlot};

use c_ast::Stmt;

/// Whether a statement declares nothing, or only in a scope of its own.
fn adds_no_slot(statement: &Stmt) -> bool
    ensures { OnTrue result (AddsNoSlot statement.now) }
{
    match statement {
        Stmt::Empty => true,
        Stmt::Declare(_, _) => false,
        Stmt::Assign(_, _) => true,
        Stmt::If(_, then, other) => match other {
            None => adds_no_slot(then.get()),
            Some(other) => adds_no_slot(then.get()) && adds_no_slot(other.get()),
        },
        Stmt::While(_, body) => adds_no_slot(body.get()),
        Stmt::DoWhile(body, _) => adds_no_slot(body.get()),
        Stmt::For(_, _, _, _) => true,
        Stmt::Break(_) => true,
        Stmt::Continue(_) => true,
        Stmt::Return(_) => true,
        Stmt::Block(_) => true,
    }
}

/// Whether none of the statements adds a slot, so that they need no scope.
pub(crate) fn add_no_slots(statements: &[Stmt]) -> bool
    ensures { OnTrue result (AddNoSlots statements.now) }
{
    for i in (0..statements.len()).rev() {
        if !adds_no_slot(&statements[i]) {
            return false;
        }
    }
    true
}
