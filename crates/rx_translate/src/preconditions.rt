//! The rows of a precondition.
ghost use Rattle.std.specs.Prelude.{◌≡◌, true};
ghost use Rattle.rx_plain.specs.Formed.{Forms, FormsAs};
ghost use Rattle.rx_code.specs.Preconditions.{pre_rows, read_expr};
ghost use Rattle.rx_translate.specs.Rows.{rows_after};
ghost use Rattle.c_ast.specs.RowForms.{is_row_form};

use c_ast::{Expr, UnOp};
use rx_code::{OpKind, kind_of};
use rx_exprs::{arithmetic, comparison};
use rx_plain::Items;
use rx_poly::{Poly, PolyEnd};
use rx_row::{Constraint, Row};
use std::alloc::Global;

/// The polynomial of a straight expression; 0 for any other.
fn straight_value(alloc: Global, e: &Expr) -> Result<Poly, PolyEnd>
    ensures forms { Forms PolyEnd.Large result (read_expr e.now).value }
{
    match e {
        Expr::Lit(n) => Ok(Poly::constant(alloc, *n as i128)?),
        Expr::Var(slot) => Ok(Poly::variable(alloc, *slot)?),
        Expr::Unary(UnOp::Plus, inner) => straight_value(alloc, inner.get()),
        Expr::Unary(UnOp::Minus, inner) => straight_value(alloc, inner.get())?.scale(alloc, -1),
        Expr::Binary(op, l, r) => match kind_of(*op) {
            OpKind::Arithmetic => {
                let left = straight_value(alloc, l.get())?;
                let right = straight_value(alloc, r.get())?;
                arithmetic(alloc, *op, &left, &right)
            }
            _ => Ok(Poly::constant(alloc, 0)?),
        },
        _ => Ok(Poly::constant(alloc, 0)?),
    }
}

/// Adds the rows of a precondition after others, also where one is one of them.
fn push_rows(alloc: Global, rows: &mut Items<Row>, pre: &Expr) -> Result<(), PolyEnd>
    ensures forms { FormsAs (λ _. rows.new) PolyEnd.Large result (rows_after rows.old pre.now) }
{
    let Expr::Binary(op, l, r) = pre else {
        return Ok(());
    };
    match kind_of(*op) {
        OpKind::Conjunction => {
            push_rows(alloc, rows, l.get())?;
            push_rows(alloc, rows, r.get())
        }
        OpKind::Comparing => {
            let left = straight_value(alloc, l.get())?;
            let right = straight_value(alloc, r.get())?;
            rows.push(comparison(alloc, *op, &left, &right)?)?;
            Ok(())
        }
        _ => Ok(()),
    }
}

/// The rows of a precondition, from left to right, equal ones kept. Large exactly where a
/// polynomial on the way to one of them passes the limits.
pub fn rows_of_pre(alloc: Global, pre: &Expr) -> Result<Constraint, PolyEnd>
    requires row_form { is_row_form pre.now ≡ true }
    ensures forms { Forms PolyEnd.Large result (pre_rows pre.now) }
{
    let mut rows = Items::new(alloc);
    push_rows(alloc, &mut rows, pre)?;
    Ok(Constraint::from_rows(rows.into_vec()))
}
