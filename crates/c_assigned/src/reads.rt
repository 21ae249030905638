//! Variables that are read where they may have no value.
ghost use Rattle.std.specs.Prelude.{◌≡◌, ◌<◌, ◌^◌, length};
ghost use Rattle.c_ast.specs.Variables.{variables};
ghost use Rattle.c_assigned.specs.Sets as spec;

use crate::sets::is_assigned;
use c_ast::Expr;
use c_names::{name_at, slot_of};
use rx_plain::Items;

// Whether a variable of this slot may be read, where `own` is the slot whose initial value is being
// read.
fn may_read(set: &Option<Items<bool>>, own: Option<u32>, slot: Option<u32>) -> bool
    ensures { result ≡ spec.may_read set.now own slot }
{
    match slot {
        None => true,
        Some(slot) => match own {
            Some(own) => own != slot && is_assigned(set, slot),
            None => is_assigned(set, slot),
        },
    }
}

/// The first variable that an expression reads where it may have no value, where the names in scope
/// are listed by slot, and `own` is the slot whose initial value is being read. Takes no memory.
#[tactic(auto, using(crate::proofs::Reading::unset_Lit, crate::proofs::Reading::unset_Var, crate::proofs::Reading::unset_Unary, crate::proofs::Reading::unset_Binary, crate::proofs::Reading::unset_Choose))]
pub fn first_unset(
    names: &[u32],
    scope: &[u32],
    set: &Option<Items<bool>>,
    own: Option<u32>,
    expr: &Expr,
) -> Option<u32>
    requires { length scope.now < 2 ^ 32 }
    ensures { result ≡ spec.first_unset names.now scope.now set.now own (variables expr.now) }
{
    match expr {
        Expr::Lit(_) => None,
        Expr::Var(token) => {
            if may_read(set, own, slot_of(scope, name_at(names, *token))) {
                None
            } else {
                Some(*token)
            }
        }
        Expr::Unary(_, operand) => first_unset(names, scope, set, own, operand.get()),
        Expr::Binary(_, left, right) => {
            match first_unset(names, scope, set, own, left.get()) {
                Some(token) => Some(token),
                None => first_unset(names, scope, set, own, right.get()),
            }
        }
        Expr::Choose(test, holds, fails) => {
            match first_unset(names, scope, set, own, test.get()) {
                Some(token) => Some(token),
                None => match first_unset(names, scope, set, own, holds.get()) {
                    Some(token) => Some(token),
                    None => first_unset(names, scope, set, own, fails.get()),
                },
            }
        }
        Expr::Apply(_, arguments) => {
            for argument in arguments.as_slice() {
                if let Some(token) = first_unset(names, scope, set, own, argument) {
                    return Some(token);
                }
            }
            None
        }
    }
}
