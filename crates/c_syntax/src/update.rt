//! The marks by which a name is changed: `op=`, and `++` and `--`.
ghost use Rattle.std.specs.Prelude.{◌≡◌, Some, MatchOption};
ghost use Rattle.c_ast.specs.declared.expr.BinOp.{BinOp};
ghost use Rattle.c_syntax.specs.Grammar.{kind_at};
ghost use Rattle.c_syntax.specs.Statements.{changing_of, update, step};

use crate::token::kind_at;
use c_ast::BinOp;
use c_lex::{Mark, Token, TokenKind};

// The operator of `op=` at `at`, if one is there.
pub fn update_at(tokens: &[Token], at: usize) -> Option<BinOp>
    ensures { MatchOption result
        ((op : BinOp) → changing_of (kind_at tokens.now at) ≡ Some (update op) → ⊥)
        (λ op. changing_of (kind_at tokens.now at) ≡ Some (update op)) }
{
    match kind_at(tokens, at) {
        Some(TokenKind::Mark(mark)) => update_of(mark),
        _ => None,
    }
}

// The operator of `op=` that the mark is, if it is one.
fn update_of(mark: Mark) -> Option<BinOp>
    ensures { MatchOption result
        ((op : BinOp) → changing_of (Some (TokenKind.Mark mark)) ≡ Some (update op) → ⊥)
        (λ op. changing_of (Some (TokenKind.Mark mark)) ≡ Some (update op)) }
{
    match mark {
        Mark::PlusAssign => Some(BinOp::Add),
        Mark::MinusAssign => Some(BinOp::Sub),
        Mark::StarAssign => Some(BinOp::Mul),
        Mark::SlashAssign => Some(BinOp::Div),
        Mark::PercentAssign => Some(BinOp::Rem),
        _ => None,
    }
}

// The operator of `++` or `--` at `at`, if one is there.
pub fn step_at(tokens: &[Token], at: usize) -> Option<BinOp>
    ensures { MatchOption result
        ((op : BinOp) → changing_of (kind_at tokens.now at) ≡ Some (step op) → ⊥)
        (λ op. changing_of (kind_at tokens.now at) ≡ Some (step op)) }
{
    match kind_at(tokens, at) {
        Some(TokenKind::Mark(mark)) => step_of(mark),
        _ => None,
    }
}

// The operator of `++` or `--` that the mark is, if it is one.
fn step_of(mark: Mark) -> Option<BinOp>
    ensures { MatchOption result
        ((op : BinOp) → changing_of (Some (TokenKind.Mark mark)) ≡ Some (step op) → ⊥)
        (λ op. changing_of (Some (TokenKind.Mark mark)) ≡ Some (step op)) }
{
    match mark {
        Mark::PlusPlus => Some(BinOp::Add),
        Mark::MinusMinus => Some(BinOp::Sub),
        _ => None,
    }
}
