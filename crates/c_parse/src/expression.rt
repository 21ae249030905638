//! What a token does to the symbols of an expression. What comes last is pushed on the stack first.
ghost use Rattle.std.specs.Prelude.{◌≡◌, ◌↔◌, IsTrue, IsSome, Some};
ghost use Rattle.c_syntax.specs.Grammar.{binary_of};
ghost use Rattle.c_parse.specs.Actions.{expression_action, going_action, called_action};
ghost use Rattle.c_parse.specs.Actions.{arguments_action, following_action};
ghost use Rattle.c_parse.specs.Recogniser.{Acts};

use crate::symbol::{Step, Symbol};
use c_lex::{Mark, TokenKind};
use rx_plain::NoMemory;

// An expression.
pub fn expression(stack: &mut Vec<Symbol>, kind: Option<TokenKind>) -> Result<Step, NoMemory>
    ensures { Acts result stack.old.items stack.new.items (expression_action kind) }
{
    match kind {
        Some(TokenKind::Name) => {
            stack.push(Symbol::Called)?;
            Ok(Step::Shifted)
        }
        Some(TokenKind::Number(_)) => {
            stack.push(Symbol::Going)?;
            Ok(Step::Shifted)
        }
        Some(TokenKind::Mark(Mark::LeftParen)) => {
            stack.push(Symbol::Going)?;
            stack.push(Symbol::RightParen)?;
            stack.push(Symbol::Expression)?;
            Ok(Step::Shifted)
        }
        Some(TokenKind::Mark(Mark::Plus | Mark::Minus | Mark::Not)) => {
            stack.push(Symbol::Expression)?;
            Ok(Step::Shifted)
        }
        _ => Ok(Step::Rejected),
    }
}

// What comes after an operand.
pub fn going(stack: &mut Vec<Symbol>, kind: Option<TokenKind>) -> Result<Step, NoMemory>
    ensures { Acts result stack.old.items stack.new.items (going_action kind) }
{
    match kind {
        Some(TokenKind::Mark(Mark::Question)) => {
            stack.push(Symbol::Expression)?;
            stack.push(Symbol::Colon)?;
            stack.push(Symbol::Expression)?;
            Ok(Step::Shifted)
        }
        Some(TokenKind::Mark(mark)) if is_infix(mark) => {
            stack.push(Symbol::Expression)?;
            Ok(Step::Shifted)
        }
        _ => Ok(Step::Popped),
    }
}

// Whether the mark is an operator between two operands.
fn is_infix(mark: Mark) -> bool
    ensures { IsTrue result ↔ IsSome (binary_of (Some (TokenKind.Mark mark))) }
{
    match mark {
        Mark::Star => true,
        Mark::Slash => true,
        Mark::Percent => true,
        Mark::Plus => true,
        Mark::Minus => true,
        Mark::Less => true,
        Mark::LessEqual => true,
        Mark::Greater => true,
        Mark::GreaterEqual => true,
        Mark::EqualEqual => true,
        Mark::NotEqual => true,
        Mark::AndAnd => true,
        Mark::OrOr => true,
        _ => false,
    }
}

// What comes after a name.
pub fn called(stack: &mut Vec<Symbol>, kind: Option<TokenKind>) -> Result<Step, NoMemory>
    ensures { Acts result stack.old.items stack.new.items (called_action kind) }
{
    match kind {
        Some(TokenKind::Mark(Mark::LeftParen)) => {
            stack.push(Symbol::Going)?;
            stack.push(Symbol::Arguments)?;
            Ok(Step::Shifted)
        }
        _ => going(stack, kind),
    }
}

// The arguments of a call.
pub fn arguments(stack: &mut Vec<Symbol>, kind: Option<TokenKind>) -> Result<Step, NoMemory>
    ensures { Acts result stack.old.items stack.new.items (arguments_action kind) }
{
    match kind {
        Some(TokenKind::Mark(Mark::RightParen)) => Ok(Step::Shifted),
        _ => {
            stack.push(Symbol::Following)?;
            expression(stack, kind)
        }
    }
}

// The arguments after the first.
pub fn following(stack: &mut Vec<Symbol>, kind: Option<TokenKind>) -> Result<Step, NoMemory>
    ensures { Acts result stack.old.items stack.new.items (following_action kind) }
{
    match kind {
        Some(TokenKind::Mark(Mark::RightParen)) => Ok(Step::Shifted),
        Some(TokenKind::Mark(Mark::Comma)) => {
            stack.push(Symbol::Following)?;
            stack.push(Symbol::Expression)?;
            Ok(Step::Shifted)
        }
        _ => Ok(Step::Rejected),
    }
}
