//! What a token does to the symbols of statements. What comes last is pushed on the stack first.
ghost use Rattle.std.specs.Prelude.{◌≡◌, ◌∷◌, [], IfOk};
ghost use Rattle.c_parse.specs.declared.symbol.Symbol.TheVariants as symbol;
ghost use Rattle.c_parse.specs.Actions.{statement_action, else_action, changed_action};
ghost use Rattle.c_parse.specs.Actions.{items_action, declarators_action, declared_action};
ghost use Rattle.c_parse.specs.Actions.{more_declarators_action, for_start_action, for_test_action};
ghost use Rattle.c_parse.specs.Actions.{for_change_action};
ghost use Rattle.c_parse.specs.Recogniser.{Acts, pushed};

use crate::expression::expression;
use crate::symbol::{Step, Symbol};
use c_lex::{Keyword, Mark, TokenKind};
use rx_plain::NoMemory;

// A statement.
pub fn statement(stack: &mut Vec<Symbol>, kind: Option<TokenKind>) -> Result<Step, NoMemory>
    ensures { Acts result stack.old.items stack.new.items (statement_action kind) }
{
    match kind {
        Some(TokenKind::Mark(Mark::Semicolon)) => Ok(Step::Shifted),
        Some(TokenKind::Mark(Mark::LeftBrace)) => {
            stack.push(Symbol::Items)?;
            Ok(Step::Shifted)
        }
        Some(TokenKind::Name) => {
            stack.push(Symbol::Semicolon)?;
            stack.push(Symbol::Changed)?;
            Ok(Step::Shifted)
        }
        Some(TokenKind::Mark(Mark::PlusPlus | Mark::MinusMinus)) => {
            stack.push(Symbol::Semicolon)?;
            stack.push(Symbol::Name)?;
            Ok(Step::Shifted)
        }
        Some(TokenKind::Word(word)) => worded(stack, word),
        _ => Ok(Step::Rejected),
    }
}

// A statement that begins with a keyword.
fn worded(stack: &mut Vec<Symbol>, word: Keyword) -> Result<Step, NoMemory>
    ensures { Acts result stack.old.items stack.new.items
        (statement_action (Some (TokenKind.Word word))) }
{
    match word {
        Keyword::If => {
            stack.push(Symbol::Else)?;
            stack.push(Symbol::Statement)?;
            test(stack)?;
        }
        Keyword::While => {
            stack.push(Symbol::Statement)?;
            test(stack)?;
        }
        Keyword::Do => {
            stack.push(Symbol::Semicolon)?;
            test(stack)?;
            stack.push(Symbol::While)?;
            stack.push(Symbol::Statement)?;
        }
        Keyword::For => {
            stack.push(Symbol::Statement)?;
            head(stack)?;
        }
        Keyword::Break | Keyword::Continue => stack.push(Symbol::Semicolon)?,
        Keyword::Return => {
            stack.push(Symbol::Semicolon)?;
            stack.push(Symbol::Expression)?;
        }
        _ => return Ok(Step::Rejected),
    }
    Ok(Step::Shifted)
}

// Pushes an expression in parentheses on the stack.
fn test(stack: &mut Vec<Symbol>) -> Result<(), NoMemory>
    ensures { IfOk result (λ done. stack.new.items ≡ pushed
        (symbol.LeftParen ∷ symbol.Expression ∷ symbol.RightParen ∷ [])
        stack.old.items) }
{
    stack.push(Symbol::RightParen)?;
    stack.push(Symbol::Expression)?;
    stack.push(Symbol::LeftParen)?;
    Ok(())
}

// Pushes the head of a `for` on the stack.
fn head(stack: &mut Vec<Symbol>) -> Result<(), NoMemory>
    ensures { IfOk result (λ done. stack.new.items ≡ pushed
        (symbol.LeftParen ∷ symbol.ForStart ∷ symbol.ForTest ∷ symbol.ForChange ∷ [])
        stack.old.items) }
{
    stack.push(Symbol::ForChange)?;
    stack.push(Symbol::ForTest)?;
    stack.push(Symbol::ForStart)?;
    stack.push(Symbol::LeftParen)?;
    Ok(())
}

// What comes after the statement of an `if`.
pub fn alternative(stack: &mut Vec<Symbol>, kind: Option<TokenKind>) -> Result<Step, NoMemory>
    ensures { Acts result stack.old.items stack.new.items (else_action kind) }
{
    match kind {
        Some(TokenKind::Word(Keyword::Else)) => {
            stack.push(Symbol::Statement)?;
            Ok(Step::Shifted)
        }
        _ => Ok(Step::Popped),
    }
}

// What comes after the name that a change begins with.
pub fn changed(stack: &mut Vec<Symbol>, kind: Option<TokenKind>) -> Result<Step, NoMemory>
    ensures { Acts result stack.old.items stack.new.items (changed_action kind) }
{
    match kind {
        Some(
            TokenKind::Mark(
                Mark::Assign
                | Mark::PlusAssign
                | Mark::MinusAssign
                | Mark::StarAssign
                | Mark::SlashAssign
                | Mark::PercentAssign,
            ),
        ) => {
            stack.push(Symbol::Expression)?;
            Ok(Step::Shifted)
        }
        Some(TokenKind::Mark(Mark::PlusPlus | Mark::MinusMinus)) => Ok(Step::Shifted),
        _ => Ok(Step::Rejected),
    }
}

// The items of a block.
pub fn items(stack: &mut Vec<Symbol>, kind: Option<TokenKind>) -> Result<Step, NoMemory>
    ensures { Acts result stack.old.items stack.new.items (items_action kind) }
{
    match kind {
        Some(TokenKind::Mark(Mark::RightBrace)) => Ok(Step::Shifted),
        Some(TokenKind::Word(Keyword::Int)) => {
            stack.push(Symbol::Items)?;
            stack.push(Symbol::Declarators)?;
            Ok(Step::Shifted)
        }
        _ => {
            stack.push(Symbol::Items)?;
            statement(stack, kind)
        }
    }
}

// Declarations of names, with the semicolon.
pub fn declarators(stack: &mut Vec<Symbol>, kind: Option<TokenKind>) -> Result<Step, NoMemory>
    ensures { Acts result stack.old.items stack.new.items (declarators_action kind) }
{
    match kind {
        Some(TokenKind::Name) => {
            stack.push(Symbol::Declared)?;
            Ok(Step::Shifted)
        }
        _ => Ok(Step::Rejected),
    }
}

// What comes after a declared name, with the semicolon.
pub fn declared(stack: &mut Vec<Symbol>, kind: Option<TokenKind>) -> Result<Step, NoMemory>
    ensures { Acts result stack.old.items stack.new.items (declared_action kind) }
{
    match kind {
        Some(TokenKind::Mark(Mark::Assign)) => {
            stack.push(Symbol::MoreDeclarators)?;
            stack.push(Symbol::Expression)?;
            Ok(Step::Shifted)
        }
        _ => more_declarators(stack, kind),
    }
}

// A comma and declarations of names, or the semicolon.
pub fn more_declarators(stack: &mut Vec<Symbol>, kind: Option<TokenKind>) -> Result<Step, NoMemory>
    ensures { Acts result stack.old.items stack.new.items (more_declarators_action kind) }
{
    match kind {
        Some(TokenKind::Mark(Mark::Comma)) => {
            stack.push(Symbol::Declarators)?;
            Ok(Step::Shifted)
        }
        Some(TokenKind::Mark(Mark::Semicolon)) => Ok(Step::Shifted),
        _ => Ok(Step::Rejected),
    }
}

// The part of a `for` before its test, with the semicolon.
pub fn for_start(stack: &mut Vec<Symbol>, kind: Option<TokenKind>) -> Result<Step, NoMemory>
    ensures { Acts result stack.old.items stack.new.items (for_start_action kind) }
{
    match kind {
        Some(TokenKind::Mark(Mark::Semicolon)) => Ok(Step::Shifted),
        Some(TokenKind::Word(Keyword::Int)) => {
            stack.push(Symbol::Declarators)?;
            Ok(Step::Shifted)
        }
        Some(TokenKind::Name) => {
            stack.push(Symbol::Semicolon)?;
            stack.push(Symbol::Changed)?;
            Ok(Step::Shifted)
        }
        Some(TokenKind::Mark(Mark::PlusPlus | Mark::MinusMinus)) => {
            stack.push(Symbol::Semicolon)?;
            stack.push(Symbol::Name)?;
            Ok(Step::Shifted)
        }
        _ => Ok(Step::Rejected),
    }
}

// The test of a `for`, with the semicolon.
pub fn for_test(stack: &mut Vec<Symbol>, kind: Option<TokenKind>) -> Result<Step, NoMemory>
    ensures { Acts result stack.old.items stack.new.items (for_test_action kind) }
{
    match kind {
        Some(TokenKind::Mark(Mark::Semicolon)) => Ok(Step::Shifted),
        _ => {
            stack.push(Symbol::Semicolon)?;
            expression(stack, kind)
        }
    }
}

// The change after the test of a `for`, with the closing parenthesis.
pub fn for_change(stack: &mut Vec<Symbol>, kind: Option<TokenKind>) -> Result<Step, NoMemory>
    ensures { Acts result stack.old.items stack.new.items (for_change_action kind) }
{
    match kind {
        Some(TokenKind::Mark(Mark::RightParen)) => Ok(Step::Shifted),
        Some(TokenKind::Name) => {
            stack.push(Symbol::RightParen)?;
            stack.push(Symbol::Changed)?;
            Ok(Step::Shifted)
        }
        Some(TokenKind::Mark(Mark::PlusPlus | Mark::MinusMinus)) => {
            stack.push(Symbol::RightParen)?;
            stack.push(Symbol::Name)?;
            Ok(Step::Shifted)
        }
        _ => Ok(Step::Rejected),
    }
}
