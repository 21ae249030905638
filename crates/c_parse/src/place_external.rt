//! What a token does to the symbols of programs. What comes last is pushed on the stack first.
ghost use Rattle.std.specs.Prelude.{◌≡◌};
ghost use Rattle.c_parse.specs.Actions.{closed, program_action, parameters_action};
ghost use Rattle.c_parse.specs.Actions.{parameter_action, parameter_name_action};
ghost use Rattle.c_parse.specs.Actions.{more_parameters_action, body_action};
ghost use Rattle.c_parse.specs.Recogniser.{Acts};

use crate::symbol::{Naming, Step, Symbol};
use c_lex::{Keyword, Mark, TokenKind};
use rx_plain::NoMemory;

// Functions and prototypes.
pub fn program(stack: &mut Vec<Symbol>, kind: Option<TokenKind>) -> Result<Step, NoMemory>
    ensures { Acts result stack.old.items stack.new.items (program_action kind) }
{
    match kind {
        Some(TokenKind::Word(Keyword::Int)) => {
            stack.push(Symbol::Program)?;
            stack.push(Symbol::Parameters)?;
            stack.push(Symbol::LeftParen)?;
            stack.push(Symbol::Name)?;
            Ok(Step::Shifted)
        }
        None => Ok(Step::Popped),
        _ => Ok(Step::Rejected),
    }
}

// What comes after the opening parenthesis of a heading.
pub fn parameters(stack: &mut Vec<Symbol>, kind: Option<TokenKind>) -> Result<Step, NoMemory>
    ensures { Acts result stack.old.items stack.new.items (parameters_action kind) }
{
    match kind {
        Some(TokenKind::Mark(Mark::RightParen)) => {
            stack.push(Symbol::Body)?;
            Ok(Step::Shifted)
        }
        Some(TokenKind::Word(Keyword::Void)) => {
            stack.push(Symbol::Body)?;
            stack.push(Symbol::RightParen)?;
            Ok(Step::Shifted)
        }
        Some(TokenKind::Word(Keyword::Int)) => {
            stack.push(Symbol::ParameterName(Naming::Full))?;
            Ok(Step::Shifted)
        }
        _ => Ok(Step::Rejected),
    }
}

// A parameter and what comes after it.
pub fn parameter(
    stack: &mut Vec<Symbol>,
    naming: Naming,
    kind: Option<TokenKind>,
) -> Result<Step, NoMemory>
    ensures { Acts result stack.old.items stack.new.items (parameter_action naming kind) }
{
    match kind {
        Some(TokenKind::Word(Keyword::Int)) => {
            stack.push(Symbol::ParameterName(naming))?;
            Ok(Step::Shifted)
        }
        _ => Ok(Step::Rejected),
    }
}

// What comes after the `int` of a parameter.
pub fn parameter_name(
    stack: &mut Vec<Symbol>,
    naming: Naming,
    kind: Option<TokenKind>,
) -> Result<Step, NoMemory>
    ensures { Acts result stack.old.items stack.new.items (parameter_name_action naming kind) }
{
    match kind {
        Some(TokenKind::Name) => {
            stack.push(Symbol::MoreParameters(naming))?;
            Ok(Step::Shifted)
        }
        _ => more_parameters(stack, Naming::Partial, kind),
    }
}

// What comes after a parameter.
pub fn more_parameters(
    stack: &mut Vec<Symbol>,
    naming: Naming,
    kind: Option<TokenKind>,
) -> Result<Step, NoMemory>
    ensures { Acts result stack.old.items stack.new.items (more_parameters_action naming kind) }
{
    match kind {
        Some(TokenKind::Mark(Mark::Comma)) => {
            stack.push(Symbol::Parameter(naming))?;
            Ok(Step::Shifted)
        }
        Some(TokenKind::Mark(Mark::RightParen)) => {
            stack.push(after_heading(naming))?;
            Ok(Step::Shifted)
        }
        _ => Ok(Step::Rejected),
    }
}

// What may come after the closing parenthesis of a heading.
fn after_heading(naming: Naming) -> Symbol
    ensures { result ≡ closed naming }
{
    match naming {
        Naming::Full => Symbol::Body,
        Naming::Partial => Symbol::Semicolon,
    }
}

// The block of a function, or the semicolon of a prototype.
pub fn body(stack: &mut Vec<Symbol>, kind: Option<TokenKind>) -> Result<Step, NoMemory>
    ensures { Acts result stack.old.items stack.new.items (body_action kind) }
{
    match kind {
        Some(TokenKind::Mark(Mark::LeftBrace)) => {
            stack.push(Symbol::Items)?;
            Ok(Step::Shifted)
        }
        Some(TokenKind::Mark(Mark::Semicolon)) => Ok(Step::Shifted),
        _ => Ok(Step::Rejected),
    }
}
