//! What a report says of the text of the functions, or of the precondition: at which place, and what
//! is wrong there.
ghost use Rattle.std.specs.Prelude.{◌≡◌, IfOk, IfSome};
ghost use Rattle.rx_messages.specs.Faults as spec;
ghost use Rattle.rx_places.specs.Spots.{IsWithin};

use c_lex::LexEnd;
use c_parse::ParseEnd;
use c_scope::ScopeEnd;
use rx_places::{NoMemory, Spot, spot_of_fault, spot_of_token};
use rx_report::Verdict;
use std::alloc::Global;

/// A place that a report names in a text.
#[derive(Clone, Copy, Debug, PartialEq, Eq)]
pub enum Place {
    /// That of a fault in the tokens.
    OfFault(LexEnd),
    /// A token, by its number, counted from 0; the text's end after the last.
    OfToken(u32),
}

fn token_of_parse(end: ParseEnd) -> Option<Place>
    ensures { result ≡ spec.token_of_parse end }
{
    match end {
        ParseEnd::Syntax { token }
        | ParseEnd::TooDeep { token }
        | ParseEnd::TooManyParams { token } => Some(Place::OfToken(token)),
        ParseEnd::NoMemory | ParseEnd::NotARowForm => None,
    }
}

fn token_of_scope(end: ScopeEnd) -> Option<Place>
    ensures { result ≡ spec.token_of_scope end }
{
    match end {
        ScopeEnd::UnknownName { token }
        | ScopeEnd::TwiceDeclared { token }
        | ScopeEnd::WrongCount { token }
        | ScopeEnd::MayBeUnset { token }
        | ScopeEnd::MayNotReturn { token }
        | ScopeEnd::StrayBreak { token }
        | ScopeEnd::TooManySlots { token } => Some(Place::OfToken(token)),
        ScopeEnd::NoMemory => None,
    }
}

/// The place that a report names in a text.
pub(crate) fn place_of(verdict: &Verdict) -> Option<Place>
    ensures { result ≡ spec.place_of verdict.now }
{
    match verdict {
        Verdict::Lex(fault) | Verdict::PreLex(fault) => Some(Place::OfFault(*fault)),
        Verdict::Parse(end) | Verdict::PreParse(end) => token_of_parse(*end),
        Verdict::Scope(end) => token_of_scope(*end),
        Verdict::WideLiteral(token) | Verdict::PreName(token) => Some(Place::OfToken(*token)),
        _ => None,
    }
}

/// Whether the text is the precondition.
pub(crate) fn is_about_pre(verdict: &Verdict) -> bool
    ensures { result ≡ spec.is_about_pre verdict.now }
{
    match verdict {
        Verdict::PreLex(_) | Verdict::PreParse(_) | Verdict::PreName(_) => true,
        _ => false,
    }
}

// The most bytes of a text of which tokens are read.
const LONGEST_TEXT: usize = 1_048_576;

/// The part of the text at that place; none where the text has no such place.
pub(crate) fn spot_at(alloc: Global, text: &[u8], place: Place) -> Result<Option<Spot>, NoMemory>
    ensures value { IfOk result (λ spot. spot ≡ spec.spot_at text.now place) }
    ensures within { IfOk result (λ spot. IfSome spot (IsWithin text.now)) }
{
    if text.len() > LONGEST_TEXT {
        return Ok(None);
    }
    match place {
        Place::OfFault(fault) => Ok(spot_of_fault(text, fault)),
        Place::OfToken(token) => spot_of_token(alloc, text, token),
    }
}

/// What is wrong in the tokens.
pub(crate) fn words_of_fault(fault: LexEnd) -> &'static [u8]
    ensures { result.now ≡ spec.words_of_fault fault }
{
    match fault {
        LexEnd::BadByte { .. } => b" can't stand here",
        LexEnd::OpenComment { .. } => b" begins a comment that isn't closed",
        LexEnd::LiteralTooLarge { .. } => b" is above 9223372036854775807",
        LexEnd::LeadingZero { .. } => b" has a 0 in front of other digits",
        LexEnd::Directive { .. } => b" begins a directive that isn't an include line",
        LexEnd::NoMemory => b"",
    }
}

/// What is wrong in the grammar.
pub(crate) fn words_of_parse(end: ParseEnd) -> &'static [u8]
    ensures { result.now ≡ spec.words_of_parse end }
{
    match end {
        ParseEnd::Syntax { .. } => b" isn't expected here",
        ParseEnd::TooDeep { .. } => b" opens one more bracket where 200 are open",
        ParseEnd::TooManyParams { .. } => b" has more than 16 parameters",
        ParseEnd::NoMemory => b"",
        ParseEnd::NotARowForm => b"the precondition is no conjunction of comparisons",
    }
}

/// What is wrong in the program.
pub(crate) fn words_of_scope(end: ScopeEnd) -> &'static [u8]
    ensures { result.now ≡ spec.words_of_scope end }
{
    match end {
        ScopeEnd::UnknownName { .. } => b" isn't known here",
        ScopeEnd::TwiceDeclared { .. } => b" is declared twice",
        ScopeEnd::WrongCount { .. } => b" is defined with another number of parameters",
        ScopeEnd::MayBeUnset { .. } => b" may be read before it is set",
        ScopeEnd::MayNotReturn { .. } => b" may end without a return",
        ScopeEnd::StrayBreak { .. } => b" stands outside loops",
        ScopeEnd::TooManySlots { .. } => b" is the 65th variable in scope",
        ScopeEnd::NoMemory => b"",
    }
}
