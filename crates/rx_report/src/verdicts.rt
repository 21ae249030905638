//! What a report of one line says.
ghost use Rattle.std.specs.Prelude.{◌≡◌};
ghost use Rattle.rx_report.specs.Ends as ends;

use crate::Status;
use c_front::Refusal;
use c_lex::LexEnd;
use c_parse::ParseEnd;
use c_scope::ScopeEnd;
use rx_check::CheckEnd;

/// What a report of one line says.
#[derive(Clone, Copy, Debug, PartialEq, Eq)]
pub enum Verdict {
    /// A log was accepted.
    Equivalent,
    /// No ranks are found for the rules of both functions.
    NoRanks,
    /// No proof with at most this many choices is found.
    Depth(u32),
    /// No proof is found in this many visits, and there are more.
    Visits(u32),
    /// Of this many examples, this many are proved.
    Demo(u32, u32),
    /// The source has more than 1,048,576 bytes.
    LongSource,
    /// The log has more than 67,108,864 bytes.
    LongLog,
    /// The source is no list of tokens.
    Lex(LexEnd),
    /// The source spells no program within the parser's limits.
    Parse(ParseEnd),
    /// The program of the source isn't well formed.
    Scope(ScopeEnd),
    /// The number at this token of the source, counted from 0, is above 2147483647, and 32-bit
    /// integers are asked for.
    WideLiteral(u32),
    /// No function has the first of the two names, which is 1, or else the second, which is 2.
    NoFunction(u8),
    /// The two functions have different numbers of parameters, which these are.
    Arity(u32, u32),
    /// The precondition is no list of tokens.
    PreLex(LexEnd),
    /// The precondition spells no row form within the parser's limits.
    PreParse(ParseEnd),
    /// The token of the precondition with this number, counted from 0, is a name that no parameter
    /// of the first function has.
    PreName(u32),
    /// There are more than 1,000,000 points of this many arguments.
    Box(usize),
    /// The line of the log with this number, counted from 1, is the first with which no log begins.
    Line(usize),
    /// The log isn't accepted.
    Check(CheckEnd),
    /// The line of the rule text with this number, counted from 1, is the first with which no rule
    /// text begins.
    RuleLine(usize),
    /// The rule of the rule text with this number, counted from 0, is the first that isn't well
    /// made; the number of rules stands for an equation that doesn't fit.
    NotMade(usize),
    /// Trees are not found that show that some rule applies at each redex.
    NoCover,
    /// A log was accepted for the equation of a rule text.
    Inductive,
    /// The words ask for nothing that the program does.
    Usage,
    /// A file could not be read.
    ReadFault,
    /// What is formed for the two functions passes the limits.
    LargeTranslate,
    /// What is formed for the precondition passes the limits.
    LargePre,
    /// No proof is found, and what is formed in the search passes the limits.
    LargeSearch,
    /// The rules of both functions pass the limits of rule texts.
    LargeRules,
}

/// How a run ends whose log isn't accepted for this.
fn check_status(end: &CheckEnd) -> Status
    ensures { result ≡ ends.check_status end.now }
{
    match end {
        CheckEnd::Large { place: _ } => Status::Large,
        _ => Status::Refused,
    }
}

/// How a run ends that has shown examples.
fn demo_status(pairs: u32, equivalent: u32) -> Status
    ensures { result ≡ ends.demo_status pairs equivalent }
{
    if pairs == equivalent {
        Status::Equivalent
    } else {
        Status::Unknown
    }
}

impl Verdict {
    ghost use Rattle.rx_report.specs.Ends.{status_of};

    /// How a run ends that reports this.
    pub fn status(&self) -> Status
        ensures { result ≡ status_of self.now }
    {
        match self {
            Verdict::Equivalent | Verdict::Inductive => Status::Equivalent,
            Verdict::NoRanks | Verdict::Depth(_) | Verdict::Visits(_) | Verdict::NoCover => {
                Status::Unknown
            }
            Verdict::Demo(pairs, equivalent) => demo_status(*pairs, *equivalent),
            Verdict::LongSource
            | Verdict::LongLog
            | Verdict::Lex(_)
            | Verdict::Parse(_)
            | Verdict::Scope(_)
            | Verdict::WideLiteral(_)
            | Verdict::NoFunction(_)
            | Verdict::Arity(_, _)
            | Verdict::PreLex(_)
            | Verdict::PreParse(_)
            | Verdict::PreName(_)
            | Verdict::Box(_)
            | Verdict::Line(_)
            | Verdict::RuleLine(_)
            | Verdict::NotMade(_) => Status::Refused,
            Verdict::Check(end) => check_status(end),
            Verdict::Usage => Status::Usage,
            Verdict::ReadFault => Status::ReadFault,
            Verdict::LargeTranslate
            | Verdict::LargePre
            | Verdict::LargeSearch
            | Verdict::LargeRules => Status::Large,
        }
    }
}

impl From<Refusal> for Verdict {
    ghost use Rattle.std.specs.Prelude.{◌≡◌};
    ghost use Rattle.rx_report.specs.Verdicts.{verdict_of};

    ghost from_gives = { λ refusal verdict. verdict ≡ verdict_of refusal };

    fn from(refusal: Refusal) -> Verdict {
        match refusal {
            Refusal::Lex(fault) => Verdict::Lex(fault),
            Refusal::Parse(end) => Verdict::Parse(end),
            Refusal::Scope(end) => Verdict::Scope(end),
            Refusal::WideLiteral(token) => Verdict::WideLiteral(token),
            Refusal::NoFunction(name) => Verdict::NoFunction(name),
            Refusal::Arity(first, second) => Verdict::Arity(first, second),
            Refusal::PreLex(fault) => Verdict::PreLex(fault),
            Refusal::PreParse(end) => Verdict::PreParse(end),
            Refusal::PreName(token) => Verdict::PreName(token),
        }
    }
}
