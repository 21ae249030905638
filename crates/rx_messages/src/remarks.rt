//! What a report says in words, and what to try.
ghost use Rattle.std.specs.Prelude.{◌≡◌};
ghost use Rattle.rx_messages.specs.Remarks as spec;
ghost use Rattle.rx_messages.specs.Steps.{bytes_in};

use crate::faults::{words_of_fault, words_of_parse, words_of_scope};
use c_parse::ParseEnd;
use rx_check::CheckEnd;
use rx_report::Verdict;
use rx_steps::StepEnd;

fn words_of_step(end: StepEnd) -> &'static [u8]
    ensures { result.now ≡ spec.words_of_step end }
{
    match end {
        StepEnd::NoGoal => b"the step comes where no goal is left",
        StepEnd::WrongShape => b"the step doesn't fit the first goal",
        StepEnd::NoSuchRule => b"the step names a rule or a hypothesis that isn't there",
        StepEnd::NotShown { .. } => b"a condition of the step isn't shown",
        StepEnd::Large | StepEnd::NoMemory => b"",
    }
}

fn words_of_check(end: CheckEnd) -> &'static [u8]
    ensures { result.now ≡ spec.words_of_check end }
{
    match end {
        CheckEnd::BadDomain { .. } => {
            b"a symbol has no domain over its own arguments, or there are more domains than symbols"
        }
        CheckEnd::NotKept { .. } => {
            b"the goal (0) or a rule (counted from 1) isn't shown to stay inside the domains"
        }
        CheckEnd::Step { step: _, end } => words_of_step(end),
        CheckEnd::Unfinished { .. } => b"goals are left after the last step",
        CheckEnd::NotCovered { .. } => {
            b"the trees of a symbol don't show that some rule applies everywhere, or are missing"
        }
        CheckEnd::BadRanks { .. } => {
            b"a symbol has no rank of the right width over its own arguments"
        }
        CheckEnd::NotLower { .. } => b"a call isn't shown to be lower than what it replaces",
        CheckEnd::Large { .. } => b"a polynomial of the log passes the limits",
        CheckEnd::NoMemory => b"",
    }
}

/// Whether the report is about the log.
pub(crate) fn is_about_log(verdict: &Verdict) -> bool
    ensures { result ≡ spec.is_about_log verdict.now }
{
    match verdict {
        Verdict::LongLog | Verdict::Line(_) | Verdict::Check(_) => true,
        _ => false,
    }
}

/// What a report says, behind the word that it is about.
pub(crate) fn words_of(verdict: &Verdict) -> &'static [u8]
    ensures { result.now ≡ spec.words_of verdict.now }
{
    match verdict {
        Verdict::Equivalent => b"",
        Verdict::NoRanks => {
            b"no ranks are found by which all calls go down, of both functions or of the rules"
        }
        Verdict::Depth(_) => b"no proof with so few choices is found",
        Verdict::Visits(_) => b"no proof is found in so many visits",
        Verdict::Demo(_, _) => b"not all examples are proved",
        Verdict::LongSource => b"the file has more than 1048576 bytes",
        Verdict::LongLog => b"the log has more than 67108864 bytes",
        Verdict::Lex(fault) | Verdict::PreLex(fault) => words_of_fault(*fault),
        Verdict::Parse(end) | Verdict::PreParse(end) => words_of_parse(*end),
        Verdict::Scope(end) => words_of_scope(*end),
        Verdict::WideLiteral(_) => b" is above 2147483647, the greatest 32-bit integer",
        Verdict::NoFunction(_) => b" is no function of this file",
        Verdict::Arity(_, _) => b"the two functions have different numbers of parameters",
        Verdict::PreName(_) => b" is no parameter of the first function",
        Verdict::Box(_) => b"there are more than 1000000 points",
        Verdict::Line(_) => b"no log goes on like this",
        Verdict::Check(end) => words_of_check(*end),
        Verdict::RuleLine(_) => b"no rule text goes on like this",
        Verdict::NotMade(_) => {
            b"the rule with this number isn't well made, or the equation behind all rules doesn't fit"
        }
        Verdict::NoCover => b"no trees are found that show that some rule applies everywhere",
        Verdict::Inductive => b"",
        Verdict::Usage => b"the words ask for nothing that ctrl does",
        Verdict::ReadFault => b"the file can't be read, or the log can't",
        Verdict::LargeTranslate => b"a polynomial of the functions passes the limits",
        Verdict::LargePre => b"a polynomial of the precondition passes the limits",
        Verdict::LargeSearch => b"a polynomial that the search forms passes the limits",
        Verdict::LargeRules => b"the rules of the functions pass the limits of rule texts",
    }
}

fn tries_after_check(end: CheckEnd) -> Option<&'static [u8]>
    ensures { bytes_in result ≡ spec.tries_after_check end }
{
    match end {
        CheckEnd::BadDomain { .. } => { Some(b"docs/LOG-FORMAT.md, which says what each line is") }
        CheckEnd::NotKept { .. } => {
            Some(b"other domains; the --pre of the proof, if it was left out")
        }
        CheckEnd::Step { .. } => Some(b"docs/STEPS.md, which says what each step asks"),
        CheckEnd::Unfinished { .. } => Some(b"more steps"),
        CheckEnd::NotCovered { .. } => {
            Some(
                b"docs/LOG-FORMAT.md; a log is for two functions in their order, with --int32 or without it, or for one rule text",
            )
        }
        CheckEnd::BadRanks { .. } | CheckEnd::NotLower { .. } => Some(b"another rank table"),
        CheckEnd::Large { .. } => Some(b"another proof"),
        CheckEnd::NoMemory => None,
    }
}

/// What to try; nothing where the words say it.
pub(crate) fn tries_of(verdict: &Verdict) -> Option<&'static [u8]>
    ensures { bytes_in result ≡ spec.tries_of verdict.now }
{
    match verdict {
        Verdict::NoRanks => {
            Some(
                b"a base case that ends everywhere (n <= 0, not n == 0), or --pre with what it needs; a loop with its test in front",
            )
        }
        Verdict::Depth(_) => {
            Some(
                b"a greater --depth; --pre (of a rule text: rows), if it is to hold for some arguments only; smaller parts",
            )
        }
        Verdict::Visits(_) => {
            Some(
                b"a greater --budget; --pre (of a rule text: rows), if it is to hold for some arguments only; smaller parts",
            )
        }
        Verdict::LongSource => Some(b"to leave out what the two functions don't need"),
        Verdict::NoFunction(_) => Some(b"another spelling of the name"),
        Verdict::Arity(_, _) => Some(b"the same parameters for both, in the same order"),
        Verdict::PreParse(ParseEnd::NotARowForm) => {
            Some(b"comparisons of literals, parameters, +, - and *, joined by &&")
        }
        Verdict::Box(_) => Some(b"a smaller --box"),
        Verdict::Line(_) => Some(b"docs/LOG-FORMAT.md, which says what each line is"),
        Verdict::Check(end) => tries_after_check(*end),
        Verdict::RuleLine(_) => Some(b"docs/RULE-TEXT.md, which says what each line is"),
        Verdict::NotMade(_) => Some(b"docs/RULE-TEXT.md, which says what is well made"),
        Verdict::NoCover => Some(b"rules for the arguments and results that are left out"),
        Verdict::ReadFault => Some(b"the names of the files, and whether they may be read"),
        Verdict::LargeTranslate | Verdict::LargePre | Verdict::LargeSearch => {
            Some(b"to compare smaller parts")
        }
        Verdict::LargeRules => Some(b"to translate smaller parts"),
        _ => None,
    }
}

/// The mode in which the functions may be compared instead; nothing where there is none.
pub(crate) fn mode_after(verdict: &Verdict) -> Option<&'static [u8]>
    ensures { bytes_in result ≡ spec.mode_after verdict.now }
{
    match verdict {
        Verdict::NoRanks | Verdict::Depth(_) | Verdict::Visits(_) => Some(b"refute"),
        _ => None,
    }
}
