//! What the words of a command line ask for.
ghost use Rattle.std.specs.Prelude.{◌≡◌, codes, map, option_map, string_bytes, IfOk};
ghost use Rattle.clap.specs.Words.{first_of, found_of, rows_of};
ghost use Rattle.rx_command.specs.Commands as spec;
ghost use Rattle.rx_command.specs.Commands.{bytes_of, command_view, functions_view};

use crate::app::command_app;
use crate::numbers::number_of;
use c_ast::Integers;
use clap::ArgMatches;
use clap::error::ErrorKind;
use rx_plain::NoMemory;
use std::alloc::Global;

/// Two functions of a file, by a kind of integers, and a precondition on their arguments.
#[derive(Clone, Copy)]
pub struct Functions<'a> {
    /// The integers that `int` is read as. In a comparison by runs they are the mathematical ones.
    pub integers: Integers,
    /// The file's name.
    pub file: &'a str,
    /// The name of the first function.
    pub first: &'a str,
    /// The name of the second.
    pub second: &'a str,
    /// The text of the precondition, at most 1,048,576 bytes.
    pub precondition: Option<&'a str>,
}

/// How far a search goes.
#[derive(Clone, Copy)]
pub struct Effort {
    /// How many choices a plan may have, 0 to 12.
    pub depth: u32,
    /// How many visits are made, 1 to 1,000,000.
    pub budget: u32,
}

/// On which arguments two functions are run, and how long.
#[derive(Clone, Copy)]
pub struct Extent {
    /// The greatest size of an argument, 0 to 1,000.
    pub side: u32,
    /// How many rounds a run may take, 1 to 100,000.
    pub rounds: u32,
}

/// How two functions are compared.
#[derive(Clone, Copy)]
pub enum Comparison<'a> {
    /// By a search for a proof that both compute the same.
    Prove(Functions<'a>, Effort),
    /// By a replay of the proof in the log with this name.
    Check(Functions<'a>, &'a str),
    /// By runs on all small arguments.
    Refute(Functions<'a>, Extent),
}

/// How the equation of the rule text in the file with this name is proved.
#[derive(Clone, Copy)]
pub enum Induction<'a> {
    /// By a search for a proof.
    Find(&'a str, Effort),
    /// By a replay of the proof in the log with this other name.
    Replay(&'a str, &'a str),
}

/// What a command line asks for.
#[derive(Clone, Copy)]
pub enum Command<'a> {
    /// To compare two functions.
    Compare(Comparison<'a>),
    /// To prove the equation of a rule text.
    Rules(Induction<'a>),
    /// To write the rules of two functions as a rule text.
    Translate(Functions<'a>),
    /// To search for proofs of this many examples, 1 to 100.
    Demo(u32),
}

/// The value of a word or an option.
#[tactic(auto, using(crate::proofs::Rows::first_value_is))]
fn given<'a>(matches: &ArgMatches<'a>, id: &str) -> Option<&'a str>
    ensures { bytes_of result ≡ first_of id.now (rows_of (found_of matches.now)) }
{
    matches.get_str(id)
}

/// Whether 32-bit integers are asked for.
fn is_narrow(matches: &ArgMatches<'_>) -> bool
    ensures { result ≡ spec.is_narrow (rows_of (found_of matches.now)) }
{
    match given(matches, "int32") {
        Some(text) => text == "true",
        None => false,
    }
}

/// The kind of integers.
fn integers_of(matches: &ArgMatches<'_>) -> Integers
    ensures { result ≡ spec.integers_of (rows_of (found_of matches.now)) }
{
    if is_narrow(matches) {
        Integers::Bits32
    } else {
        Integers::Unbounded
    }
}

/// The longest precondition, in bytes.
const LONGEST_PRECONDITION: usize = 1_048_576;

/// Two functions of a file, where all is given.
fn named<'a>(
    integers: Integers,
    file: Option<&'a str>,
    first: Option<&'a str>,
    second: Option<&'a str>,
    precondition: Option<&'a str>,
) -> Option<Functions<'a>>
    ensures { option_map functions_view result ≡
        spec.named integers (bytes_of file.entry) (bytes_of first.entry) (bytes_of second.entry)
        (bytes_of precondition.entry) }
{
    let file = file?;
    let first = first?;
    let second = second?;
    if let Some(text) = precondition {
        if text.len() > LONGEST_PRECONDITION {
            return None;
        }
    }
    Some(Functions {
        integers,
        file,
        first,
        second,
        precondition,
    })
}

/// The functions that are compared.
fn functions_of<'a>(matches: &ArgMatches<'a>) -> Option<Functions<'a>>
    ensures { option_map functions_view result ≡
        spec.functions_of (rows_of (found_of matches.now)) }
{
    let file = given(matches, "file");
    let first = given(matches, "first");
    let second = given(matches, "second");
    let precondition = given(matches, "pre");
    named(integers_of(matches), file, first, second, precondition)
}

/// A number between two, or the usual one where nothing is given.
fn number_or(least: u32, most: u32, usual: u32, text: Option<&str>) -> Option<u32>
    ensures { result ≡ spec.number_or least most usual (bytes_of text.entry) }
{
    match text {
        None => Some(usual),
        Some(text) => number_of(least, most, text),
    }
}

/// How far the search is to go.
fn effort_of(matches: &ArgMatches<'_>) -> Option<Effort>
    ensures { result ≡ spec.effort_of (rows_of (found_of matches.now)) }
{
    let depth = number_or(0, 12, 5, given(matches, "depth"))?;
    let budget = number_or(1, 1_000_000, 100_000, given(matches, "budget"))?;
    Some(Effort { depth, budget })
}

/// On which arguments the functions are to be run, and how long.
fn extent_of(matches: &ArgMatches<'_>) -> Option<Extent>
    ensures { result ≡ spec.extent_of (rows_of (found_of matches.now)) }
{
    let side = number_or(0, 1_000, 10, given(matches, "box"))?;
    let rounds = number_or(1, 100_000, 10_000, given(matches, "rounds"))?;
    Some(Extent { side, rounds })
}

/// A proof is searched for, where no log is given.
fn prove_of<'a>(
    functions: Option<Functions<'a>>,
    effort: Option<Effort>,
    log: Option<&'a str>,
) -> Option<Command<'a>>
    ensures { option_map command_view result ≡
        spec.prove_of (option_map functions_view functions.entry) effort (bytes_of log.entry) }
{
    let functions = functions?;
    let effort = effort?;
    match log {
        Some(_) => None,
        None => Some(Command::Compare(Comparison::Prove(functions, effort))),
    }
}

/// A log is replayed, where it is given, and neither depth nor budget.
fn check_of<'a>(
    functions: Option<Functions<'a>>,
    log: Option<&'a str>,
    depth: Option<&'a str>,
    budget: Option<&'a str>,
) -> Option<Command<'a>>
    ensures { option_map command_view result ≡
        spec.check_of (option_map functions_view functions.entry) (bytes_of log.entry)
        (bytes_of depth.entry) (bytes_of budget.entry) }
{
    let functions = functions?;
    let log = log?;
    match (depth, budget) {
        (None, None) => Some(Command::Compare(Comparison::Check(functions, log))),
        _ => None,
    }
}

/// Both functions are run, where no log is given.
fn refute_of<'a>(
    functions: Option<Functions<'a>>,
    extent: Option<Extent>,
    log: Option<&'a str>,
) -> Option<Command<'a>>
    ensures { option_map command_view result ≡
        spec.refute_of (option_map functions_view functions.entry) extent (bytes_of log.entry) }
{
    let functions = functions?;
    let extent = extent?;
    match log {
        Some(_) => None,
        None => Some(Command::Compare(Comparison::Refute(functions, extent))),
    }
}

/// Whether nothing is given under this.
fn is_absent(matches: &ArgMatches<'_>, id: &str) -> bool
    ensures { result ≡ spec.is_absent id.now (rows_of (found_of matches.now)) }
{
    given(matches, id).is_none()
}

/// Whether no word is after the number of examples.
fn has_no_more_words(matches: &ArgMatches<'_>) -> bool
    ensures { result ≡ spec.has_no_more_words (rows_of (found_of matches.now)) }
{
    is_absent(matches, "first") && is_absent(matches, "second") && is_absent(matches, "log")
}

/// Whether neither a depth nor a budget is given.
fn has_no_effort(matches: &ArgMatches<'_>) -> bool
    ensures { result ≡ spec.has_no_effort (rows_of (found_of matches.now)) }
{
    is_absent(matches, "depth") && is_absent(matches, "budget")
}

/// Whether the integers aren't those of 32 bits, and neither a depth nor a budget is given.
fn has_extent_alone(matches: &ArgMatches<'_>) -> bool
    ensures { result ≡ spec.has_extent_alone (rows_of (found_of matches.now)) }
{
    !is_narrow(matches) && has_no_effort(matches)
}

/// Whether neither a box nor rounds are given.
fn has_no_extent(matches: &ArgMatches<'_>) -> bool
    ensures { result ≡ spec.has_no_extent (rows_of (found_of matches.now)) }
{
    is_absent(matches, "box") && is_absent(matches, "rounds")
}

/// Whether no number is given.
fn has_no_numbers(matches: &ArgMatches<'_>) -> bool
    ensures { result ≡ spec.has_no_numbers (rows_of (found_of matches.now)) }
{
    has_no_effort(matches) && has_no_extent(matches)
}

/// Whether neither a number nor 32-bit integers are given.
fn has_functions_alone(matches: &ArgMatches<'_>) -> bool
    ensures { result ≡ spec.has_functions_alone (rows_of (found_of matches.now)) }
{
    !is_narrow(matches) && has_no_numbers(matches)
}

/// Whether no option is given.
fn has_no_options(matches: &ArgMatches<'_>) -> bool
    ensures { result ≡ spec.has_no_options (rows_of (found_of matches.now)) }
{
    is_absent(matches, "pre") && has_functions_alone(matches)
}

/// Whether there is no second function, no further log, no precondition, no 32-bit integers, and
/// neither a box nor rounds.
fn has_rules_alone(matches: &ArgMatches<'_>) -> bool
    ensures { result ≡ spec.has_rules_alone (rows_of (found_of matches.now)) }
{
    is_absent(matches, "second")
        && is_absent(matches, "log")
        && is_absent(matches, "pre")
        && !is_narrow(matches)
        && has_no_extent(matches)
}

/// The equation of a rule text is proved: by a search, or by a replay where a log is given, and
/// neither depth nor budget.
fn rules_of<'a>(
    file: Option<&'a str>,
    log: Option<&'a str>,
    alone: bool,
    effort: Option<Effort>,
) -> Option<Command<'a>>
    ensures { option_map command_view result ≡
        spec.rules_of (bytes_of file.entry) (bytes_of log.entry) alone effort }
{
    let file = file?;
    match log {
        None => Some(Command::Rules(Induction::Find(file, effort?))),
        Some(log) => {
            if alone {
                Some(Command::Rules(Induction::Replay(file, log)))
            } else {
                None
            }
        }
    }
}

/// The rules of two functions are written, where no log is given.
fn translate_of<'a>(functions: Option<Functions<'a>>, log: Option<&'a str>) -> Option<Command<'a>>
    ensures { option_map command_view result ≡
        spec.translate_of (option_map functions_view functions.entry) (bytes_of log.entry) }
{
    let functions = functions?;
    match log {
        Some(_) => None,
        None => Some(Command::Translate(functions)),
    }
}

/// Examples are shown, where their number is given.
fn demo_of<'a>(count: Option<&str>) -> Option<Command<'a>>
    ensures { option_map command_view result ≡ spec.demo_of (bytes_of count.entry) }
{
    Some(Command::Demo(number_of(1, 100, count?)?))
}

/// What is asked for in a mode that compares nothing.
fn after_comparisons<'a>(mode: &str, matches: &ArgMatches<'a>) -> Option<Command<'a>>
    ensures { option_map command_view result ≡
        spec.after_comparisons mode.now (rows_of (found_of matches.now)) }
{
    if mode == "rules" && has_rules_alone(matches) {
        let file = given(matches, "file");
        let log = given(matches, "first");
        rules_of(file, log, has_no_effort(matches), effort_of(matches))
    } else if mode == "translate" && has_functions_alone(matches) {
        translate_of(functions_of(matches), given(matches, "log"))
    } else if mode == "demo" && has_no_more_words(matches) && has_no_options(matches) {
        demo_of(given(matches, "file"))
    } else {
        None
    }
}

/// What is asked for in a mode.
fn in_mode<'a>(mode: &str, matches: &ArgMatches<'a>) -> Option<Command<'a>>
    ensures { option_map command_view result ≡
        spec.in_mode (Some mode.now) (rows_of (found_of matches.now)) }
{
    if mode == "prove" && has_no_extent(matches) {
        let log = given(matches, "log");
        prove_of(functions_of(matches), effort_of(matches), log)
    } else if mode == "check" && has_no_extent(matches) {
        let depth = given(matches, "depth");
        let budget = given(matches, "budget");
        check_of(functions_of(matches), given(matches, "log"), depth, budget)
    } else if mode == "refute" && has_extent_alone(matches) {
        let log = given(matches, "log");
        refute_of(functions_of(matches), extent_of(matches), log)
    } else {
        after_comparisons(mode, matches)
    }
}

/// What the matches ask for.
fn command_in<'a>(matches: &ArgMatches<'a>) -> Option<Command<'a>>
    ensures { option_map command_view result ≡ spec.command_in (rows_of (found_of matches.now)) }
{
    match given(matches, "mode") {
        None => None,
        Some(mode) => in_mode(mode, matches),
    }
}

/// What the words of a command line ask for, the program's name first; nothing where `clap` doesn't
/// take the words, or one is missing, too many or out of range. It fails only where memory runs
/// out.
pub fn command_of<'a>(alloc: Global, words: &'a [String]) -> Result<Option<Command<'a>>, NoMemory>
    ensures command { IfOk result (λ c. option_map command_view c ≡
        spec.command_of (map string_bytes words.now)) }
{
    let app = command_app(alloc)?;
    match app.try_get_matches_from(words) {
        Ok(matches) => Ok(command_in(&matches)),
        Err(error) => match error.kind() {
            ErrorKind::OutOfMemory => Err(NoMemory),
            _ => Ok(None),
        },
    }
}
