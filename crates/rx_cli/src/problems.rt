//! From a text to the problem that two of its functions pose.
ghost use Rattle.std.specs.Prelude.{◌≡◌, ◌<◌, ◌≤◌, ◌^◌, [], true, length, IfOk, IfSome};
ghost use Rattle.c_front.specs.Front.{count_in};
ghost use Rattle.c_front.specs.Stages.{IfGoes};
ghost use Rattle.rx_command.specs.Commands as words;
ghost use Rattle.rx_command.specs.Commands.{functions_view, is_short};
ghost use Rattle.rx_find_cover.specs.Coverable.{is_coverable};
ghost use Rattle.rx_proofs.specs.Goals.{IsFitting};
ghost use Rattle.rx_term.specs.Paired.{IsPaired};
ghost use Rattle.rx_cli.specs.Problems as spec;
ghost use Rattle.rx_cli.specs.Problems.{asked, rows_of};
ghost use Rattle.rx_cli.specs.Steps.{FormsSome, IsReportableNext, HasRowForm, IsReady, Translates};

use crate::Verdict;
use c_ast::{Expr, Integers};
use c_front::{Compared, Next, TwoFunctions, compared_functions};
use rx_command::Functions;
use rx_plain::NoMemory;
use rx_poly::PolyEnd;
use rx_row::Constraint;
use rx_term::{Equation, RuleSet};
use rx_translate::{TranslateEnd, Translation, bounds, goal_of, rows_of_pre, rules_of};
use std::alloc::Global;

/// A rule set and a goal: whether both sides of the goal are equal by the rules. It is of two
/// functions, or of a rule text.
#[derive(Drop)]
pub struct Problem {
    /// The rules of both functions, or those of the text.
    pub rules: RuleSet,
    /// Their entries on the same variables, under the rows of the precondition; or the equation.
    pub goal: Equation,
}

/// The bytes of a text.
fn bytes_of(text: Option<&str>) -> Option<&[u8]>
    ensures { words.bytes_of result ≡ words.bytes_of text.entry }
{
    match text {
        Some(text) => Some(text.as_bytes()),
        None => None,
    }
}

/// The front end.
pub fn front_stage(
    alloc: Global,
    source: &[u8],
    functions: &Functions<'_>,
) -> Result<Next<Verdict, Compared>, NoMemory>
    requires source { length source.now ≤ 1048576 }
    requires pre { is_short (functions_view functions.now).precondition ≡ true }
    ensures stage { IfOk result (spec.front_stage (functions_view functions.now) source.now) }
    ensures ready { IfOk result (λ next. IfGoes next IsReady) }
    ensures line { IfOk result IsReportableNext }
{
    let pre = bytes_of(functions.precondition);
    let integers = functions.integers;
    match compared_functions(
        alloc,
        integers,
        source,
        functions.first,
        functions.second,
        pre,
    )? {
        Next::Ends(refusal) => Ok(Next::Ends(Verdict::from(refusal))),
        Next::Goes(compared) => Ok(Next::Goes(compared)),
    }
}

/// The rows of a precondition; None exactly where one passes the limits.
fn rows(alloc: Global, pre: &Option<Expr>) -> Result<Option<Constraint>, NoMemory>
    requires { HasRowForm pre.now }
    ensures { IfOk result (λ rows. FormsSome rows (rows_of pre.now)) }
{
    match pre {
        None => Ok(Some(Constraint::from_rows(Vec::new(alloc)))),
        Some(pre) => match rows_of_pre(alloc, pre) {
            Ok(rows) => Ok(Some(rows)),
            Err(PolyEnd::Large) => Ok(None),
            Err(PolyEnd::NoMemory) => Err(NoMemory),
        },
    }
}

/// The rules of both functions; None exactly where they pass the limits.
fn translation(
    alloc: Global,
    integers: Integers,
    compared: &Compared,
) -> Result<Option<Translation>, NoMemory>
    requires { IsReady compared.now }
    ensures translates { IfOk result (Translates integers compared.now) }
    ensures paired { IfOk result (λ o. IfSome o (λ t. IsPaired t.rules)) }
{
    let two = &compared.two;
    match rules_of(alloc, integers, &two.program, two.first, two.second) {
        Ok(translation) => Ok(Some(translation)),
        Err(TranslateEnd::Large) => Ok(None),
        Err(TranslateEnd::NoMemory) => Err(NoMemory),
        Err(
            TranslateEnd::ArityDiffers {
                first: _,
                second: _,
            },
        ) => unreachable!(),
    }
}

/// How many parameters the first function has.
fn parameter_count(two: &TwoFunctions) -> u32
    requires { count_in two.now.program two.now.first < 2 ^ 32 }
    ensures { result ≡ count_in two.now.program two.now.first }
{
    match two.program.functions.as_slice().get(two.first as usize) {
        Some(function) => function.params.len() as u32,
        None => 0,
    }
}

/// The rules and the goal of two functions and a precondition.
fn problem_stage(
    alloc: Global,
    integers: Integers,
    compared: &Compared,
) -> Result<Next<Verdict, Problem>, NoMemory>
    requires { IsReady compared.now }
    ensures stage { IfOk result (spec.problem_stage integers compared.now) }
    ensures fits { IfOk result (λ next. IfGoes next (λ q. IsFitting q.rules q.goal)) }
    ensures coverable { IfOk result (λ next. IfGoes next (λ q. is_coverable q.rules ≡ true)) }
    ensures no_domains { IfOk result (λ next. IfGoes next (λ q. q.rules.domains ≡ [])) }
    ensures line { IfOk result IsReportableNext }
{
    let Some(translation) = translation(alloc, integers, compared)? else {
        return Ok(Next::Ends(Verdict::LargeTranslate));
    };
    let Some(rows) = rows(alloc, &compared.precondition)? else {
        return Ok(Next::Ends(Verdict::LargePre));
    };
    let Translation {
        rules,
        first,
        second,
    } = translation;
    let count = parameter_count(&compared.two);
    let bounded = bounds(alloc, integers, count, rows)?;
    let goal = goal_of(alloc, first, second, count, bounded)?;
    Ok(Next::Goes(Problem { rules, goal }))
}

/// The problem that two functions of a text pose, or why there is none.
pub fn ask(
    alloc: Global,
    source: &[u8],
    functions: &Functions<'_>,
) -> Result<Next<Verdict, Problem>, NoMemory>
    requires source { length source.now ≤ 1048576 }
    requires pre { is_short (functions_view functions.now).precondition ≡ true }
    ensures stage { IfOk result (asked (functions_view functions.now) source.now) }
    ensures fits { IfOk result (λ next. IfGoes next (λ q. IsFitting q.rules q.goal)) }
    ensures coverable { IfOk result (λ next. IfGoes next (λ q. is_coverable q.rules ≡ true)) }
    ensures no_domains { IfOk result (λ next. IfGoes next (λ q. q.rules.domains ≡ [])) }
    ensures line { IfOk result IsReportableNext }
{
    match front_stage(alloc, source, functions)? {
        Next::Ends(verdict) => Ok(Next::Ends(verdict)),
        Next::Goes(compared) => problem_stage(alloc, functions.integers, &compared),
    }
}
