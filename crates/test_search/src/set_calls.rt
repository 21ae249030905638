//! The rule set of two functions of a text.
ghost use Rattle.std.specs.Prelude.{◌≡◌, true, IfSome};
ghost use Rattle.c_ast.specs.Scoped.{is_scoped};

use crate::rule_printing::push_translation;
use c_ast::Integers;
use c_front::{Compared, Next, TwoFunctions, compared_functions};
use rx_term::RuleSet;
use rx_translate::{TranslateEnd, Translation, rules_of};
use std::alloc::Global;
use test_lines::{Answer, written};

/// The longest text of a program.
const LONGEST: usize = 1_048_576;

/// The two functions with these names, of a program that is in order.
fn two_functions(
    alloc: Global,
    integers: Integers,
    names: &str,
    source: &str,
) -> Option<TwoFunctions>
    ensures { IfSome result (λ two. is_scoped two.program ≡ true) }
{
    let (first, second) = names.split_once(' ')?;
    if source.len() > LONGEST {
        return None;
    }
    match compared_functions(alloc, integers, source.as_bytes(), first, second, None) {
        Ok(Next::Goes(Compared { two, .. })) => Some(two),
        _ => None,
    }
}

// The rules of two functions of a program that is in order; none where it has no such functions.
fn rules_of_two(
    alloc: Global,
    integers: Integers,
    two: &TwoFunctions,
) -> Option<Result<Translation, TranslateEnd>>
    requires { is_scoped two.now.program ≡ true }
{
    let count = two.program.functions.len();
    if two.first as usize >= count || two.second as usize >= count {
        return None;
    }
    Some(rules_of(alloc, integers, &two.program, two.first, two.second))
}

// The rules of the two functions with these names; none where the text has no such functions.
fn translation_of(
    alloc: Global,
    integers: Integers,
    names: &str,
    source: &str,
) -> Option<Result<Translation, TranslateEnd>> {
    let two = two_functions(alloc, integers, names, source)?;
    rules_of_two(alloc, integers, &two)
}

// The text of a translation, whose rule set is kept.
fn keep(alloc: Global, set: &mut Option<RuleSet>, translation: Translation) -> Option<Answer> {
    let text = written(alloc, |out| push_translation(&translation, out))?;
    let Translation { rules, .. } = translation;
    *set = Some(rules);
    Some(text)
}

/// The text of the rule set of the two functions of a text by this kind of integers, which is kept
/// in place of what was kept before.
pub fn take_rules(
    alloc: Global,
    integers: Integers,
    set: &mut Option<RuleSet>,
    given: &str,
) -> Option<Answer> {
    *set = None;
    let (names, source) = given.split_once(" | ")?;
    match translation_of(alloc, integers, names, source)? {
        Ok(translation) => keep(alloc, set, translation),
        Err(TranslateEnd::Large) => Some(Answer::Word("large")),
        Err(_) => None,
    }
}
