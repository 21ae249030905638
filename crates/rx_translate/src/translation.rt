//! The rule set of two functions.
ghost use Rattle.std.specs.Prelude.{◌≡◌, ◌<◌, ◌↔◌, ℕ, true, IfOk, IfErr, length};
ghost use Rattle.c_ast.specs.Scoped.{is_scoped};
ghost use Rattle.rx_term.specs.Paired.{IsPaired};
ghost use Rattle.rx_code.specs.Translation.{IsBeyond, IsTranslation};
ghost use Rattle.rx_translate.specs.Arity.{AritiesDiffer};

use crate::parts::parts_of;
use crate::reached::reached_functions;
use crate::rules::entry_of;
use crate::translate_end::TranslateEnd;
use c_ast::{Integers, Resolved};
use rx_stmts::code_of;
use rx_term::{RuleSet, Sym};
use std::alloc::Global;

/// The rule set of two functions and of all that they reach by calls.
#[derive(Drop)]
pub struct Translation {
    /// Its symbols and rules.
    pub rules: RuleSet,
    /// The first symbol of the first function.
    pub first: Sym,
    /// The first symbol of the second function.
    pub second: Sym,
}

/// The rule set of two functions, whatever their numbers of parameters.
fn translated(
    alloc: Global,
    integers: Integers,
    program: &Resolved,
    first: u32,
    second: u32,
) -> Result<Translation, TranslateEnd>
    requires scoped { is_scoped program.now ≡ true }
    requires first_there { first < length program.now.functions }
    requires second_there { second < length program.now.functions }
    ensures translation { IfOk result (λ t.
        IsTranslation integers program.now first second t.rules t.first t.second) }
    ensures large { IfErr result (λ e.
        e ≡ TranslateEnd.Large → IsBeyond integers program.now first second) }
    ensures no_arity { (m n : ℕ) → ¬ (result ≡ Err (TranslateEnd.ArityDiffers m n)) }
{
    let places = reached_functions(alloc, program, first, second)?;
    let code = code_of(
        alloc,
        integers,
        program.functions.as_slice(),
        places.as_slice(),
    )?;
    let parts = parts_of(alloc, integers, &code)?;
    let Some(rules) = RuleSet::from_parts(parts) else {
        unreachable!()
    };
    let entries = code.entries.as_slice();
    Ok(Translation {
        rules,
        first: Sym(entry_of(entries, first)),
        second: Sym(entry_of(entries, second)),
    })
}

/// The rule set of two functions of a program and of all that they reach by calls, calls in
/// unreachable code included, by the kind of integers, with the first symbol of each. ArityDiffers
/// exactly where they haven't as many parameters; then nothing is compiled. Large exactly where a
/// polynomial passes the limits, a symbol would have more than 128 variables, or there would be
/// more than 4,096 symbols.
pub fn rules_of(
    alloc: Global,
    integers: Integers,
    program: &Resolved,
    first: u32,
    second: u32,
) -> Result<Translation, TranslateEnd>
    requires scoped { is_scoped program.now ≡ true }
    requires first_there { first < length program.now.functions }
    requires second_there { second < length program.now.functions }
    ensures translation { IfOk result (λ t.
        IsTranslation integers program.now first second t.rules t.first t.second) }
    ensures paired { IfOk result (λ t. IsPaired t.rules) }
    ensures large { IfErr result (λ e.
        e ≡ TranslateEnd.Large → IsBeyond integers program.now first second) }
    ensures arity { (m n : ℕ) → (result ≡ Err (TranslateEnd.ArityDiffers m n))
        ↔ AritiesDiffer program.now first second m n }
{
    let functions = program.functions.as_slice();
    let one = functions[first as usize].params.len();
    let other = functions[second as usize].params.len();
    if one != other {
        return Err(TranslateEnd::ArityDiffers {
            first: one,
            second: other,
        });
    }
    translated(alloc, integers, program, first, second)
}
