//! The goal with the constants in calls of loop heads named.
ghost use Rattle.std.specs.Prelude.{◌≡◌, false, length, slice_get};
ghost use Rattle.std.specs.List.{list_any};
ghost use Rattle.std.specs.Option.{is_some, option_map_or};
ghost use Rattle.rx_lemma.specs.Answers.{Finds};
ghost use Rattle.rx_lemma.specs.Calls.{call_of, constant};
ghost use Rattle.rx_lemma.specs.NamingCalls as calls;
ghost use Rattle.rx_lemma.specs.Naming as spec;
ghost use Rattle.rx_pairs.specs.Loops.{AreLoopsOf};
ghost use Rattle.rx_term.specs.declared.rule_set.SymInfo.{SymInfo};

use crate::calls::call_of;
use crate::constants::{Naming, name_places};
use crate::generalised::Generalised;
use crate::lemma::LemmaKind;
use rx_inference::Side;
use rx_pairs::Loops;
use rx_plain::Items;
use rx_poly::{Poly, PolyEnd};
use rx_term::{Equation, RuleSet, Sym, Term};
use std::alloc::Global;

/// Whether the symbol is the head of a loop.
fn is_head(rules: &RuleSet, symbol: Sym) -> bool
    ensures { result ≡
        option_map_or (λ (info : SymInfo). info.head) (slice_get rules.now.symbols symbol.0) false }
{
    match rules.symbols().get(symbol.0 as usize) {
        Some(info) => info.head,
        None => false,
    }
}

/// Whether the symbol is the head of a loop, and reaches itself.
fn is_loop_head(rules: &RuleSet, loops: &Loops, symbol: Sym) -> bool
    requires { AreLoopsOf rules.now loops.now }
    ensures { result ≡ calls.is_loop_head rules.now symbol.0 }
{
    loops.is_loop_point(symbol.0) && is_head(rules, symbol)
}

/// Whether one of the polynomials is a constant.
fn any_constant(polys: &[Poly]) -> bool
    ensures { result ≡ list_any (λ p. is_some (constant p)) polys.now }
{
    for poly in polys {
        if poly.is_constant().is_some() {
            return true;
        }
    }
    false
}

/// How many arguments the term's call has, where that is one of a loop head; else none.
fn count_named(rules: &RuleSet, loops: &Loops, term: &Term) -> usize
    requires { AreLoopsOf rules.now loops.now }
    ensures { result ≡ length (spec.head_arguments rules.now (call_of term.now)) }
{
    match call_of(term) {
        Some(call) if is_loop_head(rules, loops, call.symbol) => call.arguments.len(),
        _ => 0,
    }
}

/// Whether the term's call is one of a loop head and has a constant.
fn has_constant(rules: &RuleSet, loops: &Loops, term: &Term) -> bool
    requires { AreLoopsOf rules.now loops.now }
    ensures { result ≡ list_any (λ p. is_some (constant p))
        (spec.head_arguments rules.now (call_of term.now)) }
{
    match call_of(term) {
        Some(call) if is_loop_head(rules, loops, call.symbol) => any_constant(call.arguments),
        _ => false,
    }
}

/// The goal's constants named, the left side first.
fn name_both(
    alloc: Global,
    goal: &Equation,
    rules: &RuleSet,
    loops: &Loops,
) -> Result<Option<Naming>, PolyEnd>
    requires { AreLoopsOf rules.now loops.now }
    ensures { spec.Answers (spec.naming_both rules.now goal.now) result }
{
    let left = count_named(rules, loops, &goal.left);
    let right = count_named(rules, loops, &goal.right);
    let start = Naming {
        goal: goal.try_clone(alloc)?,
        subst: Items::new(alloc),
        fresh: goal.variable_bound(),
    };
    match name_places(alloc, start, Side::Left, left)? {
        Some(next) => name_places(alloc, next, Side::Right, right),
        None => Ok(None),
    }
}

/// The goal with the constants in its calls of loop heads named: each becomes a variable, which a
/// row gives that value. The left side's are taken first, each side's by their places. It is the
/// variable that is alone at the same place of the other side's call, as that is by then, where
/// that call is of the same symbol and one of the rows says that the variable has the value; else
/// it is a new one, above all variables of the goal so far, and that row is added, unless the goal
/// has it.
///
/// None where there is no such constant, and where a new variable would have a number of 1,000,000
/// or above. Large exactly where a row that says that a variable is a constant passes the limits.
#[tactic(auto, unfolding(crate::specs::Naming::naming_of))]
pub fn named(
    alloc: Global,
    goal: &Equation,
    rules: &RuleSet,
    loops: &Loops,
) -> Result<Option<Generalised>, PolyEnd>
    requires { AreLoopsOf rules.now loops.now }
    ensures { Finds (spec.naming_of rules.now goal.now) result }
{
    if !has_constant(rules, loops, &goal.left) && !has_constant(rules, loops, &goal.right) {
        return Ok(None);
    }
    match name_both(alloc, goal, rules, loops)? {
        Some(Naming { goal, subst, .. }) => Ok(Some(Generalised {
            kind: LemmaKind::NameConstants,
            goal,
            subst,
        })),
        None => Ok(None),
    }
}
