//! Rules run on integers, one step after the other.
use rx_plain::Items;
use rx_poly::Poly;
use rx_row::Row;
use rx_term::{Rule, RuleSet, Sym, Term};
use std::alloc::Global;
use test_lines::{Answer, numbers_of, parted};

/// How many steps a run takes at most.
const MOST_STEPS: u32 = 100_000;

// Whether the row holds, where its polynomial is a number.
fn holds(row: &Row) -> Option<bool> {
    let number = row.poly().is_constant()?;
    match row {
        Row::Ge(_) => Some(number >= 0),
        Row::Eq(_) => Some(number == 0),
        Row::Ne(_) => Some(number != 0),
    }
}

// Whether the row holds of these numbers.
fn holds_at(alloc: Global, row: &Row, args: &[Poly]) -> Option<bool> {
    let row = row.at_args(alloc, args).ok()?;
    holds(&row)
}

// Whether the rule applies to a redex with these numbers.
fn applies(alloc: Global, rule: &Rule, redex: &Term, args: &[Poly]) -> Option<bool> {
    if !redex.has_shape_of(&rule.left) {
        return Some(false);
    }
    for row in rule.rows.rows() {
        if !holds_at(alloc, row, args)? {
            return Some(false);
        }
    }
    Some(true)
}

// What is in place of a redex by the first rule that applies.
fn stepped(alloc: Global, set: &RuleSet, redex: &Term) -> Option<Term> {
    let args = redex.arguments(alloc).ok()?;
    for rule in set.rules() {
        if applies(alloc, rule, redex, args.as_slice())? {
            return rule.right.at_args(alloc, args.as_slice()).ok();
        }
    }
    None
}

// What the term comes to; none where it takes too many steps, or there is no memory.
fn run(alloc: Global, set: &RuleSet, start: Term) -> Option<Term> {
    let mut term = start;
    for _ in 0..MOST_STEPS {
        let next = match term.redex() {
            Some(redex) => stepped(alloc, set, redex)?,
            None => return Some(term),
        };
        term = term.replace_redex(next);
    }
    None
}

fn polynomials(alloc: Global, integers: &[i128]) -> Option<Items<Poly>> {
    let mut polys = Items::new(alloc);
    for integer in integers {
        let poly = Poly::constant(alloc, *integer).ok()?;
        polys.push(poly).ok()?;
    }
    Some(polys)
}

// The integers of a text as polynomials.
fn numbers(alloc: Global, text: &str) -> Option<Items<Poly>> {
    let integers = numbers_of(alloc, text)?;
    polynomials(alloc, &integers)
}

// The integer that the term is, or the error: `div0` by its code 1, `range` by another.
fn result_of(term: &Term) -> Answer {
    match term {
        Term::Return(value) => match value.is_constant() {
            Some(number) => Answer::Number(number),
            None => Answer::Word("open"),
        },
        Term::Fail(1) => Answer::Word("div0"),
        Term::Fail(_) => Answer::Word("range"),
        Term::Call(_, _) | Term::Frame(_, _, _) => Answer::Word("unfinished"),
    }
}

/// What the call of a symbol, by its number, comes to with the integers after it: an integer,
/// `div0`, or `range`.
pub fn ran(alloc: Global, set: &RuleSet, given: &str) -> Option<Answer> {
    let (symbol, integers) = parted(given, " ");
    let symbol = Sym(symbol.parse().ok()?);
    let end = run(alloc, set, Term::Call(symbol, numbers(alloc, integers)?))?;
    Some(result_of(&end))
}
