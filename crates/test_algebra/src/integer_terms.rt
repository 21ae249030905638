//! Integer terms, each operator before its operands: `+`, `*`, `/`, `%` of two terms, `neg` of one,
//! and as terms without operator variables and numbers, as in `* + v0 1 neg v1`. They are read from
//! the end.
use rx_plain::Boxed;
use rx_poly_laws::ITerm;
use std::alloc::Global;
use test_lines::{count, integer};

fn operand(alloc: Global, made: &mut Vec<ITerm>) -> Option<Boxed<ITerm>> {
    Boxed::new(alloc, made.pop()?).ok()
}

fn of_two(alloc: Global, made: &mut Vec<ITerm>, operator: &str) -> Option<ITerm> {
    let left = operand(alloc, made)?;
    let right = operand(alloc, made)?;
    match operator {
        "+" => Some(ITerm::Add(left, right)),
        "*" => Some(ITerm::Mul(left, right)),
        "/" => Some(ITerm::Div(left, right)),
        _ => Some(ITerm::Mod(left, right)),
    }
}

fn without_operator(word: &str) -> Option<ITerm> {
    if let Some(variable) = word.strip_prefix('v') {
        return Some(ITerm::Var(count(variable)?));
    }
    Some(ITerm::Lit(integer(word)?))
}

fn next(alloc: Global, made: &mut Vec<ITerm>, word: &str) -> Option<ITerm> {
    match word {
        "+" | "*" | "/" | "%" => of_two(alloc, made, word),
        "neg" => Some(ITerm::Neg(operand(alloc, made)?)),
        _ => without_operator(word),
    }
}

/// One integer term.
pub fn integer_term(alloc: Global, text: &str) -> Option<ITerm> {
    let mut made = Vec::new(alloc);
    for word in text.rsplit(' ') {
        let term = next(alloc, &mut made, word)?;
        made.push(term).ok()?;
    }
    made.pop()
}
