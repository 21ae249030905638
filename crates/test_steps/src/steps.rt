//! Steps as in a log, as `simplify l 3`, but without certificates.
//!
//! Variables that no log has are written as others in a row, on the right side of a postulated
//! goal, and where a substitution replaces them: `v999998` is the variable 2^31.
use rx_cert::Cert;
use rx_inference::{Delete, Side, Step};
use rx_plain::Items;
use rx_poly::Poly;
use rx_term::{Equation, Term};
use rx_term_words::read_equation;
use rx_text::skip_word;
use rx_words::read_subst;
use std::alloc::Global;
use test_lines::{count, equation, has_high, high_variables, meant, row, substitution};

// The term that is meant by the one that is written.
fn high_term(alloc: Global, written: &Term) -> Option<Term> {
    let with = high_variables(alloc)?;
    written.subst(alloc, with.as_slice()).ok()
}

// A list of variables, each by its number, with what is in its place.
fn high_substitution(alloc: Global, text: &str) -> Option<Items<(u32, Poly)>> {
    let mut made = Items::new(alloc);
    for (written, poly) in substitution(alloc, text)?.into_vec() {
        made.push((meant(written), poly)).ok()?;
    }
    Some(made)
}

fn side(word: &str) -> Option<Side> {
    match word {
        "l" => Some(Side::Left),
        "r" => Some(Side::Right),
        _ => None,
    }
}

fn simplify(alloc: Global, words: &str) -> Option<Step> {
    let (on, rule) = words.split_once(' ')?;
    Some(Step::Simplify {
        side: side(on)?,
        rule: count(rule)?,
        certs: Items::new(alloc),
    })
}

// The use of the hypothesis that is named next, at a place, with a substitution.
fn hypothesis_at(alloc: Global, side: Side, place: u32, words: &str) -> Option<Step> {
    let (hyp, subst) = words.split_once(' ')?;
    let hyp = count(hyp)?;
    Some(Step::Hyp {
        side,
        place,
        hyp,
        subst: high_substitution(alloc, subst)?,
        certs: Items::new(alloc),
    })
}

fn hypothesis(alloc: Global, words: &str) -> Option<Step> {
    let (on, rest) = words.split_once(' ')?;
    let (place, rest) = rest.split_once(' ')?;
    hypothesis_at(alloc, side(on)?, count(place)?, rest)
}

fn expand(words: &str) -> Option<Step> {
    let (on, keep) = words.split_once(' ')?;
    Some(Step::Expand {
        side: side(on)?,
        keep: keep == "keep",
    })
}

// The substitution that the rest of the text is, after a space.
fn last_substitution(alloc: Global, text: &[u8], at: usize) -> Option<Items<(u32, Poly)>> {
    let first = skip_word(text, at, b" ")?;
    let (subst, end) = read_subst(alloc, text, first).ok()??;
    if end == text.len() { Some(subst) } else { None }
}

fn generalise(alloc: Global, words: &str) -> Option<Step> {
    let (goal, end) = read_equation(alloc, words.as_bytes(), 0).ok()??;
    let subst = last_substitution(alloc, words.as_bytes(), end)?;
    let Equation { left, right, rows } = goal;
    Some(Step::Generalise {
        left,
        right,
        rows,
        subst,
        certs: Items::new(alloc),
    })
}

// A postulated goal, on whose right side a variable may be written as another.
fn postulated(alloc: Global, goal: Equation, high: bool) -> Option<Step> {
    let Equation { left, right, rows } = goal;
    let right = if high {
        high_term(alloc, &right)?
    } else {
        right
    };
    Some(Step::Postulate {
        left,
        right,
        rows,
        certs: Items::new(alloc),
    })
}

fn postulate(alloc: Global, words: &str) -> Option<Step> {
    let goal = equation(alloc, words)?;
    postulated(alloc, goal, has_high(words))
}

fn split(alloc: Global, words: &str) -> Option<Step> {
    let row = row(alloc, words)?;
    Some(Step::Split { row })
}

fn results(alloc: Global, words: &str) -> Option<Step> {
    let (left, right) = words.split_once(' ')?;
    Some(Step::Results {
        left: count(left)?,
        right: count(right)?,
        certs: Items::new(alloc),
    })
}

// A step on both sides, which is one word.
fn of_both(alloc: Global, word: &str) -> Option<Step> {
    match word {
        "absurd" => Some(Step::Delete(Delete::Absurd(Cert::Sum(Items::new(alloc))))),
        "equal" => Some(Step::Delete(Delete::Equal(Items::new(alloc)))),
        "eqdelete" => Some(Step::EqDelete),
        "decompose" => Some(Step::Decompose {
            certs: Items::new(alloc),
        }),
        _ => None,
    }
}

/// One step.
pub fn step(alloc: Global, text: &str) -> Option<Step> {
    let Some((name, words)) = text.split_once(' ') else {
        return of_both(alloc, text);
    };
    match name {
        "simplify" => simplify(alloc, words),
        "hyp" => hypothesis(alloc, words),
        "expand" => expand(words),
        "generalise" => generalise(alloc, words),
        "postulate" => postulate(alloc, words),
        "split" => split(alloc, words),
        "results" => results(alloc, words),
        _ => None,
    }
}
