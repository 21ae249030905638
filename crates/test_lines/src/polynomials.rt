//! Polynomials, and what is substituted for variables.
use crate::answers::Answer;
use crate::high::{has_high, high_variables};
use crate::lists::{list, whole, written};
use rx_plain::Items;
use rx_poly::Poly;
use rx_text::{push_poly, read_poly};
use rx_words::read_subst;
use std::alloc::Global;

fn high_poly(alloc: Global, written: &Poly) -> Option<Poly> {
    let with = high_variables(alloc)?;
    written.subst(alloc, with.as_slice()).ok()
}

/// One polynomial, in which some variables are written as others.
pub fn poly(alloc: Global, text: &str) -> Option<Poly> {
    let written = whole(alloc, text, |alloc, text, at| read_poly(alloc, text, at))?;
    if !has_high(text) {
        return Some(written);
    }
    high_poly(alloc, &written)
}

/// A list of polynomials.
pub fn polys(alloc: Global, text: &str) -> Option<Items<Poly>> {
    list(alloc, text, |alloc, text, at| read_poly(alloc, text, at))
}

/// A list of variables, each by its number, with what is in its place.
pub fn substitution(alloc: Global, text: &str) -> Option<Items<(u32, Poly)>> {
    whole(alloc, text, |alloc, text, at| read_subst(alloc, text, at))
}

/// The polynomial.
pub fn written_poly(alloc: Global, poly: &Poly) -> Option<Answer> {
    written(alloc, |out| push_poly(out, poly))
}
