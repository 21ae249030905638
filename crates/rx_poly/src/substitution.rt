//! Polynomials substituted for variables.
ghost use Rattle.std.specs.Prelude.{◌≡◌, [], ◌∷◌, true, false, map, slice_get, ◌*ℤ◌, ℕ, ℤ, IfOk, IfSome, MatchOption};
ghost use Rattle.std.specs.List.{prefix_len};
ghost use Rattle.std.specs.Option.{option_copied};
ghost use Rattle.rx_plain.specs.Formed.{Forms, kept, pure};
ghost use Rattle.rx_poly.specs.Substitution.{divided_formed, plus_formed, times_formed, subst_atom, subst_mono, subst_body, numbered, replaced, times_all, updated_assignment};
ghost use Rattle.rx_poly.specs.Constants.{variable};
ghost use Rattle.rx_poly.specs.Limits.{is_within, scaled_by};
ghost use Rattle.rx_poly.specs.Normal.{is_poly};
ghost use Rattle.rx_poly.specs.Products.{product_formed};
ghost use Rattle.rx_poly.specs.Replacements.{replacements, variable_stays, atom_stays, mono_stays, body_stays};
ghost use Rattle.rx_poly.specs.Terms.{is_zero};
ghost use Rattle.rx_poly.specs.Value.{value};
ghost use Rattle.rx_poly.specs.declared.body.Atom.TheVariants.{Var};
ghost use Rattle.rx_poly.specs.declared.body.Mono.{Mono};

use crate::body::{Atom, Body, Mono};
use crate::division::{Operator, divided};
use crate::poly::{
    Poly, of_multiple, of_number, of_variable, plus, plus_terms, times_number, zero,
};
use crate::poly_end::PolyEnd;
use crate::size::fit_together;
use std::alloc::{AllocError, Global};

/// What variables are replaced by.
#[derive(Clone, Copy)]
enum Replacements<'a> {
    /// Each by the first polynomial that is listed for its number.
    Listed(&'a [(u32, Poly)]),
    /// The first variables by these polynomials, in order.
    InOrder(&'a [Poly]),
}

/// What is listed for the variable, borrowed; None where the variable stays.
fn listed_for(at: u32, with: &[(u32, Poly)]) -> Option<&Poly>
    ensures { MatchOption result (replaced with.now at ≡ variable at)
        (λ p. p.now ≡ replaced with.now at) }
{
    for pair in with {
        if pair.0 == at {
            return Some(&pair.1);
        }
    }
    None
}

/// The argument with that number, if there is one.
fn argument_at(args: &[Poly], at: u32) -> Option<&Poly>
    ensures { option_copied result ≡ slice_get args.now at }
{
    args.get(at as usize)
}

/// The argument with the variable's number, borrowed; None where the variable stays.
fn argument_for(at: u32, args: &[Poly]) -> Option<&Poly>
    ensures { MatchOption result (replaced (numbered args.now) at ≡ variable at)
        (λ p. p.now ≡ replaced (numbered args.now) at) }
{
    argument_at(args, at)
}

/// What is in place of the variable, borrowed; None where it stays.
fn replacement<'a>(at: u32, with: Replacements<'a>) -> Option<&'a Poly>
    ensures { MatchOption result (replaced (replacements with.entry) at ≡ variable at)
        (λ p. p.now ≡ replaced (replacements with.entry) at) }
{
    match with {
        Replacements::Listed(pairs) => listed_for(at, pairs),
        Replacements::InOrder(args) => argument_for(at, args),
    }
}

/// What is in place of the variable.
fn in_place_of(alloc: Global, at: u32, with: Replacements) -> Result<Poly, AllocError>
    ensures { IfOk result (λ p. p ≡ replaced (replacements with.entry) at) }
{
    match replacement(at, with) {
        Some(poly) => poly.try_clone(alloc),
        None => of_variable(alloc, at),
    }
}

/// Whether nothing is in place of the variable, or the variable itself is.
fn variable_stays(at: u32, with: Replacements) -> bool
    ensures { result ≡ variable_stays (replacements with.entry) at }
{
    match replacement(at, with) {
        Some(poly) => poly.as_variable() == Some(at),
        None => true,
    }
}

/// Whether the atom's variables stay.
#[cycle(stays)]
#[tactic(auto, using(crate::proofs::Staying::stays_Var, crate::proofs::Staying::stays_Div, crate::proofs::Staying::stays_Mod))]
fn atom_stays(atom: &Atom, with: Replacements) -> bool
    ensures { result ≡ atom_stays (replacements with.entry) atom.now }
{
    match atom {
        Atom::Var(number) => variable_stays(*number, with),
        Atom::Div(num, den) => body_stays(num, with) && body_stays(den, with),
        Atom::Mod(num, den) => body_stays(num, with) && body_stays(den, with),
    }
}

/// Whether the monomial's variables stay.
#[cycle(stays)]
fn mono_stays(mono: &Mono, with: Replacements) -> bool
    ensures { result ≡ mono_stays (replacements with.entry) mono.now }
{
    for atom in mono.atoms.as_slice() {
        if !atom_stays(atom, with) {
            return false;
        }
    }
    true
}

/// Whether the sum's variables stay.
#[cycle(stays)]
fn body_stays(body: &Body, with: Replacements) -> bool
    ensures { result ≡ body_stays (replacements with.entry) body.now }
{
    for term in body.terms.as_slice() {
        if !mono_stays(&term.0, with) {
            return false;
        }
    }
    true
}

/// The atom with its variables replaced.
#[cycle(substituted)]
fn atom_with(alloc: Global, atom: &Atom, with: Replacements) -> Result<Poly, PolyEnd>
    ensures forms { Forms PolyEnd.Large result (subst_atom (replacements with.entry) atom.now) }
{
    match atom {
        Atom::Var(number) => Ok(in_place_of(alloc, *number, with)?),
        Atom::Div(num, den) => {
            let num = body_with(alloc, num, with)?;
            divided_with(alloc, num, den, Operator::Quotient, with)
        }
        Atom::Mod(num, den) => {
            let num = body_with(alloc, num, with)?;
            divided_with(alloc, num, den, Operator::Remainder, with)
        }
    }
}

/// The polynomial divided by the sum with its variables replaced.
#[cycle(substituted)]
fn divided_with(
    alloc: Global,
    num: Poly,
    den: &Body,
    operator: Operator,
    with: Replacements,
) -> Result<Poly, PolyEnd>
    ensures forms { Forms PolyEnd.Large result
        (divided_formed operator num (subst_body (replacements with.entry) den.now)) }
{
    let den = body_with(alloc, den, with)?;
    divided(alloc, &num, &den, operator)
}

/// The product of the two; the second is moved where the first is 1.
fn times(alloc: Global, product: Poly, factor: Poly) -> Result<Poly, PolyEnd>
    ensures forms { Forms PolyEnd.Large result (product_formed product factor) }
{
    if let Some(number) = product.is_constant() {
        if number == 1 {
            let _ = factor.as_normal();
            return Ok(factor);
        }
    }
    product.mul(alloc, &factor)
}

/// The product, times the atom with its variables replaced.
#[cycle(substituted)]
fn times_atom(
    alloc: Global,
    product: Poly,
    atom: &Atom,
    with: Replacements,
) -> Result<Poly, PolyEnd>
    ensures forms { Forms PolyEnd.Large result
        (times_formed product (subst_atom (replacements with.entry) atom.now)) }
{
    let factor = atom_with(alloc, atom, with)?;
    times(alloc, product, factor)
}

/// The product, times each of the atoms with its variables replaced, in order.
#[cycle(substituted)]
fn times_atoms(
    alloc: Global,
    start: Poly,
    atoms: &[Atom],
    with: Replacements,
) -> Result<Poly, PolyEnd>
    ensures forms { Forms PolyEnd.Large result
        (times_all (pure start) (map (subst_atom (replacements with.entry)) atoms.now)) }
{
    let mut product = start;
    for atom in atoms {
        product = times_atom(alloc, product, atom, with)?;
    }
    Ok(product)
}

/// The number times the monomial with its variables replaced, factor by factor.
#[cycle(substituted)]
fn product_with(alloc: Global, mono: &Mono, by: &i128, with: Replacements) -> Result<Poly, PolyEnd>
    ensures forms { Forms PolyEnd.Large result
        (subst_mono (replacements with.entry) mono.now by.now) }
{
    let atoms = mono.atoms.as_slice();
    if *by == 1 {
        if let Some((first, others)) = atoms.split_first() {
            let start = atom_with(alloc, first, with)?;
            let _ = start.as_normal();
            return times_atoms(alloc, start, others, with);
        }
    }
    let start = of_number(alloc, by)?;
    times_atoms(alloc, start, atoms, with)
}

/// The variable, where the atoms are one variable.
fn only_variable(atoms: &[Atom]) -> Option<u32>
    ensures { IfSome result (λ at. atoms.now ≡ Var at ∷ []) }
{
    let (first, others) = atoms.split_first()?;
    if !others.is_empty() {
        return None;
    }
    match first {
        Atom::Var(at) => Some(*at),
        Atom::Div(_, _) => None,
        Atom::Mod(_, _) => None,
    }
}

/// A number other than 0 times what is in place of the variable.
fn times_replaced(alloc: Global, at: u32, by: &i128, with: Replacements) -> Result<Poly, PolyEnd>
    requires { is_zero by.now ≡ false }
    ensures forms { Forms PolyEnd.Large result
        (kept is_within (scaled_by by.now (replaced (replacements with.entry) at))) }
    ensures normal { is_poly (replaced (replacements with.entry) at) ≡ true }
{
    match replacement(at, with) {
        Some(poly) => times_number(alloc, poly.as_normal(), by),
        None => {
            let multiple = of_multiple(alloc, at, by)?;
            let _ = multiple.as_normal();
            Ok(multiple)
        }
    }
}

/// The number times the monomial with its variables replaced. A multiple of a variable is made in
/// one step.
#[cycle(substituted)]
fn mono_with(alloc: Global, mono: &Mono, by: &i128, with: Replacements) -> Result<Poly, PolyEnd>
    ensures forms { Forms PolyEnd.Large result
        (subst_mono (replacements with.entry) mono.now by.now) }
{
    if *by != 0 && *by != 1 {
        if let Some(at) = only_variable(mono.atoms.as_slice()) {
            return times_replaced(alloc, at, by, with);
        }
    }
    product_with(alloc, mono, by, with)
}

/// The sum, plus the number times the monomial with its variables replaced.
#[cycle(substituted)]
fn plus_mono(
    alloc: Global,
    sum: Poly,
    mono: &Mono,
    by: &i128,
    with: Replacements,
) -> Result<Poly, PolyEnd>
    ensures forms { Forms PolyEnd.Large result
        (plus_formed sum (subst_mono (replacements with.entry) mono.now by.now)) }
{
    let product = mono_with(alloc, mono, by, with)?;
    plus(alloc, sum, product)
}

/// The sum with its variables replaced.
#[cycle(substituted)]
fn body_with(alloc: Global, body: &Body, with: Replacements) -> Result<Poly, PolyEnd>
    ensures forms { Forms PolyEnd.Large result (subst_body (replacements with.entry) body.now) }
{
    let start = zero(alloc)?;
    let mut sum = start;
    for term in body.terms.as_slice() {
        sum = plus_mono(alloc, sum, &term.0, &term.1, with)?;
    }
    Ok(sum)
}

/// How many terms come before the first one with a variable that doesn't stay.
fn count_staying(terms: &[(Mono, i128)], with: Replacements) -> usize
    ensures { result ≡
        prefix_len (λ (t : Mono × ℤ). mono_stays (replacements with.entry) t.0) terms.now }
{
    let mut count = 0;
    for term in terms {
        if !mono_stays(&term.0, with) {
            return count;
        }
        count += 1;
    }
    count
}

/// The polynomial with its variables replaced. Terms that stay are added together, as many as
/// follow one another, unless the sum may then be larger than the limit.
fn sum_with(alloc: Global, poly: &Poly, with: Replacements) -> Result<Poly, PolyEnd>
    ensures forms { Forms PolyEnd.Large result (subst_body (replacements with.entry) poly.now) }
{
    let start = zero(alloc)?;
    let mut sum = start;
    let mut rest = poly.body().terms.as_slice();
    while let Some((term, after)) = rest.split_first() {
        let (run, others) = rest.split_at(count_staying(rest, with));
        if !run.is_empty() && fit_together(sum.body(), run) {
            sum = plus_terms(alloc, &sum, run)?;
            rest = others;
        } else {
            sum = plus_mono(alloc, sum, &term.0, &term.1, with)?;
            rest = after;
        }
    }
    Ok(sum)
}

/// What is substituted for the polynomial, where it is one variable that doesn't stay.
fn alone_with<'a>(poly: &Poly, with: Replacements<'a>) -> Option<&'a Poly>
    ensures { IfSome result (λ p. subst_body (replacements with.entry) poly.now ≡ pure p.now) }
{
    let found = replacement(poly.as_variable()?, with)?;
    Some(found.as_normal())
}

/// The polynomial with its variables replaced: what is in place of it where it is one variable, a
/// copy where all variables stay.
fn poly_with(alloc: Global, poly: &Poly, with: Replacements) -> Result<Poly, PolyEnd>
    ensures forms { Forms PolyEnd.Large result (subst_body (replacements with.entry) poly.now) }
{
    if let Some(found) = alone_with(poly, with) {
        return Ok(found.try_clone(alloc)?);
    }
    if body_stays(poly.body(), with) {
        return Ok(poly.try_clone(alloc)?);
    }
    sum_with(alloc, poly, with)
}

impl Poly {
    /// The polynomial with those polynomials in place of their variables; the others stay. Large
    /// exactly where a polynomial on the way passes the limits: the monomials are taken in order,
    /// in each the coefficient is multiplied with the replaced atoms from left to right, and the
    /// results are summed.
    pub fn subst(&self, alloc: Global, with: &[(u32, Poly)]) -> Result<Poly, PolyEnd>
        ensures forms { Forms PolyEnd.Large result (subst_body with.now self.now) }
        ensures value { IfOk result (λ p. (a : ℕ → ℤ) → value a p ≡
            value (updated_assignment a with.now) self.now) }
    {
        poly_with(alloc, self, Replacements::Listed(with))
    }

    /// The polynomial with the first of those polynomials in place of v0, the second in place of
    /// v1, and so on; the other variables stay. Large exactly where `subst` is, for that list.
    pub fn at_args(&self, alloc: Global, args: &[Poly]) -> Result<Poly, PolyEnd>
        ensures forms { Forms PolyEnd.Large result (subst_body (numbered args.now) self.now) }
        ensures value { IfOk result (λ p. (a : ℕ → ℤ) → value a p ≡
            value (updated_assignment a (numbered args.now)) self.now) }
    {
        poly_with(alloc, self, Replacements::InOrder(args))
    }
}
