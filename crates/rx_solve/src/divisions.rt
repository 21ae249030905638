//! Ratios: dividends, each with the number that it is divided by; and what is known of their
//! quotients and remainders.
ghost use Rattle.std.specs.Prelude.{◌≡◌, [], ◌∷◌, ◌++◌, ◌+◌, true, false, length, option_map, take, IfOk, OnOk};
ghost use Rattle.std.specs.List.{fold, list_all, list_any};
ghost use Rattle.rx_cert.specs.declared.cert.Cert.TheVariants.{DivFacts};
ghost use Rattle.rx_cert.specs.DivisionFacts.{division_formed, facts_at_least_zero, facts_below_zero};
ghost use Rattle.rx_poly.specs.Reading.{constant_of};
ghost use Rattle.rx_poly.specs.Terms.{is_zero};
ghost use Rattle.rx_poly.specs.declared.body.Body.{out-Body};
ghost use Rattle.rx_row.specs.Parts.{poly_of};
ghost use Rattle.rx_solve.specs.Answers.{AnswersFor, BranchAnswers};
ghost use Rattle.rx_solve.specs.Bounds.{most_ratios};
ghost use Rattle.rx_solve.specs.Divisions.{AreRatiosOf, all_ratios, atom_ratios, has_polynomial, mono_ratios, own_ratio, pushed_ratio, ratios, rows_ratios, same_ratio};
ghost use Rattle.rx_solve.specs.Refuter.{dividing, dividing_by};

use crate::roundings::refute_by_rounding;
use crate::sides::both_boxed;
use rx_cert::{Cert, Division, divide, facts_at_least_zero, facts_below_zero};
use rx_fm::FmEnd;
use rx_plain::Boxed;
use rx_poly::{Atom, Body, Mono, Poly};
use rx_row::Row;
use std::alloc::{AllocError, Global};

/// The most ratios that are looked at.
const MOST_RATIOS: usize = 3;

/// A dividend, and the number that it is divided by.
#[derive(Drop)]
pub struct Ratio {
    /// The dividend.
    pub num: Body,
    /// The divisor, which is not 0.
    pub den: i128,
}

/// The number that the sum is, where it is one.
fn number_of(body: &Body) -> Option<i128>
    ensures { result ≡ constant_of (out-Body body.now).terms }
{
    let Some((term, more)) = body.terms.as_slice().split_first() else {
        return Some(0);
    };
    if more.is_empty() && term.0.atoms.is_empty() {
        Some(term.1)
    } else {
        None
    }
}

/// Adds the ratio of the two after the others, where the divisor is a number other than 0.
fn push_own(found: &mut Vec<Ratio>, alloc: Global, num: &Body, den: &Body) -> Result<(), AllocError>
    ensures { OnOk result (found.new.items ≡ found.old.items ++ own_ratio num.now den.now) }
{
    match number_of(den) {
        None | Some(0) => Ok(()),
        Some(den) => {
            let num = num.try_clone(alloc)?;
            found.push(Ratio { num, den })?;
            Ok(())
        }
    }
}

/// Adds the ratios in the atom after the others.
#[cycle(listing)]
#[tactic(auto, using(crate::proofs::RatioLaws::ratios_Var, crate::proofs::RatioLaws::ratios_Div, crate::proofs::RatioLaws::ratios_Mod))]
fn push_atom(found: &mut Vec<Ratio>, alloc: Global, atom: &Atom) -> Result<(), AllocError>
    ensures { OnOk result (found.new.items ≡ found.old.items ++ atom_ratios atom.now) }
{
    match atom {
        Atom::Var(_) => Ok(()),
        Atom::Div(num, den) => {
            push_own(found, alloc, num, den)?;
            push_body(found, alloc, num)?;
            push_body(found, alloc, den)
        }
        Atom::Mod(num, den) => {
            push_own(found, alloc, num, den)?;
            push_body(found, alloc, num)?;
            push_body(found, alloc, den)
        }
    }
}

/// Adds those in the monomial after the others.
#[cycle(listing)]
fn push_mono(found: &mut Vec<Ratio>, alloc: Global, mono: &Mono) -> Result<(), AllocError>
    ensures { OnOk result (found.new.items ≡ found.old.items ++ mono_ratios mono.now) }
{
    for atom in mono.atoms.as_slice() {
        push_atom(found, alloc, atom)?;
    }
    Ok(())
}

/// Adds those in the sum after the others.
#[cycle(listing)]
fn push_body(found: &mut Vec<Ratio>, alloc: Global, body: &Body) -> Result<(), AllocError>
    ensures { OnOk result (found.new.items ≡ found.old.items ++ ratios body.now) }
{
    for term in body.terms.as_slice() {
        push_mono(found, alloc, &term.0)?;
    }
    Ok(())
}

/// Adds those in the row after the others. Their dividends are polynomials.
fn push_row(found: &mut Vec<Ratio>, alloc: Global, row: &Row) -> Result<(), AllocError>
    ensures found { OnOk result (found.new.items ≡ found.old.items ++ ratios (poly_of row.now)) }
    ensures polynomials { list_all has_polynomial (ratios (poly_of row.now)) ≡ true }
{
    push_body(found, alloc, row.poly().body())
}

/// The ratios in the rows, each as often as it occurs.
fn rows_ratios(alloc: Global, rows: &[Row]) -> Result<Vec<Ratio>, AllocError>
    ensures found { IfOk result (λ v. v.items ≡ rows_ratios rows.now) }
    ensures polynomials { IfOk result (λ v. list_all has_polynomial v.items ≡ true) }
{
    let mut found = Vec::new(alloc);
    for row in rows {
        push_row(&mut found, alloc, row)?;
    }
    Ok(found)
}

/// Whether the two have one dividend and one divisor.
fn are_same(left: &Ratio, right: &Ratio) -> bool
    ensures { result ≡ same_ratio left.now right.now }
{
    left.num == right.num && left.den == right.den
}

/// Whether the ratio is one of these.
fn is_one_of(known: &[Ratio], ratio: &Ratio) -> bool
    ensures { result ≡ list_any (λ c. same_ratio c ratio.now) known.now }
{
    for other in known {
        if are_same(other, ratio) {
            return true;
        }
    }
    false
}

/// Adds the ratio after the others, unless it is one of them.
fn push_once(known: &mut Vec<Ratio>, ratio: Ratio) -> Result<(), AllocError>
    ensures { OnOk result (known.new.items ≡ pushed_ratio known.old.items ratio) }
{
    if is_one_of(known.as_slice(), &ratio) {
        return Ok(());
    }
    known.push(ratio)?;
    Ok(())
}

/// The ratios in order, each once.
fn each_once(alloc: Global, all: Vec<Ratio>) -> Result<Vec<Ratio>, AllocError>
    ensures { IfOk result (λ v. v.items ≡ fold pushed_ratio [] all.items) }
{
    let mut known = Vec::new(alloc);
    for ratio in all {
        push_once(&mut known, ratio)?;
    }
    Ok(known)
}

/// The first three different ratios in the rows.
fn first_ratios(alloc: Global, rows: &[Row]) -> Result<Vec<Ratio>, AllocError>
    ensures first { IfOk result (λ v. v.items ≡ take most_ratios (all_ratios rows.now)) }
    ensures own { IfOk result (λ v. AreRatiosOf v.items rows.now) }
{
    let all = rows_ratios(alloc, rows)?;
    let mut known = each_once(alloc, all)?;
    known.truncate(MOST_RATIOS);
    Ok(known)
}

/// The certificate that both signs of the dividend are looked at, where both refute the rows.
fn division_cert(num: Poly, den: &i128, both: Option<(Boxed<Cert>, Boxed<Cert>)>) -> Option<Cert>
    ensures { result ≡ option_map (λ both. DivFacts num den.now both.0 both.1) both }
{
    let (pos, neg) = both?;
    let den = *den;
    Some(Cert::DivFacts { num, den, pos, neg })
}

/// The dividend as a polynomial.
fn dividend(alloc: Global, ratio: &Ratio) -> Result<Poly, AllocError>
    requires { has_polynomial ratio.now ≡ true }
    ensures { IfOk result (λ p. p ≡ ratio.now.num) }
{
    match Poly::from_body(alloc, ratio.num.try_clone(alloc)?)? {
        Some(num) => Ok(num),
        None => unreachable!(),
    }
}

/// What is found of the rows with more after them. The rows are the same again after it.
#[cycle(dividing)]
fn divide_with(
    alloc: Global,
    rows: &mut Vec<Row>,
    mut more: Vec<Row>,
    ratios: &[Ratio],
) -> Result<Option<Cert>, FmEnd>
    requires { AreRatiosOf ratios.now rows.old.items }
    ensures answer { AnswersFor (dividing_by ratios.now) (length ratios.now + 65)
        (rows.old.items ++ more.items) result }
    ensures kept { OnOk result (rows.new.items ≡ rows.old.items) }
{
    let count = rows.len();
    rows.append(&mut more)?;
    let found = divide_in_order(alloc, rows, ratios)?;
    rows.truncate(count);
    Ok(found)
}

/// What is found where the dividend is at least 0.
#[cycle(dividing)]
fn divide_above(
    alloc: Global,
    rows: &mut Vec<Row>,
    num: &Poly,
    known: &Division,
    ratios: &[Ratio],
) -> Result<Option<Cert>, FmEnd>
    requires { AreRatiosOf ratios.now rows.old.items }
    ensures answer { BranchAnswers (dividing_by ratios.now) (length ratios.now + 65) rows.old.items
        (facts_at_least_zero num.now known.now.equation known.now.rest known.now.bound) result }
    ensures kept { OnOk result (rows.new.items ≡ rows.old.items) }
{
    let facts = facts_at_least_zero(alloc, num, known)?;
    divide_with(alloc, rows, facts, ratios)
}

/// What is found where it is below 0.
#[cycle(dividing)]
fn divide_below(
    alloc: Global,
    rows: &mut Vec<Row>,
    num: &Poly,
    known: &Division,
    ratios: &[Ratio],
) -> Result<Option<Cert>, FmEnd>
    requires { AreRatiosOf ratios.now rows.old.items }
    ensures answer { BranchAnswers (dividing_by ratios.now) (length ratios.now + 65) rows.old.items
        (facts_below_zero num.now known.now.equation known.now.rest known.now.bound) result }
    ensures kept { OnOk result (rows.new.items ≡ rows.old.items) }
{
    let facts = facts_below_zero(alloc, num, known)?;
    divide_with(alloc, rows, facts, ratios)
}

/// What is found with both signs of the dividend, by what the division leaves.
#[cycle(dividing)]
fn divide_both(
    alloc: Global,
    rows: &mut Vec<Row>,
    num: Poly,
    den: &i128,
    known: &Division,
    rest: &[Ratio],
) -> Result<Option<Cert>, FmEnd>
    requires ratios { AreRatiosOf (record { num = num; den = den.now } ∷ rest.now) rows.old.items }
    requires divisor { is_zero den.now ≡ false }
    requires known { (known.now.equation, known.now.rest, known.now.bound) ≡
        (division_formed num den.now).form }
    requires within { (division_formed num den.now).within ≡ true }
    ensures answer { AnswersFor (dividing_by (record { num = num; den = den.now } ∷ rest.now))
        (length rest.now + 66) rows.old.items result }
    ensures kept { OnOk result (rows.new.items ≡ rows.old.items) }
{
    let Some(pos) = divide_above(alloc, rows, &num, known, rest)? else {
        return Ok(None);
    };
    let neg = divide_below(alloc, rows, &num, known, rest);
    let both = both_boxed(alloc, pos, neg)?;
    Ok(division_cert(num, den, both))
}

/// What is found with the ratio, and then the others.
#[cycle(dividing)]
fn divide_by(
    alloc: Global,
    rows: &mut Vec<Row>,
    ratio: &Ratio,
    rest: &[Ratio],
) -> Result<Option<Cert>, FmEnd>
    requires { AreRatiosOf (ratio.now ∷ rest.now) rows.old.items }
    ensures answer { AnswersFor (dividing_by (ratio.now ∷ rest.now)) (length rest.now + 66)
        rows.old.items result }
    ensures kept { OnOk result (rows.new.items ≡ rows.old.items) }
{
    if ratio.den == 0 {
        return Ok(None);
    }
    let num = dividend(alloc, ratio)?;
    let known = divide(alloc, &num, &ratio.den)?;
    divide_both(alloc, rows, num, &ratio.den, &known, rest)
}

/// What is found of the rows with both signs of each dividend, one after the other, and then by
/// roundings. The rows are the same again after it.
#[cycle(dividing)]
fn divide_in_order(
    alloc: Global,
    rows: &mut Vec<Row>,
    ratios: &[Ratio],
) -> Result<Option<Cert>, FmEnd>
    requires { AreRatiosOf ratios.now rows.old.items }
    ensures answer { AnswersFor (dividing_by ratios.now) (length ratios.now + 65) rows.old.items
        result }
    ensures kept { OnOk result (rows.new.items ≡ rows.old.items) }
{
    let Some((ratio, rest)) = ratios.split_first() else {
        return refute_by_rounding(alloc, rows);
    };
    divide_by(alloc, rows, ratio, rest)
}

/// What is found of the rows by their ratios, roundings and a sum. The rows are the same again
/// after it.
pub(crate) fn refute_by_dividing(alloc: Global, rows: &mut Vec<Row>) -> Result<Option<Cert>, FmEnd>
    ensures answer { AnswersFor dividing 68 rows.old.items result }
    ensures kept { OnOk result (rows.new.items ≡ rows.old.items) }
{
    let ratios = first_ratios(alloc, rows.as_slice())?;
    divide_in_order(alloc, rows, ratios.as_slice())
}
