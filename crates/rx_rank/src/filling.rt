//! The polynomials of the symbols that are no anchors: each takes one from those that its pairs
//! lead to, with 1 added if it is raised.
ghost use Rattle.std.specs.Prelude.{◌≡◌, ◌==◌, IfOk, Some, if◌then◌else◌};
ghost use Rattle.rx_cert.specs.Findings.{Yes};
ghost use Rattle.rx_rank.specs.Answers.{found, tried, tried_as};
ghost use Rattle.rx_anchors.specs.Members.{arity_of};
ghost use Rattle.rx_anchors.specs.Values.{polynomial_of};
ghost use Rattle.rx_rank.specs.Choices.{filled, first_serving, hold_with, instance_on, is_raised};
ghost use Rattle.rx_rank.specs.Choices.{pairs_from, raised_by, serving, tested};
ghost use Rattle.rx_rank.specs.PairTests.{holds};
ghost use Rattle.rx_rank.specs.Tries.{and_then};
ghost use Rattle.rx_solve.specs.Answers.{IsSolver};

use crate::attempt::{Attempt, Finding, noted_before};
use crate::known_pair::KnownPair;
use rx_anchors::{arity_of, polynomial_of, put_polynomial};
use rx_cert::Cert;
use rx_fm::FmEnd;
use rx_plain::NoMemory;
use rx_poly::{Poly, uses_below};
use rx_row::Constraint;
use rx_term::SymInfo;
use std::alloc::Global;

/// Whether a column holds at the pair, with that polynomial for this symbol, where it is the pair's
/// left one; at pairs of other symbols nothing is asked.
fn holds_with<S: FnMut(&Constraint) -> Result<Option<Cert>, FmEnd>>(
    alloc: Global,
    values: &[Option<Poly>],
    symbol: u32,
    poly: &Poly,
    known: &mut KnownPair,
    solve: &mut S,
) -> Result<Finding, NoMemory>
    requires solver { IsSolver S.FnMut solve.old }
    ensures solver { IsSolver S.FnMut solve.new }
    ensures pair { known.new ≡ known.old }
    ensures found { IfOk result (λ f. found f ≡ (if known.old.left.0 == symbol then
        tested (holds known.old) (Some poly.now) (polynomial_of values.now known.old.right.0)
        else Yes)) }
{
    if known.pair().left.0 != symbol {
        return Ok(Finding::Shown);
    }
    let Some(target) = polynomial_of(values, known.pair().right.0) else {
        return Ok(Finding::NotShown);
    };
    known.is_held(alloc, poly, target, solve)
}

/// Whether a column holds at all pairs of the symbol, with that polynomial for it.
fn all_hold_with<S: FnMut(&Constraint) -> Result<Option<Cert>, FmEnd>>(
    alloc: Global,
    values: &[Option<Poly>],
    symbol: u32,
    poly: &Poly,
    pairs: &mut [KnownPair],
    solve: &mut S,
) -> Result<Finding, NoMemory>
    requires solver { IsSolver S.FnMut solve.old }
    ensures solver { IsSolver S.FnMut solve.new }
    ensures pairs { pairs.new ≡ pairs.old }
    ensures found { IfOk result (λ f. found f ≡
        hold_with values.now poly.now (pairs_from symbol pairs.old)) }
{
    for known in pairs.iter_mut() {
        let finding = holds_with(alloc, values, symbol, poly, known, solve)?;
        if !finding.is_shown() {
            return Ok(finding);
        }
    }
    Ok(Finding::Shown)
}

/// The polynomial for the symbol, which has that many arguments, where it serves: it is over these
/// arguments, and a column holds at all pairs of the symbol with it.
fn serving<S: FnMut(&Constraint) -> Result<Option<Cert>, FmEnd>>(
    alloc: Global,
    arity: u32,
    values: &[Option<Poly>],
    symbol: u32,
    pairs: &mut [KnownPair],
    poly: Poly,
    solve: &mut S,
) -> Result<Attempt<Poly>, NoMemory>
    requires solver { IsSolver S.FnMut solve.old }
    ensures solver { IsSolver S.FnMut solve.new }
    ensures pairs { pairs.new ≡ pairs.old }
    ensures tried { IfOk result (λ t. tried t ≡
        serving arity values.now (pairs_from symbol pairs.old) poly) }
{
    if !uses_below(&poly, arity) {
        return Ok(Attempt {
            made: None,
            noted: false,
        });
    }
    match all_hold_with(alloc, values, symbol, &poly, pairs, solve)? {
        Finding::Shown => Ok(Attempt {
            made: Some(poly),
            noted: false,
        }),
        Finding::NotShown => Ok(Attempt {
            made: None,
            noted: false,
        }),
        Finding::TooLarge => Ok(Attempt {
            made: None,
            noted: true,
        }),
    }
}

/// What the left symbol takes from the polynomial that the pair leads to: the instance, and 1 more
/// where the symbol is raised.
fn target_of(
    alloc: Global,
    raised: bool,
    values: &[Option<Poly>],
    known: &mut KnownPair,
) -> Result<Attempt<Poly>, NoMemory>
    ensures pair { known.new ≡ known.old }
    ensures tried { IfOk result (λ t. tried t ≡
        and_then (instance_on known.old (polynomial_of values.now known.old.right.0))
        (raised_by raised)) }
{
    let Some(target) = polynomial_of(values, known.pair().right.0) else {
        return Ok(Attempt {
            made: None,
            noted: false,
        });
    };
    known.take(alloc, raised, target)
}

/// The instance, where there is one and it serves.
fn serving_instance<S: FnMut(&Constraint) -> Result<Option<Cert>, FmEnd>>(
    alloc: Global,
    arity: u32,
    values: &[Option<Poly>],
    symbol: u32,
    pairs: &mut [KnownPair],
    instance: Attempt<Poly>,
    solve: &mut S,
) -> Result<Attempt<Poly>, NoMemory>
    requires solver { IsSolver S.FnMut solve.old }
    ensures solver { IsSolver S.FnMut solve.new }
    ensures pairs { pairs.new ≡ pairs.old }
    ensures tried { IfOk result (λ t. tried t ≡
        and_then (tried instance) (serving arity values.now (pairs_from symbol pairs.old))) }
{
    let noted = instance.noted;
    let Some(poly) = instance.made else {
        return Ok(Attempt { made: None, noted });
    };
    let attempt = serving(alloc, arity, values, symbol, pairs, poly, solve)?;
    Ok(noted_before(noted, attempt))
}

/// The first instance that serves, in the order of the symbol's pairs, each with 1 added where the
/// symbol is raised.
fn first_serving<S: FnMut(&Constraint) -> Result<Option<Cert>, FmEnd>>(
    alloc: Global,
    raised: bool,
    arity: u32,
    values: &[Option<Poly>],
    symbol: u32,
    pairs: &mut [KnownPair],
    solve: &mut S,
) -> Result<Attempt<Poly>, NoMemory>
    requires solver { IsSolver S.FnMut solve.old }
    ensures solver { IsSolver S.FnMut solve.new }
    ensures pairs { pairs.new ≡ pairs.old }
    ensures tried { IfOk result (λ t. tried t ≡
        first_serving raised arity values.now (pairs_from symbol pairs.old)) }
{
    let mut noted = false;
    for at in 0..pairs.len() {
        let known = &mut pairs[at];
        if known.pair().left.0 != symbol {
            continue;
        }
        let instance = target_of(alloc, raised, values, known)?;
        let attempt = serving_instance(alloc, arity, values, symbol, pairs, instance, solve)?;
        noted |= attempt.noted;
        if attempt.made.is_some() {
            return Ok(Attempt {
                made: attempt.made,
                noted,
            });
        }
    }
    Ok(Attempt { made: None, noted })
}

/// Whether the symbol is the one that is raised, if one is.
pub(crate) fn is_raised(raised: Option<u32>, symbol: u32) -> bool
    ensures { result ≡ is_raised raised symbol }
{
    match raised {
        Some(other) => other == symbol,
        None => false,
    }
}

/// The polynomials with those of the symbols in order, up to the first without one. One of these
/// symbols may be raised.
pub(crate) fn filled<S: FnMut(&Constraint) -> Result<Option<Cert>, FmEnd>>(
    alloc: Global,
    infos: &[SymInfo],
    pairs: &mut [KnownPair],
    raised: Option<u32>,
    start: Vec<Option<Poly>>,
    order: &[u32],
    solve: &mut S,
) -> Result<Attempt<Vec<Option<Poly>>>, NoMemory>
    requires solver { IsSolver S.FnMut solve.old }
    ensures solver { IsSolver S.FnMut solve.new }
    ensures pairs { pairs.new ≡ pairs.old }
    ensures tried { IfOk result (λ t. tried_as (λ v. v.items) t ≡
        filled infos.now pairs.old raised start.items order.now) }
{
    let mut values = start;
    let mut noted = false;
    for symbol in order {
        let arity = arity_of(infos, *symbol);
        let more = is_raised(raised, *symbol);
        let attempt = first_serving(alloc, more, arity, values.as_slice(), *symbol, pairs, solve)?;
        noted |= attempt.noted;
        let Some(poly) = attempt.made else {
            return Ok(Attempt { made: None, noted });
        };
        put_polynomial(&mut values, *symbol, poly);
    }
    Ok(Attempt {
        made: Some(values),
        noted,
    })
}
