//! Whether a choice is fit: all pairs of the component hold, and one falls.
ghost use Rattle.std.specs.Prelude.{◌≡◌, IfOk, IfSome, is_some};
ghost use Rattle.std.specs.List.{AllZip, list_any};
ghost use Rattle.rx_cert.specs.Findings.{Yes};
ghost use Rattle.rx_rank.specs.Answers.{IsDecided, IsFit, IsHeld, TellsFalls, TellsHolds, found};
ghost use Rattle.rx_rank.specs.Answers.{only_shown, still_open, tried_as, tried_only};
ghost use Rattle.rx_rank.specs.Choices.{all_hold, falling, falls_by, fitting, holds_by, is_beyond};
ghost use Rattle.rx_solve.specs.Answers.{IsSolver};

use crate::attempt::{Attempt, Finding};
use crate::known_pair::KnownPair;
use rx_anchors::polynomial_of;
use rx_cert::Cert;
use rx_fm::FmEnd;
use rx_plain::{Items, NoMemory};
use rx_poly::Poly;
use rx_row::Constraint;
use rx_solve::AllShown;
use std::alloc::Global;

/// The polynomials of a fit choice, and why it is fit.
#[derive(Drop)]
pub struct Fit {
    /// The polynomials by symbol.
    pub values: Vec<Option<Poly>>,
    /// For each pair the certificates by which the column holds.
    pub holds: Vec<Items<Cert>>,
    /// For each pair at which the column falls, the certificates of that.
    pub falls: Vec<Option<Items<Cert>>>,
}

/// Whether a column of these polynomials holds at the pair.
fn holds_by<S: FnMut(&Constraint) -> Result<Option<Cert>, FmEnd>>(
    alloc: Global,
    values: &[Option<Poly>],
    known: &mut KnownPair,
    solve: &mut S,
) -> Result<AllShown, NoMemory>
    requires solver { IsSolver S.FnMut solve.old }
    ensures solver { IsSolver S.FnMut solve.new }
    ensures pair { known.new ≡ known.old }
    ensures answer { IfOk result (TellsHolds values.now known.old) }
{
    let Some(left) = polynomial_of(values, known.pair().left.0) else {
        return Ok(AllShown::NotShown);
    };
    let Some(right) = polynomial_of(values, known.pair().right.0) else {
        return Ok(AllShown::NotShown);
    };
    known.holds(alloc, left, right, solve)
}

/// Whether it falls there.
fn falls_by<S: FnMut(&Constraint) -> Result<Option<Cert>, FmEnd>>(
    alloc: Global,
    values: &[Option<Poly>],
    known: &mut KnownPair,
    solve: &mut S,
) -> Result<AllShown, NoMemory>
    requires solver { IsSolver S.FnMut solve.old }
    ensures solver { IsSolver S.FnMut solve.new }
    ensures pair { known.new ≡ known.old }
    ensures answer { IfOk result (TellsFalls values.now known.old) }
{
    let Some(left) = polynomial_of(values, known.pair().left.0) else {
        return Ok(AllShown::NotShown);
    };
    let Some(right) = polynomial_of(values, known.pair().right.0) else {
        return Ok(AllShown::NotShown);
    };
    known.falls(alloc, left, right, solve)
}

/// Only whether a column of these polynomials holds at the pair. No certificate is copied.
fn is_held<S: FnMut(&Constraint) -> Result<Option<Cert>, FmEnd>>(
    alloc: Global,
    values: &[Option<Poly>],
    known: &mut KnownPair,
    solve: &mut S,
) -> Result<Finding, NoMemory>
    requires solver { IsSolver S.FnMut solve.old }
    ensures solver { IsSolver S.FnMut solve.new }
    ensures pair { known.new ≡ known.old }
    ensures found { IfOk result (λ f. found f ≡ holds_by values.now known.old) }
{
    let Some(left) = polynomial_of(values, known.pair().left.0) else {
        return Ok(Finding::NotShown);
    };
    let Some(right) = polynomial_of(values, known.pair().right.0) else {
        return Ok(Finding::NotShown);
    };
    known.is_held(alloc, left, right, solve)
}

/// Only whether all pairs hold.
fn are_held<S: FnMut(&Constraint) -> Result<Option<Cert>, FmEnd>>(
    alloc: Global,
    values: &[Option<Poly>],
    pairs: &mut [KnownPair],
    solve: &mut S,
) -> Result<Finding, NoMemory>
    requires solver { IsSolver S.FnMut solve.old }
    ensures solver { IsSolver S.FnMut solve.new }
    ensures pairs { pairs.new ≡ pairs.old }
    ensures found { IfOk result (λ f. found f ≡ all_hold values.now pairs.old) }
{
    for known in pairs.iter_mut() {
        let finding = is_held(alloc, values, known, solve)?;
        if !finding.is_shown() {
            return Ok(finding);
        }
    }
    Ok(Finding::Shown)
}

/// The certificates by which the pair holds.
fn held<S: FnMut(&Constraint) -> Result<Option<Cert>, FmEnd>>(
    alloc: Global,
    values: &[Option<Poly>],
    known: &mut KnownPair,
    solve: &mut S,
) -> Result<Attempt<Items<Cert>>, NoMemory>
    requires solver { IsSolver S.FnMut solve.old }
    ensures solver { IsSolver S.FnMut solve.new }
    ensures pair { known.new ≡ known.old }
    ensures tried { IfOk result (λ t. tried_only t ≡ only_shown (holds_by values.now known.old)) }
    ensures held { IfOk result (λ t. IfSome t.made (IsHeld values.now known.old)) }
{
    match holds_by(alloc, values, known, solve)? {
        AllShown::Shown(certs) => Ok(Attempt {
            made: Some(certs),
            noted: false,
        }),
        AllShown::NotShown => Ok(Attempt {
            made: None,
            noted: false,
        }),
        AllShown::TooLarge => Ok(Attempt {
            made: None,
            noted: true,
        }),
    }
}

/// The certificates by which all pairs hold, up to the first that doesn't.
fn all_held<S: FnMut(&Constraint) -> Result<Option<Cert>, FmEnd>>(
    alloc: Global,
    values: &[Option<Poly>],
    pairs: &mut [KnownPair],
    solve: &mut S,
) -> Result<Attempt<Vec<Items<Cert>>>, NoMemory>
    requires solver { IsSolver S.FnMut solve.old }
    ensures solver { IsSolver S.FnMut solve.new }
    ensures pairs { pairs.new ≡ pairs.old }
    ensures tried { IfOk result (λ t. tried_only t ≡
        only_shown (all_hold values.now pairs.old)) }
    ensures held { IfOk result (λ t. IfSome t.made
        (λ v. AllZip (IsHeld values.now) pairs.old v.items)) }
{
    let mut all = Vec::new(alloc);
    for known in pairs.iter_mut() {
        let attempt = held(alloc, values, known, solve)?;
        let noted = attempt.noted;
        match attempt.made {
            Some(certs) => all.push(certs)?,
            None => return Ok(Attempt { made: None, noted }),
        }
    }
    Ok(Attempt {
        made: Some(all),
        noted: false,
    })
}

/// Whether a pair falls.
#[derive(Drop)]
struct Decision {
    /// The certificates, where it falls.
    certs: Option<Items<Cert>>,
    /// Whether something passed the limits.
    noted: bool,
}

/// Whether the pair falls.
fn decide<S: FnMut(&Constraint) -> Result<Option<Cert>, FmEnd>>(
    alloc: Global,
    values: &[Option<Poly>],
    known: &mut KnownPair,
    solve: &mut S,
) -> Result<Decision, NoMemory>
    requires solver { IsSolver S.FnMut solve.old }
    ensures solver { IsSolver S.FnMut solve.new }
    ensures pair { known.new ≡ known.old }
    ensures certs { IfOk result (λ d. IsDecided values.now known.old d.certs) }
    ensures noted { IfOk result (λ d. d.noted ≡ is_beyond (falls_by values.now known.old)) }
{
    match falls_by(alloc, values, known, solve)? {
        AllShown::Shown(certs) => Ok(Decision {
            certs: Some(certs),
            noted: false,
        }),
        AllShown::NotShown => Ok(Decision {
            certs: None,
            noted: false,
        }),
        AllShown::TooLarge => Ok(Decision {
            certs: None,
            noted: true,
        }),
    }
}

/// Which pairs fall.
#[derive(Drop)]
struct Falls {
    /// For each pair that falls, the certificates.
    certs: Vec<Option<Items<Cert>>>,
    /// Whether something passed the limits.
    noted: bool,
}

/// Which pairs fall; all are tried.
fn falling<S: FnMut(&Constraint) -> Result<Option<Cert>, FmEnd>>(
    alloc: Global,
    values: &[Option<Poly>],
    pairs: &mut [KnownPair],
    solve: &mut S,
) -> Result<Falls, NoMemory>
    requires solver { IsSolver S.FnMut solve.old }
    ensures solver { IsSolver S.FnMut solve.new }
    ensures pairs { pairs.new ≡ pairs.old }
    ensures certs { IfOk result (λ f. AllZip (IsDecided values.now) pairs.old
        f.certs.items) }
    ensures noted { IfOk result (λ f. f.noted ≡
        list_any (λ pair. is_beyond (falls_by values.now pair)) pairs.old) }
{
    let mut certs = Vec::new(alloc);
    let mut noted = false;
    for known in pairs.iter_mut() {
        let decision = decide(alloc, values, known, solve)?;
        noted |= decision.noted;
        certs.push(decision.certs)?;
    }
    Ok(Falls { certs, noted })
}

/// Whether there are certificates of one pair.
fn some_falls(certs: &[Option<Items<Cert>>]) -> bool
    ensures { result ≡ list_any is_some certs.now }
{
    for one in certs {
        if one.is_some() {
            return true;
        }
    }
    false
}

/// The fit of the polynomials, by which all pairs hold, where one falls.
fn fit_falling<S: FnMut(&Constraint) -> Result<Option<Cert>, FmEnd>>(
    alloc: Global,
    values: Vec<Option<Poly>>,
    pairs: &mut [KnownPair],
    solve: &mut S,
) -> Result<Attempt<Fit>, NoMemory>
    requires solver { IsSolver S.FnMut solve.old }
    requires held { all_hold values.items pairs.old ≡ Yes }
    ensures solver { IsSolver S.FnMut solve.new }
    ensures pairs { pairs.new ≡ pairs.old }
    ensures tried { IfOk result (λ t. tried_as
        (λ fit. still_open pairs.old fit.falls.items) t ≡
        falling values.items pairs.old) }
    ensures fit { IfOk result (λ t. IfSome t.made (IsFit values.items pairs.old)) }
{
    let falls = falling(alloc, values.as_slice(), pairs, solve)?;
    let noted = falls.noted;
    if !some_falls(falls.certs.as_slice()) {
        return Ok(Attempt { made: None, noted });
    }
    let attempt = all_held(alloc, values.as_slice(), pairs, solve)?;
    let Some(holds) = attempt.made else {
        return Ok(Attempt { made: None, noted });
    };
    let fit = Fit {
        values,
        holds,
        falls: falls.certs,
    };
    Ok(Attempt {
        made: Some(fit),
        noted,
    })
}

/// The fit of the polynomials, where all pairs hold and one falls. No certificate is copied where
/// one pair doesn't hold, or none falls.
pub(crate) fn fitting<S: FnMut(&Constraint) -> Result<Option<Cert>, FmEnd>>(
    alloc: Global,
    values: Vec<Option<Poly>>,
    pairs: &mut [KnownPair],
    solve: &mut S,
) -> Result<Attempt<Fit>, NoMemory>
    requires solver { IsSolver S.FnMut solve.old }
    ensures solver { IsSolver S.FnMut solve.new }
    ensures pairs { pairs.new ≡ pairs.old }
    ensures tried { IfOk result (λ t. tried_as
        (λ fit. still_open pairs.old fit.falls.items) t ≡
        fitting pairs.old values.items) }
    ensures fit { IfOk result (λ t. IfSome t.made (IsFit values.items pairs.old)) }
{
    match are_held(alloc, values.as_slice(), pairs, solve)? {
        Finding::Shown => fit_falling(alloc, values, pairs, solve),
        Finding::NotShown => Ok(Attempt {
            made: None,
            noted: false,
        }),
        Finding::TooLarge => Ok(Attempt {
            made: None,
            noted: true,
        }),
    }
}
