//! The longest common suffix of two terms, found from the innermost part outwards.
ghost use Rattle.std.specs.List.{zip};
ghost use Rattle.std.specs.Prelude.{◌≡◌, ◌≢◌, ◌+◌, ◌-◌, length, map, reverse, IfOk};
ghost use Rattle.rx_cert.specs.Showing.{shown};
ghost use Rattle.rx_solve.specs.Answers.{IsSolver};
ghost use Rattle.rx_solve.specs.Refuter.{refuted};
ghost use Rattle.rx_moves.specs.SuffixAnswers.{SaysEqual, part_of, part_said};
ghost use Rattle.rx_moves.specs.Suffixes.{common, common_suffix, inwards};
ghost use Rattle.rx_moves.specs.Suffixes.{equal_shown, equals_shown};
ghost use Rattle.rx_term.specs.Stacks.{depth_of};

use rx_cert::Cert;
use rx_fm::FmEnd;
use rx_plain::NoMemory;
use rx_poly::{Poly, PolyEnd};
use rx_row::{Constraint, Row};
use rx_solve::{AllShown, show_all};
use rx_term::Term;
use std::alloc::Global;

/// How many parts two terms have in common, from inside out, and whether the first that isn't
/// common passes the limits.
#[derive(Clone, Copy)]
pub struct Common {
    /// How many.
    pub parts: usize,
    /// Whether what comes next passes the limits.
    pub noted: bool,
}

/// A common suffix of two terms.
#[derive(Clone, Copy)]
pub struct Suffix {
    /// What is common.
    pub common: Common,
    /// How many frames are over it on the left side.
    pub left: usize,
    /// How many are over it on the right side.
    pub right: usize,
}

/// A call or a frame.
#[derive(Clone, Copy)]
struct Part<'a> {
    /// Its symbol.
    symbol: u32,
    /// Its polynomials.
    arguments: &'a [Poly],
}

/// What is found of polynomials that are to be equal.
#[derive(Clone, Copy)]
enum Equality {
    /// They are shown equal.
    Shown,
    /// They aren't.
    NotShown,
    /// Something passes the limits before that is seen.
    TooLarge,
}

/// The frames and the call of a term, from outside in.
fn parts_inwards(alloc: Global, term: &Term) -> Result<Vec<Part<'_>>, NoMemory>
    ensures { IfOk result (λ parts. map part_of parts.items ≡ inwards term.now) }
{
    let mut here = term;
    let mut parts = Vec::new(alloc);
    loop {
        match here {
            Term::Return(_) => return Ok(parts),
            Term::Fail(_) => return Ok(parts),
            Term::Call(sym, args) => {
                let arguments = args.as_slice();
                parts.push(Part {
                    symbol: sym.0,
                    arguments,
                })?;
                return Ok(parts);
            }
            Term::Frame(sym, args, inner) => {
                let arguments = args.as_slice();
                parts.push(Part {
                    symbol: sym.0,
                    arguments,
                })?;
                here = inner.get();
            }
        }
    }
}

/// What the solver shows of the row, under the given ones.
fn show_row<S: FnMut(&Constraint) -> Result<Option<Cert>, FmEnd>>(
    alloc: Global,
    given: &Constraint,
    row: &Row,
    solve: &mut S,
) -> Result<Equality, NoMemory>
    requires solver { IsSolver S.FnMut solve.old }
    ensures solver { IsSolver S.FnMut solve.new }
    ensures answer { IfOk result (SaysEqual (shown refuted given.now row.now)) }
{
    match show_all(alloc, given, std::slice::from_ref(row), solve)? {
        AllShown::Shown(_) => Ok(Equality::Shown),
        AllShown::NotShown => Ok(Equality::NotShown),
        AllShown::TooLarge => Ok(Equality::TooLarge),
    }
}

/// Whether the two polynomials are shown equal.
fn show_equal<S: FnMut(&Constraint) -> Result<Option<Cert>, FmEnd>>(
    alloc: Global,
    given: &Constraint,
    left: &Poly,
    right: &Poly,
    solve: &mut S,
) -> Result<Equality, NoMemory>
    requires solver { IsSolver S.FnMut solve.old }
    ensures solver { IsSolver S.FnMut solve.new }
    ensures answer { IfOk result (SaysEqual (equal_shown given.now (left.now, right.now))) }
{
    match left.sub(alloc, right) {
        Ok(difference) => show_row(alloc, given, &Row::Eq(difference), solve),
        Err(PolyEnd::Large) => Ok(Equality::TooLarge),
        Err(PolyEnd::NoMemory) => Err(NoMemory),
    }
}

/// Whether the polynomials of the two lists are shown equal, one by one, as far as both go.
fn show_equals<S: FnMut(&Constraint) -> Result<Option<Cert>, FmEnd>>(
    alloc: Global,
    given: &Constraint,
    lefts: &[Poly],
    rights: &[Poly],
    solve: &mut S,
) -> Result<Equality, NoMemory>
    requires solver { IsSolver S.FnMut solve.old }
    ensures solver { IsSolver S.FnMut solve.new }
    ensures answer { IfOk result (SaysEqual (equals_shown given.now (zip lefts.now rights.now))) }
{
    let mut rest = lefts;
    let mut others = rights;
    while let (Some((left, more)), Some((right, further))) = (
        rest.split_first(),
        others.split_first(),
    ) {
        match show_equal(alloc, given, left, right, solve)? {
            Equality::Shown => {}
            Equality::NotShown => return Ok(Equality::NotShown),
            Equality::TooLarge => return Ok(Equality::TooLarge),
        }
        rest = more;
        others = further;
    }
    Ok(Equality::Shown)
}

/// Whether the two parts have one symbol and their polynomials are shown equal.
fn show_same<S: FnMut(&Constraint) -> Result<Option<Cert>, FmEnd>>(
    alloc: Global,
    given: &Constraint,
    left: &Part<'_>,
    right: &Part<'_>,
    solve: &mut S,
) -> Result<Equality, NoMemory>
    requires solver { IsSolver S.FnMut solve.old }
    ensures solver { IsSolver S.FnMut solve.new }
    ensures answer { IfOk result (SaysEqual (part_said given.now (part_of left.now)
        (part_of right.now))) }
{
    if left.symbol != right.symbol {
        return Ok(Equality::NotShown);
    }
    show_equals(alloc, given, left.arguments, right.arguments, solve)
}

/// How many parts are common, from the last ones on.
fn common_parts<S: FnMut(&Constraint) -> Result<Option<Cert>, FmEnd>>(
    alloc: Global,
    given: &Constraint,
    lefts: Vec<Part<'_>>,
    rights: Vec<Part<'_>>,
    solve: &mut S,
) -> Result<Common, NoMemory>
    requires solver { IsSolver S.FnMut solve.old }
    ensures solver { IsSolver S.FnMut solve.new }
    ensures common { IfOk result (λ c. c ≡ common given.now
        (reverse (map part_of lefts.entry.items)) (reverse (map part_of rights.entry.items))) }
{
    let mut rest = lefts;
    let mut others = rights;
    let mut parts = 0;
    while let (Some(left), Some(right)) = (rest.pop(), others.pop()) {
        match show_same(alloc, given, &left, &right, solve)? {
            Equality::Shown => parts += 1,
            Equality::NotShown => return Ok(Common {
                parts,
                noted: false,
            }),
            Equality::TooLarge => return Ok(Common { parts, noted: true }),
        }
    }
    Ok(Common {
        parts,
        noted: false,
    })
}

/// The longest common suffix of two terms, by the lists of their parts.
fn suffix_of<S: FnMut(&Constraint) -> Result<Option<Cert>, FmEnd>>(
    alloc: Global,
    given: &Constraint,
    left: &Term,
    right: &Term,
    solve: &mut S,
) -> Result<Suffix, NoMemory>
    requires solver { IsSolver S.FnMut solve.old }
    ensures solver { IsSolver S.FnMut solve.new }
    ensures common { IfOk result (λ s. s.common ≡ common given.now
        (reverse (inwards left.now)) (reverse (inwards right.now))) }
    ensures left { IfOk result (λ s. s.left ≡ length (inwards left.now) - s.common.parts) }
    ensures right { IfOk result (λ s. s.right ≡ length (inwards right.now) - s.common.parts) }
{
    let lefts = parts_inwards(alloc, left)?;
    let rights = parts_inwards(alloc, right)?;
    let (on_left, on_right) = (lefts.len(), rights.len());
    let common = common_parts(alloc, given, lefts, rights, solve)?;
    Ok(Suffix {
        common,
        left: on_left.saturating_sub(common.parts),
        right: on_right.saturating_sub(common.parts),
    })
}

/// The longest common suffix of two terms that end in calls, from the calls outwards, under the
/// given rows; of others there is none. A part is common where the solver shows its polynomials
/// equal. Fails only where there is no memory.
pub fn find_suffix<S: FnMut(&Constraint) -> Result<Option<Cert>, FmEnd>>(
    alloc: Global,
    given: &Constraint,
    left: &Term,
    right: &Term,
    solve: &mut S,
) -> Result<Suffix, NoMemory>
    requires solver { IsSolver S.FnMut solve.old }
    ensures solver { IsSolver S.FnMut solve.new }
    ensures common { IfOk result (λ s. s.common ≡ common_suffix given.now left.now right.now) }
    ensures left { IfOk result (λ s. s.common.parts ≢ 0
        → s.left ≡ 1 + depth_of left.now - s.common.parts) }
    ensures right { IfOk result (λ s. s.common.parts ≢ 0
        → s.right ≡ 1 + depth_of right.now - s.common.parts) }
{
    if left.ends_in_call() && right.ends_in_call() {
        return suffix_of(alloc, given, left, right, solve);
    }
    let common = Common {
        parts: 0,
        noted: false,
    };
    Ok(Suffix {
        common,
        left: 0,
        right: 0,
    })
}
