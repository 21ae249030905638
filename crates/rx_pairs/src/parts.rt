//! The parts of a right side that make pairs: its frames and its call, from outer to inner, down to
//! what it has in common with the left side.
ghost use Rattle.std.specs.Prelude.{◌≡◌, None, IfOk};
ghost use Rattle.std.specs.Option.{option_copied};
ghost use Rattle.rx_pairs.specs.Lent.{IsKept, IsRootOf, all_lent, outer_parts};
ghost use Rattle.rx_pairs.specs.Pairs.{AreParts};
ghost use Rattle.rx_term.specs.Stacks.{depth_of};
ghost use Rattle.rx_term.specs.declared.term.Term.{Term};

use crate::common::{beyond, common_part};
use rx_plain::NoMemory;
use rx_poly::Poly;
use rx_term::{Sym, Term};
use std::alloc::Global;

/// A symbol with its arguments, borrowed.
#[derive(Clone, Copy)]
pub(crate) struct Application<'a> {
    /// The symbol of a frame or a call.
    pub symbol: Sym,
    /// Its arguments.
    pub arguments: &'a [Poly],
}

/// The outermost frame, or the call; a result has none.
pub(crate) fn root_part(term: &Term) -> Option<Application<'_>>
    ensures { IsRootOf term.now result }
{
    match term {
        Term::Return(_) => None,
        Term::Fail(_) => None,
        Term::Call(symbol, arguments) => Some(Application {
            symbol: *symbol,
            arguments: arguments.as_slice(),
        }),
        Term::Frame(symbol, arguments, _) => Some(Application {
            symbol: *symbol,
            arguments: arguments.as_slice(),
        }),
    }
}

/// As many outer frames of `term` as `count` has, or all where there are fewer.
fn outer_frames<'a>(
    alloc: Global,
    term: &'a Term,
    count: &Term,
) -> Result<Vec<Application<'a>>, NoMemory>
    ensures { IfOk result (λ parts.
        all_lent parts.items ≡ outer_parts (depth_of count.now) term.now) }
{
    let mut parts = Vec::new(alloc);
    let mut here = term;
    let mut rest = count;
    while let (Term::Frame(symbol, arguments, inner), Term::Frame(_, _, further)) = (here, rest) {
        parts.push(Application {
            symbol: *symbol,
            arguments: arguments.as_slice(),
        })?;
        here = inner.get();
        rest = further.get();
    }
    Ok(parts)
}

/// The largest part of `right` that is under a frame of `left`, if there is one.
fn kept_part<'a>(left: &Term, right: &'a Term) -> Option<&'a Term>
    ensures { IsKept left.now right.now (option_copied result) }
{
    match left {
        Term::Frame(_, _, inner) => common_part(inner.get(), right),
        _ => None,
    }
}

/// All frames, and the call if there is one.
fn all_parts(alloc: Global, right: &Term) -> Result<Vec<Application<'_>>, NoMemory>
    ensures { IfOk result (λ parts. (left : Term) →
        IsKept left right.now None → AreParts left right.now (all_lent parts.items)) }
{
    let mut parts = outer_frames(alloc, right, right)?;
    if let Term::Call(symbol, arguments) = beyond(right, right) {
        parts.push(Application {
            symbol: *symbol,
            arguments: arguments.as_slice(),
        })?;
    }
    Ok(parts)
}

/// The frames and the call of `right`, from outer to inner, down to the first part that is also
/// under a frame of `left`. Both are walked once.
pub(crate) fn parts_of<'a>(
    alloc: Global,
    left: &Term,
    right: &'a Term,
) -> Result<Vec<Application<'a>>, NoMemory>
    ensures { IfOk result (λ parts. AreParts left.now right.now (all_lent parts.items)) }
{
    match kept_part(left, right) {
        Some(kept) => outer_frames(alloc, right, beyond(right, kept)),
        None => all_parts(alloc, right),
    }
}
