//! What two stacks have in common at their inner ends.
ghost use Rattle.std.specs.Prelude.{◌≡◌, ◌↔◌, ◌-◌, IsTrue};
ghost use Rattle.std.specs.Option.{option_copied};
ghost use Rattle.rx_pairs.specs.Common.{IsCommon, IsPart};
ghost use Rattle.rx_term.specs.Stacks.{depth_of};

use rx_poly::{Poly, are_same_polys};
use rx_term::{Sym, Term};

/// What is under as many frames of `term` as `other` has; its innermost part where it has fewer.
pub(crate) fn beyond<'a>(term: &'a Term, other: &Term) -> &'a Term
    ensures part { IsPart term.now result.now }
    ensures depth { depth_of result.now ≡ depth_of term.now - depth_of other.now }
{
    let mut here = term;
    let mut rest = other;
    while let (Term::Frame(_, _, inner), Term::Frame(_, _, further)) = (here, rest) {
        here = inner.get();
        rest = further.get();
    }
    here
}

/// Whether the two symbols are one, with the same arguments.
fn is_same_part(f: Sym, args: &[Poly], g: Sym, others: &[Poly]) -> bool
    ensures { IsTrue result ↔ ((f ≡ g) × (args.now ≡ others.now)) }
{
    f.0 == g.0 && are_same_polys(args, others)
}

/// The largest part of both, for two stacks of one depth. Both are walked together; the part begins
/// under the last frame at which they differ.
fn common_at_depth<'a>(left: &Term, right: &'a Term) -> Option<&'a Term>
    requires { depth_of left.now ≡ depth_of right.now }
    ensures { IsCommon left.now right.now (option_copied result) }
{
    let mut here = left;
    let mut there = right;
    let mut start = right;
    while let (Term::Frame(f, args, inner), Term::Frame(g, others, further)) = (here, there) {
        here = inner.get();
        there = further.get();
        if !is_same_part(*f, args.as_slice(), *g, others.as_slice()) {
            start = there;
        }
    }
    if here.is_same(there) {
        Some(start)
    } else {
        None
    }
}

/// The largest part of both; none where they end differently. Takes no memory.
pub(crate) fn common_part<'a>(left: &Term, right: &'a Term) -> Option<&'a Term>
    ensures { IsCommon left.now right.now (option_copied result) }
{
    let here = beyond(left, beyond(left, right));
    let there = beyond(right, beyond(right, left));
    common_at_depth(here, there)
}
