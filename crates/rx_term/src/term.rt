//! Terms as stacks: frames outside, then a call or a result.
ghost use Rattle.std.specs.Prelude.{◌≡◌, ◌↔◌, ◌<◌, ◌^◌, ℕ, ℤ, true, false, IsNone, IsTrue, IfOk};
ghost use Rattle.std.specs.Option.{option_copied};
ghost use Rattle.rx_poly.specs.Substitution.{numbered, updated_assignment};
ghost use Rattle.rx_term.specs.Meaning.{ground_at, redex_of};
ghost use Rattle.rx_term.specs.Replacements.{replacements};
ghost use Rattle.rx_term.specs.Shapes.{shape_of};
ghost use Rattle.rx_term.specs.Stacks.{suffix_at, depth_of, ends_in_call, is_redex, is_result, plug_reversed, redex_place, replace_redex, replace_at, root_of, unwind};
ghost use Rattle.rx_plain.specs.Formed.{Forms};
ghost use Rattle.rx_term.specs.Substitution.{term_with};
ghost use Rattle.rx_term.specs.Variables.{arguments_of, term_uses_below};

use crate::arguments::{Replacements, are_below, instance, substituted};
use rx_plain::{Boxed, Items};
use rx_poly::{Poly, PolyEnd, are_same_polys, copied_polys, uses_below};
use std::alloc::{AllocError, Global};

/// The number of a symbol.
#[derive(Clone, Copy, Debug, PartialEq, Eq)]
pub struct Sym(pub u32);

/// A stack: frames outside, then a call or a result.
pub enum Term {
    /// A returned value.
    Return(Poly),
    /// A failure with its code.
    Fail(u8),
    /// A call of a symbol with its arguments.
    Call(Sym, Items<Poly>),
    /// A frame with its arguments, over what it waits for.
    Frame(Sym, Items<Poly>, Boxed<Term>),
}

impl Drop for Term {
    fn drop(mut self) {
        loop {
            match self {
                Term::Return(_value) => return,
                Term::Fail(_code) => return,
                Term::Call(_sym, _args) => return,
                Term::Frame(_sym, _args, inner) => self = inner.into_inner(),
            }
        }
    }
}

impl Term {
    /// How many frames there are. Takes no memory.
    pub fn depth(&self) -> u32
        requires { depth_of self.now < 2 ^ 32 }
        ensures { result ≡ depth_of self.now }
    {
        let mut here = self;
        let mut count = 0;
        while let Term::Frame(_, _, inner) = here {
            count += 1;
            here = inner.get();
        }
        count
    }

    /// The part under `place` frames, borrowed; None exactly where there are fewer. Takes no
    /// memory.
    #[tactic(auto, using(crate::proofs::KeepingLaws::after_ends))]
    pub fn suffix(&self, place: u32) -> Option<&Term>
        ensures part { option_copied result ≡ suffix_at place self.now }
        ensures fewer { IsNone result ↔ (depth_of self.now < place) }
    {
        let mut here = self;
        let mut left = place;
        while left > 0 {
            match here {
                Term::Frame(_, _, inner) => here = inner.get(),
                _ => return None,
            }
            left -= 1;
        }
        Some(here)
    }

    /// How many frames are over the redex: the innermost call, or the innermost frame where that is
    /// over a result. None exactly where the term is a result. Takes no memory.
    pub fn redex_place(&self) -> Option<u32>
        requires { depth_of self.now < 2 ^ 32 }
        ensures { result ≡ redex_place self.now }
    {
        let mut here = self;
        let mut count = 0;
        while let Term::Frame(_, _, inner) = here {
            count += 1;
            here = inner.get();
        }
        match here {
            Term::Call(_, _) => Some(count),
            _ if count == 0 => None,
            _ => Some(count - 1),
        }
    }

    /// Whether it is a result: a returned value or a failure.
    pub fn is_result(&self) -> bool
        ensures { result ≡ is_result self.now }
    {
        match self {
            Term::Return(_) => true,
            Term::Fail(_) => true,
            Term::Call(_, _) => false,
            Term::Frame(_, _, _) => false,
        }
    }

    /// Whether it is a redex: a call, or a frame over a result.
    pub fn is_redex(&self) -> bool
        ensures { result ≡ is_redex self.now }
    {
        match self {
            Term::Return(_) => false,
            Term::Fail(_) => false,
            Term::Call(_, _) => true,
            Term::Frame(_, _, inner) => inner.get().is_result(),
        }
    }

    /// The symbol of the outermost frame, or of the call where there is no frame; a result has
    /// none.
    pub fn root(&self) -> Option<Sym>
        ensures { result ≡ root_of self.now }
    {
        match self {
            Term::Return(_) => None,
            Term::Fail(_) => None,
            Term::Call(sym, _) => Some(*sym),
            Term::Frame(sym, _, _) => Some(*sym),
        }
    }

    /// Whether its frames are over a call, and not over a result. Takes no memory.
    pub fn ends_in_call(&self) -> bool
        ensures { result ≡ ends_in_call self.now }
    {
        let mut here = self;
        while let Term::Frame(_, _, inner) = here {
            here = inner.get();
        }
        !here.is_result()
    }

    /// The redex, borrowed: the innermost call, or the innermost frame where that is over a result.
    /// None exactly where the term is a result. Takes no memory.
    pub fn redex(&self) -> Option<&Term>
        ensures redex { option_copied result ≡ redex_of self.now }
        ensures none { IsNone result ↔ (is_result self.now ≡ true) }
    {
        let mut here = self;
        while let Term::Frame(_, _, inner) = here {
            if inner.get().is_result() {
                return Some(here);
            }
            here = inner.get();
        }
        if here.is_result() { None } else { Some(here) }
    }

    /// The term with `inner` in place of its redex; a result stays as it is. Takes no memory.
    pub fn replace_redex(self, inner: Term) -> Term
        ensures { result ≡ replace_redex self inner }
    {
        if self.is_result() {
            return self;
        }
        let mut rest = self;
        let mut upper = Term::Fail(0);
        while !rest.is_redex() {
            let (over, below) = rest.turn(upper);
            upper = over;
            match below {
                Some(below) => rest = below,
                None => return upper.plug_reversed(inner),
            }
        }
        upper.plug_reversed(inner)
    }

    /// The frames of this term, its innermost outside, over the other. Takes no memory.
    fn plug_reversed(self, inner: Term) -> Term
        ensures { result ≡ plug_reversed self inner }
    {
        let mut upper = self;
        let mut whole = inner;
        loop {
            let further = match &mut upper {
                Term::Frame(_, _, below) => below.replace(whole),
                _ => return whole,
            };
            whole = upper;
            upper = further;
        }
    }

    /// The outermost frame over `upper`, and what that frame was over. Without a frame, `upper`
    /// alone.
    fn turn(self, upper: Term) -> (Term, Option<Term>)
        ensures { result ≡ unwind self upper }
    {
        let mut whole = self;
        let below = match &mut whole {
            Term::Frame(_, _, inner) => inner.replace(upper),
            _ => return (upper, None),
        };
        (whole, Some(below))
    }

    /// The `place` outer frames, or all where there are fewer, over `inner`. Takes no memory.
    pub fn replace(self, place: u32, inner: Term) -> Term
        ensures { result ≡ replace_at place self inner }
    {
        let mut rest = self;
        let mut upper = Term::Fail(0);
        let mut left = place;
        while left > 0 {
            let (further, below) = rest.turn(upper);
            upper = further;
            match below {
                Some(below) => rest = below,
                None => return upper.plug_reversed(inner),
            }
            left -= 1;
        }
        upper.plug_reversed(inner)
    }

    /// Whether the two are one term. Takes no memory.
    pub fn is_same(&self, other: &Term) -> bool
        ensures { IsTrue result ↔ (self.now ≡ other.now) }
    {
        let mut here = self;
        let mut there = other;
        loop {
            match (here, there) {
                (Term::Return(value), Term::Return(other)) => return value.is_same(other),
                (Term::Fail(code), Term::Fail(other)) => return *code == *other,
                (Term::Call(f, args), Term::Call(g, others)) => {
                    return f.0 == g.0 && are_same_polys(args.as_slice(), others.as_slice());
                }
                (Term::Frame(f, args, inner), Term::Frame(g, others, further)) => {
                    if f.0 != g.0 || !are_same_polys(args.as_slice(), others.as_slice()) {
                        return false;
                    }
                    here = inner.get();
                    there = further.get();
                }
                _ => return false,
            }
        }
    }

    /// Whether all variables of the term, at every level of its polynomials, are below the number.
    /// Takes no memory.
    pub fn uses_below(&self, bound: u32) -> bool
        ensures { result ≡ term_uses_below bound self.now }
    {
        let mut here = self;
        loop {
            match here {
                Term::Return(value) => return uses_below(value, bound),
                Term::Fail(_) => return true,
                Term::Call(_, args) => return are_below(args.as_slice(), bound),
                Term::Frame(_, args, inner) => {
                    if !are_below(args.as_slice(), bound) {
                        return false;
                    }
                    here = inner.get();
                }
            }
        }
    }

    /// Whether the two have one shape: the same frames, call and failure code, whatever their
    /// polynomials. Takes no memory.
    pub fn has_shape_of(&self, other: &Term) -> bool
        ensures { IsTrue result ↔ (shape_of self.now ≡ shape_of other.now) }
    {
        let mut here = self;
        let mut there = other;
        loop {
            match (here, there) {
                (Term::Return(_), Term::Return(_)) => return true,
                (Term::Fail(code), Term::Fail(other)) => return *code == *other,
                (Term::Call(f, _), Term::Call(g, _)) => return f.0 == g.0,
                (Term::Frame(f, _, inner), Term::Frame(g, _, further)) => {
                    if f.0 != g.0 {
                        return false;
                    }
                    here = inner.get();
                    there = further.get();
                }
                _ => return false,
            }
        }
    }

    /// Its polynomials, copied: those of outer frames first, from left to right, a result's last.
    /// Fails only where there is no memory.
    pub fn arguments(&self, alloc: Global) -> Result<Items<Poly>, AllocError>
        ensures { IfOk result (λ ps. ps ≡ arguments_of self.now) }
    {
        let mut here = self;
        let mut made = Items::new(alloc);
        loop {
            match here {
                Term::Return(value) => {
                    made.push(value.try_clone(alloc)?)?;
                    return Ok(made);
                }
                Term::Fail(_) => return Ok(made),
                Term::Call(_, args) => {
                    made.append(copied_polys(alloc, args.as_slice())?)?;
                    return Ok(made);
                }
                Term::Frame(_, args, inner) => {
                    made.append(copied_polys(alloc, args.as_slice())?)?;
                    here = inner.get();
                }
            }
        }
    }

    /// The same term once more; fails only when out of memory.
    pub fn try_clone(&self, alloc: Global) -> Result<Term, AllocError>
        ensures { IfOk result (λ t. t ≡ self.now) }
    {
        let mut here = self;
        let mut upper = Term::Fail(0);
        loop {
            match here {
                Term::Return(value) => {
                    return Ok(upper.plug_reversed(Term::Return(value.try_clone(alloc)?)));
                }
                Term::Fail(code) => return Ok(upper.plug_reversed(Term::Fail(*code))),
                Term::Call(sym, args) => {
                    let args = copied_polys(alloc, args.as_slice())?;
                    return Ok(upper.plug_reversed(Term::Call(*sym, args)));
                }
                Term::Frame(sym, args, inner) => {
                    let args = copied_polys(alloc, args.as_slice())?;
                    upper = Term::Frame(*sym, args, Boxed::new(alloc, upper)?);
                    here = inner.get();
                }
            }
        }
    }

    /// The same stack, each of its polynomials with its variables replaced. Large exactly where a
    /// polynomial on the way to them passes the limits.
    fn instance(&self, alloc: Global, with: Replacements) -> Result<Term, PolyEnd>
        ensures forms { Forms PolyEnd.Large result (term_with (replacements with.entry) self.now) }
    {
        let mut here = self;
        let mut upper = Term::Fail(0);
        loop {
            match here {
                Term::Return(value) => {
                    return Ok(upper.plug_reversed(Term::Return(instance(alloc, value, with)?)));
                }
                Term::Fail(code) => return Ok(upper.plug_reversed(Term::Fail(*code))),
                Term::Call(sym, args) => {
                    let args = substituted(alloc, args.as_slice(), with)?;
                    return Ok(upper.plug_reversed(Term::Call(*sym, args)));
                }
                Term::Frame(sym, args, inner) => {
                    let args = substituted(alloc, args.as_slice(), with)?;
                    upper = Term::Frame(*sym, args, Boxed::new(alloc, upper)?);
                    here = inner.get();
                }
            }
        }
    }

    /// The same stack, each of its polynomials with those polynomials in place of their variables.
    /// Large exactly where a polynomial on the way to them passes the limits.
    pub fn subst(&self, alloc: Global, with: &[(u32, Poly)]) -> Result<Term, PolyEnd>
        ensures forms { Forms PolyEnd.Large result (term_with with.now self.now) }
        ensures value { IfOk result (λ t. (a : ℕ → ℤ) → ground_at a t ≡
            ground_at (updated_assignment a with.now) self.now) }
    {
        self.instance(alloc, Replacements::Listed(with))
    }

    /// The same stack, with the first of those polynomials in place of v0, the second in place of
    /// v1, and so on; the other variables stay. Large exactly where `subst` is, for that list.
    pub fn at_args(&self, alloc: Global, args: &[Poly]) -> Result<Term, PolyEnd>
        ensures forms { Forms PolyEnd.Large result (term_with (numbered args.now) self.now) }
        ensures value { IfOk result (λ t. (a : ℕ → ℤ) → ground_at a t ≡
            ground_at (updated_assignment a (numbered args.now)) self.now) }
    {
        self.instance(alloc, Replacements::InOrder(args))
    }
}
