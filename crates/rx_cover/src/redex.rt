//! The shapes of redexes that have one symbol.
ghost use Rattle.std.specs.Prelude.{◌≡◌};
ghost use Rattle.rx_cover.specs.Covering.{symbol};
ghost use Rattle.rx_cover.specs.Redexes.{shape_at};
ghost use Rattle.rx_term.specs.Shapes.{Fail, Return, same_shape, shape_of};

use rx_term::Term;

/// What a redex is, but for its symbol and its arguments.
#[derive(Clone, Copy)]
pub enum Redex {
    /// A call.
    Call,
    /// A frame over a returned value.
    OverReturn,
    /// A frame over a failure with that code.
    OverFail(u8),
}

/// Whether the term is such a redex of the symbol with that number.
pub fn is_redex_of(term: &Term, sym: usize, redex: Redex) -> bool
    ensures { result ≡ same_shape (shape_of term.now) (shape_at (symbol sym) redex) }
{
    match (term, redex) {
        (Term::Call(f, _), Redex::Call) => f.0 as usize == sym,
        (Term::Frame(f, _, inner), Redex::OverReturn) => {
            f.0 as usize == sym && is_returned(inner.get())
        }
        (Term::Frame(f, _, inner), Redex::OverFail(code)) => {
            f.0 as usize == sym && is_failure(inner.get(), code)
        }
        _ => false,
    }
}

/// Whether the term is a returned value.
fn is_returned(term: &Term) -> bool
    ensures { result ≡ same_shape (shape_of term.now) Return }
{
    match term {
        Term::Return(_) => true,
        _ => false,
    }
}

/// Whether the term is a failure with that code.
fn is_failure(term: &Term, code: u8) -> bool
    ensures { result ≡ same_shape (shape_of term.now) (Fail code) }
{
    match term {
        Term::Fail(other) => *other == code,
        _ => false,
    }
}
