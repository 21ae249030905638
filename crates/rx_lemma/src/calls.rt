//! The call that a term ends in.
ghost use Rattle.rx_lemma.specs.Calls.{IsCall, call_of};

use rx_poly::Poly;
use rx_term::{Sym, Term};

/// A call, borrowed.
#[derive(Clone, Copy)]
pub struct Call<'a> {
    /// Its symbol.
    pub symbol: Sym,
    /// Its polynomials.
    pub arguments: &'a [Poly],
}

/// The call under all frames of the term; None where it ends in a result. Takes no memory.
pub fn call_of(term: &Term) -> Option<Call<'_>>
    ensures { IsCall (call_of term.now) result }
{
    let mut here = term;
    loop {
        match here {
            Term::Return(_) => return None,
            Term::Fail(_) => return None,
            Term::Call(sym, args) => {
                let arguments = args.as_slice();
                return Some(Call {
                    symbol: *sym,
                    arguments,
                });
            }
            Term::Frame(_, _, inner) => here = inner.get(),
        }
    }
}
