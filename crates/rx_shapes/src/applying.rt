//! What was formed within limits, as an option.
ghost use Rattle.std.specs.Prelude.{◌≡◌, Ok, Err, IfOk, MatchOption};

use rx_plain::NoMemory;
use rx_poly::PolyEnd;

/// What was formed; None exactly where something passes the limits.
pub(crate) fn form_within<T: Drop>(formed: Result<T, PolyEnd>) -> Result<Option<T>, NoMemory>
    ensures { IfOk result (λ o. MatchOption o (formed ≡ Err PolyEnd.Large) (λ x. formed ≡ Ok x)) }
{
    match formed {
        Ok(form) => Ok(Some(form)),
        Err(PolyEnd::Large) => Ok(None),
        Err(PolyEnd::NoMemory) => Err(NoMemory),
    }
}
