//! What is found on both sides of a case split. These functions know nothing of what they hand on,
//! so that no more than they need is let go of at each way out.
ghost use Rattle.std.specs.Prelude.{◌≡◌, Ok, Err, IfErr, IfOk, IfSome, option_map};

use rx_fm::FmEnd;
use rx_plain::Boxed;
use std::alloc::{AllocError, Global};

/// Both in boxes, where the second is found too.
pub(crate) fn both_boxed<T: Drop>(
    alloc: Global,
    first: T,
    second: Result<Option<T>, FmEnd>,
) -> Result<Option<(Boxed<T>, Boxed<T>)>, FmEnd>
    ensures found { IfOk result (λ o. second ≡ Ok (option_map (λ both. both.1) o)) }
    ensures first { IfOk result (λ o. IfSome o (λ both. both.0 ≡ first)) }
    ensures large { IfErr result (λ e. e ≡ FmEnd.Large → second ≡ Err FmEnd.Large) }
{
    let Some(second) = second? else {
        return Ok(None);
    };
    let first = Boxed::new(alloc, first)?;
    let second = Boxed::new(alloc, second)?;
    Ok(Some((first, second)))
}

/// The first, where it was made, and the second in a box.
pub(crate) fn with_boxed<T: Drop, U: Drop>(
    alloc: Global,
    first: Result<T, AllocError>,
    second: U,
) -> Result<(T, Boxed<U>), AllocError>
    ensures first { IfOk result (λ both. first ≡ Ok both.0) }
    ensures second { IfOk result (λ both. both.1 ≡ second) }
{
    let first = first?;
    let second = Boxed::new(alloc, second)?;
    Ok((first, second))
}
