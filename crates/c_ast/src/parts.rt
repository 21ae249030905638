//! The parts of a copy that is being made. These functions know nothing of what they hand on, so
//! that a copy that fails lets go of its parts here, and not at each way out of the calls that copy
//! trees.
ghost use Rattle.std.specs.Prelude.{◌≡◌, ◌++◌, ◌∷◌, [], Ok, IfOk, IsOkAnd};

use rx_plain::{Boxed, Items, NoMemory};
use std::alloc::Global;

/// The list with the item after its last one, where there was memory for the item and its place.
pub(crate) fn extended<T: Drop>(
    items: Items<T>,
    item: Result<T, NoMemory>,
) -> Result<Items<T>, NoMemory>
    ensures { IfOk result (λ longer. IsOkAnd item (λ last. longer ≡ items ++ last ∷ [])) }
{
    let mut longer = items;
    longer.push(item?)?;
    Ok(longer)
}

/// The value in a box, where there was memory for both.
pub(crate) fn in_box<T: Drop>(
    alloc: Global,
    value: Result<T, NoMemory>,
) -> Result<Boxed<T>, NoMemory>
    ensures { IfOk result (λ boxed. value ≡ Ok boxed) }
{
    let boxed = Boxed::new(alloc, value?)?;
    Ok(boxed)
}
