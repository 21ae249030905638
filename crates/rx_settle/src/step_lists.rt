//! Lists of steps that nodes of a search share.
ghost use Rattle.std.specs.Prelude.{◌≡◌, ◌++◌, IfOk, OnOk};

use rx_inference::Step;
use rx_plain::{Items, NoMemory, Shared};
use std::alloc::Global;

/// The same steps once more, shared with those that are given; fails only where there is no memory.
pub fn copied_steps(alloc: Global, steps: &[Shared<Step>]) -> Result<Items<Shared<Step>>, NoMemory>
    ensures { IfOk result (λ made. made ≡ steps.now) }
{
    let mut made = Items::with_capacity(alloc, steps.len())?;
    for step in steps {
        made.push(step.try_clone()?)?;
    }
    Ok(made)
}

/// The same steps, which may be shared from then on; fails only where there is no memory.
pub fn shared_steps(alloc: Global, steps: Items<Step>) -> Result<Items<Shared<Step>>, NoMemory>
    ensures { IfOk result (λ made. made ≡ steps) }
{
    let mut made = Items::with_capacity(alloc, steps.len())?;
    for step in steps.into_vec() {
        made.push(Shared::new(alloc, step)?)?;
    }
    Ok(made)
}

/// The same steps once more, which nobody else has; fails only where there is no memory.
pub fn own_steps(alloc: Global, steps: &[Shared<Step>]) -> Result<Items<Step>, NoMemory>
    ensures { IfOk result (λ made. made ≡ steps.now) }
{
    let mut made = Items::with_capacity(alloc, steps.len())?;
    for step in steps {
        made.push(step.get().try_clone(alloc)?)?;
    }
    Ok(made)
}

/// Adds steps after those that are there, which may be shared from then on; fails only where there
/// is no memory.
pub fn append_steps(
    alloc: Global,
    steps: &mut Items<Shared<Step>>,
    more: Items<Step>,
) -> Result<(), NoMemory>
    ensures { OnOk result (steps.new ≡ steps.old ++ more) }
{
    let fresh = shared_steps(alloc, more)?;
    Ok(steps.append(fresh)?)
}
