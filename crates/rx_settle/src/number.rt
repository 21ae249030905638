//! Numbers as steps have them.
ghost use Rattle.std.specs.Prelude.{◌≡◌, IfOk};

use rx_plain::NoMemory;

/// The number of a rule or of a place, as steps have it. What has more of these fits no memory.
pub(crate) fn to_u32(number: usize) -> Result<u32, NoMemory>
    ensures { IfOk result (λ n. n ≡ number) }
{
    match u32::try_from(number) {
        Ok(number) => Ok(number),
        Err(_) => Err(NoMemory),
    }
}
