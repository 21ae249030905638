//! The calls on one object in memory, counted together from 1.
ghost use Rattle.std.specs.Prelude.{◌≡◌, ◌≤◌};
ghost use Rattle.rx_io.specs.Calls.{is_listed};

/// Whether the number of the call that follows that many others is in the list.
pub fn is_listed(numbers: &[u64], calls: u64) -> bool
    ensures { result ≡ is_listed numbers.now calls }
{
    numbers
        .iter()
        .any(|&number| number as u128 == calls as u128 + 1)
}
