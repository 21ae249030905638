//! The pairs of open pairs, borrowed.
ghost use Rattle.std.specs.Prelude.{◌≡◌, IfOk};
ghost use Rattle.rx_rank.specs.Answers.{pairs_at};
ghost use Rattle.rx_find_ranks.specs.Tables.{pairs_open};

use crate::open_pair::OpenPair;
use rx_pairs::Pair;
use rx_plain::NoMemory;
use std::alloc::Global;

/// The pairs of the entries, borrowed.
pub(crate) fn pairs_of(alloc: Global, entries: &[OpenPair]) -> Result<Vec<&Pair>, NoMemory>
    ensures { IfOk result (λ pairs. pairs_at pairs.items ≡ pairs_open entries.now) }
{
    let mut pairs = Vec::new(alloc);
    for entry in entries {
        pairs.push(&entry.pair)?;
    }
    Ok(pairs)
}
