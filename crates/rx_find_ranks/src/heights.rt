//! Columns of heights: the pairs between components fall, and the others hold.
ghost use Rattle.std.specs.Prelude.{◌≡◌, IfOk, OnOk};
ghost use Rattle.std.specs.List.{filter};
ghost use Rattle.rx_find_ranks.specs.Closing.{close_all};
ghost use Rattle.rx_find_ranks.specs.Between.{is_leaving, is_staying};

use crate::closing::close_entry;
use crate::open_pair::OpenPair;
use rx_pairs::PairCert;
use rx_plain::NoMemory;
use rx_rank::is_inside;
use std::alloc::Global;

/// The pairs that stay open after a column of heights with that number; the others are closed by
/// it.
pub(crate) fn close_between(
    alloc: Global,
    names: &[u32],
    column: u32,
    entries: Vec<OpenPair>,
    closed: &mut Vec<Option<PairCert>>,
) -> Result<Vec<OpenPair>, NoMemory>
    ensures staying { IfOk result (λ left.
        left.items ≡ filter (is_staying names.now) entries.items) }
    ensures leaving { OnOk result (closed.new.items ≡
        close_all column closed.old.items (filter (is_leaving names.now) entries.items)) }
{
    let mut left = Vec::new(alloc);
    for entry in entries {
        if is_inside(names, &entry.pair) {
            left.push(entry)?;
        } else {
            close_entry(closed, column, entry);
        }
    }
    Ok(left)
}
