//! How far a ranking has come: the columns so far, and which pairs they close.
ghost use Rattle.std.specs.Prelude.{◌≡◌, ◌+◌, ◌≤◌, ◌^◌, ◌↔◌, IfOk, IsTrue, List, [], length};
ghost use Rattle.rx_graph.specs.Graph.{IsOver};
ghost use Rattle.rx_pairs.specs.Graph.{edges_of};
ghost use Rattle.rx_pairs.specs.declared.pair.Pair.{Pair};
ghost use Rattle.rx_rank.specs.Components.{inside};
ghost use Rattle.rx_find_ranks.specs.Rounds.{IsBegun, IsGrown};
ghost use Rattle.rx_find_ranks.specs.Tables.{pairs_open};
ghost use Rattle.rx_term.specs.declared.rule_set.SymInfo.{SymInfo};

use crate::column::FoundColumn;
use crate::heights::close_between;
use crate::levels::find_levels;
use crate::open_pair::OpenPair;
use rx_pairs::{Pair, PairCert};
use rx_plain::{Items, NoMemory};
use std::alloc::Global;

/// The columns so far, the pairs that are open, and the certificates of those that are closed.
#[derive(Drop)]
pub(crate) struct Progress {
    /// The columns.
    pub(crate) columns: Vec<FoundColumn>,
    /// The open pairs.
    pub(crate) entries: Vec<OpenPair>,
    /// For each pair that is closed its certificate.
    pub(crate) closed: Vec<Option<PairCert>>,
}

impl Progress {
    /// Whether no pair is open.
    pub(crate) fn is_done(&self) -> bool
        ensures { IsTrue result ↔ (self.now.entries.items ≡ []) }
    {
        self.entries.as_slice().is_empty()
    }
}

/// No column, and all pairs open.
pub(crate) fn begin(alloc: Global, pairs: Vec<Pair>) -> Result<Progress, NoMemory>
    ensures { IfOk result (IsBegun pairs.items) }
{
    let mut entries = Vec::new(alloc);
    let mut closed = Vec::new(alloc);
    for pair in pairs {
        let number = entries.len();
        entries.push(OpenPair {
            number,
            pair,
            certs: Items::new(alloc),
        })?;
        closed.push(None)?;
    }
    Ok(Progress {
        columns: Vec::new(alloc),
        entries,
        closed,
    })
}

/// One column more, of heights: the pairs between components are closed.
pub(crate) fn add_heights(
    alloc: Global,
    symbols: usize,
    progress: Progress,
) -> Result<Progress, NoMemory>
    requires over { IsOver symbols (edges_of (pairs_open progress.entries.items)) }
    requires few { symbols ≤ 2 ^ 32 }
    requires width { length progress.columns.items ≤ 14 }
    ensures pairs { IfOk result (λ after. pairs_open after.entries.items ≡
        inside symbols (pairs_open progress.entries.items)) }
    ensures grown { IfOk result (λ after. (infos : List SymInfo) → symbols ≡ length infos →
        IsGrown infos progress after) }
    ensures count { IfOk result (λ after.
        length after.columns.items ≡ length progress.columns.items + 1) }
{
    let Progress {
        columns,
        entries,
        closed,
    } = progress;
    let mut columns = columns;
    let mut closed = closed;
    let levels = find_levels(alloc, symbols, entries.as_slice())?;
    columns.push(FoundColumn::Heights(levels.heights))?;
    let number = columns.len() as u32;
    let left = close_between(alloc, levels.names.as_slice(), number, entries, &mut closed)?;
    Ok(Progress {
        columns,
        entries: left,
        closed,
    })
}
