//! The open pairs by component: for each symbol the entries of the component that it names.
ghost use Rattle.std.specs.Prelude.{◌≡◌, ◌++◌, ◌∷◌, [], IfOk, List, OnOk};
ghost use Rattle.std.specs.Prelude.{slice_get, slice_index_or, slice_set};
ghost use Rattle.rx_find_ranks.specs.Groups.{by_component, groups_in, ungrouped};
ghost use Rattle.rx_find_ranks.specs.declared.open_pair.OpenPair.{OpenPair};

use crate::open_pair::OpenPair;
use rx_plain::NoMemory;
use std::alloc::Global;

/// An empty group for each of the names.
fn empty_groups(alloc: Global, names: &[u32]) -> Result<Vec<Vec<OpenPair>>, NoMemory>
    ensures { IfOk result (λ groups. groups_in groups.items ≡ by_component names.now []) }
{
    let mut groups = Vec::new(alloc);
    for _group in 0..names.len() {
        groups.push(Vec::new(alloc))?;
    }
    Ok(groups)
}

/// The name of the symbol's component, if it has one.
fn name_of(names: &[u32], symbol: u32) -> Option<u32>
    ensures { result ≡ slice_get names.now symbol }
{
    match names.get(symbol as usize) {
        Some(name) => Some(*name),
        None => None,
    }
}

/// One entry more in the group at that place, where there is one.
fn push_at(groups: &mut Vec<Vec<OpenPair>>, at: usize, entry: OpenPair) -> Result<(), NoMemory>
    ensures { OnOk result (groups_in groups.new.items ≡ slice_set (groups_in groups.old.items) at
        (slice_index_or (groups_in groups.old.items) at [] ++ entry ∷ [])) }
{
    if at < groups.len() {
        groups[at].push(entry)?;
    }
    Ok(())
}

/// One entry more, in the group of its component.
fn put_entry(
    groups: &mut Vec<Vec<OpenPair>>,
    names: &[u32],
    entry: OpenPair,
) -> Result<(), NoMemory>
    ensures { OnOk result ((before : List OpenPair) →
        groups_in groups.old.items ≡ by_component names.now before →
        groups_in groups.new.items ≡ by_component names.now (before ++ entry ∷ [])) }
{
    match name_of(names, entry.pair.left.0) {
        Some(name) => push_at(groups, name as usize, entry),
        None => Ok(()),
    }
}

/// The entries of each component, by its name and in order: a group for each symbol, with those
/// entries whose left root is in the component that the symbol names. Entries whose left root has no
/// name, or one past the end of the names, are dropped.
pub fn group_entries(
    alloc: Global,
    names: &[u32],
    entries: Vec<OpenPair>,
) -> Result<Vec<Vec<OpenPair>>, NoMemory>
    ensures { IfOk result (λ groups.
        groups_in groups.items ≡ by_component names.now entries.items) }
{
    let mut groups = empty_groups(alloc, names)?;
    for entry in entries {
        put_entry(&mut groups, names, entry)?;
    }
    Ok(groups)
}

/// All entries, those of one group after those of another.
pub fn all_entries(alloc: Global, groups: Vec<Vec<OpenPair>>) -> Result<Vec<OpenPair>, NoMemory>
    ensures { IfOk result (λ entries. entries.items ≡ ungrouped (groups_in groups.items)) }
{
    let mut entries = Vec::new(alloc);
    for group in groups {
        let mut more = group;
        entries.append(&mut more)?;
    }
    Ok(entries)
}
