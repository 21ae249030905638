//! Where to look for an element of a list: by hash the place of the last element with such a hash.
//! Each element names the place of the one before it, so those with one hash form a chain. All this
//! is a hint: an element that is met is compared before it is used.

use rx_plain::NoMemory;
use std::alloc::Global;

/// How many chains there are.
const CHAINS: usize = 256;

/// By hash the place of the last element with such a hash.
#[derive(Drop)]
pub(crate) struct LastPlaces {
    last: Vec<Option<u32>>,
}

impl LastPlaces {
    /// No element is anywhere.
    pub(crate) fn new(alloc: Global) -> Result<LastPlaces, NoMemory> {
        let mut last = Vec::with_capacity(alloc, CHAINS)?;
        for _chain in 0..CHAINS {
            last.push(None)?;
        }
        Ok(LastPlaces { last })
    }

    /// The place of the last element of the hash's chain, if there is one.
    pub(crate) fn last(&self, hash: u32) -> Option<u32> {
        let chain = hash as usize % CHAINS;
        match self.last.get(chain) {
            Some(place) => *place,
            None => None,
        }
    }

    /// Puts an element at the end of the hash's chain: the place of the one before it, if there is
    /// one.
    pub(crate) fn put(&mut self, hash: u32, place: u32) -> Option<u32> {
        let before = self.last(hash);
        let chain = hash as usize % CHAINS;
        if chain < self.last.len() {
            self.last[chain] = Some(place);
        }
        before
    }
}
