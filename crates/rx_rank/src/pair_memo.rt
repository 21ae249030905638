//! What was found out of pairs, from one fit to the next: a fit takes the pairs that it asks for
//! out of the memo, and puts them back at its end.
ghost use Rattle.std.specs.Prelude.{◌≡◌, ◌+◌, ◌≤◌, ◌↔◌, IfOk, IfSome, IsTrue, OnOk, Some};
ghost use Rattle.std.specs.Prelude.{length, min, slice_get};
ghost use Rattle.rx_rank.specs.Answers.{pairs_at};

use crate::known_pair::KnownPair;
use rx_pairs::Pair;
use rx_plain::NoMemory;
use rx_poly::are_same_polys;
use std::alloc::Global;
use std::marker::Model;

/// Of how many pairs answers are kept at most.
const MOST_PAIRS: usize = 512;

/// What was found out of pairs. It may be used with any rules and any solver. At most 512 pairs are
/// kept, where a later one may take the place of another, and of each the first 256 answers;
/// contracts see the number of the pairs.
#[derive(Drop)]
pub struct PairMemo {
    known: Vec<KnownPair>,
    /// Where the next pair goes, where there is no room for more.
    next: usize,
}

impl Model for PairMemo {
    ghost use Rattle.std.specs.Prelude.{ℕ, ◌≤◌, length};
    ghost use Rattle.std.specs.Coded.{coded_ℕ};

    ghost Value = { ℕ };

    ghost coded = { coded_ℕ };

    ghost view = { λ m. length m.known.items };

    ghost invariant = { λ m. length m.known.items ≤ 512 };
}

/// Whether both are one pair. The arguments on the right differ most often.
fn is_same_pair(first: &Pair, second: &Pair) -> bool
    ensures { IsTrue result ↔ (first.now ≡ second.now) }
{
    if first.left != second.left || first.right != second.right {
        return false;
    }
    if !are_same_polys(first.right_args.as_slice(), second.right_args.as_slice()) {
        return false;
    }
    if !are_same_polys(first.left_args.as_slice(), second.left_args.as_slice()) {
        return false;
    }
    first.phi.is_same(&second.phi)
}

/// The place of the pair, if it is there. Those that were used last are mostly at the end.
fn find_pair(known: &[KnownPair], pair: &Pair) -> Option<usize>
    ensures { IfSome result (λ at. slice_get known.now at ≡ Some pair.now) }
{
    for at in (0..known.len()).rev() {
        if is_same_pair(known[at].pair(), pair) {
            return Some(at);
        }
    }
    None
}

/// Puts the pair in the place of another one.
fn put_in_place(known: &mut Vec<KnownPair>, next: usize, pair: KnownPair)
    ensures { length known.new.items ≡ length known.old.items }
{
    let place = next % MOST_PAIRS;
    if place < known.len() {
        known[place] = pair;
    }
}

/// Takes the pair out, or makes it where it isn't there.
fn take_pair(known: &mut Vec<KnownPair>, alloc: Global, pair: &Pair) -> Result<KnownPair, NoMemory>
    ensures taken { IfOk result (λ taken. taken ≡ pair.now) }
    ensures count { length known.new.items ≤ length known.old.items }
{
    match find_pair(known.as_slice(), pair) {
        Some(at) => Ok(known.swap_remove(at)),
        None => KnownPair::new(alloc, pair),
    }
}

impl PairMemo {
    /// Nothing is found out yet. Takes no memory.
    pub fn new(alloc: Global) -> PairMemo
        ensures { result ≡ 0 }
    {
        PairMemo {
            known: Vec::new(alloc),
            next: 0,
        }
    }

    /// Takes these pairs out, with what was found out of them.
    pub(crate) fn take(
        &mut self,
        alloc: Global,
        pairs: &[&Pair],
    ) -> Result<Vec<KnownPair>, NoMemory>
        ensures { IfOk result (λ v. v.items ≡ pairs_at pairs.now) }
    {
        let mut taken = Vec::with_capacity(alloc, pairs.len())?;
        for pair in pairs {
            taken.push(take_pair(&mut self.known, alloc, *pair)?)?;
        }
        Ok(taken)
    }

    /// Keeps these pairs too; where there is no room for more, each takes the place of another one.
    pub(crate) fn put_back(&mut self, pairs: Vec<KnownPair>) -> Result<(), NoMemory>
        ensures { OnOk result (self.new ≡ min 512 (self.old + length pairs.items)) }
    {
        for pair in pairs {
            if self.known.len() < MOST_PAIRS {
                self.known.push(pair)?;
            } else {
                put_in_place(&mut self.known, self.next, pair);
                self.next = self.next.wrapping_add(1);
            }
        }
        Ok(())
    }
}
