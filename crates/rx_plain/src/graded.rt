//! A growing list whose order counts before it compares: the longer list comes first.
ghost use Rattle.std.specs.Prelude.{◌≡◌, [], ◌∷◌, ◌++◌, ◌≤◌, length, insert, ◌↔◌, IsTrue, IfOk, MatchOption, OnOk, OnErr};
ghost use Rattle.std.specs.Cmp.Lexicographic.{pointwise, lists_per, lists_equiv};
ghost use Rattle.rx_plain.specs.Graded.{graded_cmp, graded_partial_cmp, graded_order, graded_total, graded_agrees, graded_ties};

use std::alloc::{AllocError, Global};
use std::cmp::Ordering;
use std::hash::{Hash, Hasher};
use std::marker::Model;

/// A list on the heap. Of two lists the one with more elements comes first; lists of one length are
/// ordered by their first elements that differ. Equality is that of the elements.
#[derive(Debug, Drop)]
pub struct Graded<T> {
    items: Vec<T>,
}

impl<T> Model for Graded<T> {
    ghost use Rattle.std.specs.Prelude.{List};
    ghost use Rattle.std.specs.Coded.{coded_list};

    ghost Value = { List T };

    ghost coded = { coded_list T.code };

    ghost view = { λ it. it.items.items };
}

impl<T> Graded<T> {
    /// The empty list, which comes last of all. Takes no memory until something is added.
    pub fn new(alloc: Global) -> Graded<T>
        ensures { result ≡ [] }
    {
        Graded {
            items: Vec::new(alloc),
        }
    }

    /// The empty list with room for `count` elements; fails only where there is no memory.
    pub fn with_capacity(alloc: Global, count: usize) -> Result<Graded<T>, AllocError>
        ensures { IfOk result (λ it. it ≡ []) }
    {
        let items = Vec::with_capacity(alloc, count)?;
        Ok(Graded { items })
    }

    /// Makes room for `more` more elements, so that adding them takes no memory; the elements stay
    /// as they were, also where there is no memory.
    pub fn reserve(&mut self, more: usize) -> Result<(), AllocError>
        ensures { self.new ≡ self.old }
    {
        self.items.reserve(more)
    }

    /// The elements of `items`, moved. Takes no memory.
    pub fn from_vec(items: Vec<T>) -> Graded<T>
        ensures { result ≡ items.items }
    {
        Graded { items }
    }

    /// The elements as a `Vec`, moved. Takes no memory.
    pub fn into_vec(self) -> Vec<T>
        ensures { result.items ≡ self }
    {
        let Graded { items } = self;
        items
    }

    /// The elements, borrowed.
    pub fn as_slice(&self) -> &[T]
        ensures { result.now ≡ self.now }
    {
        self.items.as_slice()
    }

    /// How many elements there are.
    pub fn len(&self) -> usize
        ensures { result ≡ length self.now }
    {
        self.items.len()
    }

    /// Whether there is no element.
    pub fn is_empty(&self) -> bool
        ensures { IsTrue result ↔ (self.now ≡ []) }
    {
        self.items.is_empty()
    }

    /// Takes the last element off, if there is one.
    pub fn pop(&mut self) -> Option<T>
        ensures { MatchOption result ((self.old ≡ []) × (self.new ≡ []))
            (λ last. self.old ≡ self.new ++ last ∷ []) }
    {
        self.items.pop()
    }
}

impl<T: Drop> Graded<T> {
    /// Adds `item` after the last element; where there is no memory the list stays as it was and
    /// `item` is let go.
    pub fn push(&mut self, item: T) -> Result<(), AllocError>
        ensures ok { OnOk result (self.new ≡ self.old ++ item ∷ []) }
        ensures err { OnErr result (self.new ≡ self.old) }
    {
        self.items.push(item)?;
        Ok(())
    }

    /// Inserts `item` before the element at `at`; where there is no memory the list stays as it was
    /// and `item` is let go.
    pub fn insert(&mut self, at: usize, item: T) -> Result<(), AllocError>
        requires { at ≤ length self.old }
        ensures ok { OnOk result (self.new ≡ insert self.old at item) }
        ensures err { OnErr result (self.new ≡ self.old) }
    {
        self.items.insert(at, item)?;
        Ok(())
    }
}

impl<T: PartialEq> PartialEq for Graded<T> {
    ghost eq = { pointwise T.eq };

    ghost laws = { lists_per T.laws };

    fn eq(&self, other: &Graded<T>) -> bool {
        self.items.as_slice() == other.items.as_slice()
    }
}

impl<T: Eq> Eq for Graded<T> {
    ghost laws = { lists_equiv T.Eq.laws };
}

impl<T: PartialOrd> PartialOrd for Graded<T> {
    ghost partial_cmp = { graded_partial_cmp T.partial_cmp };

    ghost laws = { graded_order T.PartialOrd.laws };

    fn partial_cmp(&self, other: &Graded<T>) -> Option<Ordering> {
        match other.items.len().cmp(&self.items.len()) {
            Ordering::Less => Some(Ordering::Less),
            Ordering::Equal => self.items.as_slice().partial_cmp(&other.items.as_slice()),
            Ordering::Greater => Some(Ordering::Greater),
        }
    }
}

impl<T: Ord> Ord for Graded<T> {
    ghost cmp = { graded_cmp T.cmp };

    ghost total = { graded_total T.total };

    ghost matches_partial_cmp = { graded_agrees T.matches_partial_cmp };

    ghost matches_eq = { graded_ties T.cmp T.matches_eq };

    fn cmp(&self, other: &Graded<T>) -> Ordering {
        match other.items.len().cmp(&self.items.len()) {
            Ordering::Less => Ordering::Less,
            Ordering::Equal => self.items.as_slice().cmp(&other.items.as_slice()),
            Ordering::Greater => Ordering::Greater,
        }
    }
}

impl<T: Hash> Hash for Graded<T> {
    ghost use Rattle.std.specs.Hash as fed;
    ghost use Rattle.std.specs.Hash.{items_Alike};

    ghost hash_input = { fed.slice T.hash_input };

    ghost respects_eq = { (items_Alike (record { fed = T.respects_eq })).fed };

    fn hash<H: Hasher>(&self, state: &mut H) {
        self.items.as_slice().hash(state)
    }
}
