//! Lists of rows, all of which are to hold.
ghost use Rattle.std.specs.Prelude.{◌≡◌, ◌↔◌, true, false, ℕ, ℤ, [], ◌∷◌, ◌++◌, take, Contains, IsTrue, IsOk, IfOk, OnOk, OnErr};
ghost use Rattle.rx_plain.specs.Formed.{Forms, FormsAs};
ghost use Rattle.rx_row.specs.Digest.{rows_digest};
ghost use Rattle.rx_row.specs.Holds.{AllHold, RowHolds};
ghost use Rattle.rx_row.specs.Membership.{pushed};
ghost use Rattle.rx_row.specs.Substitution.{pushed_with, rows_with};
ghost use Rattle.rx_poly.specs.Substitution.{numbered, updated_assignment};

use crate::row::Row;
use rx_plain::{Items, NoMemory};
use rx_poly::{Poly, PolyEnd, digest_with};
use std::alloc::{AllocError, Global};
use std::hash::{Hash, Hasher};
use std::marker::Model;

/// A list of rows, all of which are to hold.
#[derive(Debug, Drop, PartialEq, Eq, PartialOrd, Ord)]
pub struct Constraint {
    rows: Items<Row>,
}

impl Model for Constraint {
    ghost use Rattle.std.specs.Prelude.{List};
    ghost use Rattle.std.specs.Coded.{codes};
    ghost use Rattle.rx_row.specs.contracts.row.Row as row_row;
    ghost use Rattle.rx_row.specs.declared.row.Row.{Row};

    ghost Value = { List Row };

    ghost coded = { Prim.hlevel (codes, row_row.the_row.coded) };

    ghost view = { λ c. c.rows };

    ghost inverse = { λ rows. record { rows = rows } };
}

/// One number made of the rows in order.
fn rows_digest(rows: &[Row]) -> u128
    ensures { result ≡ rows_digest rows.now }
{
    let mut digest = 0;
    for row in rows {
        digest = digest_with(digest, row.digest());
    }
    digest
}

/// The rows feed a hash function one number.
impl Hash for Constraint {
    ghost use Rattle.rx_row.specs.Digest.{fed_of_rows, rows_fed_alike};

    ghost hash_input = { fed_of_rows };

    ghost respects_eq = { rows_fed_alike };

    fn hash<H: Hasher>(&self, state: &mut H) {
        state.write_u128(rows_digest(self.rows.as_slice()));
    }
}

/// Adds the row after the others, with those polynomials in place of their variables.
fn push_substituted(
    rows: &mut Vec<Row>,
    alloc: Global,
    row: &Row,
    with: &[(u32, Poly)],
) -> Result<(), PolyEnd>
    ensures forms { FormsAs (λ _. rows.new.items) PolyEnd.Large result
        (pushed_with rows.old.items with.now row.now) }
{
    let changed = row.subst(alloc, with)?;
    rows.push(changed).map_err(AllocError::from)?;
    Ok(())
}

/// As many rows in the same order, each with those polynomials in place of their variables. Large
/// exactly where a polynomial on the way to one of them passes the limits.
pub fn subst_rows(alloc: Global, rows: &[Row], with: &[(u32, Poly)]) -> Result<Vec<Row>, PolyEnd>
    ensures forms { FormsAs (λ v. v.items) PolyEnd.Large result (rows_with with.now rows.now) }
{
    let mut changed = Vec::with_capacity(alloc, rows.len())?;
    for row in rows {
        push_substituted(&mut changed, alloc, row, with)?;
    }
    Ok(changed)
}

/// Adds the row after the others, with those polynomials in place of v0, v1, and so on.
fn push_at_args(rows: &mut Vec<Row>, alloc: Global, row: &Row, args: &[Poly]) -> Result<(), PolyEnd>
    ensures forms { FormsAs (λ _. rows.new.items) PolyEnd.Large result
        (pushed_with rows.old.items (numbered args.now) row.now) }
{
    let instance = row.at_args(alloc, args)?;
    rows.push(instance).map_err(AllocError::from)?;
    Ok(())
}

/// As many rows in the same order, each with the first of those polynomials in place of v0, the
/// second in place of v1, and so on. Large exactly where `subst_rows` is, for that list.
pub fn rows_at_args(alloc: Global, rows: &[Row], args: &[Poly]) -> Result<Vec<Row>, PolyEnd>
    ensures { FormsAs (λ v. v.items) PolyEnd.Large result (rows_with (numbered args.now) rows.now) }
{
    let mut instances = Vec::with_capacity(alloc, rows.len())?;
    for row in rows {
        push_at_args(&mut instances, alloc, row, args)?;
    }
    Ok(instances)
}

impl Constraint {
    /// Exactly these rows, in their order, also where one occurs there twice. Takes no memory.
    pub fn from_rows(rows: Vec<Row>) -> Constraint
        ensures { result ≡ rows.items }
    {
        Constraint {
            rows: Items::from_vec(rows),
        }
    }

    /// The rows in order, borrowed.
    pub fn rows(&self) -> &[Row]
        ensures { result.now ≡ self.now }
    {
        self.rows.as_slice()
    }

    /// Whether the row is there. Takes no memory.
    pub fn contains(&self, row: &Row) -> bool
        ensures { IsTrue result ↔ Contains self.now row.now }
    {
        for standing in self.rows.as_slice() {
            if standing.is_same(row) {
                return true;
            }
        }
        false
    }

    /// Adds the row after the others, unless it is there; such a row changes nothing. Where there
    /// is no memory the rows stay as they were.
    pub fn push(&mut self, row: Row) -> Result<(), NoMemory>
        ensures known { Contains self.old row → self.new ≡ self.old }
        ensures ready { Contains self.old row → IsOk result }
        ensures new { OnOk result (¬ (Contains self.old row) → self.new ≡ self.old ++ row ∷ []) }
        ensures holds { OnOk result ((a : ℕ → ℤ) →
            AllHold a self.new ↔ (AllHold a self.old × RowHolds a row)) }
        ensures refused { OnErr result (self.new ≡ self.old) }
        ensures pushed { OnOk result (self.new ≡ pushed self.old row) }
    {
        if self.contains(&row) {
            return Ok(());
        }
        self.rows.push(row)?;
        Ok(())
    }

    /// Adds the row after the others, also where it is one of them. Where there is no memory the
    /// rows stay as they were.
    pub fn append(&mut self, row: Row) -> Result<(), NoMemory>
        ensures ok { OnOk result (self.new ≡ self.old ++ row ∷ []) }
        ensures err { OnErr result (self.new ≡ self.old) }
    {
        Ok(self.rows.push(row)?)
    }

    /// Lets go of the rows after the first `count`, where there are more.
    pub fn truncate(&mut self, count: usize)
        ensures { self.new ≡ take count self.old }
    {
        self.rows.truncate(count)
    }

    /// The rows in order, moved out. Takes no memory.
    pub fn into_rows(self) -> Vec<Row>
        ensures { result.items ≡ self }
    {
        let Constraint { rows } = self;
        rows.into_vec()
    }

    /// As many rows in the same order, each with those polynomials in place of their variables.
    /// Large exactly where a polynomial on the way to one of them passes the limits.
    pub fn subst(&self, alloc: Global, with: &[(u32, Poly)]) -> Result<Constraint, PolyEnd>
        ensures forms { Forms PolyEnd.Large result (rows_with with.now self.now) }
        ensures holds { IfOk result (λ c. (a : ℕ → ℤ) →
            AllHold a c ↔ AllHold (updated_assignment a with.now) self.now) }
    {
        let rows = subst_rows(alloc, self.rows.as_slice(), with)?;
        Ok(Constraint {
            rows: Items::from_vec(rows),
        })
    }

    /// Whether the two have the same rows in the same order.
    pub fn is_same(&self, other: &Constraint) -> bool
        ensures { IsTrue result ↔ (self.now ≡ other.now) }
    {
        self.rows == other.rows
    }

    /// The same rows once more, with room for another; fails only when out of memory.
    pub fn try_clone(&self, alloc: Global) -> Result<Constraint, AllocError>
        ensures { IfOk result (λ c. c ≡ self.now) }
    {
        let mut copies = Vec::with_capacity(alloc, self.rows.len().saturating_add(1))?;
        for row in self.rows.as_slice() {
            copies.push(row.try_clone(alloc)?)?;
        }
        Ok(Constraint {
            rows: Items::from_vec(copies),
        })
    }

    /// As many rows in the same order, each with the first of those polynomials in place of v0, the
    /// second in place of v1, and so on. Large exactly where `subst` is, for that list.
    pub fn at_args(&self, alloc: Global, args: &[Poly]) -> Result<Constraint, PolyEnd>
        ensures forms { Forms PolyEnd.Large result (rows_with (numbered args.now) self.now) }
        ensures holds { IfOk result (λ c. (a : ℕ → ℤ) →
            AllHold a c ↔ AllHold (updated_assignment a (numbered args.now)) self.now) }
    {
        let rows = rows_at_args(alloc, self.rows.as_slice(), args)?;
        Ok(Constraint {
            rows: Items::from_vec(rows),
        })
    }
}
