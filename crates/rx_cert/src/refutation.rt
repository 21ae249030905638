//! Whether a certificate refutes rows, and whether rows show a row.
ghost use Rattle.std.specs.Prelude.{◌≡◌, ℕ, ℤ, IsTrue, IfOk, IfErr, OnOk};
ghost use Rattle.rx_cert.specs.Examination.{verdict, row_finding};
ghost use Rattle.rx_cert.specs.Findings.{Beyond, said};
ghost use Rattle.rx_row.specs.Holds.{AllHold, RowHolds};

use crate::cert::Cert;
use crate::examination::examine;
use rx_poly::PolyEnd;
use rx_row::{Constraint, Row};
use std::alloc::{AllocError, Global};

/// A copy of the rows.
pub(crate) fn copy_rows(alloc: Global, rows: &[Row]) -> Result<Vec<Row>, AllocError>
    ensures { IfOk result (λ v. v.items ≡ rows.now) }
{
    let mut copies = Vec::new(alloc);
    for row in rows {
        copies.push(row.try_clone(alloc)?)?;
    }
    Ok(copies)
}

/// Whether the certificate refutes the rows with the negation of one more after them, also where
/// that is there already. The rows are the same again after it.
pub(crate) fn examine_negation(
    alloc: Global,
    rows: &mut Vec<Row>,
    row: &Row,
    cert: &Cert,
) -> Result<bool, PolyEnd>
    ensures answer { IfOk result (λ b. row_finding rows.old.items row.now cert.now ≡ said b) }
    ensures large { IfErr result (λ e. e ≡ PolyEnd.Large →
        row_finding rows.old.items row.now cert.now ≡ Beyond) }
    ensures kept { OnOk result (rows.new.items ≡ rows.old.items) }
{
    let count = rows.len();
    let negation = row.negate(alloc)?;
    rows.push(negation).map_err(AllocError::from)?;
    let found = examine(alloc, rows, cert)?;
    rows.truncate(count);
    Ok(found)
}

/// Whether the certificate refutes the rows: then no assignment of integers meets them. Its parts
/// are examined from left to right, and the first that is false ends the examination. Large exactly
/// where a polynomial passes the limits before that.
pub fn shows(alloc: Global, rows: &Constraint, cert: &Cert) -> Result<bool, PolyEnd>
    ensures answer { IfOk result (λ b. verdict rows.now cert.now ≡ said b) }
    ensures refuted { IfOk result (λ b. IsTrue b → (a : ℕ → ℤ) → ¬ (AllHold a rows.now)) }
    ensures large { IfErr result (λ e. e ≡ PolyEnd.Large → verdict rows.now cert.now ≡ Beyond) }
{
    let mut lent = copy_rows(alloc, rows.rows())?;
    examine(alloc, &mut lent, cert)
}

/// Whether the certificate refutes the rows with the negation of the row after them: then the row
/// holds under each assignment that meets the rows. Large exactly where the negation, or a
/// polynomial on the way of the certificate, passes the limits before the answer is found.
pub fn shows_row(alloc: Global, rows: &Constraint, row: &Row, cert: &Cert) -> Result<bool, PolyEnd>
    ensures answer { IfOk result (λ b. row_finding rows.now row.now cert.now ≡ said b) }
    ensures holds { IfOk result (λ b. IsTrue b → (a : ℕ → ℤ) → AllHold a rows.now →
        RowHolds a row.now) }
    ensures large { IfErr result (λ e. e ≡ PolyEnd.Large → row_finding rows.now row.now cert.now ≡
        Beyond) }
{
    let mut lent = copy_rows(alloc, rows.rows())?;
    examine_negation(alloc, &mut lent, row, cert)
}
