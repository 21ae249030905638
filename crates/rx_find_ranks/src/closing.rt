//! Closing pairs: a pair that falls by a column is closed by the certificates of the columns before
//! and those of its fall.
ghost use Rattle.std.specs.Prelude.{◌≡◌, ◌++◌, ◌∷◌, [], IfOk, OnOk, Some, slice_set};
ghost use Rattle.rx_find_ranks.specs.Closing.{close_all, closing, fallen, fitted, left_open};
ghost use Rattle.rx_find_ranks.specs.Closing.{with_certs};

use crate::open_pair::OpenPair;
use rx_cert::Cert;
use rx_pairs::PairCert;
use rx_plain::{Items, NoMemory};
use std::alloc::Global;

/// Sets the certificate of the pair with that number, where there is one.
fn close(closed: &mut Vec<Option<PairCert>>, number: usize, cert: PairCert)
    ensures { closed.new.items ≡ slice_set closed.old.items number (Some cert) }
{
    if number < closed.len() {
        closed[number] = Some(cert);
    }
}

/// Closes the pair by its certificates: it falls by the column with that number, counted from 1. What
/// is closed is by the numbers of pairs; a number past its end changes nothing.
pub fn close_entry(closed: &mut Vec<Option<PairCert>>, column: u32, entry: OpenPair)
    ensures { closed.new.items ≡ slice_set closed.old.items entry.number
        (Some (closing column entry)) }
{
    let cert = PairCert {
        column,
        certs: entry.certs,
    };
    close(closed, entry.number, cert);
}

/// The open pair with more certificates.
fn with_certs(entry: OpenPair, more: Items<Cert>) -> Result<OpenPair, NoMemory>
    ensures { IfOk result (λ after. after ≡ with_certs entry more) }
{
    let OpenPair {
        number,
        pair,
        certs,
    } = entry;
    let mut certs = certs;
    certs.append(more)?;
    Ok(OpenPair {
        number,
        pair,
        certs,
    })
}

/// The pair stays open with the certificates by which the column with that number holds, or, where
/// it falls, is closed with those of that.
fn close_one(
    left: &mut Vec<OpenPair>,
    closed: &mut Vec<Option<PairCert>>,
    column: u32,
    entry: OpenPair,
    held: Items<Cert>,
    fall: Option<Items<Cert>>,
) -> Result<(), NoMemory>
    ensures staying { OnOk result (left.new.items ≡
        left.old.items ++ left_open (((entry, held), fall) ∷ [])) }
    ensures leaving { OnOk result (closed.new.items ≡
        close_all column closed.old.items (fallen (((entry, held), fall) ∷ []))) }
{
    match fall {
        None => {
            left.push(with_certs(entry, held)?)?;
            Ok(())
        }
        Some(more) => {
            close_entry(closed, column, with_certs(entry, more)?);
            Ok(())
        }
    }
}

/// The pairs that stay open after a column of polynomials with that number, at which it doesn't
/// fall; the others are closed by it. For each pair there are the certificates by which the column
/// holds, and where it falls those of that; pairs past the end of either list are dropped. Where
/// memory runs out, some pairs may be closed already.
pub fn close_fallen(
    alloc: Global,
    column: u32,
    entries: Vec<OpenPair>,
    holds: Vec<Items<Cert>>,
    falls: Vec<Option<Items<Cert>>>,
    closed: &mut Vec<Option<PairCert>>,
) -> Result<Vec<OpenPair>, NoMemory>
    ensures staying { IfOk result (λ left. left.items ≡
        left_open (fitted entries.items holds.items falls.items)) }
    ensures leaving { OnOk result (closed.new.items ≡
        close_all column closed.old.items (fallen (fitted entries.items holds.items falls.items))) }
{
    let mut left = Vec::new(alloc);
    for ((entry, held), fall) in entries.into_iter().zip(holds).zip(falls) {
        close_one(&mut left, closed, column, entry, held, fall)?;
    }
    Ok(left)
}
