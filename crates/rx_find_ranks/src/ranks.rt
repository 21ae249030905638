//! The ranks of symbols by columns, and the certificates of all pairs.
ghost use Rattle.std.specs.Prelude.{◌≡◌, ◌≤◌, ◌^◌, IfOk, map};
ghost use Rattle.rx_anchors.specs.Members.{symbols_of};
ghost use Rattle.rx_find_ranks.specs.Closing.{cert_of};
ghost use Rattle.rx_find_ranks.specs.Columns.{columns_in, rank_at};

use crate::column::{FoundColumn, value_at};
use rx_pairs::PairCert;
use rx_plain::{Items, NoMemory};
use rx_poly::Poly;
use std::alloc::Global;

/// The rank of a symbol: what it has in all columns.
fn rank_of(alloc: Global, columns: &[FoundColumn], symbol: u32) -> Result<Items<Poly>, NoMemory>
    ensures { IfOk result (λ rank. rank ≡ rank_at (columns_in columns.now) symbol) }
{
    let mut rank = Items::new(alloc);
    for column in columns {
        rank.push(value_at(alloc, column, symbol)?)?;
    }
    Ok(rank)
}

/// The ranks of the symbols from 0 on, that many: of each what it has in all columns, in their order,
/// -1 where it has nothing. At most 2^32 symbols, since that is what a symbol's number may be.
pub fn ranks_of(
    alloc: Global,
    columns: &[FoundColumn],
    symbols: usize,
) -> Result<Items<Items<Poly>>, NoMemory>
    requires { symbols ≤ 2 ^ 32 }
    ensures { IfOk result (λ ranks. ranks ≡ map (rank_at (columns_in columns.now))
        (symbols_of symbols)) }
{
    let mut ranks = Items::new(alloc);
    for symbol in 0..symbols {
        ranks.push(rank_of(alloc, columns, symbol as u32)?)?;
    }
    Ok(ranks)
}

/// The certificates of the pairs, where each is closed. One that isn't gets a certificate of column 0,
/// which is no column, so it shows nothing.
pub fn certs_of(alloc: Global, closed: Vec<Option<PairCert>>) -> Result<Items<PairCert>, NoMemory>
    ensures { IfOk result (λ certs. certs ≡ map cert_of closed.items) }
{
    let mut certs = Items::new(alloc);
    for found in closed {
        match found {
            Some(cert) => certs.push(cert)?,
            None => certs.push(PairCert {
                column: 0,
                certs: Items::new(alloc),
            })?,
        }
    }
    Ok(certs)
}
