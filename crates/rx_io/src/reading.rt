//! A whole file in memory.
ghost use Rattle.std.specs.Prelude.{◌≡◌, ◌≤◌, ◌⊎◌, length, IfOk, IsErrOf};
ghost use Rattle.rx_io.specs.Outside.{Rose, IsMissing, HoldsBytes, HoldsMore};

use crate::Files;
use std::alloc::Global;
use thiserror::Error;

/// Why a file was not read.
#[derive(Clone, Copy, Debug, PartialEq, Eq, Error)]
pub enum ReadEnd {
    /// A call on the files failed, or they don't hold the name.
    #[error("the file can't be read")]
    Failed,
    /// The file has more bytes than the limit.
    #[error("the file is too long")]
    TooLong,
    /// There was no memory for the content.
    #[error("no memory")]
    NoMemory,
}

// The most bytes that one call takes.
const PIECE: usize = 4096;

/// The whole content of the named file, of at most `limit` bytes.
///
/// `Failed` comes only where the count of faults rose, or where the name isn't held; `TooLong` exactly where the content
/// has more than `limit` bytes and nothing failed before.
pub fn read_all<F: Files>(
    alloc: Global,
    files: &mut F,
    name: &str,
    limit: u32,
) -> Result<Vec<u8>, ReadEnd>
    ensures reach { F.reaches files.old files.new }
    ensures held { F.held files.new ≡ F.held files.old }
    ensures later { F.faults files.old ≤ F.faults files.new }
    ensures content { IfOk result (λ bytes. HoldsBytes (F.held files.old) name.now bytes.items) }
    ensures within { IfOk result (λ bytes. length bytes.items ≤ limit) }
    ensures failed { IsErrOf result ReadEnd.Failed →
        Rose (F.faults files.old) (F.faults files.new) ⊎ IsMissing (F.held files.old) name.now }
    ensures missing { IsMissing (F.held files.old) name.now → IsErrOf result ReadEnd.Failed }
    ensures long { IsErrOf result ReadEnd.TooLong → HoldsMore (F.held files.old) name.now limit }
{
    let Ok(()) = files.open(name) else {
        return Err(ReadEnd::Failed);
    };
    let most = limit as usize;
    let mut bytes = Vec::new(alloc);
    let mut piece = [0u8; PIECE];
    loop {
        let Ok(count) = files.take(&mut piece) else {
            return Err(ReadEnd::Failed);
        };
        if count == 0 {
            return Ok(bytes);
        }
        if count > most - bytes.len() {
            return Err(ReadEnd::TooLong);
        }
        if bytes.extend_from_slice(&piece[..count]).is_err() {
            return Err(ReadEnd::NoMemory);
        }
    }
}
