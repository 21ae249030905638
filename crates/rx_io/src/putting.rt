//! Bytes written to a sink, to the last.
ghost use Rattle.std.specs.Prelude.{◌≤◌, OnOk, OnErr};
ghost use Rattle.std.specs.Io.KnownBytes.{Appends};
ghost use Rattle.rx_io.specs.Outside.{Rose, AppendsPrefix};
ghost use Rattle.rx_io.specs.Puts.{PutsAll};

use crate::Sink;
use thiserror::Error;

/// Why not all bytes were written.
#[derive(Clone, Copy, Debug, PartialEq, Eq, Error)]
pub enum PutEnd {
    /// A write failed.
    #[error("the output failed")]
    Failed,
    /// A write of a nonempty piece took nothing.
    #[error("the output takes nothing more")]
    Stuck,
}

/// Writes all bytes. It takes no memory.
///
/// After an error a proper prefix of `bytes` was written. `Failed` comes exactly where a write
/// failed, `Stuck` exactly where a write of a nonempty piece answered 0; either ends the run, so no
/// write follows it.
pub fn put_all<O: Sink>(out: &mut O, bytes: &[u8]) -> Result<(), PutEnd>
    ensures reach { O.reaches out.old out.new }
    ensures later { O.faults out.old ≤ O.faults out.new }
    ensures ok { OnOk result (Appends (O.contents out.old) (O.contents out.new) bytes.now) }
    ensures err { OnErr result (AppendsPrefix (O.contents out.old) (O.contents out.new) bytes.now) }
    ensures cause { OnErr result (Rose (O.faults out.old) (O.faults out.new)) }
    ensures run { PutsAll O.puts out.old bytes.now result out.new }
{
    let mut rest = bytes;
    while !rest.is_empty() {
        let Ok(count) = out.put(rest) else {
            return Err(PutEnd::Failed);
        };
        if count == 0 {
            return Err(PutEnd::Stuck);
        }
        rest = &rest[count..];
    }
    Ok(())
}
