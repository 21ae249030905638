//! The run over files and a sink in memory.
ghost use Rattle.std.specs.Prelude.{◌≡◌, [], map, string_bytes, Some};
ghost use Rattle.rx_io.specs.MemoryFiles as kept;
ghost use Rattle.rx_io.specs.MemorySink as sink;
ghost use Rattle.rx_io.specs.Outside.{Rose};
ghost use Rattle.rx_cli.specs.Answers.{AreEqual, IsRefutedBy};
ghost use Rattle.rx_cli.specs.Completeness.{CanShow, SaysYes};
ghost use Rattle.rx_cli.specs.InMemory.{IsAbsent, IsTooLong};
ghost use Rattle.rx_cli.specs.Run.{RunEnds};

use crate::{Status, run};
use rx_io::{MemoryFiles, MemorySink};
use std::alloc::Global;

/// Runs the program over memory in which no call is made to fail: then a read fault says that a
/// file isn't held, and a write fault that the report is longer than the room left. What can be
/// shown is answered by EQUIVALENT, unless there is no memory or no such room (`complete`).
pub fn run_in_memory(
    alloc: Global,
    words: &[String],
    files: &mut MemoryFiles,
    out: &mut MemorySink,
) -> Status
    requires files_work { kept.fail_in files.old ≡ [] }
    requires out_works { (sink.fail_in out.old ≡ []) × (sink.zero_in out.old ≡ []) }
    ensures ends { RunEnds (Some (kept.names_in files.old))
        (Rose (kept.faults_in files.old) (kept.faults_in files.new))
        (Rose (sink.faults_in out.old) (sink.faults_in out.new))
        (map string_bytes words.now) (Some (sink.put_in out.old)) (Some (sink.put_in out.new))
        result }
    ensures sound { result ≡ Status.Equivalent →
        AreEqual (Some (kept.names_in files.old)) (map string_bytes words.now) }
    ensures different { result ≡ Status.Different →
        IsRefutedBy (Some (kept.names_in files.old)) (map string_bytes words.now) }
    ensures kept { result ≡ Status.NoMemory → out.new ≡ out.old }
    ensures reach_files { kept.IsSameSetup files.old files.new }
    ensures reach_out { sink.IsSameSetup out.old out.new }
    ensures read { result ≡ Status.ReadFault →
        IsAbsent (kept.names_in files.old) (map string_bytes words.now) }
    ensures write { result ≡ Status.WriteFault →
        IsTooLong (kept.names_in files.old) (map string_bytes words.now) (sink.put_in out.old)
        (sink.put_in out.new) (sink.room_left out.old) }
    ensures complete { CanShow (kept.names_in files.old) (map string_bytes words.now) →
        SaysYes ⊥ (IsTooLong (kept.names_in files.old) (map string_bytes words.now)
        (sink.put_in out.old) (sink.put_in out.new) (sink.room_left out.old)) result }
{
    run(alloc, words, files, out)
}
