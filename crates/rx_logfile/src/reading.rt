//! A log that is replayed while its file is read.
ghost use Rattle.std.specs.Prelude.{◌≡◌, ◌≢◌, ◌≤◌, [], Err};
ghost use Rattle.rx_io.specs.Outside.{Rose};
ghost use Rattle.rx_check.specs.declared.check_end.CheckEnd.{CheckEnd};
ghost use Rattle.rx_logfile.specs.LogFiles.{OnFile};
ghost use Rattle.rx_logfile.specs.declared.file_end.FileEnd.TheVariants.{Check};

use crate::file_end::FileEnd;
use crate::log_check::LogCheck;
use rx_io::Files;
use rx_term::{Equation, RuleSet};
use std::alloc::Global;

// The most bytes that one call takes.
const PIECE: usize = 65_536;

/// Whether the log in the named file, of at most `limit` bytes, is accepted for the rules and the
/// goal.
///
/// The file is read to its end, whatever the first lines have come to, since a call that fails, too
/// many bytes and a bad line count before the replay. Kept are a piece of the file, the next line,
/// and what the replay keeps; never the text or the log. Where memory runs out the answer is
/// NoMemory, and never that of a check. The rules must have no domains: those of the log are used.
pub fn replay_file<F: Files>(
    alloc: Global,
    rules: &RuleSet,
    goal: Equation,
    files: &mut F,
    name: &str,
    limit: u32,
) -> Result<(), FileEnd>
    requires no_domains { rules.now.domains ≡ [] }
    ensures reach { F.reaches files.old files.new }
    ensures held { F.held files.new ≡ F.held files.old }
    ensures later { F.faults files.old ≤ F.faults files.new }
    ensures ends { OnFile (F.held files.old) (Rose (F.faults files.old) (F.faults files.new))
        name.now limit rules.now goal result }
    ensures decided { result ≢ Err (Check CheckEnd.NoMemory) }
{
    let Ok(()) = files.open(name) else {
        return Err(FileEnd::Failed);
    };
    let most = limit as usize;
    let mut check = LogCheck::start(alloc, goal)?;
    let mut piece = [0u8; PIECE];
    let mut read = 0usize;
    loop {
        let Ok(count) = files.take(&mut piece) else {
            return Err(FileEnd::Failed);
        };
        if count == 0 {
            return check.finish(rules);
        }
        if count > most - read {
            return Err(FileEnd::TooLong);
        }
        read += count;
        check.take(alloc, rules, &piece[..count])?;
    }
}
