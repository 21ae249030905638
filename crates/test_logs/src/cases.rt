//! A case: a command line, a source, a log, and a change of the log.

use crate::changes::{Change, instead, joined, long, without};
use crate::depth::written;
use crate::devices::{Inlet, Outlet};
use crate::saying::said;
use rx_cli::{Status, run};
use rx_io::{MemoryFiles, MemorySink};
use rx_log::Log;
use rx_logtext::read_log;
use rx_logwriting::write_log;
use std::alloc::Global;
use std::str;
use test_lines::{add_file, is_text_of, words_of};

/// What was given so far of a case.
#[derive(Drop)]
pub struct Case {
    words: Vec<String>,
    source: Vec<String>,
    log: Vec<String>,
    change: Option<Change>,
    cut: Option<usize>,
    inlet: Option<Inlet>,
    outlet: Option<Outlet>,
}

// Adds a line.
fn push(alloc: Global, lines: &mut Vec<String>, line: &str) -> Option<()> {
    lines.push(String::from_str(alloc, line).ok()?).ok()
}

// Two files in memory: the source and the log.
fn files_of(alloc: Global, source: Vec<u8>, log: Vec<u8>, inlet: Inlet) -> Option<MemoryFiles> {
    let mut held = Vec::new(alloc);
    add_file(alloc, &mut held, "a.c", source)?;
    add_file(alloc, &mut held, "a.log", log)?;
    inlet.files(held)
}

// A status and a report of one line, as a line.
fn report(alloc: Global, status: Status, text: &[u8]) -> Option<String> {
    let line = str::from_utf8(text).ok()?.strip_suffix('\n')?;
    let code = status.code();
    format!(in alloc; "{code}: {line}").ok()
}

// The report of a run over these files.
fn run_on(alloc: Global, words: &[String], mut files: MemoryFiles) -> Option<String> {
    let mut sink = MemorySink::new(alloc, 4096, 4096, Vec::new(alloc), Vec::new(alloc)).ok()?;
    let status = run(alloc, words, &mut files, &mut sink);
    report(alloc, status, sink.put_so_far())
}

// Whether the log is written as this text.
fn is_written_as(alloc: Global, log: &Log, text: &[u8]) -> bool {
    match write_log(alloc, log) {
        Ok(written) => written.as_slice() == text,
        Err(_) => false,
    }
}

// Whether a text that is a log is written again as it was read.
fn is_written_again(alloc: Global, text: &[u8]) -> bool {
    match read_log(alloc, text) {
        Ok(log) => is_written_as(alloc, &log, text),
        Err(_) => true,
    }
}

// Whether a log with a certificate so deep is written as the line says.
fn is_written(alloc: Global, line: &str) -> Option<bool> {
    let (depth, wanted) = line.split_once(' ')?;
    Some(written(alloc, depth.parse().ok()?)? == wanted)
}

impl Case {
    /// A case of which nothing is given.
    pub fn new(alloc: Global) -> Case {
        Case {
            words: Vec::new(alloc),
            source: Vec::new(alloc),
            log: Vec::new(alloc),
            change: None,
            cut: None,
            inlet: None,
            outlet: None,
        }
    }

    // Begins a case with a command line.
    fn begin(&mut self, alloc: Global, line: &str) -> Option<()> {
        let words = words_of(alloc, line)?;
        self.words = words;
        self.source = Vec::new(alloc);
        self.log = Vec::new(alloc);
        self.change = None;
        self.cut = None;
        self.inlet = None;
        self.outlet = None;
        Some(())
    }

    // What a run over the log reports, read by such files.
    fn reported(&self, alloc: Global, log: &[u8], inlet: Inlet) -> Option<String> {
        let source = joined(alloc, &self.source, &None)?;
        let mut copy = Vec::new(alloc);
        copy.extend_from_slice(log).ok()?;
        run_on(alloc, &self.words, files_of(alloc, source, copy, inlet)?)
    }

    // Whether the command line asks for a check.
    fn is_check(&self) -> bool {
        match self.words.get(1) {
            Some(word) => word.as_str() == "check",
            None => false,
        }
    }

    // What a run over the log reports, however much of it the files give at a time.
    fn reported_alike(&self, alloc: Global, log: &[u8]) -> Option<String> {
        let report = self.reported(alloc, log, Inlet::new(alloc, 4096))?;
        if !self.is_check() {
            return Some(report);
        }
        for piece in [1usize, 7, 64] {
            let other = self.reported(alloc, log, Inlet::new(alloc, piece))?;
            if other.as_str() != report.as_str() {
                return String::from_str(alloc, "other pieces, another report").ok();
            }
        }
        Some(report)
    }

    // What a run reports, where the log is written as it was read; the change is done with.
    fn found(&mut self, alloc: Global) -> Option<String> {
        let mut log = joined(alloc, &self.log, &self.change)?;
        self.change = None;
        if let Some(bytes) = self.cut.take() {
            log.truncate(bytes);
        }
        if !is_written_again(alloc, &log) {
            return String::from_str(alloc, "the log is written otherwise").ok();
        }
        match self.inlet.take() {
            Some(inlet) => self.reported(alloc, &log, inlet),
            None => self.reported_alike(alloc, &log),
        }
    }

    // Whether a run reports this.
    fn gives(&mut self, alloc: Global, wanted: &str) -> Option<bool> {
        let found = self.found(alloc)?;
        Some(found.as_str() == wanted)
    }

    // Whether a run says this on standard error; the change of the log stays.
    fn says(&self, alloc: Global, wanted: &str) -> Option<bool> {
        let mut log = joined(alloc, &self.log, &self.change)?;
        if let Some(bytes) = self.cut {
            log.truncate(bytes);
        }
        let source = joined(alloc, &self.source, &None)?;
        let files = files_of(alloc, source, log, Inlet::new(alloc, 4096))?;
        is_text_of(alloc, &said(alloc, &self.words, files)?, wanted)
    }

    // Whether a run, over the source alone, writes the log that is given.
    fn writes(&self, alloc: Global) -> Option<bool> {
        let source = joined(alloc, &self.source, &None)?;
        let wanted = joined(alloc, &self.log, &None)?;
        let mut files = files_of(alloc, source, Vec::new(alloc), Inlet::new(alloc, 4096))?;
        let mut sink = Outlet::new(alloc).sink(alloc)?;
        let status = run(alloc, &self.words, &mut files, &mut sink);
        Some(status.code() == 0 && sink.put_so_far() == wanted.as_slice())
    }

    // The source and the log in files like this.
    fn files(&self, alloc: Global, inlet: Inlet) -> Option<MemoryFiles> {
        let source = joined(alloc, &self.source, &None)?;
        let log = joined(alloc, &self.log, &None)?;
        files_of(alloc, source, log, inlet)
    }

    // The source and the log in files as they are given, which are done with.
    fn files_taken(&mut self, alloc: Global) -> Option<MemoryFiles> {
        match self.inlet.take() {
            Some(inlet) => self.files(alloc, inlet),
            None => self.files(alloc, Inlet::new(alloc, 4096)),
        }
    }

    // The sink as it is given, which is done with.
    fn sink_taken(&mut self, alloc: Global) -> Option<MemorySink> {
        match self.outlet.take() {
            Some(outlet) => outlet.sink(alloc),
            None => Outlet::new(alloc).sink(alloc),
        }
    }

    // The status with which a run ends, and how many bytes of its report are written.
    fn ended(&mut self, alloc: Global) -> Option<(u8, usize)> {
        let mut files = self.files_taken(alloc)?;
        let mut sink = self.sink_taken(alloc)?;
        let status = run(alloc, &self.words, &mut files, &mut sink);
        Some((status.code(), sink.put_so_far().len()))
    }

    // Whether a run ends with the status, and n bytes of its report are written.
    fn puts(&mut self, alloc: Global, wanted: &str) -> Option<bool> {
        let (code, count) = wanted.split_once(' ')?;
        let wanted = (code.parse().ok()?, count.parse().ok()?);
        Some(self.ended(alloc)? == wanted)
    }

    // Goes on with another command line over the same files.
    fn then(&mut self, alloc: Global, line: &str) -> Option<()> {
        self.words = words_of(alloc, line)?;
        Some(())
    }

    // Takes a change of the log.
    fn changed(&mut self, change: Option<Change>) -> Option<()> {
        self.change = Some(change?);
        Some(())
    }

    // Takes how many bytes of the log are there.
    fn cut_at(&mut self, bytes: &str) -> Option<()> {
        self.cut = Some(bytes.parse().ok()?);
        Some(())
    }

    // Takes what the files are like.
    fn read_over(&mut self, alloc: Global, line: &str) -> Option<()> {
        self.inlet = Some(Inlet::given(alloc, line)?);
        Some(())
    }

    // Takes what the sink is like.
    fn write_into(&mut self, alloc: Global, line: &str) -> Option<()> {
        self.outlet = Some(Outlet::given(alloc, line)?);
        Some(())
    }

    // Takes a line that is given, by its first word.
    fn given(&mut self, alloc: Global, word: &str, rest: &str) -> Option<()> {
        match word {
            "words" => self.begin(alloc, rest),
            "then" => self.then(alloc, rest),
            "source" => push(alloc, &mut self.source, rest),
            "log" => push(alloc, &mut self.log, rest),
            "instead" => self.changed(instead(alloc, rest)),
            "long" => self.changed(long(alloc, rest)),
            "without" => self.changed(without(rest)),
            "cut" => self.cut_at(rest),
            "over" => self.read_over(alloc, rest),
            "into" => self.write_into(alloc, rest),
            _ => None,
        }
    }

    /// Takes a line: whether the report is the one that is wanted, where one is; none where the
    /// line can't be read.
    pub fn take(&mut self, alloc: Global, line: &str) -> Option<Option<bool>> {
        let (word, rest) = line.split_once(' ').unwrap_or((line, ""));
        match word {
            "gives" => Some(Some(self.gives(alloc, rest)?)),
            "says" => Some(Some(self.says(alloc, rest)?)),
            "writes" => Some(Some(self.writes(alloc)?)),
            "puts" => Some(Some(self.puts(alloc, rest)?)),
            "deep" => Some(Some(is_written(alloc, rest)?)),
            _ => {
                self.given(alloc, word, rest)?;
                Some(None)
            }
        }
    }
}
