//! Logs, read from their texts.
ghost use Rattle.std.specs.Prelude.{◌≡◌, ◌++◌, ◌∷◌, [], OnOk};
ghost use Rattle.std.specs.Option.{option_map};
ghost use Rattle.rx_log.specs.Reading.{blank, pushed, with_domain, with_keep};
ghost use Rattle.rx_log.specs.declared.line.Line.TheVariants as line;
ghost use Rattle.rx_logtext.specs.Logs.{ReadsLog};
ghost use Rattle.rx_logtext.specs.Readers.{pushed_if};

use crate::cutting::text_after;
use crate::log_end::LogEnd;
use crate::reader::LogReader;
use rx_cert::Cert;
use rx_domain::Domains;
use rx_log::{Line, Log};
use rx_pairs::RankTable;
use rx_plain::{Items, NoMemory};
use rx_row::Constraint;
use std::alloc::Global;

/// A log without anything in it, whose ranks would have one column.
fn blank_log(alloc: Global) -> Log
    ensures { result ≡ blank }
{
    Log {
        domains: None,
        covers: Items::new(alloc),
        steps: Items::new(alloc),
        table: RankTable {
            columns: 1,
            ranks: Items::new(alloc),
        },
        pairs: Items::new(alloc),
    }
}

/// Lets the log have domains, of no symbols so far.
fn begin_domains(log: &mut Log, alloc: Global)
    ensures { log.new ≡ pushed line.Header2 log.old }
{
    log.domains = Some(Domains {
        rows: Items::new(alloc),
        keeps: Items::new(alloc),
    });
}

/// Adds the domain of one symbol more, where there are domains.
fn push_domain(domains: &mut Option<Domains>, rows: Constraint) -> Result<(), NoMemory>
    ensures { OnOk result (domains.new ≡ option_map (with_domain rows) domains.old) }
{
    match domains {
        Some(domains) => Ok(domains.rows.push(rows)?),
        None => Ok(()),
    }
}

/// Adds the certificates of one part more, where there are domains.
fn push_keep(domains: &mut Option<Domains>, certs: Items<Cert>) -> Result<(), NoMemory>
    ensures { OnOk result (domains.new ≡ option_map (with_keep certs) domains.old) }
{
    match domains {
        Some(domains) => Ok(domains.keeps.push(certs)?),
        None => Ok(()),
    }
}

/// Adds one thing to a list.
fn add<T: Drop>(list: &mut Items<T>, thing: T) -> Result<(), NoMemory>
    ensures { OnOk result (list.new ≡ list.old ++ thing ∷ []) }
{
    list.push(thing)?;
    Ok(())
}

/// Adds what the line says to the log.
fn push_into(log: &mut Log, alloc: Global, line: Line) -> Result<(), NoMemory>
    ensures { OnOk result (log.new ≡ pushed line log.old) }
{
    match line {
        Line::Header | Line::End => Ok(()),
        Line::Header2 => {
            begin_domains(log, alloc);
            Ok(())
        }
        Line::Domain(rows) => push_domain(&mut log.domains, rows),
        Line::Keep(certs) => push_keep(&mut log.domains, certs),
        Line::Cover(trees) => add(&mut log.covers, trees),
        Line::Step(step) => add(&mut log.steps, step),
        Line::Ranks(columns) => {
            log.table.columns = columns;
            Ok(())
        }
        Line::Rank(rank) => add(&mut log.table.ranks, rank),
        Line::Pair(pair) => add(&mut log.pairs, pair),
    }
}

/// Adds what a line says to the log, if there is one.
fn push_taken(log: &mut Log, alloc: Global, line: Option<Line>) -> Result<(), NoMemory>
    ensures { OnOk result (log.new ≡ pushed_if line log.old) }
{
    match line {
        Some(line) => push_into(log, alloc, line),
        None => Ok(()),
    }
}

/// The log whose text this is. BadLine with the number of the first line with which no log begins,
/// counted from 1: so it is where the text ends too early, or not in a line feed. Fails else only
/// when out of memory. Time is linear in the text, and memory is taken only for what was read.
pub fn read_log(alloc: Global, text: &[u8]) -> Result<Log, LogEnd>
    ensures { ReadsLog text.now result }
{
    let mut reader = LogReader::new(alloc);
    let mut log = blank_log(alloc);
    let mut left = text;
    while !left.is_empty() {
        let (count, line) = reader.take(alloc, left)?;
        push_taken(&mut log, alloc, line)?;
        left = text_after(left, count);
    }
    reader.finish()?;
    Ok(log)
}
