//! Logs whose certificates are deep.

use rx_cert::Cert;
use rx_inference::{Delete, Step};
use rx_log::Log;
use rx_logtext::{LogEnd, read_log};
use rx_logwriting::write_log;
use rx_pairs::RankTable;
use rx_plain::{Boxed, Items};
use std::alloc::Global;

// A certificate so deep: cuts, one around the other, around a sum.
fn nested(alloc: Global, depth: usize) -> Option<Cert> {
    let mut cert = Cert::Sum(Items::new(alloc));
    for _ in 1..depth {
        cert = Cert::Cut {
            parts: Items::new(alloc),
            div: 1,
            rest: Boxed::new(alloc, cert).ok()?,
        };
    }
    Some(cert)
}

// A log of one step, by a certificate so deep.
fn log_of(alloc: Global, depth: usize) -> Option<Log> {
    let mut steps = Items::new(alloc);
    steps
        .push(Step::Delete(Delete::Absurd(nested(alloc, depth)?)))
        .ok()?;
    Some(Log {
        domains: None,
        covers: Items::new(alloc),
        steps,
        table: RankTable {
            columns: 1,
            ranks: Items::new(alloc),
        },
        pairs: Items::new(alloc),
    })
}

// The text of such a log.
fn text_of(alloc: Global, depth: usize) -> Option<Result<Vec<u8>, LogEnd>> {
    let log = log_of(alloc, depth)?;
    Some(write_log(alloc, &log))
}

// Whether the text is that of a log.
fn is_read(alloc: Global, text: &[u8]) -> bool {
    read_log(alloc, text).is_ok()
}

/// How a log is written whose one certificate is so deep.
pub fn written(alloc: Global, depth: usize) -> Option<&'static str> {
    match text_of(alloc, depth)? {
        Ok(text) if is_read(alloc, &text) => Some("is read again"),
        Ok(_) => Some("is not read"),
        Err(LogEnd::TooDeep) => Some("is too deep"),
        Err(_) => None,
    }
}
