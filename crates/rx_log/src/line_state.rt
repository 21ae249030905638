//! Which line of a log may come next.
ghost use Rattle.std.specs.Prelude.{◌≡◌};
ghost use Rattle.rx_log.specs.Places as spec;

use crate::line::Line;

/// Where a reader of a log is: which lines may come next.
#[derive(Clone, Copy, Debug, PartialEq, Eq)]
pub enum LineState {
    /// Before the first line.
    AtHeader,
    /// Among the domains; that of the symbol with this number is next, if any.
    InDomains(u64),
    /// After the certificates that the goal is inside, or that a rule keeps the domains.
    InKeeps,
    /// Among the covers; that of the symbol with this number is next, if any.
    InCovers(u64),
    /// After a step.
    InSteps,
    /// Among the ranks.
    InRanks {
        /// How many polynomials each has.
        columns: u32,
        /// The symbol whose rank is next, if any.
        next: u64,
    },
    /// After the certificates of a pair.
    InPairs,
    /// After the last line.
    Finished,
}

/// The place after a line that comes first.
fn after_header(line: &Line) -> Option<LineState>
    ensures { result ≡ spec.after_header line.now }
{
    match line {
        Line::Header => Some(LineState::InCovers(0)),
        Line::Header2 => Some(LineState::InDomains(0)),
        _ => None,
    }
}

/// The place after a line that comes where the cover of the symbol with the number `next` may come.
fn after_covers(next: u64, line: &Line, symbol: u32) -> Option<LineState>
    ensures { result ≡ spec.after_covers next line.now symbol }
{
    match line {
        Line::Cover(_) => {
            if symbol as u64 == next {
                Some(LineState::InCovers(symbol as u64 + 1))
            } else {
                None
            }
        }
        Line::Step(_) => Some(LineState::InSteps),
        Line::Ranks(columns) => Some(LineState::InRanks {
            columns: *columns,
            next: 0,
        }),
        _ => None,
    }
}

/// The place after a line that comes after the certificates that the domains are kept.
fn after_keeps(line: &Line, symbol: u32) -> Option<LineState>
    ensures { result ≡ spec.after_keeps line.now symbol }
{
    match line {
        Line::Keep(_) => Some(LineState::InKeeps),
        _ => after_covers(0, line, symbol),
    }
}

/// The place after a line that comes where the domain of the symbol with the number `wanted`
/// may come.
fn after_domains(wanted: u64, line: &Line, symbol: u32) -> Option<LineState>
    ensures { result ≡ spec.after_domains wanted line.now symbol }
{
    match line {
        Line::Domain(_) => {
            if symbol as u64 == wanted {
                Some(LineState::InDomains(symbol as u64 + 1))
            } else {
                None
            }
        }
        _ => after_keeps(line, symbol),
    }
}

/// The place after a line that comes after a step.
fn after_steps(line: &Line) -> Option<LineState>
    ensures { result ≡ spec.after_steps line.now }
{
    match line {
        Line::Step(_) => Some(LineState::InSteps),
        Line::Ranks(columns) => Some(LineState::InRanks {
            columns: *columns,
            next: 0,
        }),
        _ => None,
    }
}

/// The place after a line that comes after the certificates of a pair.
fn after_pairs(line: &Line) -> Option<LineState>
    ensures { result ≡ spec.after_pairs line.now }
{
    match line {
        Line::Pair(_) => Some(LineState::InPairs),
        Line::End => Some(LineState::Finished),
        _ => None,
    }
}

/// The place after a line that comes where the rank of the symbol with the number `next` may come,
/// in n columns.
fn after_ranks(columns: u32, next: u64, line: &Line, symbol: u32) -> Option<LineState>
    ensures { result ≡ spec.after_ranks columns next line.now symbol }
{
    match line {
        Line::Rank(rank) => {
            if symbol as u64 == next && rank.len() == columns as usize {
                Some(LineState::InRanks {
                    columns,
                    next: symbol as u64 + 1,
                })
            } else {
                None
            }
        }
        _ => after_pairs(line),
    }
}

impl LineState {
    /// The place after a line that comes here, with the number of the symbol in it; None where no
    /// such line may come.
    pub fn after(self, line: &Line, symbol: u32) -> Option<LineState>
        ensures { result ≡ spec.after self (line.now, symbol) }
    {
        match self {
            LineState::AtHeader => after_header(line),
            LineState::InDomains(next) => after_domains(next, line, symbol),
            LineState::InKeeps => after_keeps(line, symbol),
            LineState::InCovers(next) => after_covers(next, line, symbol),
            LineState::InSteps => after_steps(line),
            LineState::InRanks { columns, next } => after_ranks(columns, next, line, symbol),
            LineState::InPairs => after_pairs(line),
            LineState::Finished => None,
        }
    }
}
