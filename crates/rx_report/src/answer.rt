//! What a run answers, before it is reported.
ghost use Rattle.std.specs.Prelude.{◌≡◌, IfOk};
ghost use Rattle.rx_report.specs.Ends as ends;
ghost use Rattle.rx_report.specs.Ends.{status_in};
ghost use Rattle.rx_report.specs.Reports.{IsReportable, text_in};

use crate::reports::found_line;
use crate::{NoMemory, Status, Verdict, report};
use c_refute::Compared;
use rx_plain::Items;
use std::alloc::Global;

/// What a run answers.
#[derive(Drop)]
pub enum Answer {
    /// One line.
    Line(Verdict),
    /// The text of the log of a proof.
    Proof(Items<u8>),
    /// The rules of two functions as a rule text.
    RuleText(Items<u8>),
    /// How two functions compare over points.
    Found(Compared),
}

/// How a run ends that has compared two functions over points.
fn found_status(found: &Compared) -> Status
    ensures { result ≡ ends.found_status found.now }
{
    match found {
        Compared::Different { .. } => Status::Different,
        Compared::Alike { .. } => Status::Unknown,
    }
}

impl Answer {
    /// How a run ends that answers this.
    pub fn status(&self) -> Status
        ensures { result ≡ status_in self.now }
    {
        match self {
            Answer::Line(verdict) => verdict.status(),
            Answer::Proof(_) | Answer::RuleText(_) => Status::Equivalent,
            Answer::Found(found) => found_status(found),
        }
    }

    /// The bytes that report it.
    pub fn into_text(self, alloc: Global) -> Result<Vec<u8>, NoMemory>
        requires { IsReportable self }
        ensures text { IfOk result (λ text. text.items ≡ text_in self) }
    {
        match self {
            Answer::Line(verdict) => report(alloc, &verdict),
            Answer::Proof(text) | Answer::RuleText(text) => Ok(text.into_vec()),
            Answer::Found(found) => found_line(alloc, &found),
        }
    }
}
