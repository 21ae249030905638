//! The search for a counterexample.
ghost use Rattle.std.specs.Prelude.{◌≡◌, ◌≤◌, true, length, IfOk};
ghost use Rattle.rx_command.specs.Commands.{functions_view, is_short};
ghost use Rattle.rx_report.specs.Reports.{IsReportable};
ghost use Rattle.rx_cli.specs.Refutations.{IsRefuted, OnPoints};

use crate::problems::front_stage;
use c_front::{Compared, Next};
use c_refute::{RefuteEnd, compare};
use rx_command::{Extent, Functions};
use rx_plain::NoMemory;
use rx_report::{Answer, Verdict};
use std::alloc::Global;

/// Runs two functions on all points.
fn on_points(alloc: Global, compared: &Compared, extent: Extent) -> Result<Answer, NoMemory>
    ensures answer { IfOk result (OnPoints compared.now extent) }
    ensures reportable { IfOk result IsReportable }
{
    let two = &compared.two;
    let pre = compared.precondition.as_ref();
    match compare(
        alloc,
        &two.program,
        two.first,
        two.second,
        pre,
        extent.side,
        extent.rounds,
    ) {
        Ok(found) => Ok(Answer::Found(found)),
        Err(RefuteEnd::TooManyPoints { params }) => Ok(Answer::Line(Verdict::Box(params))),
        Err(RefuteEnd::NoMemory) => Err(NoMemory),
    }
}

/// Runs the two named functions of a text on all points, and says where they differ first.
pub fn refute(
    alloc: Global,
    source: &[u8],
    functions: &Functions<'_>,
    extent: Extent,
) -> Result<Answer, NoMemory>
    requires source { length source.now ≤ 1048576 }
    requires pre { is_short (functions_view functions.now).precondition ≡ true }
    ensures answer { IfOk result (IsRefuted (functions_view functions.now) extent source.now) }
    ensures reportable { IfOk result IsReportable }
{
    match front_stage(alloc, source, functions)? {
        Next::Ends(verdict) => Ok(Answer::Line(verdict)),
        Next::Goes(compared) => on_points(alloc, &compared, extent),
    }
}
