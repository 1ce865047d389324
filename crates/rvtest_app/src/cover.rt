//! The command `cover`.

ghost use Rattle.std.specs.Prelude.{◌≡◌, ◌⊎◌, ◌≤◌, IfErr, IfOk};
ghost use Rattle.rvtest_app.specs.CoverStops.{IsCoverStop};
ghost use Rattle.rvtest_app.specs.Covers.{IsCoverageWritten};
ghost use Rattle.rvtest_app.specs.CommandOutputs.{outputs_of};

use crate::destinations::Destinations;
use crate::host::Host;
use crate::view::{JobsView, View};
use rv_command::Stop;
use rv_files::{Inputs, Outputs, Sink};
use rvtest_cli::{ChoosingCommand, CoverArgs};
use std::sync::Wait;
use std::thread::Threads;

/// Writes the code coverage of the images of the requested jobs, from a run of these jobs or from a table of counts. The status is 0.
pub(crate) fn cover_requested_jobs<
    R: Threads + Wait + Sync,
    D: Inputs,
    F: Outputs + Drop,
    O: Sink + Drop,
    E: Sink + Drop,
>(
    host: &Host<'_, R, D>,
    args: &CoverArgs<'_>,
    destinations: &mut Destinations<F, O, E>,
) -> Result<u8, Stop>
    ensures written { IfOk result (λ status. IsCoverageWritten (D.contents host.now.inputs.now) args.now status
        (outputs_of F.committed O.accepted E.accepted E.failure_count destinations.old) (outputs_of F.committed O.accepted E.accepted E.failure_count destinations.new)) }
    ensures status_bound { IfOk result (λ status. status ≤ 1) }
    ensures stopped { IfErr result (λ stop. (stop ≡ Stop.WriteFailed)
        ⊎ IsCoverStop (D.contents host.now.inputs.now) args.now stop) }
{
    let view = JobsView {
        host,
        args: &args.run,
        view: View::Cover { csv: args.csv },
    };
    view.write_view(ChoosingCommand::Cover, destinations)
}
