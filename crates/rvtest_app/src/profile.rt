//! The command `profile`.

ghost use Rattle.std.specs.Prelude.{◌≡◌, ◌⊎◌, ◌≤◌, IfErr, IfOk};
ghost use Rattle.rvtest_app.specs.ProfileStops.{IsProfileStop};
ghost use Rattle.rvtest_app.specs.Profiles.{IsProfileWritten, profile_format};
ghost use Rattle.rvtest_app.specs.CommandOutputs.{outputs_of};

use crate::destinations::Destinations;
use crate::host::Host;
use crate::view::{JobsView, View};
use rv_command::Stop;
use rv_files::{Inputs, Outputs, Sink};
use rv_profile::ProfileFormat;
use rvtest_cli::{ChoosingCommand, ProfileArgs};
use std::sync::Wait;
use std::thread::Threads;

/// Writes a profile of the requested jobs, which shows the steps of each function. The counts come from a run of these jobs or from a table
/// of counts. The status is 0.
pub(crate) fn profile_requested_jobs<
    R: Threads + Wait + Sync,
    D: Inputs,
    F: Outputs + Drop,
    O: Sink + Drop,
    E: Sink + Drop,
>(
    host: &Host<'_, R, D>,
    args: &ProfileArgs<'_>,
    destinations: &mut Destinations<F, O, E>,
) -> Result<u8, Stop>
    ensures written { IfOk result (λ status. IsProfileWritten (D.contents host.now.inputs.now) args.now status
        (outputs_of F.committed O.accepted E.accepted E.failure_count destinations.old) (outputs_of F.committed O.accepted E.accepted E.failure_count destinations.new)) }
    ensures status_bound { IfOk result (λ status. status ≤ 1) }
    ensures stopped { IfErr result (λ stop. (stop ≡ Stop.WriteFailed)
        ⊎ IsProfileStop (D.contents host.now.inputs.now) args.now stop) }
{
    let view = JobsView {
        host,
        args: &args.run,
        view: View::Profile(profile_format(args)),
    };
    view.write_view(ChoosingCommand::Profile, destinations)
}

// Returns the requested format of a profile: whether it is CSV, and at most how many functions of each image it shows.
fn profile_format(args: &ProfileArgs<'_>) -> ProfileFormat
    ensures { result ≡ profile_format args.now }
{
    ProfileFormat {
        csv: args.csv,
        top: args.top,
    }
}
