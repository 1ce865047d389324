//! The jobs that a run is requested to run, and the rows of the report that it updates.

ghost use Rattle.std.specs.Prelude.{◌≡◌, ◌≤◌, ◌<◌, [], None, Option, Some, IfErr, IfOk, length, option_map};
ghost use Rattle.std.specs.Option.{ForSome};
ghost use Rattle.rv_choice.specs.ChoiceStops.{IsChoiceStop};
ghost use Rattle.rv_choice.specs.ChosenJobs.{IsChoice};
ghost use Rattle.rv_merge.specs.Shards.{shard_selection};
ghost use Rattle.rvtest_app.specs.Commands.{failure_rule};
ghost use Rattle.rvtest_app.specs.IntoReports.{AreOldRows};
ghost use Rattle.rvtest_app.specs.IntoStops.{IsIntoStop};
ghost use Rattle.rvtest_app.specs.RunStops.{IsJobRequestStop};
ghost use Rattle.rvtest_app.specs.Runs.{AreRequestedJobs};

use crate::into_report::ReportContext;
use crate::planned_run::RequestedJobs;
use crate::rules::failure_rule;
use crate::run::ListRun;
use crate::whole_report::read_whole_report;
use rv_choice::{Choice, Chooser, requested_shard};
use rv_command::{Stop, parse_list, read_list_text};
use rv_files::Inputs;
use rv_merge::shard_selection;
use rv_rows::{Job, JobList, Rows, Shard};
use rvtest_cli::ChoosingCommand;

impl<'x, R, D: Inputs> ListRun<'x, R, D> {
    /// Returns the jobs of the list, and which of them are to run. If the arguments are rejected, the message shows the usage of `command`.
    pub(crate) fn requested_jobs(&self, command: ChoosingCommand) -> Result<RequestedJobs, Stop>
        requires { self.now.rule ≡ failure_rule self.now.args.now.lenient }
        ensures requested { IfOk result (λ requested. AreRequestedJobs (D.contents self.now.host.now.inputs.now)
            self.now.args.now requested.jobs (option_map (λ selection. selection.items) requested.selection)
            requested.context.shard requested.context.old requested.notes.items) }
        ensures stopped { IfErr result
            (IsJobRequestStop (D.contents self.now.host.now.inputs.now) self.now.args.now) }
    {
        let (alloc, args) = (self.host.alloc, self.args);
        let text = read_list_text(self.host.inputs, alloc, args.list)?;
        let jobs = parse_list(alloc, args.list, text.as_slice())?;
        let old = self.old_rows(jobs.as_slice())?;
        match requested_shard(alloc, args, command, text.as_slice(), jobs.as_slice().len())? {
            Some(shard) => self.jobs_of_shard(jobs, shard, old),
            None => self.jobs_of_choice(command, jobs, old),
        }
    }

    // Returns the rows of the report that `--into` names and the run updates; `None` without this option.
    fn old_rows(&self, jobs: &[Job]) -> Result<Option<Rows>, Stop>
        ensures old { IfOk result (AreOldRows (D.contents self.now.host.now.inputs.now) self.now.args.now jobs.now) }
        ensures same_length { IfOk result (λ old. ForSome old (λ rows. length rows ≡ length jobs.now)) }
        ensures stopped { IfErr result (IsIntoStop (D.contents self.now.host.now.inputs.now) self.now.args.now jobs.now) }
    {
        let (inputs, alloc) = (self.host.inputs, self.host.alloc);
        let Some(path) = self.args.into else {
            return Ok(None);
        };
        let rows = read_whole_report(inputs, alloc, path, self.args.list, jobs)?;
        Ok(Some(rows))
    }

    // Returns the jobs of the list, and selects those of the shard.
    fn jobs_of_shard(
        &self,
        jobs: JobList,
        shard: Shard,
        old: Option<Rows>,
    ) -> Result<RequestedJobs, Stop>
        requires shard { (0 < shard.number) × (shard.number ≤ shard.shards) }
        requires same_length { ForSome old (λ rows. length rows ≡ length jobs) }
        ensures old { IfOk result (λ requested. requested.context.old ≡ old) }
        ensures selected { IfOk result (λ requested. (requested.jobs ≡ jobs) × (requested.context.shard ≡ Some shard)
            × (option_map (λ selection. selection.items) requested.selection
            ≡ Some (shard_selection shard.shards shard.number (length jobs))) × (requested.notes.items ≡ [])) }
        ensures memory { IfErr result (λ stop. stop ≡ Stop.OutOfMemory) }
    {
        let alloc = self.host.alloc;
        let selection = shard_selection(alloc, jobs.as_slice().len(), shard.number, shard.shards)?;
        Ok(RequestedJobs {
            jobs,
            selection: Some(selection),
            context: ReportContext {
                shard: Some(shard),
                old,
            },
            notes: Vec::new(alloc),
        })
    }

    // Returns the jobs of the list, and selects those that options such as `--only` choose.
    fn jobs_of_choice(
        &self,
        command: ChoosingCommand,
        jobs: JobList,
        old: Option<Rows>,
    ) -> Result<RequestedJobs, Stop>
        requires { ForSome old (λ rows. length rows ≡ length jobs) }
        ensures old { IfOk result (λ requested. requested.context.old ≡ old) }
        ensures chosen { IfOk result (λ requested. (requested.jobs ≡ jobs) × (requested.context.shard ≡ None)
            × IsChoice (D.contents self.now.host.now.inputs.now) self.now.args.now self.now.rule jobs
            (option_map (λ selection. selection.items) requested.selection) requested.notes.items) }
        ensures stopped { IfErr result
            (IsChoiceStop (D.contents self.now.host.now.inputs.now) self.now.args.now self.now.rule jobs) }
    {
        let chooser = Chooser {
            inputs: self.host.inputs,
            alloc: self.host.alloc,
            args: self.args,
            rule: self.rule,
            command,
        };
        let Choice { selection, notes } = chooser.choose(jobs.as_slice())?;
        Ok(RequestedJobs {
            jobs,
            selection,
            context: ReportContext { shard: None, old },
            notes,
        })
    }
}
