//! Jobs, and lists of them.

ghost use Rattle.rv_base.specs.Limits.{max_budget, max_path_len, max_script_len};
ghost use Rattle.std.specs.Prelude.{◌≡◌, ◌≤◌, ◌<◌, ◌∷◌, [], IfOk, Some, length, map, option_map, vec_len};
ghost use Rattle.rv_lists.specs.Jobs.{AreValidJobs, console_path, job_with_budget, single_job, with_budget, without_expectations};

use rv_base::{Bytes, Text};
use rv_elf::LoadAt;
use rv_machine::{FaultKind, Isa, Map, Misaligned};
use std::alloc::{AllocError, Global};
use std::marker::Model;

/// The names of the symbols at the beginning and the end of a signature, 1 to 255 bytes each.
#[derive(Debug, Drop)]
pub struct Symbols {
    pub begin: Text,
    pub end: Text,
}

impl Symbols {
    // Returns a copy of the names.
    fn copy(&self, alloc: Global) -> Result<Symbols, AllocError>
        ensures { IfOk result (λ copy. copy ≡ self.now) }
    {
        let begin = Text::copy(alloc, self.begin.as_str())?;
        let end = Text::copy(alloc, self.end.as_str())?;
        Ok(Symbols { begin, end })
    }
}

/// The console text that a run is expected to print.
#[derive(Debug, Drop)]
pub enum ExpectedConsole {
    /// These bytes, at most 65,536: the key `expect_console`.
    Text(Bytes),
    /// The bytes of the file at this path of 1 to 4,096 bytes: the key `expect_console_file`.
    File(Text),
}

impl ExpectedConsole {
    /// Returns the path of the file with the expected text, or `None` if the list has the text.
    pub fn path(&self) -> Option<&str>
        ensures { option_map (λ path. path.now) result ≡ console_path (Some self.now) }
    {
        match self {
            ExpectedConsole::Text(_) => None,
            ExpectedConsole::File(path) => Some(path.as_str()),
        }
    }
}

/// How a run is expected to end.
#[derive(Clone, Copy, Debug, PartialEq, Eq)]
pub enum ExpectedEnd {
    /// The budget is used up.
    Budget,
    /// A fault of this kind, wherever it occurs.
    Fault(FaultKind),
}

/// A run of an image, and what is expected of it. [`read_jobs`](crate::read_jobs) checks the limits given for the fields; every [`JobList`]
/// guarantees the length of the script, that the names of a signature's symbols are not empty, and that `same_as` is the index of an
/// earlier job.
#[derive(Drop)]
pub struct Job {
    /// 1 to 64 ASCII letters, digits, `.`, `_` and `-`; unique in the list.
    pub name: Text,
    /// The path of the ELF file, 1 to 4,096 bytes.
    pub image: Text,
    /// The maximum number of steps, 1 to 1,000,000,000.
    pub budget: u32,
    /// The console input, at most 65,536 bytes: the key `input` or `input_hex`.
    pub script: Bytes,
    pub load: LoadAt,
    /// The regions of memory: the key `region`.
    pub regions: Map,
    pub signature: Option<Symbols>,
    pub expect_exit: Option<u32>,
    /// The path of the reference signature, 1 to 4,096 bytes; only if there is a signature.
    pub expect_signature: Option<Text>,
    /// The keys `expect_console` and `expect_console_file`, of which at most one is set.
    pub expect_console: Option<ExpectedConsole>,
    pub expect_end: Option<ExpectedEnd>,
    /// The index of an earlier job, counted from 0.
    pub same_as: Option<usize>,
    pub isa: Isa,
    pub misaligned: Misaligned,
}

impl Job {
    /// Returns the job with this name, image, budget and script, and the defaults of all other keys.
    pub(crate) fn job_with_defaults(name: Text, image: Text, budget: u32, script: Bytes) -> Job
        ensures { result ≡ record (single_job image budget script) { name = name } }
    {
        Job {
            name,
            image,
            budget,
            script,
            load: LoadAt::Physical,
            regions: Map::default_map(),
            signature: None,
            expect_exit: None,
            expect_signature: None,
            expect_console: None,
            expect_end: None,
            same_as: None,
            isa: Isa::Imc,
            misaligned: Misaligned::Fault,
        }
    }

    // Replaces the budget of the job.
    fn set_budget(&mut self, steps: u32)
        ensures { self.new ≡ job_with_budget steps self.old }
    {
        self.budget = steps;
    }

    // Returns a copy of the job without its expectations and its `same_as`.
    fn copy_without_expectations(&self, alloc: Global) -> Result<Job, AllocError>
        ensures { IfOk result (λ copy. copy ≡ without_expectations self.now) }
    {
        let signature = match &self.signature {
            Some(symbols) => Some(symbols.copy(alloc)?),
            None => None,
        };
        Ok(Job {
            name: Text::copy(alloc, self.name.as_str())?,
            image: Text::copy(alloc, self.image.as_str())?,
            budget: self.budget,
            script: Bytes::new(Vec::from_slice(alloc, self.script.as_slice())?),
            load: self.load,
            regions: self.regions,
            signature,
            expect_exit: None,
            expect_signature: None,
            expect_console: None,
            expect_end: None,
            same_as: None,
            isa: self.isa,
            misaligned: self.misaligned,
        })
    }
}

/// 1 to 4,096 jobs in list order. Contracts see them as a list.
#[derive(Drop)]
pub struct JobList {
    items: Vec<Job>,
}

impl Model for JobList {
    ghost use Rattle.std.specs.Prelude.{List};
    ghost use Rattle.rv_lists.specs.declared.job.Job.{Job};

    ghost Value = { List Job };

    ghost use Rattle.rv_lists.specs.Jobs.{AreValidJobs};

    ghost view = { λ l. l.items.items };

    ghost invariant = { λ l. AreValidJobs l.items.items };
}

impl JobList {
    /// Returns a list of one job named `one`, with this image, budget and script, and the defaults of all other keys.
    pub fn single(
        alloc: Global,
        image: &str,
        budget: u32,
        script: Vec<u8>,
    ) -> Result<JobList, AllocError>
        requires path { length image.now ≤ max_path_len }
        requires path_not_empty { 0 < length image.now }
        requires room { vec_len script ≤ max_script_len }
        requires positive { 0 < budget }
        requires at_most_max { budget ≤ max_budget }
        ensures { IfOk result (λ l. l ≡ single_job image.now budget script.items ∷ []) }
    {
        let name = Text::copy(alloc, "one")?;
        let image = Text::copy(alloc, image)?;
        let mut items = Vec::new(alloc);
        items.push(Job::job_with_defaults(name, image, budget, Bytes::new(script)))?;
        Ok(JobList { items })
    }

    /// Returns the list of these jobs, which form a valid list.
    pub(crate) fn new(items: Vec<Job>) -> JobList
        requires { AreValidJobs items.items }
        ensures { result ≡ items.items }
    {
        JobList { items }
    }

    /// Returns the list with this budget for each job, or unchanged if no budget is given. Does not allocate.
    pub fn with_budget(self, budget: Option<u32>) -> JobList
        ensures jobs { result ≡ with_budget budget self }
        ensures count { length result ≡ length self }
    {
        match budget {
            None => self,
            Some(steps) => self.with_one_budget(steps),
        }
    }

    // Returns the list with this budget for each job.
    fn with_one_budget(self, steps: u32) -> JobList
        ensures { result ≡ map (job_with_budget steps) self }
    {
        let mut items = self.items;
        for at in 0..items.len() {
            items[at].set_budget(steps);
        }
        JobList { items }
    }

    /// Returns the jobs as a slice.
    pub fn as_slice(&self) -> &[Job]
        ensures value { result.now ≡ self.now }
        ensures jobs { AreValidJobs self.now }
    {
        &self.items
    }

    /// Returns a copy of the list without the expectations of its jobs.
    pub fn copy_without_expectations(&self, alloc: Global) -> Result<JobList, AllocError>
        ensures { IfOk result (λ copy. copy ≡ map without_expectations self.now) }
    {
        let mut items = Vec::with_capacity(alloc, self.items.len())?;
        for at in 0..self.items.len() {
            let job = self.items[at].copy_without_expectations(alloc)?;
            items.push(job)?;
        }
        Ok(JobList { items })
    }

    /// Returns the underlying vector. Does not allocate.
    pub fn into_vec(self) -> Vec<Job>
        ensures value { result.items ≡ self }
        ensures jobs { AreValidJobs self }
    {
        self.items
    }
}
