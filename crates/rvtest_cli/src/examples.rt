//! The end of the help of each command: examples as they are typed, and the meaning of each exit status.

pub(crate) const RUN: &str = "\
Examples:
  rvtest run tests.toml --match uart --exclude slow --last 20
  rvtest run tests.toml --report report.txt --junit junit.xml
  rvtest run tests.toml --failed report.txt --into report.txt

Exit status:
  0  No job failed
  1  A job failed
  2  Invalid arguments, list or report
  3  System error: memory, a thread or a file";

pub(crate) const LIST: &str = "\
Examples:
  rvtest list tests.toml
  rvtest list tests.toml --match uart --exclude slow

Exit status:
  0  The names were printed, or --failed found no failed job
  2  Invalid arguments, list or report
  3  System error: memory or a file";

pub(crate) const EXPLAIN: &str = "\
Examples:
  rvtest explain tests.toml uart-echo
  rvtest explain tests.toml uart-echo --last 200

Exit status:
  0  The job passed
  1  The job failed
  2  Invalid arguments or list, or unknown job name
  3  System error: memory or a file";

pub(crate) const CONSOLE: &str = "\
Examples:
  rvtest console tests.toml uart-echo
  rvtest console tests.toml uart-echo >uart-echo.out

Exit status:
  0  The job passed
  1  The job failed
  2  Invalid arguments or list, or unknown job name
  3  System error: memory or a file";

pub(crate) const GDB: &str = "\
Examples:
  gdb-multiarch -ex 'target remote | rvtest gdb tests.toml uart-echo'

Exit status:
  0  gdb ended the session or closed the connection
  2  Invalid arguments or list, unknown job name, or the job is refused
  3  System error: memory, a file or a stream";

pub(crate) const CHECK: &str = "\
Examples:
  rvtest check tests.toml
  rvtest check tests.toml --root build

Exit status:
  0  No errors, and no job is refused
  2  Invalid arguments, an error in the list, or a job is refused
  3  System error: memory or a file";

pub(crate) const ACCEPT: &str = "\
Examples:
  rvtest accept tests.toml --check
  rvtest accept tests.toml --match uart --ends

Exit status:
  0  Every selected job was accepted; with --check, nothing would change
  1  A job or file was skipped, or with --check, a file would change
  2  Invalid arguments, list or report
  3  System error: memory, a thread or a file";

pub(crate) const MERGE: &str = "\
Examples:
  rvtest merge part-1.txt part-2.txt --report report.txt
  rvtest merge part-*.txt --report report.txt --junit junit.xml

Exit status:
  0  No job failed
  1  A job failed
  2  Invalid arguments or part, or a part is missing
  3  System error: memory or a file";

pub(crate) const DIFF: &str = "\
Examples:
  rvtest diff main.txt branch.txt
  rvtest diff main.txt branch.txt --slower 5

Exit status:
  0  No job differs
  1  A job differs
  2  Invalid arguments or report
  3  System error: memory or a file";

pub(crate) const SHOW: &str = "\
Examples:
  rvtest show report.txt
  rvtest show report.txt --junit junit.xml

Exit status:
  0  No job failed
  1  A job failed
  2  Invalid arguments or report
  3  System error: memory or a file";

pub(crate) const COUNTS: &str = "\
Examples:
  rvtest counts part-1.counts part-2.counts --out whole.counts
  rvtest counts nightly-*.counts >week.counts

Exit status:
  0  The sum was written
  2  Invalid arguments or table, or a sum is 2^64 or more
  3  System error: memory or a file";

pub(crate) const COVER: &str = "\
Examples:
  rvtest cover tests.toml
  rvtest cover tests.toml --counts whole.counts --csv >cover.csv

Exit status:
  0  Coverage was shown, even if jobs failed
  2  Invalid arguments, list, report or table
  3  System error: memory, a thread or a file";

pub(crate) const PROFILE: &str = "\
Examples:
  rvtest profile tests.toml uart-echo
  rvtest profile tests.toml --counts whole.counts --top 10

Exit status:
  0  The profile was shown, even if jobs failed
  2  Invalid arguments, list, report or table
  3  System error: memory, a thread or a file";

pub(crate) const HELP: &str = "\
Examples:
  rvtest help run
  rvtest help keys

Exit status:
  0  The help was printed
  2  Invalid arguments, or unknown topic
  3  System error: memory";
