//! The arguments of the program: rejected ones, the longest ones, and help.

use crate::cases::check;
use std::test::Fail;

// Arguments that are rejected, one line each, before any path is read. The first line has no arguments.
const BAD_ARGUMENTS: &str = "\
31|1|rvfleet $_
====
0;|2|rvfleet: bad words/|
====

walk
help
--version
-V
raw --version
raw
raw --budget
raw --budget 0
raw --budget 1000000001
raw --budget x
raw --budget -1
raw --budget 3 more
raw --budget 3 --budget 4
raw --budget 3 --workers 1
one --budget 10
one image
one  --budget 10
one image --budget 10 --input-hex 4
one image --budget 10 --input-hex 4g
one image --budget 10 more
run
run 
run jobs more
run jobs --budget 3
run jobs --workers 0
run jobs --workers 65
run jobs --workers x
run jobs --group 0
run jobs --group 4097
run jobs --group x
";

// An image at a path, and console input: the length of the path | the number of bytes of the input
const LONGEST_WORDS: &str = "\
1|1|rvfleet one  + $0 times a +  --budget 10 --input-hex  + $1 times 4f + || + $0 times a +  = code 100002b7 0042a503 X
====
0; + $0 times a + ;|0||job 1 one
end exit 65536
steps 3
console -
signature -
verdict none
done 1/
====
4096 | 65536
";

/// As `LONGEST_WORDS`, but the path or the input is too long, so the arguments are rejected.
const LONGER_WORDS: &str = "\
2|1|rvfleet one  + $0 times a +  --budget 10 --input-hex  + $1 times 4f + || + $0 times a +  = code 100002b7 0042a503 X
====
0;|2|rvfleet: bad words/|
====
5 | 65537
4097 |
";

// A list at a path of this length, where no file exists.
const LONGEST_PATH: &str = "\
1|1|rvfleet run  + $0 times a
====
1; + $0 times a + ;|3|rvfleet: list unreadable/|
====
4096
";

/// A list at a path of this length, which is too long.
const LONGER_PATH: &str = "\
1|1|rvfleet run  + $0 times a
====
0;|2|rvfleet: bad words/|
====
4097
";

/// Arguments that request the help of the program.
const HELP: &str = "\
2|1|rvfleet $_
====
0;|0||Runs RV32IMC firmware images and reports how each run ended

Usage: rvfleet <COMMAND>

Commands:
  raw  Runs the flat image on standard input, placed at 0x80000000
  one  Runs one ELF image, placed at its physical addresses
  run  Runs the jobs of a list, and reports one row a job

Options:
  -h, --help  Print help/
====
--help
-h
";

/// Arguments that request the help of the command `raw`.
const RAW_HELP: &str = "\
1|1|rvfleet $_
====
0;|0||Runs the flat image on standard input, placed at 0x80000000

Usage: rvfleet raw --budget <N>

Options:
      --budget <N>  Steps at most, from 1 to 1000000000
  -h, --help        Print help/
====
raw --help
";

/// Arguments that request the help of the command `one`.
const ONE_HELP: &str = "\
1|1|rvfleet $_
====
0;|0||Runs one ELF image, placed at its physical addresses

Usage: rvfleet one [OPTIONS] --budget <N> <IMAGE>

Arguments:
  <IMAGE>  Path of the image

Options:
      --budget <N>     Steps at most, from 1 to 1000000000
      --input-hex <H>  The console's input, as hexadecimal digits
  -h, --help           Print help/
====
one --help
";

/// Arguments that request the help of the command `run`.
const RUN_HELP: &str = "\
1|1|rvfleet $_
====
0;|0||Runs the jobs of a list, and reports one row a job

Usage: rvfleet run [OPTIONS] <JOBS>

Arguments:
  <JOBS>  Path of the job list

Options:
      --workers <N>  Threads, from 1 to 64 [default: 1]
      --group <N>    Jobs that a thread takes at once, from 1 to 4096 [default: 1]
  -h, --help         Print help/
====
run --help
";

// Invalid arguments are rejected, the longest ones are accepted, and help is written to standard output.
#[test]
fn accepts_or_rejects_arguments(rt: HostRuntime) -> Result<(), Fail> {
    check(
        &rt,
        rt.alloc(),
        &[
            BAD_ARGUMENTS,
            LONGEST_WORDS,
            LONGER_WORDS,
            LONGEST_PATH,
            LONGER_PATH,
            HELP,
            RAW_HELP,
            ONE_HELP,
            RUN_HELP,
        ],
    )
}
