//! Reports of lists with different numbers of workers, and of lists of which one file, each in turn, cannot be read.

use crate::cases::check;
use std::test::Fail;

// A list with one job for each kind of end: arguments | a key of the first job | its verdict | the maximum number of bytes per write | the
// number of writes. Each path is read once, in order of first use. The report has 405 bytes.
const REPORTED: &str = "\
8|0|rvfleet $0|
[[job]]
name = 'pass'
image = 'a.elf'
budget = 3
$1

[[job]]
name = 'fault'
image = 'f.elf'
budget = 10

[[job]]
name = 'budget'
image = 'a.elf'
budget = 2

[[job]]
name = 'short'
image = 'cut.elf'
budget = 10

[[job]]
name = 'sign'
image = 's.elf'
budget = 100
signature = ['begin_signature', 'end_signature']
|
a.elf = one
f.elf = code 9002
cut.elf = one 51
s.elf = sign|put_most=$3
====
$4 0 0 0|0;jobs;a.elf;f.elf;cut.elf;s.elf;|0||job 1 pass
end exit 5
steps 2
console -
signature -
verdict $2
job 2 fault
end fault breakpoint pc=80000000 value=00000000
steps 0
console -
signature -
verdict none
job 3 budget
end budget
steps 2
console -
signature -
verdict none
job 4 short
end refused short-header
steps 0
console -
signature -
verdict none
job 5 sign
end exit 0
steps 9
console -
signature 2
80000000
ffffffff
verdict none
done 5/
====
run jobs | expect_exit = 5 | pass | | 1
run jobs --workers 1 | expect_exit = 5 | pass | | 1
run jobs --workers 4 --group 2 | expect_exit = 5 | pass | | 1
run jobs --workers 1 --group 5 | expect_exit = 5 | pass | | 1
run --group 1 jobs --workers 64 | expect_exit = 5 | pass | | 1
run jobs | | none | | 1
run jobs --workers 1 | expect_exit = 5 | pass | 1 | 405
run jobs --workers 4 --group 2 | expect_exit = 5 | pass | 1 | 405
";

// One file is not found, with one worker and with four: arguments | a key of the first job | its verdict | the read that fails | the status
// | the end of each row
const FAILED_READS: &str = "\
8|0|rvfleet $0|
[[job]]
name = 'pass'
image = 'a.elf'
budget = 3
$1

[[job]]
name = 'fault'
image = 'f.elf'
budget = 10

[[job]]
name = 'budget'
image = 'a.elf'
budget = 2

[[job]]
name = 'short'
image = 'cut.elf'
budget = 10

[[job]]
name = 'sign'
image = 's.elf'
budget = 100
signature = ['begin_signature', 'end_signature']
|
a.elf = one
f.elf = code 9002
cut.elf = one 51
s.elf = sign|$3
====
1 0 0 0|1;jobs;a.elf;f.elf;cut.elf;s.elf;|$4||job 1 pass
end $5
console -
signature -
verdict $2
job 2 fault
end $6
console -
signature -
verdict none
job 3 budget
end $7
console -
signature -
verdict none
job 4 short
end $8
console -
signature -
verdict none
job 5 sign
end $9
verdict none
done 5/
====
run jobs --workers 1 | expect_exit = 5 | fail | no_file=2 | 1 | refused image-unreadable/steps 0 | \
fault breakpoint pc=80000000 value=00000000/steps 0 | refused image-unreadable/steps 0 | \
refused short-header/steps 0 | exit 0/steps 9/console -/signature 2/80000000/ffffffff
run jobs --workers 4 --group 2 | expect_exit = 5 | fail | no_file=2 | 1 | refused image-unreadable/steps 0 | \
fault breakpoint pc=80000000 value=00000000/steps 0 | refused image-unreadable/steps 0 | \
refused short-header/steps 0 | exit 0/steps 9/console -/signature 2/80000000/ffffffff
run jobs --workers 1 | expect_exit = 5 | pass | no_file=3 | 0 | exit 5/steps 2 | refused image-unreadable/steps 0 | \
budget/steps 2 | refused short-header/steps 0 | exit 0/steps 9/console -/signature 2/80000000/ffffffff
run jobs --workers 4 --group 2 | expect_exit = 5 | pass | no_file=3 | 0 | exit 5/steps 2 | \
refused image-unreadable/steps 0 | budget/steps 2 | refused short-header/steps 0 | \
exit 0/steps 9/console -/signature 2/80000000/ffffffff
run jobs --workers 1 | expect_exit = 5 | pass | no_file=4 | 0 | exit 5/steps 2 | \
fault breakpoint pc=80000000 value=00000000/steps 0 | budget/steps 2 | refused image-unreadable/steps 0 | \
exit 0/steps 9/console -/signature 2/80000000/ffffffff
run jobs --workers 4 --group 2 | expect_exit = 5 | pass | no_file=4 | 0 | exit 5/steps 2 | \
fault breakpoint pc=80000000 value=00000000/steps 0 | budget/steps 2 | refused image-unreadable/steps 0 | \
exit 0/steps 9/console -/signature 2/80000000/ffffffff
run jobs --workers 1 | expect_exit = 5 | pass | no_file=5 | 0 | exit 5/steps 2 | \
fault breakpoint pc=80000000 value=00000000/steps 0 | budget/steps 2 | refused short-header/steps 0 | \
refused image-unreadable/steps 0/console -/signature -
run jobs --workers 4 --group 2 | expect_exit = 5 | pass | no_file=5 | 0 | exit 5/steps 2 | \
fault breakpoint pc=80000000 value=00000000/steps 0 | budget/steps 2 | refused short-header/steps 0 | \
refused image-unreadable/steps 0/console -/signature -
";

// One failed read ends the program, and nothing is written to standard output: arguments | a key of the first job | how many files are not
// found, and the paths that are read | the read that fails | the error output
const ENDS: &str = "\
12|0|rvfleet $0|
[[job]]
name = 'pass'
image = 'a.elf'
budget = 3
$1

[[job]]
name = 'fault'
image = 'f.elf'
budget = 10

[[job]]
name = 'budget'
image = 'a.elf'
budget = 2

[[job]]
name = 'short'
image = 'cut.elf'
budget = 10

[[job]]
name = 'sign'
image = 's.elf'
budget = 100
signature = ['begin_signature', 'end_signature']
|
a.elf = one
f.elf = code 9002
cut.elf = one 51
s.elf = sign|$3
====
0 0 0 0|$2|3|rvfleet: $4/|
====
run jobs --workers 1 | expect_exit = 5 | 1;jobs; | no_file=1 | list unreadable
run jobs --workers 4 --group 2 | expect_exit = 5 | 1;jobs; | no_file=1 | list unreadable
run jobs --workers 1 | expect_exit = 5 | 0;jobs; | no_memory=1 | out of memory
run jobs --workers 4 --group 2 | expect_exit = 5 | 0;jobs; | no_memory=1 | out of memory
run jobs --workers 1 | expect_exit = 5 | 0;jobs;a.elf; | no_memory=2 | out of memory
run jobs --workers 4 --group 2 | expect_exit = 5 | 0;jobs;a.elf; | no_memory=2 | out of memory
run jobs --workers 1 | expect_exit = 5 | 0;jobs;a.elf;f.elf; | no_memory=3 | out of memory
run jobs --workers 4 --group 2 | expect_exit = 5 | 0;jobs;a.elf;f.elf; | no_memory=3 | out of memory
run jobs --workers 1 | expect_exit = 5 | 0;jobs;a.elf;f.elf;cut.elf; | no_memory=4 | out of memory
run jobs --workers 4 --group 2 | expect_exit = 5 | 0;jobs;a.elf;f.elf;cut.elf; | no_memory=4 | out of memory
run jobs --workers 1 | expect_exit = 5 | 0;jobs;a.elf;f.elf;cut.elf;s.elf; | no_memory=5 | out of memory
run jobs --workers 4 --group 2 | expect_exit = 5 | 0;jobs;a.elf;f.elf;cut.elf;s.elf; | no_memory=5 | out of memory
";

// The report of a list does not depend on the number of workers, and each file that cannot be read is reported.
#[test]
fn reports_do_not_depend_on_workers(rt: HostRuntime) -> Result<(), Fail> {
    check(&rt, rt.alloc(), &[REPORTED, FAILED_READS, ENDS])
}
