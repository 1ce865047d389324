//! Job lists, tested with the whole program and files in memory.

use crate::cases::check;
use std::test::Fail;

// label | file | budget | other keys | end | steps | signature
const JOB_RUNS: &str = "\
47|2|rvfleet run jobs|job = [{name = 'a.b-c_9', image = 'image', budget = $2, $3}]|image = $1
====
0||job 1 a.b-c_9/end $4/steps $5/console -/signature $6/verdict none/done 1/
====
load physical | two | 10 | load = 'physical' | exit 0 | 3 | -
load absent | two | 10 |  | exit 0 | 3 | -
load virtual | two | 10 | load = 'virtual' | exit 42 | 3 | -
load virtual, overlap at the physical | two 96=80000008 | 10 | load = 'virtual' | exit 42 | 3 | -
read only | code 00000297 0002a023 | 10 | region = [{base = 0x80000000, size = 4096, write = false}] | \
fault store-access pc=80000004 value=80000000 | 1 | -
written | code 00000297 0002a023 | 10 | region = [{base = 0x80000000, size = 4096}] | \
fault illegal pc=80000008 value=00000000 | 2 | -
small region | one | 10 | region = [{base = 0x80000000, size = 8}] | refused segment-map | 0 | -
four regions | one | 10 | region = [{base = 0, size = 4}, {base = 8, size = 4}, {base = 16, size = 4}, \
{base = 0x80000000, size = 12}] | exit 5 | 2 | -
script as text | code 100002b7 0042a503 X | 100 | input = 'AB' | exit 2 | 3 | -
script as digits | code 100002b7 0002a503 X | 100 | input_hex = 'aF' | exit 175 | 3 | -
signature | sign | 100 | $S | exit 0 | 9 | 2/80000000/ffffffff
empty signature | sign | 100 | signature = ['end_signature', 'end_signature'] | exit 0 | 9 | 0
signature of the last state | sign | 5 | $S | budget | 5 | 2/80000000/00000000
signature before the stores | sign | 4 | $S | budget | 4 | 2/00000000/00000000
names exchanged | sign | 100 | signature = ['end_signature', 'begin_signature'] | refused signature-range | 0 | -
no sections | one | 100 | $S | refused section-table | 0 | -
first name missing | sign | 100 | signature = ['begin', 'end'] | refused no-begin | 0 | -
second name missing | sign | 100 | signature = ['begin_signature', 'end'] | refused no-end | 0 | -
no file | none | 10 |  | refused image-unreadable | 0 | -
c.addi16sp without C | code 6105 850a X | 10 | isa = 'rv32i' | fault illegal pc=80000000 value=00006105 | 0 | -
c.addi16sp | code 6105 850a X | 10 | isa = 'rv32ic' | exit 32 | 3 | -
div without M | code 800005b7 fff00613 02c5c533 X | 10 | isa = 'rv32i' | fault illegal pc=80000008 value=02c5c533 | \
2 | -
div without M, with C | code 800005b7 fff00613 02c5c533 X | 10 | isa = 'rv32ic' | \
fault illegal pc=80000008 value=02c5c533 | 2 | -
div | code 800005b7 fff00613 02c5c533 X | 10 | isa = 'rv32im' | exit 2147483648 | 4 | -
jump by two without C | code 0020006f X | 10 | isa = 'rv32im' | fault fetch-misaligned pc=80000000 value=80000002 | \
0 | -
jump by two | code 0020006f X | 10 | isa = 'rv32imc' | exit 0 | 3 | -
untaken branch by six | code 00001363 00500513 X | 10 | isa = 'rv32i' | exit 5 | 3 | -
taken branch by six | code 00000363 00500513 X | 10 | isa = 'rv32i' | \
fault fetch-misaligned pc=80000000 value=80000006 | 0 | -
jalr by ten | code 00000297 00a282e7 | 10 | isa = 'rv32i' | fault fetch-misaligned pc=80000004 value=8000000a | 1 | -
entry at two without C | one 24=80000002 | 10 | isa = 'rv32i' | refused entry-align | 0 | -
entry at two | one 24=80000002 | 10 | isa = 'rv32imc' | exit 0 | 2 | -
load at two | code 00000297 0022a503 X | 10 | misaligned = 'allow' | exit 2768437248 | 3 | -
load at two, refused | code 00000297 0022a503 X | 10 | misaligned = 'fault' | \
fault load-misaligned pc=80000004 value=80000002 | 1 | -
console at one | code 100002b7 0012a503 | 10 | misaligned = 'allow' | fault load-access pc=80000004 value=10000001 | \
1 | -
console at one, refused | code 100002b7 0012a503 | 10 | misaligned = 'fault' | \
fault load-misaligned pc=80000004 value=10000001 | 1 | -
a store of the console at one | code 100002b7 0002a0a3 | 10 | misaligned = 'allow' | \
fault store-access pc=80000004 value=10000001 | 1 | -
a store of the console at one, refused | code 100002b7 0002a0a3 | 10 | misaligned = 'fault' | \
fault store-misaligned pc=80000004 value=10000001 | 1 | -
a store across the region's end | code 801002b7 fe02af23 | 10 | misaligned = 'allow' | \
fault store-access pc=80000004 value=800ffffe | 1 | -
a store across the region's end, refused | code 801002b7 fe02af23 | 10 | misaligned = 'fault' | \
fault store-misaligned pc=80000004 value=800ffffe | 1 | -
across the region's end | code 801002b7 ffe2a503 | 10 | misaligned = 'allow' | \
fault load-access pc=80000004 value=800ffffe | 1 | -
across the region's end, refused | code 801002b7 ffe2a503 | 10 | misaligned = 'fault' | \
fault load-misaligned pc=80000004 value=800ffffe | 1 | -
store over code ahead | code 00000297 0002a723 00000013 00000013 X | 10 | misaligned = 'allow' | \
fault stale-code pc=8000000c value=8000000e | 3 | -
store over code ahead, refused | code 00000297 0002a723 00000013 00000013 X | 10 | misaligned = 'fault' | \
fault store-misaligned pc=80000004 value=8000000e | 1 | -
store and fence.i | code 00000297 0002a723 0000100f 00000013 X | 10 | misaligned = 'allow' | \
fault illegal pc=80000010 value=00000000 | 4 | -
store and fence.i, refused | code 00000297 0002a723 0000100f 00000013 X | 10 | misaligned = 'fault' | \
fault store-misaligned pc=80000004 value=8000000e | 1 | -
jump to the second stored word | code 00000297 0002a723 0080006f 00000013 X | 10 | misaligned = 'allow' | \
fault stale-code pc=80000010 value=80000010 | 3 | -
jump to the second stored word, refused | code 00000297 0002a723 0080006f 00000013 X | 10 | misaligned = 'fault' | \
fault store-misaligned pc=80000004 value=8000000e | 1 | -
";

// A list with an error, with `/` for each line feed | the error. No file of its jobs is read.
const REFUSED_LISTS: &str = "\
33|1|rvfleet run jobs|$0
====
0;jobs;|2|rvfleet: $1/|
====
x = 1 | job 0: no-jobs
 | job 0: no-jobs
job = [] | job 0: no-jobs
job = 5 | job 0: wrong-type
job = [5] | job 1: wrong-type
job = [ | job 0: not-toml
x = 1/[[job]]/name = 'a'/image = 'b'/budget = 3 | job 0: unknown-key
[[job]]/name = 'a'/image = 'b'/budget = 3/[[job]]/name = 'a'/image = 'b'/budget = 3 | job 2: duplicate
[[job]]/name = 'a'/image = 'b'/budget = 0 | job 1: budget
[[job]]/name = 'a'/image = 'b'/budget = 1000000001 | job 1: budget
[[job]]/name = 'a'/image = 'b'/budget = '3' | job 1: wrong-type
[[job]]/name = 'a'/image = 'b'/budget = 3/input_hex = '4' | job 1: input
[[job]]/name = 'a'/image = 'b'/budget = 3/input = ''/input_hex = '' | job 1: input
[[job]]/name = 'a'/image = 'b'/budget = 3/region = [] | job 1: region
[[job]]/name = 'a'/image = 'b'/budget = 3/region = [{base = 0, size = 0}] | job 1: region
[[job]]/name = 'a'/image = 'b'/budget = 3/region = [{base = 0, size = 4, x = 1}] | job 1: unknown-key
[[job]]/name = 'a'/image = 'b'/budget = 3/signature = ['a'] | job 1: signature
[[job]]/name = 'a'/image = 'b'/budget = 3/signature = ['a', 1] | job 1: wrong-type
[[job]]/name = 'a'/image = 'b'/budget = 3/load = 'x' | job 1: load
[[job]]/image = 'b' | job 1: name
[[job]]/image = 'b'/x = 1 | job 1: unknown-key
[[job]]/name = 'a'/image = ''/budget = 3 | job 1: image
[[job]]/name = 'a'/image = 'b'/budget = 3/expect_exit = -1 | job 1: expect
[[job]]/name = 'a'/image = 'b'/budget = 3/expect_exit = 4294967296 | job 1: expect
[[job]]/name = 'a'/image = 'b'/budget = 3/expect_signature = 'r' | job 1: expect
[[job]]/name = 'a'/image = 'b'/budget = 3/signature = ['a', 'b']/expect_signature = '' | job 1: expect
[[job]]/name = 'a'/image = 'b'/budget = 3/same_as = 'a' | job 1: same-as
[[job]]/name = 'a'/image = 'b'/budget = 3/same_as = 'c'/[[job]]/name = 'c'/image = 'b'/budget = 3 | job 1: same-as
[[job]]/name = 'a'/image = 'b'/budget = 3/[[job]]/name = 'c'/image = 'b'/budget = 3/same_as = 'd' | job 2: same-as
[[job]]/name = 'a'/image = 'b'/budget = 3/isa = 'rv64i' | job 1: isa
[[job]]/name = 'a'/image = 'b'/budget = 3/isa = 32 | job 1: wrong-type
[[job]]/name = 'a'/image = 'b'/budget = 3/misaligned = 'yes' | job 1: misaligned
[[job]]/name = 'a'/image = 'b'/budget = 3/misaligned = true | job 1: wrong-type
";

/// A list that is not UTF-8: its bytes | the error
const NO_TEXT: &str = "\
1|1|rvfleet run jobs||jobs = bytes $0
====
0;jobs;|2|rvfleet: $1/|
====
6a ff | job 0: not-toml
";

// the first line | the error | the number of valid jobs | what follows them
const LONG_LISTS: &str = "\
5|1|rvfleet run jobs|$0 + $2 times [[job]]/name = '%'/image = 'image'/budget = 10/ + $3
====
0;jobs;|2|rvfleet: $1/|
====
 | job 0: too-many | 4097 |
x = 1/ | job 0: too-many | 4097 |
 | job 10: budget | 9 | [[job]]/name = 'last'/image = 'image'/budget = 0/
 | job 100: budget | 99 | [[job]]/name = 'last'/image = 'image'/budget = 0/
 | job 4096: budget | 4095 | [[job]]/name = 'last'/image = 'image'/budget = 0/
";

// The list cannot be read: what is at its path | how many files are not found | the error
const UNREAD_LISTS: &str = "\
2|1|rvfleet run jobs||jobs = $0
====
$1;jobs;|3|rvfleet: $2/|
====
none | 1 | list unreadable
bytes 20*16777217 | 0 | list too long
";

// A row with everything that a row can have: keys | the status | the signature | the verdict. The image prints 41, 00 and ff.
const FULL_ROWS: &str = "\
2|2|rvfleet run jobs|job = [{name = 'a.b_c-d', image = 'i', budget = 100, $0}]|i = sign 84=100002b7 88=04100513 \
92=00a2a023 \
96=0002a023 100=0ff00513 104=00a2a023 108=00000013 116=00500513 124=80000000 128=0000001f
====
$1||job 1 a.b_c-d/end exit 5/steps 9/console 4100ff/signature $2/verdict $3/done 1/
====
signature = ['end_signature', 'end_signature'], expect_exit = 5 | 0 | 0 | pass
$S, expect_exit = 6 | 1 | 2/80000000/0000001f | fail
";

// A list of 4,096 jobs with one truncated image, which is read once. The rows are written in chunks of about 32,768 bytes. The rows of the
// table are the arguments.
const LONGEST_LIST: &str = "\
2|0|$_| + 4096 times [[job]]/name = '%'/image = 'image'/budget = 10/ + |image = one 51
====
11 0 0 0|0;jobs;image;|0|| + 4096 times job % %/end refused short-header/steps 0/console -/signature -/verdict none/ \
+ done 4096/
====
rvfleet run jobs --workers 64 --group 1
rvfleet run jobs --workers 64 --group 4096
";

// Lists of jobs have the expected reports, and lists with an error have the expected error output.
#[test]
fn runs_lists(rt: HostRuntime) -> Result<(), Fail> {
    check(
        &rt,
        rt.alloc(),
        &[
            JOB_RUNS,
            FULL_ROWS,
            REFUSED_LISTS,
            NO_TEXT,
            LONG_LISTS,
            UNREAD_LISTS,
            LONGEST_LIST,
        ],
    )
}
