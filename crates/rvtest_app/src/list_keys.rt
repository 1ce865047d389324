//! What `rvtest help keys` prints. packaging/pages writes this file from README.md's table of keys.

/// The keys of a list.
pub(crate) const LIST_KEYS: &str = "\
The keys of a job, a table of the array job:

  name
      1 to 64 ASCII letters, digits, ., _, -; unique in the list; required
  image
      path of an ELF file; required
  budget
      maximum number of steps, 1 to 1,000,000,000; required
  input, input_hex
      console input for the program, as text or hexadecimal digits: at most
      65,536 bytes; default: empty
  load
      \"physical\" or \"virtual\": where segments are placed; default: physical
  region
      1 to 4 tables of base, size, write: multiples of 4, together at most
      16,777,216 bytes; default: 1,048,576 writable bytes at 0x8000_0000
  signature
      [\"begin\", \"end\"]: two symbols; default: none
  isa
      \"rv32i\", \"rv32im\", \"rv32ic\", \"rv32imc\"; default: rv32imc
  misaligned
      \"fault\" or \"allow\" misaligned loads and stores; default: fault
  expect_exit
      the exit code
  expect_end
      \"budget\", or a kind of fault such as \"load-access\"
  expect_console, expect_console_file
      the expected console output, at most 65,536 bytes, or the path of a file
      that has it
  expect_signature
      path of a file with the signature's lines; requires signature
  same_as
      an earlier job that must have the same end, console and signature
";
