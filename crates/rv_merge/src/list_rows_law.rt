//! A law of the rows that a machine computes for a list that was read, with no code to run.

ghost use Rattle.std.specs.Prelude.{◌≡◌, ◌<◌, ◌^◌, ℕ, List, Ok};
ghost use Rattle.std.specs.List.{All, AllByRecursion};
ghost use Rattle.hex.specs.Hex.{IsBytes};
ghost use Rattle.rv_rows.specs.declared_answers.PathResult.{PathResult};
ghost use Rattle.rv_rows.specs.declared_job.Job.{Job};
ghost use Rattle.rv_rows.specs.JobList.{job_list_of};
ghost use Rattle.rv_merge.specs.Parts.{AreValidRows};
ghost use Rattle.rv_rows.specs.Saved.{IsWord};
ghost use Rattle.rv_rows.specs.Rows.{rows_of};
ghost use Rattle.rv_rows.specs.SameResults.{plan_of_jobs};
ghost use Rattle.rv_merge.specs.Numbers.{EndHasWordNumbers, HasNumbers, HasWords};

use rv_rows::{Bytes, Row, RowEnd, Words};

/// Proves that the rows that a machine computes for a list are valid as the rows of a list, whatever the results for its paths are: there
/// are up to 4,096, with distinct valid names, numbers that fit in 32 bits, consoles of bytes, signatures of at most 65,536 words, and no
/// refusal for lack of memory.
pub fn rows_form_a_list(rows: &[Row])
    ensures { (bytes : List ℕ) (list : List Job) (results : List PathResult)
        → job_list_of bytes ≡ Ok list → rows.now ≡ rows_of (plan_of_jobs list results)
        → AreValidRows rows.now }
{
    prove_rows_have_numbers(rows);
}

// Proves that the numbers of all rows fit in 32 bits, and that their consoles consist of bytes.
fn prove_rows_have_numbers(rows: &[Row])
    ensures { All HasNumbers rows.now }
{
    for row in rows {
        prove_row_has_numbers(row);
    }
}

// Proves that the numbers of a row fit in 32 bits, and that its console consists of bytes.
fn prove_row_has_numbers(row: &Row)
    ensures { HasNumbers row.now }
{
    prove_ending_has_words(row.ending);
    prove_number_is_word(row.steps);
    prove_console_is_bytes(&row.console);
    prove_signature_is_words(&row.signature);
}

// Proves that the numbers of an ending fit in 32 bits.
fn prove_ending_has_words(ending: RowEnd)
    ensures { EndHasWordNumbers ending }
{
    match ending {
        RowEnd::Exit(code) => prove_number_is_word(code),
        RowEnd::Fault(_, pc, value) => {
            prove_number_is_word(pc);
            prove_number_is_word(value);
        }
        RowEnd::Budget | RowEnd::Refused(_) => {}
    }
}

// Proves that a `u32` fits in 32 bits.
fn prove_number_is_word(number: u32)
    ensures { IsWord number }
{
    let _read = number;
}

// Proves that a console consists of bytes.
fn prove_console_is_bytes(console: &Bytes)
    ensures { IsBytes console.now }
{
    prove_slice_is_bytes(console.as_slice());
}

// Proves that a slice of `u8` consists of bytes.
fn prove_slice_is_bytes(bytes: &[u8])
    ensures { IsBytes bytes.now }
{
    let _read = bytes;
}

// Proves that the words of a signature fit in 32 bits.
fn prove_signature_is_words(signature: &Option<Words>)
    ensures { HasWords signature.now }
{
    if let Some(words) = signature {
        prove_slice_is_words(words.as_slice());
    }
}

// Proves that the elements of a slice of `u32` fit in 32 bits.
fn prove_slice_is_words(words: &[u32])
    ensures { AllByRecursion IsWord words.now }
{
    let _read = words;
}
