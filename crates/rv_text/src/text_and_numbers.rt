//! Parts of lines: text and numbers.

ghost use Rattle.std.specs.Prelude.{◌≡◌, ◌++◌, OnOk};
ghost use Rattle.std.specs.Fmt.{decimal};
ghost use Rattle.rv_text.specs.Numbers.{count_text, exit_code_text, plural_ending, word_digits};

use std::alloc::AllocError;

/// Appends a text unchanged.
pub fn push_text(bytes: &mut Vec<u8>, text: &str) -> Result<(), AllocError>
    ensures { OnOk result (bytes.new.items ≡ bytes.old.items ++ text.now) }
{
    bytes.extend_from_slice(text.as_bytes())
}

/// Appends a number in decimal.
pub fn push_number(bytes: &mut Vec<u8>, number: u64) -> Result<(), AllocError>
    ensures { OnOk result (bytes.new.items ≡ bytes.old.items ++ decimal number) }
{
    let digits = number.to_string(*bytes.allocator())?;
    push_text(bytes, digits.as_str())
}

/// Appends a number and a noun, which is given in the singular: `1 step`, but `2 steps`.
#[tactic(auto, unfolding(crate::specs::Numbers::count_text))]
pub fn push_count(bytes: &mut Vec<u8>, number: u64, noun: &str) -> Result<(), AllocError>
    ensures { OnOk result (bytes.new.items ≡ bytes.old.items ++ count_text number noun.now) }
{
    push_number(bytes, number)?;
    push_text(bytes, " ")?;
    push_text(bytes, noun)?;
    push_text(bytes, plural_ending(number))
}

// Returns the ending of a noun after this number: empty for 1, and `s` for any other number.
fn plural_ending(number: u64) -> &'static str
    ensures { result.now ≡ plural_ending number }
{
    if number == 1 { "" } else { "s" }
}

/// Appends an exit code in decimal; if its top bit is set, as a negative number followed by the unsigned one that lists use:
/// `-1 (4294967295)`.
#[tactic(auto, unfolding(crate::specs::Numbers::exit_code_text))]
pub fn push_exit_code(bytes: &mut Vec<u8>, code: u32) -> Result<(), AllocError>
    ensures { OnOk result (bytes.new.items ≡ bytes.old.items ++ exit_code_text code) }
{
    if code <= 0x7fff_ffff {
        return push_number(bytes, u64::from(code));
    }
    push_text(bytes, "-")?;
    push_number(bytes, 0x1_0000_0000 - u64::from(code))?;
    push_text(bytes, " (")?;
    push_number(bytes, u64::from(code))?;
    push_text(bytes, ")")
}

/// Appends a word as eight lower-case hexadecimal digits.
#[tactic(auto, unfolding(crate::specs::Numbers::word_digits))]
pub fn push_word_digits(bytes: &mut Vec<u8>, word: u32) -> Result<(), AllocError>
    ensures { OnOk result (bytes.new.items ≡ bytes.old.items ++ word_digits word) }
{
    let mut digits = [0u8; 8];
    hex::encode_to_slice(word.to_be_bytes().as_slice(), &mut digits).unwrap();
    bytes.extend_from_slice(&digits)
}
