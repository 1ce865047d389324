//! Bit fields: extracting one from a word, joining two, and reading one as two's complement.
ghost use Rattle.rv_isa.specs.Bits.{field as bits_of, sign_extended};
ghost use Rattle.std.specs.Prelude.{ℕ, ◌≡◌, ◌+◌, ◌*◌, ◌-◌, ◌<◌, ◌≤◌, ◌^◌};

/// Returns the signed value of `value`, a two's complement number of `bits` bits.
///
/// `bits` must be from 1 to 32, and `value` must be below 2^`bits`.
#[inline]
pub fn sign_extend(value: u32, bits: u32) -> i32
    requires positive { 1 ≤ bits }
    requires within { bits ≤ 32 }
    requires small { value < 2 ^ bits }
    ensures { result ≡ sign_extended bits value }
{
    if value < 1 << (bits - 1) {
        value as i32
    } else {
        (i64::from(value) - (1 << bits)) as i32
    }
}

/// Returns the bits `high` down to `low` of `word`, as a number.
#[inline]
pub fn field(word: u32, high: u32, low: u32) -> u32
    requires ordered { low ≤ high }
    requires within { high < 32 }
    ensures value { result ≡ bits_of word high low }
    ensures small { result < 2 ^ (high - low + 1) }
{
    (word >> low) & (u32::MAX >> (31 - (high - low)))
}

/// Joins two bit fields: returns `low` in the low `width` bits and `high` in the bits above them.
#[inline]
pub fn concat_bits(high: u32, low: u32, width: u32) -> u32
    requires fits { low < 2 ^ width }
    requires within { width < 32 }
    requires no_overflow { high * 2 ^ width < 2 ^ 32 }
    ensures value { result ≡ high * 2 ^ width + low }
    // The fields of the result are the fields of the two inputs.
    ensures above { (h l : ℕ) → width ≤ l → l ≤ h →
        bits_of result h l ≡ bits_of high (h - width) (l - width) }
    ensures below { (h l : ℕ) → l ≤ h → h < width → bits_of result h l ≡ bits_of low h l }
{
    high << width | low
}
