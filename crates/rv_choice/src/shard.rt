//! The requested shard of a list, and its stamp.

ghost use Rattle.std.specs.Prelude.{◌≡◌, ◌≤◌, ◌<◌, ◌^◌, IfErr, IfNone, IfOk, IfSome, MatchOption, string_bytes, take, true};
ghost use Rattle.std.specs.Char.{is_ascii_digit};
ghost use Rattle.std.specs.List.{list_all};
ghost use Rattle.std.specs.Str.Parse.{IsNumeral, digits_value};
ghost use Rattle.hex.specs.Hex.{encode_lower};
ghost use Rattle.sha2.specs.Sha256.{sha256};
ghost use Rattle.rv_command.specs.Limits.{max_jobs};
ghost use Rattle.rv_choice.specs.Shard.{IsShardOf, IsShardStop, IsShardText, bad_shard_text, bad_stamp_text, number_before_slash, number_after_slash, stamp_for};
ghost use Rattle.rv_command.specs.Stops.{IsUsageStop};
ghost use Rattle.rv_command.specs.Names.{is_name};

use crate::bad_value::{bad_value_stop, bad_value_text};
use rv_command::limits::MAX_JOBS;
use rv_command::{ChoosingCommand, RunArgs, Stop, Text, is_name};
use rv_expect::Shard;
use sha2::{Digest, Sha256};
use std::alloc::{AllocError, Global};

/// Returns the requested shard of a list with `jobs` jobs and this text, or `None` if `--shard` is not given. If no stamp is given, it is
/// the first 16 hexadecimal digits of the SHA-256 of the text. It is an error if the value of `--shard` or `--stamp` is invalid.
pub fn requested_shard(
    alloc: Global,
    args: &RunArgs<'_>,
    command: ChoosingCommand,
    text: &[u8],
    jobs: usize,
) -> Result<Option<Shard>, Stop>
    requires { jobs ≤ max_jobs }
    ensures requested { IfOk result (IsShardOf args.now.shard) }
    ensures stamp { IfOk result (λ shard. IfSome shard (λ given.
        given.stamp ≡ stamp_for args.now.stamp text.now)) }
    ensures in_range { IfOk result (λ shard. IfSome shard (λ given.
        (given.jobs ≡ jobs) × (0 < given.number) × (given.number ≤ given.shards) × (given.shards ≤ max_jobs))) }
    ensures stamp_is_name { IfOk result (λ shard. IfSome shard (λ _.
        IfSome args.now.stamp (λ stamp. is_name stamp.now ≡ true))) }
    ensures stopped { IfErr result (IsShardStop args.now.shard args.now.stamp) }
{
    let Some(shard_text) = args.shard else {
        return Ok(None);
    };
    let Some((number, shards)) = shard_numbers(shard_text) else {
        return Err(bad_shard_stop(alloc, command, shard_text));
    };
    let stamp = match args.stamp {
        Some(stamp) if is_name(stamp.as_bytes()) => String::from_str(alloc, stamp)?,
        Some(stamp) => return Err(bad_stamp_stop(alloc, command, stamp)),
        None => list_digest(alloc, text)?,
    };
    Ok(Some(Shard {
        jobs: jobs as u32,
        number,
        shards,
        stamp: Text::new(stamp),
    }))
}

// Parses `K/N`, where 1 <= K <= N <= 4096. Returns K and N, or `None` for any other text.
fn shard_numbers(text: &str) -> Option<(u32, u32)>
    ensures numbers { IfSome result (λ numbers. (numbers.0 ≡ number_before_slash text.now)
        × (numbers.1 ≡ number_after_slash text.now)) }
    ensures in_range { IfSome result (λ numbers. (0 < numbers.0) × (numbers.0 ≤ numbers.1) × (numbers.1 ≤ max_jobs)) }
    ensures not_a_shard { IfNone result (IsShardText text.now → ⊥) }
{
    let (number, shards) = text.split_once('/')?;
    let number = parse_digits(number)?;
    let shards = parse_digits(shards)?;
    if 1 <= number && number <= shards && shards as usize <= MAX_JOBS {
        Some((number, shards))
    } else {
        None
    }
}

// Parses a number that consists of digits only. Returns `None` for any other text, and for a number that does not fit in 32 bits.
fn parse_digits(text: &str) -> Option<u32>
    ensures { MatchOption result (IsNumeral 10 text.now → 2 ^ 32 ≤ digits_value 10 text.now)
        (λ number. IsNumeral 10 text.now × (number ≡ digits_value 10 text.now)) }
{
    if has_only_digits(text.as_bytes()) {
        text.parse::<u32>().ok()
    } else {
        None
    }
}

// Whether a text has only ASCII digits.
fn has_only_digits(text: &[u8]) -> bool
    ensures { result ≡ list_all is_ascii_digit text.now }
{
    text.iter().all(|byte| byte.is_ascii_digit())
}

// Returns the first 16 hexadecimal digits of the SHA-256 of a list's text.
fn list_digest(alloc: Global, text: &[u8]) -> Result<String, AllocError>
    ensures { IfOk result (λ digits. string_bytes digits
        ≡ encode_lower (take 8 (sha256 text.now))) }
{
    let digest = Sha256::digest(text);
    hex::encode(alloc, &digest[..8])
}

// Returns the stop for a value of `--shard` that is not `K/N`, with the usage of the command.
fn bad_shard_stop(alloc: Global, command: ChoosingCommand, text: &str) -> Stop
    ensures { IsUsageStop (bad_shard_text text.now) result }
{
    let reason = "expected K/N with 1 <= K <= N <= 4096";
    let message = bad_value_text(alloc, "--shard <K/N>", text, reason);
    bad_value_stop(alloc, command, message)
}

// Returns the stop for a value of `--stamp` that is not a name, with the usage of the command.
fn bad_stamp_stop(alloc: Global, command: ChoosingCommand, stamp: &str) -> Stop
    ensures { IsUsageStop (bad_stamp_text stamp.now) result }
{
    let reason = "expected 1 to 64 letters, digits, '.', '_' or '-'";
    let message = bad_value_text(alloc, "--stamp <TEXT>", stamp, reason);
    bad_value_stop(alloc, command, message)
}
