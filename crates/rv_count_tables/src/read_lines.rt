//! Parses the lines of a table as far as they are valid. To check a line, its values are formatted again and compared with it.

ghost use Rattle.std.specs.Prelude.{◌≡◌, ◌≤◌, ◌<◌, ◌^◌, ℕ, Some, None, IfOk, IfSome, IfNone, length, true, IsTrue, ◌↔◌, ◌&&◌, ◌==◌, nat_le, nat_lt};
ghost use Rattle.std.specs.List.{AllByRecursion};
ghost use Rattle.std.specs.Str.{bytes_eq, IsUtf8};
ghost use Rattle.rv_count_tables.specs.declared.table.AddressCounts.{AddressCounts as Counts};
ghost use Rattle.rv_count_tables.specs.declared.table.ImageCounts.{ImageCounts as Image};
ghost use Rattle.rv_count_tables.specs.Lines.{whole_line};
ghost use Rattle.rv_count_tables.specs.Table.{IsValidCount, IsValidImage, is_greater_than_last};
ghost use Rattle.rv_count_tables.specs.Text.{address_line, image_line, last_line};
ghost use Rattle.rv_count_tables.specs.ReadSteps.{AreParsedAddresses, AreParsedImages, IsParsedImage, IsNotAnAddress, IsNotAnImage, last_digest};

use crate::line_parts::{
    decimal_number, hex_bytes, hex_word, leading_bytes, text_after_byte, text_before_byte,
    whole_line,
};
use crate::order::is_before;
use crate::push_item::push_item;
use crate::read_stacks::read_nodes;
use crate::table::{AddressCounts, Addresses, Digest, FunctionNames, ImageCounts, Images};
use crate::text::{push_address_line, push_image_line, push_last_line};
use rv_call_tree::{CallNodes, Text};
use rv_text::tail_from;
use std::alloc::{AllocError, Global};

/// Parsed addresses, and the length of their lines in bytes.
#[derive(Drop)]
pub(crate) struct ParsedAddresses {
    pub(crate) addresses: Addresses,
    pub(crate) length: usize,
}

/// A parsed image, and the length of its lines in bytes.
#[derive(Drop)]
pub(crate) struct ParsedImage {
    pub(crate) image: ImageCounts,
    pub(crate) length: usize,
}

/// Parsed images, and the length of their lines in bytes.
#[derive(Drop)]
pub(crate) struct ParsedImages {
    pub(crate) images: Images,
    pub(crate) length: usize,
}

/// Parses the lines of images at the start of a text, up to the first line that cannot belong to them.
pub(crate) fn read_images(alloc: Global, text: &[u8]) -> Result<ParsedImages, AllocError>
    ensures { IfOk result (λ parsed. AreParsedImages text.now parsed) }
{
    let mut images = Vec::new(alloc);
    let mut length = 0;
    'images: loop {
        match read_image(alloc, tail_from(text, length), images.as_slice())? {
            Some(read) => {
                length += read.length;
                push_item(&mut images, read.image)?;
            }
            None => {
                return Ok(ParsedImages {
                    images: Images::new(images),
                    length,
                });
            }
        }
    }
}

// Parses the lines of one image at the start of a text, or returns `None` if the text does not begin with an image whose digest is greater
// than those in `earlier`.
fn read_image(
    alloc: Global,
    text: &[u8],
    earlier: &[ImageCounts],
) -> Result<Option<ParsedImage>, AllocError>
    ensures image { IfOk result (λ parsed. IfSome parsed (IsParsedImage (last_digest None earlier.now) text.now)) }
    ensures none { IfOk result (λ parsed. IfNone parsed (IsNotAnImage (last_digest None earlier.now) (whole_line text.now))) }
{
    let line = whole_line(text);
    let mut image = image_of_line(alloc, line)?;
    if !can_follow_images(image.digest.as_slice(), earlier) {
        return Ok(None);
    }
    if !has_image_line(alloc, &image, line)? {
        return Ok(None);
    }
    let lines = read_addresses(alloc, tail_from(text, line.len()))?;
    let addresses_end = line.len() + lines.length;
    let nodes = read_nodes(alloc, tail_from(text, addresses_end))?;
    let length = addresses_end + nodes.length;
    image.addresses = lines.addresses;
    image.functions = nodes.functions;
    image.nodes = nodes.nodes;
    Ok(Some(ParsedImage { image, length }))
}

// Whether these bytes are a digest that is greater than the digest of the last of the earlier images, if there are any.
fn can_follow_images(digest: &[u8], earlier: &[ImageCounts]) -> bool
    ensures value { result ≡ ((length digest.now == 32) && is_greater_than_last (last_digest None earlier.now) digest.now) }
    ensures bytes { AllByRecursion (λ b. b < 256) digest.now }
{
    digest.len() == 32
        && match earlier.last() {
            Some(last) => is_before(last.digest.as_slice(), digest),
            None => true,
        }
}

// Parses the lines of addresses at the start of a text, up to the first line that is not a line of a higher address.
fn read_addresses(alloc: Global, text: &[u8]) -> Result<ParsedAddresses, AllocError>
    ensures { IfOk result (λ parsed. AreParsedAddresses text.now parsed) }
{
    let mut addresses = Vec::new(alloc);
    let mut length = 0;
    let mut lowest = 0;
    'lines: loop {
        let line = whole_line(tail_from(text, length));
        match parse_address_line(alloc, line, lowest)? {
            Some(counts) => {
                length += line.len();
                lowest = u64::from(counts.address) + 1;
                push_item(&mut addresses, counts)?;
            }
            None => {
                return Ok(ParsedAddresses {
                    addresses: Addresses::new(addresses),
                    length,
                });
            }
        }
    }
}

// Returns the counts in a line, or `None` if it is not the line of valid counts of an address at or above `lowest`.
fn parse_address_line(
    alloc: Global,
    line: &[u8],
    lowest: u64,
) -> Result<Option<AddressCounts>, AllocError>
    ensures valid { IfOk result (λ counts. IfSome counts IsValidCount) }
    ensures low { IfOk result (λ counts. IfSome counts (λ c. lowest ≤ c.address)) }
    ensures line { IfOk result (λ counts. IfSome counts (λ c. line.now ≡ address_line c)) }
    ensures none { IfOk result (λ counts. IfNone counts (IsNotAnAddress lowest line.now)) }
{
    let counts = counts_of_line(line);
    if can_come_next(counts, lowest) && is_address_line(alloc, counts, line)? {
        Ok(Some(counts))
    } else {
        Ok(None)
    }
}

// Whether these counts are valid and their address is not below `lowest`.
fn can_come_next(counts: AddressCounts, lowest: u64) -> bool
    ensures { IsTrue result ↔ (IsValidCount counts × (lowest ≤ counts.address)) }
{
    counts.address % 2 == 0
        && 0 < counts.executed
        && counts.taken <= counts.executed
        && lowest <= u64::from(counts.address)
}

// Returns the counts in a line `ADDRESS EXECUTED TAKEN`. For any other line, the result is arbitrary.
fn counts_of_line(line: &[u8]) -> AddressCounts
    ensures { (c : Counts) → IsValidCount c → line.now ≡ address_line c → result ≡ c }
{
    let numbers = tail_from(line, 9);
    AddressCounts {
        address: hex_word(leading_bytes(line, 8)),
        executed: decimal_number(text_before_byte(b' ', numbers)),
        taken: decimal_number(text_before_byte(b'\n', text_after_byte(b' ', numbers))),
    }
}

// Whether `line` is the text of the line of these counts.
fn is_address_line(alloc: Global, counts: AddressCounts, line: &[u8]) -> Result<bool, AllocError>
    ensures { IfOk result (λ is_equal. is_equal ≡ bytes_eq line.now (address_line counts)) }
{
    let mut text = String::new(alloc);
    push_address_line(alloc, &mut text, counts)?;
    Ok(line == text.as_bytes())
}

// Returns the image, without counts, in a line `image DIGEST PATH`. For any other line, the result is arbitrary.
fn image_of_line(alloc: Global, line: &[u8]) -> Result<ImageCounts, AllocError>
    ensures digest { (i : Image) → IsValidImage i → line.now ≡ image_line i
        → IfOk result (λ image. image.digest ≡ i.digest) }
    ensures path { (i : Image) → IsValidImage i → line.now ≡ image_line i
        → IfOk result (λ image. image.path ≡ i.path) }
    ensures text { IfOk result (λ image. IsUtf8 image.path) }
{
    let fields = tail_from(line, 6);
    let digest = hex_bytes(alloc, text_before_byte(b' ', fields))?;
    let path = String::from_utf8_lossy(
        alloc,
        text_before_byte(b'\n', text_after_byte(b' ', fields)),
    )?;
    Ok(ImageCounts {
        digest: Digest::new(digest),
        path: Text::new(path),
        addresses: Addresses::new(Vec::new(alloc)),
        functions: FunctionNames::new(Vec::new(alloc)),
        nodes: CallNodes::new(Vec::new(alloc)),
    })
}

// Whether `line` is the text of this image's line.
fn has_image_line(alloc: Global, image: &ImageCounts, line: &[u8]) -> Result<bool, AllocError>
    ensures { IfOk result (λ is_equal. is_equal ≡ bytes_eq line.now (image_line image.now)) }
{
    let mut text = String::new(alloc);
    push_image_line(alloc, &mut text, image)?;
    Ok(line == text.as_bytes())
}

/// Returns the number of runs in the last line of a table with this many images, or `None` if `line` is not such a line.
pub(crate) fn runs_of_last_line(
    alloc: Global,
    line: &[u8],
    image_count: usize,
) -> Result<Option<u64>, AllocError>
    ensures count_fits { image_count < 2 ^ 64 }
    ensures fits { IfOk result (λ runs_or_none. IfSome runs_or_none (λ runs. runs < 2 ^ 64)) }
    ensures line { IfOk result (λ runs_or_none. IfSome runs_or_none (λ runs. line.now ≡ last_line image_count runs)) }
    ensures none { IfOk result (λ runs_or_none. IfNone runs_or_none ((runs : ℕ) → runs < 2 ^ 64 → line.now ≡ last_line image_count runs → ⊥)) }
{
    let fields = tail_from(line, 5);
    let runs = decimal_number(text_before_byte(b'\n', text_after_byte(b' ', fields)));
    let mut text = String::new(alloc);
    push_last_line(&mut text, image_count, runs)?;
    if line == text.as_bytes() {
        Ok(Some(runs))
    } else {
        Ok(None)
    }
}
