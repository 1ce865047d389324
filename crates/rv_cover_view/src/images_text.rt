//! The coverage report of images.

ghost use Rattle.std.specs.Prelude.{◌≡◌, ◌++◌, IfOk, List, OnOk, ℕ};
ghost use Rattle.rv_count_tables.specs.Table.{IsValidTable};
ghost use Rattle.rv_cover_view.specs.ImagesText.{IsCoverText, IsImageCoverText, header_text, image_text};
ghost use Rattle.rv_cover_view.specs.JobImages.{image_of_file, images_of_files};

use crate::csv::{push_csv_header, push_csv_row};
use crate::image_counts::counts_of;
use crate::image_cover::{ImageCover, cover_of_image};
use crate::image_file::ImageFile;
use crate::text::{push_cover_header, push_image_line, push_never_run_line};
use rv_count_tables::CountTable;
use std::alloc::{AllocError, Global};

/// Returns the coverage report of images, according to a table's counts: a header, and then each image as a CSV row (if `csv` is true) or
/// as lines for people.
pub fn cover_text(
    alloc: Global,
    csv: bool,
    table: &CountTable,
    images: &[ImageFile<'_>],
) -> Result<Vec<u8>, AllocError>
    requires { IsValidTable table.now }
    ensures { IfOk result (λ text. IsCoverText csv table.now (images_of_files images.now) text.items) }
{
    let mut text = Vec::new(alloc);
    push_header(&mut text, csv)?;
    for image in images {
        push_image(alloc, &mut text, csv, table, image)?;
    }
    Ok(text)
}

// Appends the header of the report: the CSV header if `csv` is true, or else the heading of a table for people.
fn push_header(text: &mut Vec<u8>, csv: bool) -> Result<(), AllocError>
    ensures { OnOk result (text.new.items ≡ text.old.items ++ header_text csv) }
{
    if csv {
        push_csv_header(text)
    } else {
        push_cover_header(text)
    }
}

// Appends the coverage of an image, according to a table's counts: a CSV row if `csv` is true, or else lines for people.
fn push_image(
    alloc: Global,
    text: &mut Vec<u8>,
    csv: bool,
    table: &CountTable,
    image: &ImageFile<'_>,
) -> Result<(), AllocError>
    requires { IsValidTable table.now }
    ensures { OnOk result ((shown : List ℕ) × (IsImageCoverText csv table.now (image_of_file image.now) shown
        × (text.new.items ≡ text.old.items ++ shown))) }
{
    let counts = counts_of(table, image.bytes);
    let path = image.path.as_bytes();
    let cover = cover_of_image(alloc, path, &image.image, image.bytes, counts)?;
    push_image_cover(alloc, text, csv, &cover)
}

// Appends the coverage of an image: a CSV row if `csv` is true, or else a line with its totals and, if there are any, a line with the
// functions that never ran.
fn push_image_cover(
    alloc: Global,
    text: &mut Vec<u8>,
    csv: bool,
    cover: &ImageCover<'_>,
) -> Result<(), AllocError>
    ensures { OnOk result (text.new.items ≡ text.old.items ++ image_text csv cover.now) }
{
    if csv {
        return push_csv_row(text, cover.path, &cover.totals);
    }
    push_image_line(alloc, text, cover.path, &cover.totals)?;
    push_never_run_line(text, cover.never_run.as_slice())
}
