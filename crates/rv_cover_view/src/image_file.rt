//! A job's image, with its file.

ghost use Rattle.std.specs.Prelude.{◌≡◌, ◌≤◌, Ok, length};
ghost use Rattle.rv_count_tables.specs.Limits.{max_file_size};
ghost use Rattle.rv_elf.specs.Image.{image_of};

use rv_counting::Isa;
use rv_elf::Image;

/// A job's image, with its file.
#[derive(Drop)]
pub struct ImageFile<'a> {
    /// The path by which the list names the file.
    pub path: &'a str,
    pub bytes: &'a [u8],
    pub image: Image,
    /// The instruction set for which the file was parsed.
    pub isa: Isa,
    ghost read: { image_of isa bytes.now ≡ Ok image },
    ghost small: { length bytes.now ≤ max_file_size },
}
