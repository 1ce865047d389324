//! The functions of an image, one for each address.

ghost use Rattle.std.specs.Prelude.{◌<◌, ◌≤◌, ◌^◌, IfOk, length, map};
ghost use Rattle.rv_elf.specs.Functions.{functions};
ghost use Rattle.rv_elf.specs.Image.{IsImageOf};
ghost use Rattle.rv_cover_view.specs.Functions.{IsEachOnce, code_bytes, view_of_function};

use rv_elf::{Function, Image, functions};
use std::alloc::{AllocError, Global};

/// Returns the functions of an image, sorted by address. Of several functions at one address, only the first in the symbol table is
/// returned. Their code has fewer than 2^64 bytes in all, since a file has at most 16,777,216 bytes.
pub fn functions_by_address<'a>(
    alloc: Global,
    image: &Image,
    file: &'a [u8],
) -> Result<Vec<Function<'a>>, AllocError>
    requires image { IsImageOf file.now image.now }
    requires small { length file.now ≤ 0x100_0000 }
    ensures each_once { IfOk result (λ found. IsEachOnce (functions image.now file.now) (map view_of_function found.items)) }
    ensures fits { IfOk result (λ found. code_bytes (map view_of_function found.items) < 2 ^ 64) }
{
    each_address_once(functions(alloc, image, file)?)
}

/// Returns the functions sorted by address. Of several functions at one address, only the first in the list is returned.
pub fn each_address_once(mut functions: Vec<Function<'_>>) -> Result<Vec<Function<'_>>, AllocError>
    ensures each_once { IfOk result (λ found. IsEachOnce (map view_of_function functions.entry.items) (map view_of_function found.items)) }
    ensures fewer { IfOk result (λ found. code_bytes (map view_of_function found.items) ≤ code_bytes (map view_of_function functions.entry.items)) }
{
    functions.sort_by_key(|function| function.address)?;
    functions.dedup_by_key(|function| function.address);
    Ok(functions)
}
