//! Whether an image fits a map, and how it is loaded into a bus.
ghost use Rattle.std.specs.Prelude.{◌≡◌, ◌+◌, ◌<◌, ◌≤◌, ℕ, IsTrue, OnOk, length, count_by, option_map};
ghost use Rattle.std.specs.List.{list_all, list_any};
ghost use Rattle.rv_memory.specs.Regions.{is_in_one_region};
ghost use Rattle.rv_memory.specs.Bus.{new_bus, with_bytes};
ghost use Rattle.rv_elf.specs.Rows.{accepted};
ghost use Rattle.rv_elf.specs.Image.{IsImageOf};
ghost use Rattle.rv_elf.specs.Loading.{load_address, segment_fits, segments_overlap, any_segments_overlap, segment_fills, map_check, initial_memory};
ghost use Rattle.rv_elf.specs.Loading.{file_bytes, unfit_segment};

use crate::error::ImageError;
use crate::image::{Image, Segment};
use rv_memory::{Bus, Map};

/// The address at which the file bytes of a segment are loaded: its physical or its virtual address.
#[derive(Clone, Copy, Debug, PartialEq, Eq)]
pub enum LoadAt {
    Physical,
    Virtual,
}

/// Checks that an image fits a map; fails with [`ImageError::SegmentMap`] or [`ImageError::SegmentOverlap`]. If it succeeds, no address
/// gets file bytes of two segments.
#[tactic(auto, unfolding(crate::specs::Loading::map_check))]
pub fn check_map(image: &Image, map: &Map, load_at: LoadAt) -> Result<(), ImageError>
    ensures value { result ≡ map_check image.now.segments map.now load_at }
    ensures no_address_twice { OnOk result ((a : ℕ) → count_by (segment_fills load_at a) image.now.segments ≤ 1) }
{
    let segments = image.segments.as_slice();
    if !all_segments_fit(segments, map, load_at) {
        return Err(ImageError::SegmentMap);
    }
    if any_segments_overlap(segments, load_at) {
        return Err(ImageError::SegmentOverlap);
    }
    Ok(())
}

/// Writes the file bytes of an image's segments to a new bus, even to read-only regions. All other bytes are zero, and no byte counts as
/// stored to.
pub fn load(image: &Image, file: &[u8], load_at: LoadAt, bus: &mut Bus)
    requires image { IsImageOf file.now image.now }
    requires fits { map_check image.now.segments bus.old.regions load_at ≡ accepted }
    requires new_bus { bus.old ≡ new_bus bus.old.regions bus.old.script bus.old.misaligned }
    ensures { bus.new ≡ record bus.old {
      memory = initial_memory bus.old.regions image.now.segments file.now load_at;
    } }
{
    for segment in image.segments.as_slice() {
        write_segment(segment, file, load_at, bus);
    }
}

impl LoadAt {
    /// Returns the address at which a segment's file bytes are loaded.
    pub fn load_address(self, segment: &Segment) -> u32
        ensures { result ≡ load_address self segment.now }
    {
        match self {
            LoadAt::Physical => segment.paddr,
            LoadAt::Virtual => segment.vaddr,
        }
    }

    /// Returns the address after a segment's last file byte, or its load address if it has no file bytes.
    pub fn load_end(self, segment: &Segment) -> u64
        ensures { result ≡ load_address self segment.now + segment.now.filesz }
    {
        u64::from(self.load_address(segment)) + u64::from(segment.filesz)
    }
}

// Whether each segment fits a map, as `segment_fits` says.
fn all_segments_fit(segments: &[Segment], map: &Map, load_at: LoadAt) -> bool
    ensures { result ≡ list_all (segment_fits map.now load_at) segments.now }
{
    segments
        .iter()
        .all(|segment| segment_fits(map, load_at, segment))
}

/// Returns the first segment that does not fit a map, as `segment_fits` says, or `None` if all fit.
pub fn unfit_segment<'a>(map: &Map, load_at: LoadAt, segments: &'a [Segment]) -> Option<&'a Segment>
    ensures { option_map (λ segment. segment.now) result ≡ unfit_segment map.now load_at segments.now }
{
    segments
        .iter()
        .find(|segment| !segment_fits(map, load_at, segment))
}

/// Whether a segment fits a map: one region has all its file bytes at the load address, and one region has all its memory at the virtual
/// address.
pub fn segment_fits(map: &Map, load_at: LoadAt, segment: &Segment) -> bool
    ensures { result ≡ segment_fits map.now load_at segment.now }
{
    map.in_one(load_at.load_address(segment), segment.filesz)
        && map.in_one(segment.vaddr, segment.memsz)
}

// Whether the file bytes of any two segments share a byte of memory.
fn any_segments_overlap(segments: &[Segment], load_at: LoadAt) -> bool
    ensures { result ≡ any_segments_overlap load_at segments.now }
{
    for k in 0..segments.len() {
        if overlaps_any_segment(&segments[k], &segments[k + 1..], load_at) {
            return true;
        }
    }
    false
}

// Whether the file bytes of a segment share a byte of memory with the file bytes of at least one of the other segments.
fn overlaps_any_segment(segment: &Segment, others: &[Segment], load_at: LoadAt) -> bool
    ensures { result ≡ list_any (segments_overlap load_at segment.now) others.now }
{
    others
        .iter()
        .any(|other| segments_overlap(load_at, segment, other))
}

/// Whether the file bytes of two segments, at their load addresses, share a byte of memory.
pub fn segments_overlap(load_at: LoadAt, one: &Segment, other: &Segment) -> bool
    ensures { result ≡ segments_overlap load_at one.now other.now }
{
    let start = load_at.load_address(one).max(load_at.load_address(other));
    u64::from(start) < load_at.load_end(one).min(load_at.load_end(other))
}

// Writes the file bytes of a segment at its load address.
fn write_segment(segment: &Segment, file: &[u8], load_at: LoadAt, bus: &mut Bus)
    requires in_file { 0 < segment.now.filesz
        → segment.now.offset + segment.now.filesz ≤ length file.now }
    requires fits { IsTrue
        (is_in_one_region bus.old.regions (load_address load_at segment.now) segment.now.filesz) }
    ensures { bus.new
        ≡ with_bytes bus.old (load_address load_at segment.now) (file_bytes file.now segment.now) }
{
    if 0 < segment.filesz {
        let start = segment.offset as usize;
        let bytes = &file[start..start + segment.filesz as usize];
        bus.place(load_at.load_address(segment), bytes);
    }
}
