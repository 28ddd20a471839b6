// The first header byte of a 3d range: docs/FORMAT.md, "3d ranges". Part of a port of relative_encodings/range3d_range3d.rs.

#![tactic(auto)]

ghost use Rattle.std.specs.Prelude.{◌≡◌, ◌<◌, ◌^◌};
ghost use Rattle.range_header.specs.Header.{source_width, source_from, source_bits, unpack_header, pack_header};

use range_subspaces::IdSource;

// What the first header byte says; the second is that of the times.
#[derive(Clone, Copy)]
pub struct Range3dHeader {
    pub subspace_start: IdSource,
    pub subspace_end: IdSource,
    pub path_start_from_start: bool,
    pub path_end_open: bool,
    pub path_end_from_start: bool,
    pub times_end_open: bool,
}

// How many bytes both headers take.
pub const HEADER_LENGTH: usize = 2;

// The bits that say where an id is taken from, and how many numbers they hold.
const SOURCE_WIDTH: u8 = 2;

const SOURCES: u8 = 1 << SOURCE_WIDTH;

// What one of each part adds to the byte, told by the widths of the parts below it.
const SUBSPACE_START: u8 = 16 << SOURCE_WIDTH;

const SUBSPACE_END: u8 = 16;

const PATH_START_FROM_START: u8 = 8;

const PATH_END_OPEN: u8 = 4;

const PATH_END_FROM_START: u8 = 2;

const TIMES_END_OPEN: u8 = 1;

fn source_from(bits: u8) -> IdSource
    ensures { result ≡ source_from bits }
{
    match bits {
        0 => IdSource::Nowhere,
        1 => IdSource::Start,
        2 => IdSource::End,
        _ => IdSource::Written,
    }
}

fn source_bits(source: IdSource) -> u8
    ensures { (result ≡ source_bits source) × (result < 2 ^ source_width) }
{
    source as u8
}

// What a header byte says.
pub fn unpack(b: u8) -> Range3dHeader
    ensures { result ≡ unpack_header b }
{
    Range3dHeader {
        subspace_start: source_from(b / SUBSPACE_START % SOURCES),
        subspace_end: source_from(b / SUBSPACE_END % SOURCES),
        path_start_from_start: b / PATH_START_FROM_START % 2 == 1,
        path_end_open: b / PATH_END_OPEN % 2 == 1,
        path_end_from_start: b / PATH_END_FROM_START % 2 == 1,
        times_end_open: b / TIMES_END_OPEN % 2 == 1,
    }
}

// The byte that says a header.
pub fn pack(header: Range3dHeader) -> u8
    ensures { result ≡ pack_header header }
{
    source_bits(header.subspace_start) * SUBSPACE_START
        + source_bits(header.subspace_end) * SUBSPACE_END
        + u8::from(header.path_start_from_start) * PATH_START_FROM_START
        + u8::from(header.path_end_open) * PATH_END_OPEN
        + u8::from(header.path_end_from_start) * PATH_END_FROM_START
        + u8::from(header.times_end_open) * TIMES_END_OPEN
}
