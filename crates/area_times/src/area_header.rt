// The header byte of an area against an area.
ghost use Rattle.std.specs.Prelude.{◌≡◌};
ghost use Rattle.area_times.specs.Header.{unpack_header, pack_header, spare_bits};
ghost use Rattle.area_times.specs.inside.Header.{HeaderFits};

use crate::AreaHeader;
use compact_u64::TagWidth;

// How many bytes the header takes.
pub const HEADER_LENGTH: usize = 1;

// The widths of the tags.
pub(crate) const START_TAG_WIDTH: TagWidth = TagWidth::Two;

pub(crate) const END_TAG_WIDTH: TagWidth = TagWidth::Two;

// What one of each part adds to the byte, told by the widths of the parts below it; the flags that come first, from the highest bit down.
const ID_WRITTEN: u8 = 128;

const END_OPEN: u8 = 64;

const START_ADDED: u8 = 32;

const END_ADDED: u8 = 16;

const START_TAG: u8 = 1 << END_TAG_WIDTH as u8;

const END_TAG: u8 = 1;

// How many tags there are.
const START_TAGS: u8 = 1 << START_TAG_WIDTH as u8;

const END_TAGS: u8 = 1 << END_TAG_WIDTH as u8;

// What a header byte says.
pub fn unpack(b: u8) -> AreaHeader
    ensures { result ≡ unpack_header b }
{
    AreaHeader {
        id_written: b / ID_WRITTEN % 2 == 1,
        end_open: b / END_OPEN % 2 == 1,
        start_added: b / START_ADDED % 2 == 1,
        end_added: b / END_ADDED % 2 == 1,
        start_tag: b / START_TAG % START_TAGS,
        end_tag: b / END_TAG % END_TAGS,
    }
}

pub(crate) fn pack(header: AreaHeader) -> u8
    requires { HeaderFits header }
    ensures { result ≡ pack_header header }
{
    u8::from(header.id_written) * ID_WRITTEN
        + u8::from(header.end_open) * END_OPEN
        + u8::from(header.start_added) * START_ADDED
        + u8::from(header.end_added) * END_ADDED
        + header.start_tag * START_TAG
        + header.end_tag * END_TAG
}

// Whether an open end comes with a flag or a tag of its difference, which it does not have.
#[tactic(auto, unfolding(crate::specs::Header::spare_bits))]
pub fn spare_bits(header: AreaHeader) -> bool
    ensures { result ≡ spare_bits header }
{
    header.end_open && (header.end_added || header.end_tag != 0)
}
