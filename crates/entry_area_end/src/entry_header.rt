// The header byte of an entry in an area.
ghost use Rattle.std.specs.Prelude.{◌≡◌};
ghost use Rattle.entry_area_end.specs.Header.{unpack_header, pack_header};
ghost use Rattle.entry_area_end.specs.inside.Header.{HeaderFits};

use crate::EntryAreaHeader;
use compact_u64::TagWidth;

// How many bytes the header takes.
pub const HEADER_LENGTH: usize = 1;

// The widths of the tags, and of the bits that must be zero.
pub(crate) const TIME_TAG_WIDTH: TagWidth = TagWidth::Two;

pub(crate) const LENGTH_TAG_WIDTH: TagWidth = TagWidth::Two;

const SPARE_WIDTH: u8 = 2;

// What one of each part adds to the byte, told by the widths of the parts below it; the flags that come first, from the highest bit down.
const ID_WRITTEN: u8 = 128;

const TIME_ADDED: u8 = 64;

const TIME_TAG: u8 = 1 << (LENGTH_TAG_WIDTH as u8 + SPARE_WIDTH);

const LENGTH_TAG: u8 = 1 << SPARE_WIDTH;

const SPARE: u8 = 1;

// How many tags there are, and what the bits that must be zero could say.
const TIME_TAGS: u8 = 1 << TIME_TAG_WIDTH as u8;

const LENGTH_TAGS: u8 = 1 << LENGTH_TAG_WIDTH as u8;

const SPARES: u8 = 1 << SPARE_WIDTH;

// What a header byte says.
pub fn unpack(b: u8) -> EntryAreaHeader
    ensures { result ≡ unpack_header b }
{
    EntryAreaHeader {
        id_written: b / ID_WRITTEN % 2 == 1,
        time_added: b / TIME_ADDED % 2 == 1,
        time_tag: b / TIME_TAG % TIME_TAGS,
        length_tag: b / LENGTH_TAG % LENGTH_TAGS,
        spare: b / SPARE % SPARES,
    }
}

pub(crate) fn pack(header: EntryAreaHeader) -> u8
    requires { HeaderFits header }
    ensures { result ≡ pack_header header }
{
    u8::from(header.id_written) * ID_WRITTEN
        + u8::from(header.time_added) * TIME_ADDED
        + header.time_tag * TIME_TAG
        + header.length_tag * LENGTH_TAG
        + header.spare * SPARE
}
