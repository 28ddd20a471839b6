// The header byte of the times of a 3d range.
ghost use Rattle.std.specs.Prelude.{◌≡◌};
ghost use Rattle.range_times.specs.Header.{unpack_header, pack_header};
ghost use Rattle.range_times.specs.inside.Header.{HeaderFits};

use crate::RangeTimesHeader;
use compact_u64::TagWidth;

// The widths of the tags.
pub(crate) const START_TAG_WIDTH: TagWidth = TagWidth::Two;

pub(crate) const END_TAG_WIDTH: TagWidth = TagWidth::Two;

// What one of each part adds to the byte, told by the widths of the parts below it; the flags that come first, from the highest bit down.
const START_FROM_START: u8 = 128;

const START_ADDED: u8 = 64;

const START_TAG: u8 = 4 << END_TAG_WIDTH as u8;

const END_FROM_START: u8 = 2 << END_TAG_WIDTH as u8;

const END_ADDED: u8 = 1 << END_TAG_WIDTH as u8;

const END_TAG: u8 = 1;

// How many tags there are.
const START_TAGS: u8 = 1 << START_TAG_WIDTH as u8;

const END_TAGS: u8 = 1 << END_TAG_WIDTH as u8;

pub(crate) fn unpack(b: u8) -> RangeTimesHeader
    ensures { result ≡ unpack_header b }
{
    RangeTimesHeader {
        start_from_start: b / START_FROM_START % 2 == 1,
        start_added: b / START_ADDED % 2 == 1,
        start_tag: b / START_TAG % START_TAGS,
        end_from_start: b / END_FROM_START % 2 == 1,
        end_added: b / END_ADDED % 2 == 1,
        end_tag: b / END_TAG % END_TAGS,
    }
}

pub(crate) fn pack(header: RangeTimesHeader) -> u8
    requires { HeaderFits header }
    ensures { result ≡ pack_header header }
{
    u8::from(header.start_from_start) * START_FROM_START
        + u8::from(header.start_added) * START_ADDED
        + header.start_tag * START_TAG
        + u8::from(header.end_from_start) * END_FROM_START
        + u8::from(header.end_added) * END_ADDED
        + header.end_tag * END_TAG
}
