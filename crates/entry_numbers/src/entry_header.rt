// The header byte of an entry against an entry.
ghost use Rattle.std.specs.Prelude.{◌≡◌};
ghost use Rattle.entry_numbers.specs.Header.{unpack_header, pack_header};
ghost use Rattle.entry_numbers.specs.inside.Header.{HeaderFits};

use crate::EntryHeader;
use compact_u64::TagWidth;

// How many bytes the header takes.
pub const HEADER_LENGTH: usize = 1;

// The widths of the tags.
pub(crate) const TIME_TAG_WIDTH: TagWidth = TagWidth::Two;

pub(crate) const LENGTH_TAG_WIDTH: TagWidth = TagWidth::Three;

// What one of each part adds to the byte, told by the widths of the parts below it; the flags that come first, from the highest bit down.
const NAMESPACE_WRITTEN: u8 = 128;

const SUBSPACE_WRITTEN: u8 = 64;

const TIME_ADDED: u8 = 32;

const TIME_TAG: u8 = 1 << LENGTH_TAG_WIDTH as u8;

const LENGTH_TAG: u8 = 1;

// How many tags there are.
const TIME_TAGS: u8 = 1 << TIME_TAG_WIDTH as u8;

const LENGTH_TAGS: u8 = 1 << LENGTH_TAG_WIDTH as u8;

// What a header byte says.
pub fn unpack(b: u8) -> EntryHeader
    ensures { result ≡ unpack_header b }
{
    EntryHeader {
        namespace_written: b / NAMESPACE_WRITTEN % 2 == 1,
        subspace_written: b / SUBSPACE_WRITTEN % 2 == 1,
        time_added: b / TIME_ADDED % 2 == 1,
        time_tag: b / TIME_TAG % TIME_TAGS,
        length_tag: b / LENGTH_TAG % LENGTH_TAGS,
    }
}

pub(crate) fn pack(header: EntryHeader) -> u8
    requires { HeaderFits header }
    ensures { result ≡ pack_header header }
{
    u8::from(header.namespace_written) * NAMESPACE_WRITTEN
        + u8::from(header.subspace_written) * SUBSPACE_WRITTEN
        + u8::from(header.time_added) * TIME_ADDED
        + header.time_tag * TIME_TAG
        + header.length_tag * LENGTH_TAG
}
