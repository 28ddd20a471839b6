// The header byte of a suffix.
ghost use Rattle.std.specs.Prelude.{◌≡◌};
ghost use Rattle.path_suffix.specs.Header.{unpack_tags, pack_tags};
ghost use Rattle.path_suffix.specs.inside.Header.{TagsFit};

use compact_u64::TagWidth;
use path_suffix::Tags;

// How many bytes the header takes.
pub const HEADER_LENGTH: usize = 1;

// The widths of the tags.
pub const TOTAL_WIDTH: TagWidth = TagWidth::Four;

pub const COUNT_WIDTH: TagWidth = TagWidth::Four;

// What one of each tag adds to the byte, told by the width of the one below it.
const TOTAL: u8 = 1 << COUNT_WIDTH as u8;

const COUNT: u8 = 1;

// How many tags there are.
const TOTAL_TAGS: u8 = 1 << TOTAL_WIDTH as u8;

const COUNT_TAGS: u8 = 1 << COUNT_WIDTH as u8;

pub fn unpack_tags(b: u8) -> Tags
    ensures { result ≡ unpack_tags b }
{
    Tags {
        total: b / TOTAL % TOTAL_TAGS,
        count: b / COUNT % COUNT_TAGS,
    }
}

pub(crate) fn pack_tags(tags: Tags) -> u8
    requires { TagsFit tags }
    ensures { result ≡ pack_tags tags }
{
    tags.total * TOTAL + tags.count * COUNT
}
