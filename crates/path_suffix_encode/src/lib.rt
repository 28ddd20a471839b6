// Writing a suffix: docs/FORMAT.md, "Paths". Its sizes, then its components, every one but the last after its length.

#![tactic(auto)]

ghost use Rattle.std.specs.Prelude.{◌≡◌, ◌≤◌, length};
ghost use Rattle.codec.specs.Format.{over};
ghost use Rattle.path_suffix.specs.Suffix.{sized_bytes, sizes_bytes};

use path_suffix::{Sizes, Tags};
use suffix_header::{COUNT_WIDTH, HEADER_LENGTH, TOTAL_WIDTH};

pub mod sized;
pub mod suffix_header;

// A component after its length; answers how many bytes both take.
fn put_sized(buffer: &mut [u8], s: &[u8]) -> usize
    requires { length (sized_bytes s.now) ≤ length buffer.old }
    ensures { (result ≡ length (sized_bytes s.now)) × (buffer.new ≡ over (sized_bytes s.now) buffer.old) }
{
    let n = compact_u64::encode(buffer, s.len() as u64).unwrap();
    let end = n + s.len();
    byte_codec::put_bytes(&mut buffer[n..end], s).unwrap();
    end
}

// The header byte and both numbers; answers how many bytes they take.
fn put_sizes(buffer: &mut [u8], sizes: Sizes) -> usize
    requires { length (sizes_bytes sizes) ≤ length buffer.old }
    ensures { (result ≡ length (sizes_bytes sizes)) × (buffer.new ≡ over (sizes_bytes sizes) buffer.old) }
{
    let Sizes { total, count } = sizes;
    buffer[0] = suffix_header::pack_tags(Tags {
        total: compact_u64::min_tag(TOTAL_WIDTH, total),
        count: compact_u64::min_tag(COUNT_WIDTH, count),
    });
    let numbers = &mut buffer[HEADER_LENGTH..];
    HEADER_LENGTH
        + compact_u64::relative_encode_pair(
            numbers,
            TOTAL_WIDTH,
            total,
            COUNT_WIDTH,
            count,
        ).unwrap()
}
