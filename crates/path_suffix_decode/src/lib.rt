// Reading a suffix: docs/FORMAT.md, "Paths". Its sizes, then its components, into a lent record.

#![tactic(auto)]

ghost use Rattle.std.specs.Prelude.{◌≡◌, [], drop};
ghost use Rattle.codec.specs.Answers.{answer_of, Gives};
ghost use Rattle.path.specs.Record.{path_from};
ghost use Rattle.path.specs.Flat.{path_in};
ghost use Rattle.path_suffix.specs.Suffix.{read_sizes};
ghost use Rattle.path_suffix_decode.specs.After.{read_more, read_after};

use codec::{DecodeError, Decoded};
use path::PathBuilder;
use path_suffix::Sizes;
use path_suffix_encode::suffix_header;
use path_suffix_encode::suffix_header::{COUNT_WIDTH, HEADER_LENGTH, TOTAL_WIDTH};

mod components;

// Reads the header byte and both numbers.
#[tactic(auto, using(crate::proofs::Exits::sizes_none, crate::proofs::Exits::sizes_first, crate::proofs::Exits::sizes_second, crate::proofs::Exits::sizes_both))]
pub fn decode_sizes(
    message: &[u8],
    start: usize,
    canonic: bool,
) -> Result<Decoded<Sizes>, DecodeError>
    ensures { answer_of result ≡ read_sizes canonic (drop start message.now) }
{
    if message.len() <= start {
        return Err(DecodeError::EndOfInput);
    }
    let tags = suffix_header::unpack_tags(message[start]);
    let first = start + HEADER_LENGTH;
    let total = compact_u64::relative_decode(message, first, TOTAL_WIDTH, tags.total, canonic)?;
    let second = first + total.consumed;
    let count = compact_u64::relative_decode(message, second, COUNT_WIDTH, tags.count, canonic)?;
    Ok(Decoded {
        value: Sizes {
            total: total.value,
            count: count.value,
        },
        consumed: HEADER_LENGTH + total.consumed + count.consumed,
    })
}

// Reads the components of a whole path, from the message's first byte on. Beside a refusal the record is the empty one.
pub fn decode_components(
    message: &[u8],
    canonic: bool,
    sizes: Sizes,
    out: &mut [u8; path::lent::SIZE],
) -> Result<usize, DecodeError>
    ensures { Gives (path_from []) result (path_in out.new) (read_more canonic [] sizes.total sizes.count message.now) }
{
    path::lent::clear(out);
    components::decode_more(message, canonic, sizes, PathBuilder::new(), out)
}

// The same after the first `k` components of a prefix.
pub fn decode_after(
    message: &[u8],
    canonic: bool,
    sizes: Sizes,
    prefix: &[u8],
    k: usize,
    out: &mut [u8; path::lent::SIZE],
) -> Result<usize, DecodeError>
    ensures { Gives (path_from []) result (path_in out.new) (read_after canonic (path_in prefix.now) k sizes.total sizes.count message.now) }
{
    let Ok(builder) = PathBuilder::new_from_prefix(prefix, k, out) else {
        return Err(DecodeError::Malformed);
    };
    components::decode_more(message, canonic, sizes, builder, out)
}
