// The time and the payload length of an entry against an entry, and the header byte: docs/FORMAT.md, "Entries against an entry". Part of a port of
// relative_encodings/entry_entry.rs.

#![tactic(auto)]

ghost use Rattle.std.specs.Prelude.{◌≡◌, ◌≤◌, length, Ok};
ghost use Rattle.codec.specs.Answers.{answer_of, outcome_of};
ghost use Rattle.codec.specs.Format.{allowed, over, put_answer, put_buffer};
ghost use Rattle.entry_numbers.specs.Header.{pack_header};
ghost use Rattle.entry_numbers.specs.Numbers.{header_of, numbers_bytes, read_numbers};

use codec::{DecodeError, Decoded, EncodeError};
use entry_header::{LENGTH_TAG_WIDTH, TIME_TAG_WIDTH};
use grouping::{DifferenceTag, RangeEnd};

pub mod entry_header;

// What the header byte says.
#[derive(Clone, Copy)]
pub struct EntryHeader {
    pub namespace_written: bool,
    pub subspace_written: bool,
    pub time_added: bool,
    pub time_tag: u8,
    pub length_tag: u8,
}

// The time and the payload length.
#[derive(Clone, Copy)]
pub struct Numbers {
    pub timestamp: u64,
    pub payload_length: u64,
}

#[tactic(auto, unfolding(crate::specs::Numbers::header_of))]
fn header_of(
    namespace_written: bool,
    subspace_written: bool,
    numbers: Numbers,
    reference: u64,
) -> EntryHeader
    ensures { result ≡ header_of namespace_written subspace_written reference numbers.timestamp numbers.payload_length }
{
    EntryHeader {
        namespace_written,
        subspace_written,
        time_added: reference < numbers.timestamp,
        time_tag: compact_u64::min_tag(TIME_TAG_WIDTH, numbers.timestamp.abs_diff(reference)),
        length_tag: compact_u64::min_tag(LENGTH_TAG_WIDTH, numbers.payload_length),
    }
}

// The header byte of an entry with these numbers, against a reference's time; whether its ids are written is told elsewhere.
#[tactic(auto, using(crate::proofs::HeaderLayout::header_fits))]
pub fn header_byte(
    namespace_written: bool,
    subspace_written: bool,
    numbers: Numbers,
    reference: u64,
) -> u8
    ensures { result ≡ pack_header (header_of namespace_written subspace_written reference numbers.timestamp numbers.payload_length) }
{
    entry_header::pack(header_of(namespace_written, subspace_written, numbers, reference))
}

// Reads the time against a reference's and the payload length, by the header.
#[tactic(auto, unfolding(crate::specs::Numbers::read_numbers))]
pub fn relative_decode(
    message: &[u8],
    header: EntryHeader,
    reference: u64,
) -> Result<Decoded<Numbers>, DecodeError>
    ensures { answer_of result ≡ read_numbers reference header message.now }
{
    let by = DifferenceTag {
        added: header.time_added,
        width: TIME_TAG_WIDTH,
        tag: header.time_tag,
    };
    let time = time_distance::relative_decode(message, 0, RangeEnd::Closed(reference), by)?;
    let size = compact_u64::relative_decode(
        message,
        time.consumed,
        LENGTH_TAG_WIDTH,
        header.length_tag,
        false,
    )?;
    Ok(Decoded {
        value: Numbers {
            timestamp: time.value,
            payload_length: size.value,
        },
        consumed: time.consumed + size.consumed,
    })
}

// How many bytes the time's difference and the payload length take.
pub fn relative_len_of_encoding(numbers: Numbers, reference: u64) -> usize
    ensures { (result ≡ length (numbers_bytes reference numbers.timestamp numbers.payload_length)) × (result ≤ 16) }
{
    let difference = numbers.timestamp.abs_diff(reference);
    let size = numbers.payload_length;
    compact_u64::relative_len_of_pair(TIME_TAG_WIDTH, difference, LENGTH_TAG_WIDTH, size)
}

// Writes the time's difference and the payload length.
pub fn relative_encode(
    buffer: &mut [u8],
    numbers: Numbers,
    reference: u64,
) -> Result<usize, EncodeError>
    ensures fits { length (numbers_bytes reference numbers.timestamp numbers.payload_length) ≤ length buffer.old → (result ≡ Ok (length (numbers_bytes reference numbers.timestamp numbers.payload_length))) × (buffer.new ≡ over (numbers_bytes reference numbers.timestamp numbers.payload_length) buffer.old) }
    ensures writes { (outcome_of result ≡ put_answer allowed (numbers_bytes reference numbers.timestamp numbers.payload_length) (length buffer.old)) × (buffer.new ≡ put_buffer allowed (numbers_bytes reference numbers.timestamp numbers.payload_length) buffer.old) }
{
    let difference = numbers.timestamp.abs_diff(reference);
    let size = numbers.payload_length;
    compact_u64::relative_encode_pair(buffer, TIME_TAG_WIDTH, difference, LENGTH_TAG_WIDTH, size)
}
