// The fields after the path of an entry in an area, and the header byte: docs/FORMAT.md, "Entries". Part of a port of
// relative_encodings/entry_area.rs.

#![tactic(auto)]

ghost use Rattle.std.specs.Prelude.{◌≡◌, ◌≤◌, length, Ok};
ghost use Rattle.codec.specs.Answers.{answer_of, outcome_of};
ghost use Rattle.codec.specs.Format.{allowed, over, put_answer, put_buffer};
ghost use Rattle.entry_area_end.specs.Header.{pack_header};
ghost use Rattle.entry_area_end.specs.End.{header_of, end_of, read_after_path};

use codec::{DecodeError, Decoded, EncodeError};
use entry_header::{LENGTH_TAG_WIDTH, TIME_TAG_WIDTH};
use grouping::{DifferenceTag, TimeRange};

pub mod entry_header;

// What the header byte says; `spare` are the bits that must be zero.
#[derive(Clone, Copy)]
pub struct EntryAreaHeader {
    pub id_written: bool,
    pub time_added: bool,
    pub time_tag: u8,
    pub length_tag: u8,
    pub spare: u8,
}

// The fields after the path.
#[derive(Clone, Copy)]
pub struct End {
    pub timestamp: u64,
    pub payload_length: u64,
    pub payload_digest: [u8; 32],
}

#[tactic(auto, unfolding(crate::specs::End::header_of))]
fn header_of(id_written: bool, end: End, times: TimeRange) -> EntryAreaHeader
    ensures { result ≡ header_of id_written times end.timestamp end.payload_length }
{
    let told = time_relative::difference(times, end.timestamp);
    EntryAreaHeader {
        id_written,
        time_added: told.added,
        time_tag: compact_u64::min_tag(TIME_TAG_WIDTH, told.difference),
        length_tag: compact_u64::min_tag(LENGTH_TAG_WIDTH, end.payload_length),
        spare: 0,
    }
}

// The header byte of an entry with these fields, against an area's times; whether its id is written is told elsewhere.
#[tactic(auto, using(crate::proofs::HeaderLayout::header_fits))]
pub fn header_byte(id_written: bool, end: End, times: TimeRange) -> u8
    ensures { result ≡ pack_header (header_of id_written times end.timestamp end.payload_length) }
{
    entry_header::pack(header_of(id_written, end, times))
}

// Reads the fields after the path, by the header.
#[tactic(auto, unfolding(crate::specs::End::read_after_path))]
pub fn relative_decode(
    message: &[u8],
    canonic: bool,
    times: TimeRange,
    header: EntryAreaHeader,
) -> Result<Decoded<End>, DecodeError>
    ensures { answer_of result ≡ read_after_path canonic times header message.now }
{
    let by = DifferenceTag {
        added: header.time_added,
        width: TIME_TAG_WIDTH,
        tag: header.time_tag,
    };
    let time = time_relative::decode_included(message, 0, canonic, times, by)?;
    let size = compact_u64::relative_decode(
        message,
        time.consumed,
        LENGTH_TAG_WIDTH,
        header.length_tag,
        canonic,
    )?;
    let at = time.consumed + size.consumed;
    let digest = byte_codec::decode_id(message, at)?;
    let payload_digest = digest.value;
    Ok(Decoded {
        value: End {
            timestamp: time.value,
            payload_length: size.value,
            payload_digest,
        },
        consumed: at + digest.consumed,
    })
}

// How many bytes the fields after the path take.
pub fn relative_len_of_encoding(end: End, times: TimeRange) -> usize
    ensures { (result ≡ length (end_of times end)) × (result ≤ 48) }
{
    let time = time_relative::difference(times, end.timestamp).difference;
    32 + compact_u64::relative_len_of_pair(
        TIME_TAG_WIDTH,
        time,
        LENGTH_TAG_WIDTH,
        end.payload_length,
    )
}

// Writes the fields after the path.
pub fn relative_encode(buffer: &mut [u8], end: End, times: TimeRange) -> Result<usize, EncodeError>
    ensures fits { length (end_of times end) ≤ length buffer.old → (result ≡ Ok (length (end_of times end))) × (buffer.new ≡ over (end_of times end) buffer.old) }
    ensures writes { (outcome_of result ≡ put_answer allowed (end_of times end) (length buffer.old)) × (buffer.new ≡ put_buffer allowed (end_of times end) buffer.old) }
{
    let whole = relative_len_of_encoding(end, times);
    if buffer.len() < whole {
        return Err(EncodeError::NoRoom);
    }
    let time = time_relative::difference(times, end.timestamp).difference;
    let n = compact_u64::relative_encode_pair(
        buffer,
        TIME_TAG_WIDTH,
        time,
        LENGTH_TAG_WIDTH,
        end.payload_length,
    )?;
    byte_codec::put_bytes(&mut buffer[n..], &end.payload_digest)?;
    Ok(whole)
}
