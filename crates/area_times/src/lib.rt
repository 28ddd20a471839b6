// The times of an area against those of another, and the header byte: docs/FORMAT.md, "Areas". Part of a port of relative_encodings/area_area.rs.

#![tactic(auto)]

ghost use Rattle.std.specs.Prelude.{◌≡◌, ◌≤◌, length, drop};
ghost use Rattle.codec.specs.Answers.{answer_of, outcome_of};
ghost use Rattle.codec.specs.Format.{allowed, put_answer, put_buffer};
ghost use Rattle.area_times.specs.Header.{pack_header};
ghost use Rattle.area_times.specs.Times.{header_of, times_bytes, read_end, read_times};

use area_header::{END_TAG_WIDTH, START_TAG_WIDTH};
use codec::{DecodeError, Decoded, EncodeError};
use grouping::{DifferenceTag, RangeEnd, TimeRange};

pub mod area_header;

// What the header byte says.
#[derive(Clone, Copy)]
pub struct AreaHeader {
    pub id_written: bool,
    pub end_open: bool,
    pub start_added: bool,
    pub end_added: bool,
    pub start_tag: u8,
    pub end_tag: u8,
}

#[tactic(auto, unfolding(crate::specs::Times::header_of))]
fn header_of(id_written: bool, times: TimeRange, reference: TimeRange) -> AreaHeader
    ensures { result ≡ header_of id_written reference times }
{
    let start = time_relative::difference(reference, times.start);
    let end = time_relative::end_difference(reference, times.end);
    AreaHeader {
        id_written,
        end_open: times.end.is_open(),
        start_added: start.added,
        end_added: end.added,
        start_tag: compact_u64::min_tag(START_TAG_WIDTH, start.difference),
        end_tag: compact_u64::min_tag(END_TAG_WIDTH, end.difference),
    }
}

// The header byte of an area with these times; whether its id is written is told elsewhere.
#[tactic(auto, using(crate::proofs::HeaderLayout::header_fits))]
pub fn header_byte(id_written: bool, times: TimeRange, reference: TimeRange) -> u8
    ensures { result ≡ pack_header (header_of id_written reference times) }
{
    area_header::pack(header_of(id_written, times, reference))
}

// The end starts at `start`.
#[tactic(auto, unfolding(crate::specs::Times::read_end))]
fn decode_end(
    message: &[u8],
    start: usize,
    canonic: bool,
    reference: TimeRange,
    header: AreaHeader,
) -> Result<Decoded<RangeEnd>, DecodeError>
    ensures { answer_of result ≡ read_end canonic reference header (drop start message.now) }
{
    if header.end_open {
        if header.end_added {
            return Err(DecodeError::TheirFault);
        }
        return Ok(Decoded {
            value: RangeEnd::Open,
            consumed: 0,
        });
    }
    let by = DifferenceTag {
        added: header.end_added,
        width: END_TAG_WIDTH,
        tag: header.end_tag,
    };
    let end = time_relative::relative_decode(message, start, canonic, reference, by)?;
    Ok(Decoded {
        value: RangeEnd::Closed(end.value),
        consumed: end.consumed,
    })
}

// Reads times against a reference, by the header.
#[tactic(auto, unfolding(crate::specs::Times::read_times))]
pub fn relative_decode(
    message: &[u8],
    canonic: bool,
    reference: TimeRange,
    header: AreaHeader,
) -> Result<Decoded<TimeRange>, DecodeError>
    ensures { answer_of result ≡ read_times canonic reference header message.now }
{
    let by = DifferenceTag {
        added: header.start_added,
        width: START_TAG_WIDTH,
        tag: header.start_tag,
    };
    let start = time_relative::relative_decode(message, 0, canonic, reference, by)?;
    let end = decode_end(message, start.consumed, canonic, reference, header)?;
    let times = TimeRange {
        start: start.value,
        end: end.value,
    };
    if !reference.includes_range(times) {
        return Err(DecodeError::TheirFault);
    }
    Ok(Decoded {
        value: times,
        consumed: start.consumed + end.consumed,
    })
}

// How many bytes times take after the header and the id.
#[tactic(auto, unfolding(crate::specs::Times::times_bytes))]
pub fn relative_len_of_encoding(times: TimeRange, reference: TimeRange) -> usize
    ensures { (result ≡ length (times_bytes reference times)) × (result ≤ 16) }
{
    let start = time_relative::difference(reference, times.start).difference;
    match times.end {
        RangeEnd::Closed(time) => {
            let end = time_relative::difference(reference, time).difference;
            compact_u64::relative_len_of_pair(START_TAG_WIDTH, start, END_TAG_WIDTH, end)
        }
        RangeEnd::Open => compact_u64::relative_len_of_encoding(START_TAG_WIDTH, start),
    }
}

// Writes times after the header and the id.
#[tactic(auto, unfolding(crate::specs::Times::times_bytes))]
pub fn relative_encode(
    buffer: &mut [u8],
    times: TimeRange,
    reference: TimeRange,
) -> Result<usize, EncodeError>
    ensures { (outcome_of result ≡ put_answer allowed (times_bytes reference times) (length buffer.old)) × (buffer.new ≡ put_buffer allowed (times_bytes reference times) buffer.old) }
{
    let start = time_relative::difference(reference, times.start).difference;
    match times.end {
        RangeEnd::Closed(time) => {
            let end = time_relative::difference(reference, time).difference;
            compact_u64::relative_encode_pair(buffer, START_TAG_WIDTH, start, END_TAG_WIDTH, end)
        }
        RangeEnd::Open => compact_u64::relative_encode(buffer, START_TAG_WIDTH, start),
    }
}
