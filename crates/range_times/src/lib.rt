// The times of a 3d range against those of another: docs/FORMAT.md, "3d ranges". Part of a port of relative_encodings/range3d_range3d.rs.

#![tactic(auto)]

ghost use Rattle.std.specs.Prelude.{◌≡◌, ◌≤◌, length, drop};
ghost use Rattle.codec.specs.Answers.{answer_of, outcome_of};
ghost use Rattle.codec.specs.Format.{allowed, put_answer, put_buffer};
ghost use Rattle.time_distance.specs.Distance.{side_of};
ghost use Rattle.range_times.specs.Header.{unpack_header, pack_header};
ghost use Rattle.range_times.specs.Times.{header_of, times_bytes, read_end, read_times};

use codec::{DecodeError, Decoded, EncodeError};
use grouping::{DifferenceTag, RangeEnd, TimeRange};
use times_header::{END_TAG_WIDTH, START_TAG_WIDTH};

mod times_header;

// What the header byte of the times says.
#[derive(Clone, Copy)]
pub struct RangeTimesHeader {
    pub start_from_start: bool,
    pub start_added: bool,
    pub start_tag: u8,
    pub end_from_start: bool,
    pub end_added: bool,
    pub end_tag: u8,
}

#[tactic(auto, unfolding(crate::specs::Times::header_of))]
fn header_of(times: TimeRange, reference: TimeRange) -> RangeTimesHeader
    ensures { result ≡ header_of reference times }
{
    let start = time_distance::nearest(reference, times.start);
    let end = time_distance::end_nearest(reference, times.end);
    RangeTimesHeader {
        start_from_start: start.from_start,
        start_added: start.added,
        start_tag: compact_u64::min_tag(START_TAG_WIDTH, start.difference),
        end_from_start: end.from_start,
        end_added: end.added,
        end_tag: compact_u64::min_tag(END_TAG_WIDTH, end.difference),
    }
}

// The header byte of times against a reference.
#[tactic(auto, using(crate::proofs::HeaderLayout::header_fits))]
pub fn header_byte(times: TimeRange, reference: TimeRange) -> u8
    ensures { result ≡ pack_header (header_of reference times) }
{
    times_header::pack(header_of(times, reference))
}

fn side(reference: TimeRange, from_start: bool) -> RangeEnd
    ensures { result ≡ side_of reference from_start }
{
    if from_start {
        RangeEnd::Closed(reference.start)
    } else {
        reference.end
    }
}

// The end starts at `start`.
#[tactic(auto, unfolding(crate::specs::Times::read_end))]
fn decode_end(
    message: &[u8],
    start: usize,
    header: RangeTimesHeader,
    end_open: bool,
    reference: TimeRange,
) -> Result<Decoded<RangeEnd>, DecodeError>
    ensures { answer_of result ≡ read_end reference end_open header (drop start message.now) }
{
    if end_open {
        return Ok(Decoded {
            value: RangeEnd::Open,
            consumed: 0,
        });
    }
    let from = side(reference, header.end_from_start);
    let by = DifferenceTag {
        added: header.end_added,
        width: END_TAG_WIDTH,
        tag: header.end_tag,
    };
    let end = time_distance::relative_decode(message, start, from, by)?;
    Ok(Decoded {
        value: RangeEnd::Closed(end.value),
        consumed: end.consumed,
    })
}

// Reads times by their header byte; whether the end is open is told elsewhere.
#[tactic(auto, unfolding(crate::specs::Times::read_times))]
pub fn relative_decode(
    message: &[u8],
    header: u8,
    end_open: bool,
    reference: TimeRange,
) -> Result<Decoded<TimeRange>, DecodeError>
    ensures { answer_of result ≡ read_times reference end_open (unpack_header header) message.now }
{
    let said = times_header::unpack(header);
    let from = side(reference, said.start_from_start);
    let by = DifferenceTag {
        added: said.start_added,
        width: START_TAG_WIDTH,
        tag: said.start_tag,
    };
    let start = time_distance::relative_decode(message, 0, from, by)?;
    let end = decode_end(message, start.consumed, said, end_open, reference)?;
    Ok(Decoded {
        value: TimeRange {
            start: start.value,
            end: end.value,
        },
        consumed: start.consumed + end.consumed,
    })
}

// How many bytes times take after their header.
#[tactic(auto, unfolding(crate::specs::Times::times_bytes))]
pub fn relative_len_of_encoding(times: TimeRange, reference: TimeRange) -> usize
    ensures { (result ≡ length (times_bytes reference times)) × (result ≤ 16) }
{
    let start = time_distance::nearest(reference, times.start).difference;
    match times.end {
        RangeEnd::Closed(time) => {
            let end = time_distance::nearest(reference, time).difference;
            compact_u64::relative_len_of_pair(START_TAG_WIDTH, start, END_TAG_WIDTH, end)
        }
        RangeEnd::Open => compact_u64::relative_len_of_encoding(START_TAG_WIDTH, start),
    }
}

// Writes times after their header.
#[tactic(auto, unfolding(crate::specs::Times::times_bytes))]
pub fn relative_encode(
    buffer: &mut [u8],
    times: TimeRange,
    reference: TimeRange,
) -> Result<usize, EncodeError>
    ensures { (outcome_of result ≡ put_answer allowed (times_bytes reference times) (length buffer.old)) × (buffer.new ≡ put_buffer allowed (times_bytes reference times) buffer.old) }
{
    let start = time_distance::nearest(reference, times.start).difference;
    match times.end {
        RangeEnd::Closed(time) => {
            let end = time_distance::nearest(reference, time).difference;
            compact_u64::relative_encode_pair(buffer, START_TAG_WIDTH, start, END_TAG_WIDTH, end)
        }
        RangeEnd::Open => compact_u64::relative_encode(buffer, START_TAG_WIDTH, start),
    }
}
