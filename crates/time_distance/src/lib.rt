// A time against a time, and against the nearer of a range's start and end: docs/FORMAT.md, "Distances".

#![tactic(auto)]

ghost use Rattle.std.specs.Prelude.{◌≡◌, drop};
ghost use Rattle.codec.specs.Answers.{answer_of};
ghost use Rattle.compact_u64.specs.Answers.{bits};
ghost use Rattle.time_distance.specs.Distance.{distance_to, nearest_of, end_nearest, read_from};

use codec::{DecodeError, Decoded};
use grouping::{DifferenceTag, RangeEnd, TimeRange};

// Which of a range's start and end a time is nearer to, whether it is at or after that, and how far away.
#[derive(Clone, Copy)]
pub struct TimeDistance {
    pub from_start: bool,
    pub added: bool,
    pub difference: u64,
}

// An open end is top away.
fn distance_to(end: RangeEnd, time: u64) -> u64
    ensures { result ≡ distance_to end time }
{
    match end {
        RangeEnd::Closed(limit) => time.abs_diff(limit),
        RangeEnd::Open => u64::MAX,
    }
}

#[tactic(auto, unfolding(crate::specs::Distance::nearest_of))]
pub fn nearest(range: TimeRange, time: u64) -> TimeDistance
    ensures { result ≡ nearest_of range time }
{
    let to_start = time.abs_diff(range.start);
    let to_end = distance_to(range.end, time);
    if to_start <= to_end {
        TimeDistance {
            from_start: true,
            added: range.start <= time,
            difference: to_start,
        }
    } else {
        TimeDistance {
            from_start: false,
            added: !range.end.gt_val(time),
            difference: to_end,
        }
    }
}

// An open end is near to nothing.
pub fn end_nearest(range: TimeRange, end: RangeEnd) -> TimeDistance
    ensures { result ≡ end_nearest range end }
{
    match end {
        RangeEnd::Closed(time) => nearest(range, time),
        RangeEnd::Open => TimeDistance {
            from_start: false,
            added: false,
            difference: 0,
        },
    }
}

// Reads the difference after its tag, which starts at `start`, and answers the time so far from another.
#[tactic(auto, unfolding(crate::specs::Distance::read_from))]
pub fn relative_decode(
    message: &[u8],
    start: usize,
    from: RangeEnd,
    by: DifferenceTag,
) -> Result<Decoded<u64>, DecodeError>
    ensures { answer_of result ≡ read_from (bits by.width) from by.added by.tag (drop start message.now) }
{
    let told = compact_u64::relative_decode(message, start, by.width, by.tag, false)?;
    let RangeEnd::Closed(time) = from else {
        return Err(DecodeError::TheirFault);
    };
    let there = if by.added {
        time.checked_add(told.value)
    } else {
        time.checked_sub(told.value)
    };
    Ok(Decoded {
        value: there.ok_or(DecodeError::TheirFault)?,
        consumed: told.consumed,
    })
}
