// A time against a range of times: docs/FORMAT.md, "Times".

#![tactic(auto)]

ghost use Rattle.std.specs.Prelude.{◌≡◌, ◌≤◌, Bool, ℕ, drop};
ghost use Rattle.codec.specs.Answers.{answer_of};
ghost use Rattle.compact_u64.specs.Answers.{bits};
ghost use Rattle.time_relative.specs.Difference.{difference_of, end_difference, reach_of, time_at, is_nearest, read_time, read_included};
ghost use Rattle.time_relative.specs.inside.Told.{Tests, includes_told, read_told};

use codec::{DecodeError, Decoded};
use grouping::{DifferenceTag, RangeEnd, TimeRange};

// The smaller of the differences from a range's start, to which it is added, and to the range's end.
#[derive(Clone, Copy)]
pub struct TimeDifference {
    pub added: bool,
    pub difference: u64,
}

#[tactic(auto, unfolding(crate::specs::Difference::difference_of))]
pub fn difference(range: TimeRange, time: u64) -> TimeDifference
    ensures { result ≡ difference_of range time }
{
    let from_start = time.saturating_sub(range.start);
    let to_end = range.end.value().saturating_sub(time);
    TimeDifference {
        added: from_start <= to_end,
        difference: from_start.min(to_end),
    }
}

// An open end has no difference.
pub fn end_difference(range: TimeRange, end: RangeEnd) -> TimeDifference
    ensures { result ≡ end_difference range end }
{
    match end {
        RangeEnd::Closed(time) => difference(range, time),
        RangeEnd::Open => TimeDifference {
            added: false,
            difference: 0,
        },
    }
}

// The largest difference that says a time.
fn reach(range: TimeRange, added: bool) -> u64
    ensures { result ≡ reach_of range added }
{
    if added {
        u64::MAX - range.start
    } else {
        range.end.value()
    }
}

// The time that a difference says.
#[tactic(auto, unfolding(crate::specs::Difference::time_at))]
fn time_at(range: TimeRange, added: bool, difference: u64) -> u64
    requires { difference ≤ reach_of range added }
    ensures { result ≡ time_at range added difference }
{
    if added {
        range.start + difference
    } else {
        range.end.value() - difference
    }
}

// Whether a time lies in the range and this is its difference; strictly, also whether it is rightly added.
#[tactic(auto, unfolding(crate::specs::Difference::is_nearest))]
fn is_nearest(canonic: bool, range: TimeRange, added: bool, told: u64, time: u64) -> bool
    ensures { result ≡ is_nearest canonic range added told time }
{
    let nearest = difference(range, time);
    range.bounds(time) && nearest.difference == told && (!canonic || nearest.added == added)
}

// Whether the range includes the time that a difference says; strictly, also whether it is the smaller and rightly added.
fn is_included(canonic: bool, range: TimeRange, added: bool, time: u64) -> bool
    ensures { result ≡ includes_told canonic range added time }
{
    range.includes(time) && (!canonic || difference(range, time).added == added)
}

// Reads the difference after its tag, which starts at `start`, and answers the time that it says, where both pass a test.
fn decode_told<F: Fn(u64, u64) -> bool>(
    message: &[u8],
    start: usize,
    canonic: bool,
    range: TimeRange,
    by: DifferenceTag,
    test: F,
) -> Result<Decoded<u64>, DecodeError>
    requires { F.IsAlwaysCallable test }
    ensures { (t : ℕ → ℕ → Bool) → Tests (F.post test) t → answer_of result ≡ read_told t canonic (bits by.width) range by.added by.tag (drop start message.now) }
{
    let told = compact_u64::relative_decode(message, start, by.width, by.tag, canonic)?;
    if reach(range, by.added) < told.value {
        return Err(DecodeError::TheirFault);
    }
    let time = time_at(range, by.added, told.value);
    if !test(told.value, time) {
        return Err(DecodeError::TheirFault);
    }
    Ok(Decoded {
        value: time,
        consumed: told.consumed,
    })
}

// Reads the smaller difference of a time that lies between the range's start and end.
pub fn relative_decode(
    message: &[u8],
    start: usize,
    canonic: bool,
    range: TimeRange,
    by: DifferenceTag,
) -> Result<Decoded<u64>, DecodeError>
    ensures { answer_of result ≡ read_time canonic (bits by.width) range by.added by.tag (drop start message.now) }
{
    decode_told(message, start, canonic, range, by, |told, time| {
        is_nearest(canonic, range, by.added, told, time)
    })
}

// Reads the difference of a time that the range includes.
pub fn decode_included(
    message: &[u8],
    start: usize,
    canonic: bool,
    range: TimeRange,
    by: DifferenceTag,
) -> Result<Decoded<u64>, DecodeError>
    ensures { answer_of result ≡ read_included canonic (bits by.width) range by.added by.tag (drop start message.now) }
{
    decode_told(message, start, canonic, range, by, |_, time| {
        is_included(canonic, range, by.added, time)
    })
}
