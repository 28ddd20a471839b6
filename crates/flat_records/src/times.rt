// A range of times: its start, the mark of an open end, its end, which is zero beside the mark.
ghost use Rattle.std.specs.Prelude.{◌≡◌, ◌≤◌, length};
ghost use Rattle.flat.specs.Times.{times_size, end_time, times_marked, times_in, times_flat};
ghost use Rattle.path.specs.Puts.{Puts};

use grouping::{RangeEnd, TimeRange};

// Where the mark and the end start, and how many bytes there are.
const MARK: usize = 8;

const END: usize = 9;

pub(crate) const SIZE: usize = END + 8;

// Whether the bytes are a range's: the mark is 0 or 1, and the end beside 1 is zero.
#[tactic(auto, using(flat::proofs::TimesLaws::times_marked_option))]
pub(crate) fn is_marked(flat: &[u8; SIZE]) -> bool
    ensures { result ≡ times_marked flat.now }
{
    crate::is_marked(crate::after(flat, MARK), 8)
}

#[tactic(auto, unfolding(flat::specs::Times::times_in))]
pub(crate) fn times_in(flat: &[u8; SIZE]) -> TimeRange
    ensures { result ≡ times_in flat.now }
{
    TimeRange {
        start: crate::number(flat),
        end: if flat[MARK] == 1 {
            RangeEnd::Open
        } else {
            RangeEnd::Closed(crate::number(crate::after(flat, END)))
        },
    }
}

// An end's time; beside the mark it is zero.
fn end_time(end: RangeEnd) -> u64
    ensures { result ≡ end_time end }
{
    match end {
        RangeEnd::Closed(time) => time,
        RangeEnd::Open => 0,
    }
}

pub(crate) fn put_times(flat: &mut [u8], times: TimeRange)
    requires { times_size ≤ length flat.old }
    ensures { Puts times_size (times_flat times) flat.old flat.new }
{
    crate::put_number(flat, times.start);
    flat[MARK] = u8::from(times.end.is_open());
    crate::put_number(&mut flat[END..], end_time(times.end));
}
