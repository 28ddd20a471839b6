// Ranges of times.
ghost use Rattle.std.specs.Prelude.{◌≡◌};
ghost use Rattle.grouping.specs.Range.{end_value, is_open, end_after, includes_time, includes_range, bounds};

use crate::{RangeEnd, TimeRange};

impl RangeEnd {
    // The end as a time: open counts as top.
    pub fn value(self) -> u64
        ensures { result ≡ end_value self }
    {
        match self {
            RangeEnd::Closed(time) => time,
            RangeEnd::Open => u64::MAX,
        }
    }

    pub fn is_open(self) -> bool
        ensures { result ≡ is_open self }
    {
        matches!(self, RangeEnd::Open)
    }

    // Whether an end is after a time.
    pub fn gt_val(self, time: u64) -> bool
        ensures { result ≡ end_after self time }
    {
        RangeEnd::Closed(time) < self
    }
}

impl TimeRange {
    #[tactic(auto, unfolding(crate::specs::Range::includes_time))]
    pub fn includes(self, time: u64) -> bool
        ensures { result ≡ includes_time self time }
    {
        self.start <= time && self.end.gt_val(time)
    }

    #[tactic(auto, unfolding(crate::specs::Range::includes_range))]
    pub fn includes_range(self, other: TimeRange) -> bool
        ensures { result ≡ includes_range self other }
    {
        self.start <= other.start && other.end <= self.end
    }

    // Whether a time lies between start and end, both counted in.
    #[tactic(auto, unfolding(crate::specs::Range::bounds))]
    pub fn bounds(self, time: u64) -> bool
        ensures { result ≡ bounds self time }
    {
        self.start <= time && time <= self.end.value()
    }
}
