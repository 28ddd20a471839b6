// Groupings of entries: ranges of times, and areas: docs/FORMAT.md, "Areas". A port of grouping/range.rs and grouping/area.rs.

#![tactic(auto)]

ghost use Rattle.std.specs.Prelude.{◌≡◌, ◌&&◌};
ghost use Rattle.codec.specs.Answers.{said_of};
ghost use Rattle.grouping.specs.Area.{includes_subspace, head_lies_inside};
ghost use Rattle.grouping.specs.Record.{area_lent, well_formed_area, area_includes, says_area_inside};

use codec::Malformed;
use compact_u64::TagWidth;

mod range;

// Where a range of times ends: before a time, or nowhere, which lies above every time.
#[derive(Clone, Copy, PartialEq, Eq, PartialOrd, Ord)]
pub enum RangeEnd {
    Closed(u64),
    Open,
}

// The times from a start on, before an end.
#[derive(Clone, Copy)]
pub struct TimeRange {
    pub start: u64,
    pub end: RangeEnd,
}

// How a header tells a time's difference: whether it is added, and the tag of its number.
#[derive(Clone, Copy)]
pub struct DifferenceTag {
    pub added: bool,
    pub width: TagWidth,
    pub tag: u8,
}

// One subspace, or any: none.
pub type AreaSubspace = Option<[u8; 32]>;

// What an area has beside its path.
#[derive(Clone, Copy)]
pub struct AreaHead {
    pub subspace: AreaSubspace,
    pub times: TimeRange,
}

// An area whose path is lent as its record.
#[derive(Clone, Copy)]
pub struct Area<'a> {
    pub head: AreaHead,
    pub path: &'a [u8],
}

pub fn includes_subspace(subspace: AreaSubspace, other: AreaSubspace) -> bool
    ensures { result ≡ includes_subspace subspace other }
{
    subspace.is_none() || subspace == other
}

impl AreaHead {
    // Whether another area lies inside, as far as subspaces and times tell.
    #[tactic(auto, unfolding(crate::specs::Area::head_lies_inside))]
    pub fn contains(self, other: AreaHead) -> bool
        ensures { result ≡ head_lies_inside self other }
    {
        includes_subspace(self.subspace, other.subspace)
            && self.times.includes_range(other.times)
            && self.times.bounds(other.times.start)
            && self.times.bounds(other.times.end.value())
    }
}

impl<'a> Area<'a> {
    // Whether an area is well formed: for where it comes in.
    pub fn is_well_formed(self) -> bool
        ensures { result ≡ well_formed_area (area_lent self.entry) }
    {
        path::lent::well_formed(self.path)
    }

    // Whether two areas are.
    pub fn both_formed(self, other: Area<'a>) -> bool
        ensures { result ≡ (well_formed_area (area_lent self.entry) && well_formed_area (area_lent other.entry)) }
    {
        path::lent::both_formed(self.path, other.path)
    }

    #[tactic(auto, using(crate::proofs::Compare::both_sized), unfolding(crate::specs::Record::area_includes, crate::specs::Area::includes_area))]
    pub fn includes_area(self, other: Area<'a>) -> Result<bool, Malformed>
        ensures { said_of result ≡ area_includes (area_lent self.entry) (area_lent other.entry) }
    {
        if !self.both_formed(other) {
            return Err(Malformed);
        }
        if !includes_subspace(self.head.subspace, other.head.subspace)
            || !self.head.times.includes_range(other.head.times)
        {
            return Ok(false);
        }
        path::lent::is_prefix_of(self.path, other.path)
    }

    // Whether another area lies inside: it is included, and its start and end lie between the start and the end.
    #[tactic(auto, using(crate::proofs::Compare::both_sized), unfolding(crate::specs::Record::says_area_inside, crate::specs::Area::includes_area, crate::specs::Area::area_lies_inside, crate::specs::Area::head_lies_inside))]
    pub fn contains(self, other: Area<'a>) -> Result<bool, Malformed>
        ensures { said_of result ≡ says_area_inside (area_lent self.entry) (area_lent other.entry) }
    {
        if !self.both_formed(other) {
            return Err(Malformed);
        }
        if !self.head.contains(other.head) {
            return Ok(false);
        }
        path::lent::is_prefix_of(self.path, other.path)
    }
}
