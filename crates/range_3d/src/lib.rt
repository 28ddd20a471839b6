// Ranges of subspaces and of paths, and 3d ranges: docs/FORMAT.md, "3d ranges". A port of grouping/range_3d.rs, as far as the codecs use it.

#![tactic(auto)]

ghost use Rattle.std.specs.Prelude.{◌≡◌};
ghost use Rattle.range_3d.specs.Record.{range_lent, well_formed_range3d};

use grouping::TimeRange;

// From a start on, before an end; none is open.
#[derive(Clone, Copy)]
pub struct Range<T> {
    pub start: T,
    pub end: Option<T>,
}

pub type SubspaceRange = Range<[u8; 32]>;

// Paths are lent as their records.
pub type PathRange<'a> = Range<&'a [u8]>;

#[derive(Clone, Copy)]
pub struct Range3d<'a> {
    pub subspaces: SubspaceRange,
    pub paths: PathRange<'a>,
    pub times: TimeRange,
}

// What is read of a 3d range beside its two paths; the record for the second is left empty where it has no end.
#[derive(Clone, Copy)]
pub struct Range3dHead {
    pub subspaces: SubspaceRange,
    pub end_open: bool,
    pub times: TimeRange,
}

impl<'a> Range3d<'a> {
    // Whether a 3d range is well formed: for where it comes in.
    pub fn is_well_formed(self) -> bool
        ensures { result ≡ well_formed_range3d (range_lent self.entry) }
    {
        path::lent::well_formed(self.paths.start)
            && self.paths.end.is_none_or(path::lent::well_formed)
    }
}
