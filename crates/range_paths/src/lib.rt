// The paths of a 3d range against those of another: docs/FORMAT.md, "3d ranges". Part of a port of relative_encodings/range3d_range3d.rs.

#![tactic(auto)]

pub mod sized;
pub mod sized_decode;

// Whether start and end are written against the reference's start, not its end.
#[derive(Clone, Copy)]
pub struct Sides {
    pub start_from_start: bool,
    pub end_from_start: bool,
}

// Whether a path is written against the reference's start, not its end, and how many components the two share.
#[derive(Clone, Copy)]
pub struct NearPath {
    pub from_start: bool,
    pub shared: usize,
}

// The same of start and end, and how many bytes both take.
#[derive(Clone, Copy)]
pub struct MeasuredPaths {
    pub start: NearPath,
    pub end: Option<NearPath>,
    pub len: usize,
}
