// The suffix that all path encodings share: docs/FORMAT.md, "Paths". Its definitions and laws; what writes it is path_suffix_encode.

#![tactic(auto)]

// The tags in a suffix's header byte.
#[derive(Clone, Copy)]
pub struct Tags {
    pub total: u8,
    pub count: u8,
}

// A suffix's total length and component count.
#[derive(Clone, Copy)]
pub struct Sizes {
    pub total: u64,
    pub count: u64,
}
