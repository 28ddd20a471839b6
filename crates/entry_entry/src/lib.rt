// Entries against an entry: docs/FORMAT.md, "Entries against an entry". The definitions and their laws; the
// crates entry_entry_decode and entry_entry_encode have the functions.

#![tactic(auto)]

use entry_numbers::Numbers;

#[derive(Clone, Copy)]
pub struct Ids {
    pub namespace_id: [u8; 32],
    pub subspace_id: [u8; 32],
}

// What comes before the path.
#[derive(Clone, Copy)]
pub struct Head {
    pub ids: Ids,
    pub numbers: Numbers,
}
