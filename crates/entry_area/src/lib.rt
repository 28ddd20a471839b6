// Entries against a namespace and an area: docs/FORMAT.md, "Entries". The definitions and their laws; the
// crates entry_area_decode and entry_area_encode have the functions.

#![tactic(auto)]
