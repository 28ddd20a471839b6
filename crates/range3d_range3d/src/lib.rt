// 3d ranges against a 3d range: docs/FORMAT.md, "3d ranges". The definitions and their laws; the
// crates range3d_range3d_decode and range3d_range3d_encode have the functions.

#![tactic(auto)]
