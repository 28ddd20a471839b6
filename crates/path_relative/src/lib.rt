// Paths against a path, and extensions of a path: docs/FORMAT.md, "Paths". The definitions and their laws; the crates path_relative_decode and
// path_relative_encode have the functions.

#![tactic(auto)]
