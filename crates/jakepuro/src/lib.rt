// The library for C and Rust: docs/ABI.md, include/jakepuro.h. A function but the version answers 0, or the number of docs/FORMAT.md's
// refusal; the count beside a refusal is 0, and what was lent is left as it was.

#![tactic(auto)]

pub mod areas;
pub mod entries;
pub mod numbers;
pub mod paths;
pub mod ranges;
pub mod version;
