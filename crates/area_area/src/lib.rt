// Areas against an area: docs/FORMAT.md, "Areas". The definitions and their laws; the
// crates area_area_decode and area_area_encode have the functions.

#![tactic(auto)]
