// Records as flat bytes, for callers in other languages: docs/ABI.md. The definitions and their laws; flat_records has the functions.

#![tactic(auto)]
