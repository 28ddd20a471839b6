// Paths: docs/FORMAT.md, "Paths", and what the codecs ask of them. A port of path/mod.rs.

#![tactic(auto)]

ghost use Rattle.std.specs.Prelude.{◌≡◌, [], ◌&&◌};
ghost use Rattle.codec.specs.Answers.{said_of};
ghost use Rattle.path.specs.Record.{components_of, path_from, all_at_most, well_formed};
ghost use Rattle.path.specs.Flat.{path_in, path_flat};
ghost use Rattle.path.specs.Prefix.{shared, is_prefix, same_path};
ghost use Rattle.path.specs.Answers.{said_if, component_answer, component_at};

use codec::Malformed;

pub mod lent;
mod path_builder;

// A path: its record of bytes, as callers in other languages hold it too. Functions are lent the bytes.
#[derive(Drop)]
pub struct Path {
    pub flat: [u8; lent::SIZE],
}

// A path that grows by components in a lent record: the sum of their lengths, and their number.
#[derive(Clone, Copy)]
pub struct PathBuilder {
    pub total: usize,
    pub count: usize,
}

// Why a path does not grow, or has no such component; the number is that of docs/FORMAT.md, "Refusals".
#[derive(Clone, Copy, Debug, PartialEq, Eq)]
pub enum PathError {
    Outside = 3,
    Malformed = 5,
}

// Where a component's bytes start among those of all components, and how many they are.
#[derive(Clone, Copy)]
pub struct ComponentBytes {
    pub start: usize,
    pub len: usize,
}

impl Path {
    pub const MAX_COMPONENT_LENGTH: usize = 300;

    pub const MAX_COMPONENT_COUNT: usize = 20;

    pub const MAX_PATH_LENGTH: usize = 600;

    pub fn new_empty() -> Path
        ensures { result.flat ≡ path_flat (path_from []) }
    {
        Path {
            flat: [0; lent::SIZE],
        }
    }
}

// Whether every byte is zero, with no way out before the last, so that many bytes are tested at a time.
pub fn all_zero(s: &[u8]) -> bool
    ensures { result ≡ all_at_most 0 s.now }
{
    s.iter().fold(0, |bits, byte| bits | byte) == 0
}

// Where the i-th component stands among the bytes of all.
#[tactic(auto, using(crate::proofs::Records::whole_in, crate::proofs::Components::parts_formed, crate::proofs::Records::span_start), unfolding(crate::specs::Answers::component_at))]
pub fn component(path: &[u8], i: usize) -> Result<ComponentBytes, PathError>
    ensures { component_answer result ≡ component_at (path_in path.now) i }
{
    if !lent::well_formed(path) {
        return Err(PathError::Malformed);
    }
    if lent::count(path) <= i {
        return Err(PathError::Outside);
    }
    Ok(ComponentBytes {
        start: lent::span(path, 0, i),
        len: lent::component_len(path, i),
    })
}

// How many components the longest common prefix of two paths has.
#[tactic(auto, using(crate::proofs::Compare::both_sized))]
pub fn longest_common_prefix(path: &[u8], other: &[u8]) -> Result<usize, Malformed>
    ensures { said_of result ≡ said_if (well_formed (path_in path.now) && well_formed (path_in other.now)) (shared (components_of (path_in path.now)) (components_of (path_in other.now))) }
{
    if !lent::both_formed(path, other) {
        return Err(Malformed);
    }
    lent::longest_common_prefix(path, other)
}

// Whether the first path is a prefix of the second.
#[tactic(auto, using(crate::proofs::Compare::both_sized))]
pub fn is_prefix_of(path: &[u8], other: &[u8]) -> Result<bool, Malformed>
    ensures { said_of result ≡ said_if (well_formed (path_in path.now) && well_formed (path_in other.now)) (is_prefix (components_of (path_in path.now)) (components_of (path_in other.now))) }
{
    if !lent::both_formed(path, other) {
        return Err(Malformed);
    }
    lent::is_prefix_of(path, other)
}

// Whether two paths have the same components.
#[tactic(auto, using(crate::proofs::Compare::equal_told, crate::proofs::Compare::unequal_told))]
pub fn equals(path: &[u8], other: &[u8]) -> Result<bool, Malformed>
    ensures { said_of result ≡ said_if (well_formed (path_in path.now) && well_formed (path_in other.now)) (same_path (components_of (path_in path.now)) (components_of (path_in other.now))) }
{
    let k = longest_common_prefix(path, other)?;
    Ok(k == lent::count(path) && k == lent::count(other))
}
