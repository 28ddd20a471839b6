// Paths lent as their record, one slice: docs/ABI.md, "Records". The record's layout stands here. Functions test its sizes alone and go by the components
// that these cut from its bytes, but for `well_formed` and `both_formed`.
ghost use Rattle.std.specs.Prelude.{◌≡◌, [], true, false, cond, ◌&&◌, ◌-◌, ◌≤◌, ◌<◌, Some, None, IfOk, OnErr, length, take, drop, replicate};
ghost use Rattle.codec.specs.Answers.{said_of};
ghost use Rattle.path.specs.Limits.{max_component_length, max_component_count};
ghost use Rattle.path.specs.Record.{sum_of, all_at_most, components_of, length_at, sized, well_formed};
ghost use Rattle.path.specs.Flat.{path_size, path_in, lent};
ghost use Rattle.path.specs.Prefix.{shared, is_prefix};
ghost use Rattle.path.specs.Answers.{said_if};

use crate::Path;
use codec::Malformed;

// How many bytes a record has, and where its lengths and its bytes start.
pub const SIZE: usize = BYTES + Path::MAX_PATH_LENGTH;

pub const LENGTHS: usize = 1;

pub const BYTES: usize = LENGTHS + 2 * Path::MAX_COMPONENT_COUNT;

// The i-th length.
#[tactic(auto, using(crate::proofs::Records::length_there))]
fn length_in(path: &[u8; SIZE], i: usize) -> usize
    requires { i < max_component_count }
    ensures { (result ≡ length_at (path_in path.now) i) × (result < 65536) }
{
    let at = LENGTHS + 2 * i;
    usize::from(u16::from_be_bytes([path[at], path[at + 1]]))
}

// The bytes of all components.
#[tactic(auto, unfolding(crate::specs::Flat::path_in))]
fn bytes_in(path: &[u8; SIZE]) -> &[u8]
    ensures { result.now ≡ (path_in path.now).bytes }
{
    &path[BYTES..]
}

// The empty record.
pub fn clear(out: &mut [u8; SIZE])
    ensures { out.new ≡ replicate path_size 0 }
{
    *out = [0; SIZE];
}

// How many components a record has.
#[tactic(auto, using(crate::proofs::Loads::count_told))]
pub fn count(path: &[u8]) -> usize
    ensures { result ≡ lent 0 (λ p. p.count) path.now }
{
    match path.first_chunk::<SIZE>() {
        Some(path) => usize::from(path[0]),
        None => 0,
    }
}

// The length of the i-th component, also of one that is not there.
#[tactic(auto, using(crate::proofs::Records::length_past))]
pub fn component_len(path: &[u8], i: usize) -> usize
    ensures { result ≡ lent 0 (λ p. length_at p i) path.now }
{
    if Path::MAX_COMPONENT_COUNT <= i {
        return 0;
    }
    match path.first_chunk::<SIZE>() {
        Some(path) => length_in(path, i),
        None => 0,
    }
}

// The bytes of all components, and what follows them in the record.
pub fn bytes(path: &[u8]) -> &[u8]
    ensures { result.now ≡ lent [] (λ p. p.bytes) path.now }
{
    match path.first_chunk::<SIZE>() {
        Some(path) => bytes_in(path),
        None => &[],
    }
}

// How many bytes the components from one place on and before another have, with no other way out of the loop.
#[tactic(auto, using(crate::proofs::Records::span_next))]
fn sum(path: &[u8; SIZE], from: usize, to: usize) -> usize
    requires { to ≤ max_component_count }
    ensures { result ≡ sum_of (take (to - from) (drop from (path_in path.now).lengths)) }
{
    let mut total = 0;
    for i in from..to {
        total += length_in(path, i);
    }
    total
}

// The same of any record and any places.
#[tactic(auto, using(crate::proofs::Records::span_capped))]
pub fn span(path: &[u8], from: usize, to: usize) -> usize
    ensures { result ≡ lent 0 (λ p. sum_of (take (to - from) (drop from p.lengths))) path.now }
{
    match path.first_chunk::<SIZE>() {
        Some(path) => sum(path, from, to.min(Path::MAX_COMPONENT_COUNT)),
        None => 0,
    }
}

// Whether a record's sizes are within the limits: what the components' places rest on.
#[tactic(auto, using(crate::proofs::Records::sized_whole))]
fn sized_in(path: &[u8; SIZE]) -> bool
    ensures { result ≡ sized (path_in path.now) }
{
    let n = usize::from(path[0]);
    n <= Path::MAX_COMPONENT_COUNT && sum(path, 0, n) <= Path::MAX_PATH_LENGTH
}

// A record of which that was tested.
#[tactic(auto, using(crate::proofs::Records::sized_short, crate::proofs::Loads::first_in))]
fn sized_record(path: &[u8]) -> Result<&[u8; SIZE], Malformed>
    ensures ok { IfOk result (λ r. (path_in r.now ≡ path_in path.now) × (sized (path_in path.now) ≡ true)) }
    ensures err { OnErr result (sized (path_in path.now) ≡ false) }
{
    match path.first_chunk::<SIZE>() {
        Some(path) if sized_in(path) => Ok(path),
        _ => Err(Malformed),
    }
}

// Whether a record's sizes are within the limits.
pub fn sized(path: &[u8]) -> bool
    ensures { result ≡ sized (path_in path.now) }
{
    sized_record(path).is_ok()
}

// How many bytes the first n components have, where none of them is too long, with no other way out of the loop.
#[tactic(auto, using(crate::proofs::Records::span_next, crate::proofs::Records::short_next, crate::proofs::Records::short_end))]
fn measure(path: &[u8; SIZE], n: usize) -> Option<usize>
    requires { n ≤ max_component_count }
    ensures { result ≡ cond (all_at_most max_component_length (take n (path_in path.now).lengths)) (Some (sum_of (take n (path_in path.now).lengths))) None }
{
    let mut total = 0;
    let mut short = true;
    for i in 0..n {
        let len = length_in(path, i);
        total += len;
        if Path::MAX_COMPONENT_LENGTH < len {
            short = false;
        }
    }
    short.then_some(total)
}

// Whether a record is well formed.
#[tactic(auto, using(crate::proofs::Records::well_many, crate::proofs::Records::well_few))]
fn well_formed_in(path: &[u8; SIZE]) -> bool
    ensures { result ≡ well_formed (path_in path.now) }
{
    let n = usize::from(path[0]);
    if Path::MAX_COMPONENT_COUNT < n {
        return false;
    }
    let Some(total) = measure(path, n) else {
        return false;
    };
    total <= Path::MAX_PATH_LENGTH
        && crate::all_zero(&path[LENGTHS + 2 * n..BYTES])
        && crate::all_zero(&path[BYTES + total..])
}

// The same of any bytes: for where they come in.
#[tactic(auto, using(crate::proofs::Records::well_short, crate::proofs::Loads::first_in))]
pub fn well_formed(path: &[u8]) -> bool
    ensures { result ≡ well_formed (path_in path.now) }
{
    match path.first_chunk::<SIZE>() {
        Some(path) => well_formed_in(path),
        None => false,
    }
}

// Whether two records are.
pub fn both_formed(path: &[u8], other: &[u8]) -> bool
    ensures { result ≡ (well_formed (path_in path.now) && well_formed (path_in other.now)) }
{
    well_formed(path) && well_formed(other)
}

// Whether the sizes of two records are within the limits.
pub fn both_sized(path: &[u8], other: &[u8]) -> bool
    ensures { result ≡ (sized (path_in path.now) && sized (path_in other.now)) }
{
    sized(path) && sized(other)
}

// How many leading components two paths share.
#[tactic(auto, using(crate::proofs::Components::sized_formed, crate::proofs::Compare::together))]
fn shared_components(path: &[u8; SIZE], other: &[u8; SIZE]) -> usize
    requires { (sized (path_in path.now) ≡ true) × (sized (path_in other.now) ≡ true) }
    ensures { result ≡ shared (components_of (path_in path.now)) (components_of (path_in other.now)) }
{
    let bytes = bytes_in(path);
    let other_bytes = bytes_in(other);
    let both = usize::from(path[0].min(other[0]));
    let mut at = 0;
    for k in 0..both {
        let len = length_in(path, k);
        if len != length_in(other, k) {
            return k;
        }
        let end = at + len;
        if &bytes[at..end] != &other_bytes[at..end] {
            return k;
        }
        at = end;
    }
    both
}

// How many components the longest common prefix of two paths has.
pub fn longest_common_prefix(path: &[u8], other: &[u8]) -> Result<usize, Malformed>
    ensures { said_of result ≡ said_if (sized (path_in path.now) && sized (path_in other.now)) (shared (components_of (path_in path.now)) (components_of (path_in other.now))) }
{
    let path = sized_record(path)?;
    let other = sized_record(other)?;
    Ok(shared_components(path, other))
}

// Whether the first path is a prefix of the second.
#[tactic(auto, using(crate::proofs::Compare::prefix_told))]
pub fn is_prefix_of(path: &[u8], other: &[u8]) -> Result<bool, Malformed>
    ensures { said_of result ≡ said_if (sized (path_in path.now) && sized (path_in other.now)) (is_prefix (components_of (path_in path.now)) (components_of (path_in other.now))) }
{
    let k = longest_common_prefix(path, other)?;
    Ok(k == count(path))
}
