// Reading into a lent record against a path and as its extension, both lent as their records; the reference's sizes are tested: for the records above.
ghost use Rattle.std.specs.Prelude.{◌≡◌, [], false, eqb, drop, IfOk};
ghost use Rattle.codec.specs.Answers.{Gives};
ghost use Rattle.codec.specs.Reader.{checked};
ghost use Rattle.path.specs.Record.{components_of, path_from, sized};
ghost use Rattle.path.specs.inside.Sizes.{Leads};
ghost use Rattle.path.specs.Flat.{path_in};
ghost use Rattle.path.specs.Prefix.{shared, is_prefix};
ghost use Rattle.path_codec.specs.Plain.{read_path};
ghost use Rattle.path_relative.specs.Records.{read_against_by, read_within_by, read_extends_by};
ghost use Rattle.path_relative.specs.inside.Reading.{Alike, ToldShared, consumed_of, read_joined};

use codec::{DecodeError, Decoded};
use path::Path;
use path_suffix::Sizes;

// Whether two paths share no more than their first `k` components, which are the same: the one after them decides.
#[tactic(auto, using(path::proofs::Records::whole_in, path::proofs::Components::sized_formed, path::proofs::Records::span_start, path::proofs::Components::ends, path_relative::proofs::Alike::left_over, path_relative::proofs::Alike::right_over, path_relative::proofs::Alike::other_length))]
fn share_only(path: &[u8], other: &[u8], k: usize) -> bool
    requires { Alike (path_in path.now) (path_in other.now) k }
    ensures { result ≡ eqb (shared (components_of (path_in path.now)) (components_of (path_in other.now))) k }
{
    if path::lent::count(path) <= k || path::lent::count(other) <= k {
        return true;
    }
    let len = path::lent::component_len(path, k);
    if len != path::lent::component_len(other, k) {
        return true;
    }
    let at = path::lent::span(path, 0, k);
    let end = at + len;
    &path::lent::bytes(path)[at..end] != &path::lent::bytes(other)[at..end]
}

// Reads what follows the shared count and the sizes: the components after the reference's first `k`, from the message's first byte on.
// Strictly, no further component could have been shared.
fn decode_joined(
    message: &[u8],
    canonic: bool,
    k: usize,
    sizes: Sizes,
    reference: &[u8],
    out: &mut [u8; path::lent::SIZE],
) -> Result<usize, DecodeError>
    requires { Leads (path_in reference.now) k }
    ensures { Gives (path_from []) result (path_in out.new) (read_joined canonic (path_in reference.now) k sizes.total sizes.count message.now) }
{
    let n = path_suffix_decode::decode_after(message, canonic, sizes, reference, k, out)?;
    if canonic && !share_only(reference, out, k) {
        path::lent::clear(out);
        return Err(DecodeError::TheirFault);
    }
    Ok(n)
}

// Whether a reference is a prefix of a path that was read against it, `k` components told to be shared. The paths are looked at only where these are
// not all, and leniently.
#[tactic(auto, using(path::proofs::Records::whole_in, path::proofs::Components::sized_formed, path_relative::proofs::Within::all_told, path_relative::proofs::Within::fewer_told, path_relative::proofs::Within::both_told))]
fn reaches(reference: &[u8], path: &[u8], canonic: bool, k: usize) -> bool
    requires { ToldShared canonic (path_in reference.now) (path_in path.now) k }
    ensures { result ≡ is_prefix (components_of (path_in reference.now)) (components_of (path_in path.now)) }
{
    if path::lent::count(reference) == k {
        return true;
    }
    !canonic && path::lent::is_prefix_of(reference, path).unwrap()
}

// Reads a path against a reference, and answers how many components the message tells to be shared.
fn decode_shared(
    message: &[u8],
    start: usize,
    canonic: bool,
    reference: &[u8],
    out: &mut [u8; path::lent::SIZE],
) -> Result<Decoded<usize>, DecodeError>
    ensures read { Gives (path_from []) (consumed_of result) (path_in out.new) (read_against_by sized canonic (path_in reference.now) (drop start message.now)) }
    ensures told { IfOk result (λ d. ToldShared canonic (path_in reference.now) (path_in out.new) d.value) }
{
    path::lent::clear(out);
    if !path::lent::sized(reference) {
        return Err(DecodeError::Malformed);
    }
    let shared = compact_u64::decode(message, start, canonic)?;
    let first = start + shared.consumed;
    let sizes = path_suffix_decode::decode_sizes(message, first, canonic)?;
    if (path::lent::count(reference) as u64) < shared.value {
        return Err(DecodeError::TheirFault);
    }
    let rest = &message[first + sizes.consumed..];
    let k = shared.value as usize;
    let n = decode_joined(rest, canonic, k, sizes.value, reference, out)?;
    Ok(Decoded {
        value: k,
        consumed: shared.consumed + sizes.consumed + n,
    })
}

// Reads a path against a reference.
pub fn relative_decode(
    message: &[u8],
    start: usize,
    canonic: bool,
    reference: &[u8],
    out: &mut [u8; path::lent::SIZE],
) -> Result<usize, DecodeError>
    ensures { Gives (path_from []) result (path_in out.new) (read_against_by sized canonic (path_in reference.now) (drop start message.now)) }
{
    let shared = decode_shared(message, start, canonic, reference, out)?;
    Ok(shared.consumed)
}

// Reads a path against a reference that is a prefix of it.
pub fn decode_path_within(
    message: &[u8],
    start: usize,
    canonic: bool,
    reference: &[u8],
    out: &mut [u8; path::lent::SIZE],
) -> Result<usize, DecodeError>
    ensures { Gives (path_from []) result (path_in out.new) (read_within_by sized canonic (path_in reference.now) (drop start message.now)) }
{
    let shared = decode_shared(message, start, canonic, reference, out)?;
    if !reaches(reference, out, canonic, shared.value) {
        path::lent::clear(out);
        return Err(DecodeError::TheirFault);
    }
    Ok(shared.consumed)
}

// A suffix that does not fit after its prefix: refused as a plain path is, else since the whole passes the limits.
fn decode_outside(
    message: &[u8],
    start: usize,
    canonic: bool,
    out: &mut [u8; path::lent::SIZE],
) -> Result<usize, DecodeError>
    ensures { Gives (path_from []) result (path_in out.new) (checked (λ p. false) (read_path canonic) (drop start message.now)) }
{
    path_codec::decode(message, start, canonic, out)?;
    path::lent::clear(out);
    Err(DecodeError::TheirFault)
}

// Reads an extension of a path.
pub fn decode_path_extends_path(
    message: &[u8],
    start: usize,
    canonic: bool,
    extends: &[u8],
    out: &mut [u8; path::lent::SIZE],
) -> Result<usize, DecodeError>
    ensures { Gives (path_from []) result (path_in out.new) (read_extends_by sized canonic (path_in extends.now) (drop start message.now)) }
{
    path::lent::clear(out);
    if !path::lent::sized(extends) {
        return Err(DecodeError::Malformed);
    }
    let sizes = path_suffix_decode::decode_sizes(message, start, canonic)?;
    let count = path::lent::count(extends);
    let used = path::lent::span(extends, 0, count);
    if ((Path::MAX_PATH_LENGTH - used) as u64) < sizes.value.total
        || ((Path::MAX_COMPONENT_COUNT - count) as u64) < sizes.value.count
    {
        return decode_outside(message, start, canonic, out);
    }
    let rest = &message[start + sizes.consumed..];
    let n = path_suffix_decode::decode_after(rest, canonic, sizes.value, extends, count, out)?;
    Ok(sizes.consumed + n)
}
