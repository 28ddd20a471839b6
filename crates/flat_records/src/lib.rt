// Records as flat bytes, for callers in other languages: docs/ABI.md.

#![tactic(auto)]

ghost use Rattle.std.specs.Prelude.{◌≡◌, ◌+◌, ◌-◌, ◌≤◌, length, take, drop, option_copied};
ghost use Rattle.compact_u64.specs.BigEndian.{big_endian, value_of};
ghost use Rattle.path.specs.Flat.{path_size};
ghost use Rattle.path.specs.Puts.{Puts};
ghost use Rattle.flat.specs.Optional.{option_flat, option_marked, option_in};

pub mod area_record;
pub mod entry_record;
pub mod range_record;
#[cfg(test)]
mod tests;
mod times;

// What follows the first `n` bytes.
#[tactic(auto, using(codec::proofs::Lending::to_end))]
pub(crate) fn after(flat: &[u8], n: usize) -> &[u8]
    requires { n ≤ length flat.now }
    ensures { (result.now ≡ drop n flat.now) × (length result.now ≡ length flat.now - n) }
{
    &flat[n..]
}

// The first N bytes.
pub(crate) fn part<const N: usize>(flat: &[u8]) -> &[u8; N]
    requires { N ≤ length flat.now }
    ensures { result.now ≡ take N flat.now }
{
    flat.first_chunk().unwrap()
}

// The number that the first eight bytes make, the highest first.
pub(crate) fn number(flat: &[u8]) -> u64
    requires { 8 ≤ length flat.now }
    ensures { result ≡ value_of (take 8 flat.now) }
{
    u64::from_be_bytes(*part(flat))
}

// N bytes that may be missing, after their mark.
pub(crate) fn optional<const N: usize>(flat: &[u8]) -> Option<&[u8; N]>
    requires { 1 + N ≤ length flat.now }
    ensures { option_copied result ≡ option_in (take N) flat.now }
{
    if flat[0] == 1 {
        None
    } else {
        Some(part(&flat[1..]))
    }
}

// The record of a path.
pub(crate) fn path(flat: &[u8]) -> &[u8]
    requires { path_size ≤ length flat.now }
    ensures { (result.now ≡ take path_size flat.now) × (length result.now ≡ path_size) }
{
    part::<{ path::lent::SIZE }>(flat)
}

// Whether the bytes are those of a part of so many bytes that may be missing: the mark is 0, or 1 before zeros.
#[tactic(auto, unfolding(flat::specs::Optional::option_marked))]
pub(crate) fn is_marked(flat: &[u8], size: usize) -> bool
    requires { 1 + size ≤ length flat.now }
    ensures { result ≡ option_marked size flat.now }
{
    let mark = flat[0];
    mark == 0 || (mark == 1 && path::all_zero(&flat[1..1 + size]))
}

// Writes bytes from the first on.
pub(crate) fn put<const N: usize>(flat: &mut [u8], bytes: &[u8; N])
    requires { N ≤ length flat.old }
    ensures { Puts N bytes.now flat.old flat.new }
{
    flat[..N].copy_from_slice(bytes);
}

// Writes a number in eight bytes, the highest first.
pub(crate) fn put_number(flat: &mut [u8], value: u64)
    requires { 8 ≤ length flat.old }
    ensures { Puts 8 (big_endian 8 value) flat.old flat.new }
{
    put(flat, &value.to_be_bytes());
}

// Writes bytes that may be missing, their mark first.
pub(crate) fn put_optional<const N: usize>(flat: &mut [u8], bytes: Option<&[u8; N]>)
    requires { 1 + N ≤ length flat.old }
    ensures { Puts (1 + N) (option_flat N (λ b. b) (option_copied bytes.entry)) flat.old flat.new }
{
    flat[0] = u8::from(bytes.is_none());
    put(&mut flat[1..], bytes.unwrap_or(&[0; N]));
}
