// Writing paths against a path, and extensions of a path: docs/FORMAT.md, "Paths". A port of path/codec.rs.

#![tactic(auto)]

ghost use Rattle.std.specs.Prelude.{◌≡◌};
ghost use Rattle.codec.specs.Answers.{outcome_of};
ghost use Rattle.codec.specs.Format.{length_answer, WritesInto};
ghost use Rattle.path.specs.Flat.{path_in};
ghost use Rattle.path_relative.specs.Records.{against_path, extends_path};

use codec::EncodeError;

pub mod shared_path;
pub mod sized;

// How many bytes a path against a reference takes.
pub fn relative_len_of_encoding(path: &[u8], reference: &[u8]) -> Result<usize, EncodeError>
    ensures { outcome_of result ≡ length_answer (against_path (path_in reference.now)) (path_in path.now) }
{
    let shared = path::longest_common_prefix(reference, path)?;
    sized::shared_len(path, shared)
}

// Writes a path against a reference.
pub fn relative_encode(
    buffer: &mut [u8],
    path: &[u8],
    reference: &[u8],
) -> Result<usize, EncodeError>
    ensures { WritesInto (against_path (path_in reference.now)) (path_in path.now) result buffer.old buffer.new }
{
    let shared = path::longest_common_prefix(reference, path)?;
    sized::encode_shared(buffer, path, shared)
}

// How many bytes a path as an extension takes.
pub fn path_extends_path_encoding_len(path: &[u8], extends: &[u8]) -> Result<usize, EncodeError>
    ensures { outcome_of result ≡ length_answer (extends_path (path_in extends.now)) (path_in path.now) }
{
    if !path::lent::both_formed(extends, path) {
        return Err(EncodeError::Malformed);
    }
    sized::path_extends_path_encoding_len(path, extends)
}

// Writes a path as an extension.
pub fn encode_path_extends_path(
    buffer: &mut [u8],
    path: &[u8],
    extends: &[u8],
) -> Result<usize, EncodeError>
    ensures { WritesInto (extends_path (path_in extends.now)) (path_in path.now) result buffer.old buffer.new }
{
    if !path::lent::both_formed(extends, path) {
        return Err(EncodeError::Malformed);
    }
    sized::encode_path_extends_path(buffer, path, extends)
}
