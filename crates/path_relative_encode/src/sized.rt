// Writing paths that are lent as their records, whose sizes are tested: for the records above.
ghost use Rattle.std.specs.Prelude.{◌≡◌};
ghost use Rattle.codec.specs.Answers.{outcome_of};
ghost use Rattle.codec.specs.Format.{length_by, length_answer, WritesInto};
ghost use Rattle.path.specs.Record.{sized};
ghost use Rattle.path.specs.Flat.{path_in};
ghost use Rattle.path_relative.specs.Records.{shared_by, extends_by};

use codec::EncodeError;
use path_suffix_encode::sized;

// How many bytes a path takes of which `k` components are shared: their number and the suffix after them.
pub fn shared_len(path: &[u8], k: usize) -> Result<usize, EncodeError>
    ensures { outcome_of result ≡ length_answer (shared_by sized k) (path_in path.now) }
{
    let suffix = sized::suffix_len(path, k)?;
    Ok(compact_u64::len_of_encoding(k as u64) + suffix)
}

// Writes it: the suffix before the number, since it is what may not fit.
pub fn encode_shared(buffer: &mut [u8], path: &[u8], k: usize) -> Result<usize, EncodeError>
    ensures { WritesInto (shared_by sized k) (path_in path.now) result buffer.old buffer.new }
{
    let n = compact_u64::len_of_encoding(k as u64);
    if buffer.len() < n {
        let whole = shared_len(path, k);
        return byte_codec::in_room(whole, buffer.len());
    }
    let suffix = sized::encode_suffix(&mut buffer[n..], path, k)?;
    compact_u64::encode(buffer, k as u64).unwrap();
    Ok(n + suffix)
}

// How many components a path has that is a prefix of another.
fn prefix_count(path: &[u8], extends: &[u8]) -> Result<usize, EncodeError>
    ensures { outcome_of result ≡ length_by ((extends_by sized (path_in extends.now)).check (path_in path.now)) (path_in extends.now).count }
{
    let prefixed = path::lent::is_prefix_of(extends, path)?;
    if !prefixed {
        return Err(EncodeError::Outside);
    }
    Ok(path::lent::count(extends))
}

// How many bytes a path as an extension takes.
#[tactic(auto, using(path_relative::proofs::Lent::extends_refused, path_relative::proofs::Lent::extends_length))]
pub fn path_extends_path_encoding_len(path: &[u8], extends: &[u8]) -> Result<usize, EncodeError>
    ensures { outcome_of result ≡ length_answer (extends_by sized (path_in extends.now)) (path_in path.now) }
{
    let k = prefix_count(path, extends)?;
    sized::suffix_len(path, k)
}

// Writes a path as an extension.
pub fn encode_path_extends_path(
    buffer: &mut [u8],
    path: &[u8],
    extends: &[u8],
) -> Result<usize, EncodeError>
    ensures { WritesInto (extends_by sized (path_in extends.now)) (path_in path.now) result buffer.old buffer.new }
{
    let k = prefix_count(path, extends)?;
    sized::encode_suffix(buffer, path, k)
}
