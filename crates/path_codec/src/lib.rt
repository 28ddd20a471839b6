// Plain paths as bytes: docs/FORMAT.md, "Paths". A port of path/codec.rs.

#![tactic(auto)]

ghost use Rattle.std.specs.Prelude.{◌≡◌, [], drop};
ghost use Rattle.codec.specs.Answers.{outcome_of, Gives};
ghost use Rattle.codec.specs.Format.{length_answer, WritesInto};
ghost use Rattle.path.specs.Record.{path_from};
ghost use Rattle.path.specs.Flat.{path_in};
ghost use Rattle.path_codec.specs.Plain.{plain_path, read_path};

use codec::{DecodeError, EncodeError};

// Reads a plain path; beside a refusal the record is the empty one.
pub fn decode(
    message: &[u8],
    start: usize,
    canonic: bool,
    out: &mut [u8; path::lent::SIZE],
) -> Result<usize, DecodeError>
    ensures { Gives (path_from []) result (path_in out.new) (read_path canonic (drop start message.now)) }
{
    let sizes = match path_suffix_decode::decode_sizes(message, start, canonic) {
        Ok(sizes) => sizes,
        Err(error) => {
            path::lent::clear(out);
            return Err(error);
        }
    };
    let rest = &message[start + sizes.consumed..];
    let n = path_suffix_decode::decode_components(rest, canonic, sizes.value, out)?;
    Ok(sizes.consumed + n)
}

// How many bytes a plain path takes.
#[tactic(auto, using(crate::proofs::Plain::plain_refused_length, crate::proofs::Plain::plain_length))]
pub fn len_of_encoding(path: &[u8]) -> Result<usize, EncodeError>
    ensures { outcome_of result ≡ length_answer plain_path (path_in path.now) }
{
    if !path::lent::well_formed(path) {
        return Err(EncodeError::Malformed);
    }
    path_suffix_encode::sized::suffix_len(path, 0)
}

// Writes a plain path.
pub fn encode(buffer: &mut [u8], path: &[u8]) -> Result<usize, EncodeError>
    ensures { WritesInto plain_path (path_in path.now) result buffer.old buffer.new }
{
    if !path::lent::well_formed(path) {
        return Err(EncodeError::Malformed);
    }
    path_suffix_encode::sized::encode_suffix(buffer, path, 0)
}
