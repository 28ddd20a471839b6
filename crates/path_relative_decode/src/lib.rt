// Reading paths against a path, and extensions of a path: docs/FORMAT.md, "Paths". A port of path/codec.rs.

#![tactic(auto)]

ghost use Rattle.std.specs.Prelude.{[], drop};
ghost use Rattle.codec.specs.Answers.{Gives};
ghost use Rattle.path.specs.Record.{path_from};
ghost use Rattle.path.specs.Flat.{path_in};
ghost use Rattle.path_relative.specs.Records.{read_against_path, read_extends_path};

use codec::DecodeError;

pub mod sized;

// Reads a path against a reference.
pub fn relative_decode(
    message: &[u8],
    start: usize,
    canonic: bool,
    reference: &[u8],
    out: &mut [u8; path::lent::SIZE],
) -> Result<usize, DecodeError>
    ensures { Gives (path_from []) result (path_in out.new) (read_against_path canonic (path_in reference.now) (drop start message.now)) }
{
    if !path::lent::well_formed(reference) {
        path::lent::clear(out);
        return Err(DecodeError::Malformed);
    }
    sized::relative_decode(message, start, canonic, reference, out)
}

// Reads an extension of a path.
pub fn decode_path_extends_path(
    message: &[u8],
    start: usize,
    canonic: bool,
    extends: &[u8],
    out: &mut [u8; path::lent::SIZE],
) -> Result<usize, DecodeError>
    ensures { Gives (path_from []) result (path_in out.new) (read_extends_path canonic (path_in extends.now) (drop start message.now)) }
{
    if !path::lent::well_formed(extends) {
        path::lent::clear(out);
        return Err(DecodeError::Malformed);
    }
    sized::decode_path_extends_path(message, start, canonic, extends, out)
}
