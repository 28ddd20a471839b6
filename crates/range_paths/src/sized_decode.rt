// Reading paths by their sides into two lent records, the paths of the reference lent as theirs; its sizes are tested.
ghost use Rattle.std.specs.Prelude.{◌≡◌, [], drop};
ghost use Rattle.codec.specs.Answers.{Gives};
ghost use Rattle.path.specs.Record.{path_from};
ghost use Rattle.path.specs.Flat.{path_in};
ghost use Rattle.range_3d.specs.Record.{paths_lent, sized_paths};
ghost use Rattle.range_paths.specs.Records.{read_paths_by, ReadsPaths};
ghost use Rattle.range_paths.specs.inside.Reading.{read_side_in};

use crate::Sides;
use codec::DecodeError;
use range_3d::PathRange;

// Whether the sizes of all paths are within the limits.
fn are_sized<'a>(paths: PathRange<'a>) -> bool
    ensures { result ≡ sized_paths (paths_lent paths.entry) }
{
    path::lent::sized(paths.start) && paths.end.is_none_or(path::lent::sized)
}

// Reads a path of this side, from `start` on.
#[tactic(auto, using(codec::proofs::Answers::gives_refused, path::proofs::Growing::in_empty))]
fn decode_path<'a>(
    message: &[u8],
    start: usize,
    from_start: bool,
    reference: PathRange<'a>,
    out: &mut [u8; path::lent::SIZE],
) -> Result<usize, DecodeError>
    ensures { Gives (path_from []) result (path_in out.new) (read_side_in (paths_lent reference.entry) from_start (drop start message.now)) }
{
    let side = if from_start {
        Some(reference.start)
    } else {
        reference.end
    };
    let Some(path) = side else {
        path::lent::clear(out);
        return Err(DecodeError::TheirFault);
    };
    path_relative_decode::sized::relative_decode(message, start, false, path, out)
}

// Reads paths by their sides; whether the end is open is told apart from them, and its record is left empty then.
pub fn relative_decode<'a>(
    message: &[u8],
    end_open: bool,
    sides: Sides,
    reference: PathRange<'a>,
    start: &mut [u8; path::lent::SIZE],
    end: &mut [u8; path::lent::SIZE],
) -> Result<usize, DecodeError>
    ensures { ReadsPaths end_open result (path_in start.new) (path_in end.new) (read_paths_by sized_paths end_open sides (paths_lent reference.entry) message.now) }
{
    path::lent::clear(end);
    if !are_sized(reference) {
        path::lent::clear(start);
        return Err(DecodeError::Malformed);
    }
    let first = decode_path(message, 0, sides.start_from_start, reference, start)?;
    if end_open {
        return Ok(first);
    }
    match decode_path(message, first, sides.end_from_start, reference, end) {
        Ok(second) => Ok(first + second),
        Err(refusal) => {
            path::lent::clear(start);
            Err(refusal)
        }
    }
}
