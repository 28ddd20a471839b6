// Reading 3d ranges against a 3d range: docs/FORMAT.md, "3d ranges". A port of relative_encodings/range3d_range3d.rs.

#![tactic(auto)]

ghost use Rattle.std.specs.Prelude.{◌≡◌, [], true, ◌+◌, ◌<◌, ◌^◌, leb, length, drop};
ghost use Rattle.codec.specs.Reader.{shift, mapped};
ghost use Rattle.path.specs.Record.{path_from};
ghost use Rattle.path.specs.Flat.{path_in};
ghost use Rattle.range_3d.specs.Answers.{ReadsRange};
ghost use Rattle.range_3d.specs.Record.{paths_lent, range_lent, range_of, range_from};
ghost use Rattle.range_3d.specs.inside.Sizes.{sized_range3d};
ghost use Rattle.range_header.specs.Header.{header_length};
ghost use Rattle.range3d_range3d.specs.Range.{read_parts};
ghost use Rattle.range3d_range3d.specs.Records.{read_against_range};
ghost use Rattle.range3d_range3d.specs.inside.Reading.{read_paths_times, ReadsEnds};

use codec::{DecodeError, Decoded};
use grouping::TimeRange;
use range_3d::{Range3d, Range3dHead};
use range_header::{HEADER_LENGTH, Range3dHeader};
use range_paths::Sides;
use range_subspaces::Sources;

// Whether the header bytes lie at `start`.
fn has_header(len: usize, start: usize) -> bool
    ensures { result ≡ leb (start + header_length) len }
{
    if len <= start {
        return false;
    }
    HEADER_LENGTH <= len - start
}

// Reads what follows the subspaces; `times` is the second header byte.
fn decode_rest<'a>(
    message: &[u8],
    header: Range3dHeader,
    times: u8,
    reference: Range3d<'a>,
    start: &mut [u8; path::lent::SIZE],
    end: &mut [u8; path::lent::SIZE],
) -> Result<Decoded<TimeRange>, DecodeError>
    ensures { ReadsEnds header.path_end_open result (path_in start.new) (path_in end.new) (read_paths_times (paths_lent reference.entry.paths) reference.entry.times header times message.now) }
{
    let sides = Sides {
        start_from_start: header.path_start_from_start,
        end_from_start: header.path_end_from_start,
    };
    let paths = range_paths::sized_decode::relative_decode(
        message,
        header.path_end_open,
        sides,
        reference.paths,
        start,
        end,
    )?;
    let rest = &message[paths..];
    match range_times::relative_decode(rest, times, header.times_end_open, reference.times) {
        Ok(times) => Ok(Decoded {
            value: times.value,
            consumed: paths + times.consumed,
        }),
        Err(refusal) => {
            path::lent::clear(start);
            path::lent::clear(end);
            Err(refusal)
        }
    }
}

// Reads what follows the header bytes, and counts them; `times` is the second. Both records are empty.
fn decode_parts<'a>(
    message: &[u8],
    header: Range3dHeader,
    times: u8,
    reference: Range3d<'a>,
    start: &mut [u8; path::lent::SIZE],
    end: &mut [u8; path::lent::SIZE],
) -> Result<Decoded<Range3dHead>, DecodeError>
    requires { (header_length + length message.now < 2 ^ 64) × (sized_range3d (range_lent reference) ≡ true) × (path_in start.old ≡ path_from []) × (path_in end.old ≡ path_from []) }
    ensures { ReadsRange result start.new end.new (shift header_length (mapped range_from (read_parts (range_of (range_lent reference.entry)) header times) message.now)) }
{
    let sources = Sources {
        start: header.subspace_start,
        end: header.subspace_end,
    };
    let subspaces = range_subspaces::relative_decode(message, sources, reference.subspaces)?;
    let rest = &message[subspaces.consumed..];
    let times = decode_rest(rest, header, times, reference, start, end)?;
    Ok(Decoded {
        value: Range3dHead {
            subspaces: subspaces.value,
            end_open: header.path_end_open,
            times: times.value,
        },
        consumed: HEADER_LENGTH + (subspaces.consumed + times.consumed),
    })
}

// Reads a 3d range from the byte `from` on, against a reference, which comes in here and is tested first.
pub fn relative_decode<'a>(
    message: &[u8],
    from: usize,
    reference: Range3d<'a>,
    start: &mut [u8; path::lent::SIZE],
    end: &mut [u8; path::lent::SIZE],
) -> Result<Decoded<Range3dHead>, DecodeError>
    ensures { ReadsRange result start.new end.new (read_against_range (range_lent reference.entry) (drop from message.now)) }
{
    path::lent::clear(start);
    path::lent::clear(end);
    if !reference.is_well_formed() {
        return Err(DecodeError::Malformed);
    }
    if !has_header(message.len(), from) {
        return Err(DecodeError::EndOfInput);
    }
    let header = range_header::unpack(message[from]);
    let times = message[from + 1];
    let rest = &message[from + HEADER_LENGTH..];
    decode_parts(rest, header, times, reference, start, end)
}
