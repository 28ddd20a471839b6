// 3d ranges.
ghost use Rattle.std.specs.Prelude.{◌≡◌, drop};
ghost use Rattle.codec.specs.Answers.{outcome_of};
ghost use Rattle.codec.specs.Format.{length_answer, WritesInto};
ghost use Rattle.range_3d.specs.Record.{range_lent};
ghost use Rattle.range3d_range3d.specs.Records.{against_range, read_against_range};
ghost use Rattle.flat.specs.RangeRecord.{range_in, range_flat};
ghost use Rattle.calls.specs.Calls.{Encodes, Told, Stores, Leaves};

use codec::{DecodeError, EncodeError};
use flat_records::range_record;
use range_3d::Range3d;

fn encode(
    buffer: &mut [u8],
    range: &[u8; range_record::SIZE],
    reference: &[u8; range_record::SIZE],
) -> Result<usize, EncodeError>
    ensures { WritesInto (against_range (range_in reference.now)) (range_in range.now) result buffer.old buffer.new }
{
    let reference = range_record::load(reference)?;
    let range = range_record::load(range)?;
    range3d_range3d_encode::relative_encode(buffer, range, reference)
}

fn len_of_encoding(
    range: &[u8; range_record::SIZE],
    reference: &[u8; range_record::SIZE],
) -> Result<usize, EncodeError>
    ensures { outcome_of result ≡ length_answer (against_range (range_in reference.now)) (range_in range.now) }
{
    let reference = range_record::load(reference)?;
    let range = range_record::load(range)?;
    range3d_range3d_encode::relative_len_of_encoding(range, reference)
}

// Reads and stores a 3d range; both records of paths are made where they are read into.
fn decode_against(
    message: &[u8],
    start: usize,
    reference: Range3d<'_>,
    range: &mut [u8; range_record::SIZE],
) -> Result<usize, DecodeError>
    ensures { Leaves range_flat (read_against_range (range_lent reference.entry) (drop start message.now)) range.old range.new result }
{
    let mut path_start = [0; path::lent::SIZE];
    let mut path_end = [0; path::lent::SIZE];
    let read = range3d_range3d_decode::relative_decode(
        message,
        start,
        reference,
        &mut path_start,
        &mut path_end,
    )?;
    range_record::store(range, read.value, &path_start, &path_end);
    Ok(read.consumed)
}

fn decode(
    message: &[u8],
    start: usize,
    reference: &[u8; range_record::SIZE],
    range: &mut [u8; range_record::SIZE],
) -> Result<usize, DecodeError>
    ensures { Leaves range_flat (read_against_range (range_in reference.now) (drop start message.now)) range.old range.new result }
{
    let reference = range_record::load(reference)?;
    decode_against(message, start, reference, range)
}

// Writes a 3d range against a 3d range.
#[unsafe(no_mangle)]
pub extern "C" fn jakepuro_range3d_range3d_encode(
    buffer: &mut [u8],
    range: &[u8; range_record::SIZE],
    reference: &[u8; range_record::SIZE],
    written: &mut usize,
) -> u8
    ensures { Encodes (against_range (range_in reference.now)) (range_in range.now) buffer.old buffer.new result written.new }
{
    calls::tell(encode(buffer, range, reference), written)
}

// How many bytes that takes.
#[unsafe(no_mangle)]
pub extern "C" fn jakepuro_range3d_range3d_len_of_encoding(
    range: &[u8; range_record::SIZE],
    reference: &[u8; range_record::SIZE],
    length: &mut usize,
) -> u8
    ensures { Told (length_answer (against_range (range_in reference.now)) (range_in range.now)) result length.new }
{
    calls::tell(len_of_encoding(range, reference), length)
}

// Reads a 3d range against a 3d range.
#[unsafe(no_mangle)]
pub extern "C" fn jakepuro_range3d_range3d_decode(
    message: &[u8],
    start: usize,
    reference: &[u8; range_record::SIZE],
    range: &mut [u8; range_record::SIZE],
    consumed: &mut usize,
) -> u8
    ensures { Stores range_flat (read_against_range (range_in reference.now) (drop start message.now)) range.old range.new result consumed.new }
{
    calls::tell(decode(message, start, reference, range), consumed)
}
