// Areas.
ghost use Rattle.std.specs.Prelude.{◌≡◌, drop};
ghost use Rattle.codec.specs.Answers.{outcome_of};
ghost use Rattle.codec.specs.Format.{length_answer, WritesInto};
ghost use Rattle.area_area.specs.Records.{against_area, read_against_area};
ghost use Rattle.flat.specs.AreaRecord.{area_in, area_flat};
ghost use Rattle.calls.specs.Calls.{Encodes, Told, Stores, Leaves};

use codec::{DecodeError, EncodeError};
use flat_records::area_record;

fn encode(
    buffer: &mut [u8],
    area: &[u8; area_record::SIZE],
    reference: &[u8; area_record::SIZE],
) -> Result<usize, EncodeError>
    ensures { WritesInto (against_area (area_in reference.now)) (area_in area.now) result buffer.old buffer.new }
{
    let reference = area_record::load(reference)?;
    let area = area_record::load(area)?;
    area_area_encode::relative_encode(buffer, area, reference)
}

fn len_of_encoding(
    area: &[u8; area_record::SIZE],
    reference: &[u8; area_record::SIZE],
) -> Result<usize, EncodeError>
    ensures { outcome_of result ≡ length_answer (against_area (area_in reference.now)) (area_in area.now) }
{
    let reference = area_record::load(reference)?;
    let area = area_record::load(area)?;
    area_area_encode::relative_len_of_encoding(area, reference)
}

fn decode(
    message: &[u8],
    start: usize,
    canonic: bool,
    reference: &[u8; area_record::SIZE],
    area: &mut [u8; area_record::SIZE],
) -> Result<usize, DecodeError>
    ensures { Leaves area_flat (read_against_area canonic (area_in reference.now) (drop start message.now)) area.old area.new result }
{
    let reference = area_record::load(reference)?;
    let mut path = [0; path::lent::SIZE];
    let read = area_area_decode::relative_decode(message, start, canonic, reference, &mut path)?;
    area_record::store(area, read.value, &path);
    Ok(read.consumed)
}

// Writes an area against a reference.
#[unsafe(no_mangle)]
pub extern "C" fn jakepuro_area_area_encode(
    buffer: &mut [u8],
    area: &[u8; area_record::SIZE],
    reference: &[u8; area_record::SIZE],
    written: &mut usize,
) -> u8
    ensures { Encodes (against_area (area_in reference.now)) (area_in area.now) buffer.old buffer.new result written.new }
{
    calls::tell(encode(buffer, area, reference), written)
}

// How many bytes that takes.
#[unsafe(no_mangle)]
pub extern "C" fn jakepuro_area_area_len_of_encoding(
    area: &[u8; area_record::SIZE],
    reference: &[u8; area_record::SIZE],
    length: &mut usize,
) -> u8
    ensures { Told (length_answer (against_area (area_in reference.now)) (area_in area.now)) result length.new }
{
    calls::tell(len_of_encoding(area, reference), length)
}

// Reads an area against a reference.
#[unsafe(no_mangle)]
pub extern "C" fn jakepuro_area_area_decode(
    message: &[u8],
    start: usize,
    canonic: bool,
    reference: &[u8; area_record::SIZE],
    area: &mut [u8; area_record::SIZE],
    consumed: &mut usize,
) -> u8
    ensures { Stores area_flat (read_against_area canonic (area_in reference.now) (drop start message.now)) area.old area.new result consumed.new }
{
    calls::tell(decode(message, start, canonic, reference, area), consumed)
}
