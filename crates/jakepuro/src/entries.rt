// Entries.
ghost use Rattle.std.specs.Prelude.{◌≡◌, drop};
ghost use Rattle.codec.specs.Answers.{outcome_of};
ghost use Rattle.codec.specs.Format.{length_answer, WritesInto};
ghost use Rattle.entry_area.specs.Records.{against_namespace_area, read_against_namespace_area};
ghost use Rattle.entry_entry.specs.Records.{against_entry, read_against_entry};
ghost use Rattle.flat.specs.AreaRecord.{area_in};
ghost use Rattle.flat.specs.EntryRecord.{entry_in, entry_flat};
ghost use Rattle.calls.specs.Calls.{Encodes, Told, Stores, Leaves};

use codec::{DecodeError, EncodeError};
use flat_records::{area_record, entry_record};

fn encode_in_area(
    buffer: &mut [u8],
    entry: &[u8; entry_record::SIZE],
    namespace: &[u8; 32],
    area: &[u8; area_record::SIZE],
) -> Result<usize, EncodeError>
    ensures { WritesInto (against_namespace_area namespace.now (area_in area.now)) (entry_in entry.now) result buffer.old buffer.new }
{
    let area = area_record::load(area)?;
    entry_area_encode::relative_encode(buffer, entry_record::load(entry), *namespace, area)
}

fn len_in_area(
    entry: &[u8; entry_record::SIZE],
    namespace: &[u8; 32],
    area: &[u8; area_record::SIZE],
) -> Result<usize, EncodeError>
    ensures { outcome_of result ≡ length_answer (against_namespace_area namespace.now (area_in area.now)) (entry_in entry.now) }
{
    let area = area_record::load(area)?;
    entry_area_encode::relative_len_of_encoding(entry_record::load(entry), *namespace, area)
}

fn decode_in_area(
    message: &[u8],
    start: usize,
    canonic: bool,
    namespace: &[u8; 32],
    area: &[u8; area_record::SIZE],
    entry: &mut [u8; entry_record::SIZE],
) -> Result<usize, DecodeError>
    ensures { Leaves entry_flat (read_against_namespace_area canonic namespace.now (area_in area.now) (drop start message.now)) entry.old entry.new result }
{
    let area = area_record::load(area)?;
    let mut path = [0; path::lent::SIZE];
    let read = entry_area_decode::relative_decode(
        message, start, canonic, *namespace, area, &mut path,
    )?;
    entry_record::store(entry, read.value, &path);
    Ok(read.consumed)
}

fn decode(
    message: &[u8],
    start: usize,
    reference: &[u8; entry_record::SIZE],
    entry: &mut [u8; entry_record::SIZE],
) -> Result<usize, DecodeError>
    ensures { Leaves entry_flat (read_against_entry (entry_in reference.now) (drop start message.now)) entry.old entry.new result }
{
    let mut path = [0; path::lent::SIZE];
    let read = entry_entry_decode::relative_decode(
        message,
        start,
        entry_record::load(reference),
        &mut path,
    )?;
    entry_record::store(entry, read.value, &path);
    Ok(read.consumed)
}

// Writes an entry against a namespace and an area.
#[unsafe(no_mangle)]
pub extern "C" fn jakepuro_entry_area_encode(
    buffer: &mut [u8],
    entry: &[u8; entry_record::SIZE],
    namespace: &[u8; 32],
    area: &[u8; area_record::SIZE],
    written: &mut usize,
) -> u8
    ensures { Encodes (against_namespace_area namespace.now (area_in area.now)) (entry_in entry.now) buffer.old buffer.new result written.new }
{
    calls::tell(encode_in_area(buffer, entry, namespace, area), written)
}

// How many bytes that takes.
#[unsafe(no_mangle)]
pub extern "C" fn jakepuro_entry_area_len_of_encoding(
    entry: &[u8; entry_record::SIZE],
    namespace: &[u8; 32],
    area: &[u8; area_record::SIZE],
    length: &mut usize,
) -> u8
    ensures { Told (length_answer (against_namespace_area namespace.now (area_in area.now)) (entry_in entry.now)) result length.new }
{
    calls::tell(len_in_area(entry, namespace, area), length)
}

// Reads an entry against a namespace and an area.
#[unsafe(no_mangle)]
pub extern "C" fn jakepuro_entry_area_decode(
    message: &[u8],
    start: usize,
    canonic: bool,
    namespace: &[u8; 32],
    area: &[u8; area_record::SIZE],
    entry: &mut [u8; entry_record::SIZE],
    consumed: &mut usize,
) -> u8
    ensures { Stores entry_flat (read_against_namespace_area canonic namespace.now (area_in area.now) (drop start message.now)) entry.old entry.new result consumed.new }
{
    calls::tell(
        decode_in_area(message, start, canonic, namespace, area, entry),
        consumed,
    )
}

// Writes an entry against an entry.
#[unsafe(no_mangle)]
pub extern "C" fn jakepuro_entry_entry_encode(
    buffer: &mut [u8],
    entry: &[u8; entry_record::SIZE],
    reference: &[u8; entry_record::SIZE],
    written: &mut usize,
) -> u8
    ensures { Encodes (against_entry (entry_in reference.now)) (entry_in entry.now) buffer.old buffer.new result written.new }
{
    let reference = entry_record::load(reference);
    calls::tell(
        entry_entry_encode::relative_encode(buffer, entry_record::load(entry), reference),
        written,
    )
}

// How many bytes that takes.
#[unsafe(no_mangle)]
pub extern "C" fn jakepuro_entry_entry_len_of_encoding(
    entry: &[u8; entry_record::SIZE],
    reference: &[u8; entry_record::SIZE],
    length: &mut usize,
) -> u8
    ensures { Told (length_answer (against_entry (entry_in reference.now)) (entry_in entry.now)) result length.new }
{
    let reference = entry_record::load(reference);
    calls::tell(
        entry_entry_encode::relative_len_of_encoding(entry_record::load(entry), reference),
        length,
    )
}

// Reads an entry against an entry.
#[unsafe(no_mangle)]
pub extern "C" fn jakepuro_entry_entry_decode(
    message: &[u8],
    start: usize,
    reference: &[u8; entry_record::SIZE],
    entry: &mut [u8; entry_record::SIZE],
    consumed: &mut usize,
) -> u8
    ensures { Stores entry_flat (read_against_entry (entry_in reference.now) (drop start message.now)) entry.old entry.new result consumed.new }
{
    calls::tell(decode(message, start, reference, entry), consumed)
}
