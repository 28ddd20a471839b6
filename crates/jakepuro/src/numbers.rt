// Compact numbers.
ghost use Rattle.std.specs.Prelude.{◌≡◌, length, drop};
ghost use Rattle.codec.specs.Answers.{answer_of, outcome_of};
ghost use Rattle.codec.specs.Format.{write_answer, length_answer, WritesInto};
ghost use Rattle.compact_u64.specs.Number.{min_tag, standalone, read_standalone};
ghost use Rattle.calls.specs.Calls.{Encodes, Told, Stores, Leaves};
ghost use Rattle.jakepuro.specs.Tagged.{tagged, read_tagged, tag_or};

use codec::{DecodeError, Decoded, EncodeError};
use compact_u64::TagWidth;

fn encode(buffer: &mut [u8], width: u8, value: u64, tag: &mut u8) -> Result<usize, EncodeError>
    ensures written { WritesInto (tagged width) value result buffer.old buffer.new }
    ensures tag { tag.new ≡ tag_or (write_answer (tagged width) value (length buffer.old)) (min_tag width value) tag.old }
{
    let width = TagWidth::try_from(width)?;
    let written = compact_u64::relative_encode(buffer, width, value)?;
    *tag = compact_u64::min_tag(width, value);
    Ok(written)
}

fn len_of_encoding(width: u8, value: u64) -> Result<usize, EncodeError>
    ensures { outcome_of result ≡ length_answer (tagged width) value }
{
    let width = TagWidth::try_from(width)?;
    Ok(compact_u64::relative_len_of_encoding(width, value))
}

// A number that was read is stored.
fn store(number: Result<Decoded<u64>, DecodeError>, value: &mut u64) -> Result<usize, DecodeError>
    ensures { Leaves (λ v. v) (answer_of number) value.old value.new result }
{
    let number = number?;
    *value = number.value;
    Ok(number.consumed)
}

fn decode(
    message: &[u8],
    start: usize,
    canonic: bool,
    width: u8,
    tag: u8,
    value: &mut u64,
) -> Result<usize, DecodeError>
    ensures { Leaves (λ v. v) (read_tagged canonic width tag (drop start message.now)) value.old value.new result }
{
    let width = TagWidth::try_from(width)?;
    store(
        compact_u64::relative_decode(message, start, width, tag, canonic),
        value,
    )
}

// Writes the bytes after a tag of 2 to 8 bits, and gives the tag.
#[unsafe(no_mangle)]
pub extern "C" fn jakepuro_number_encode(
    buffer: &mut [u8],
    width: u8,
    value: u64,
    tag: &mut u8,
    written: &mut usize,
) -> u8
    ensures { Encodes (tagged width) value buffer.old buffer.new result written.new × (tag.new ≡ tag_or (write_answer (tagged width) value (length buffer.old)) (min_tag width value) tag.old) }
{
    calls::tell(encode(buffer, width, value, tag), written)
}

// How many bytes that takes.
#[unsafe(no_mangle)]
pub extern "C" fn jakepuro_number_len_of_encoding(width: u8, value: u64, length: &mut usize) -> u8
    ensures { Told (length_answer (tagged width) value) result length.new }
{
    calls::tell(len_of_encoding(width, value), length)
}

// Reads the bytes after a tag of 2 to 8 bits.
#[unsafe(no_mangle)]
pub extern "C" fn jakepuro_number_decode(
    message: &[u8],
    start: usize,
    canonic: bool,
    width: u8,
    tag: u8,
    value: &mut u64,
    consumed: &mut usize,
) -> u8
    ensures { Stores (λ v. v) (read_tagged canonic width tag (drop start message.now)) value.old value.new result consumed.new }
{
    calls::tell(decode(message, start, canonic, width, tag, value), consumed)
}

// Writes a standalone number.
#[unsafe(no_mangle)]
pub extern "C" fn jakepuro_standalone_encode(
    buffer: &mut [u8],
    value: u64,
    written: &mut usize,
) -> u8
    ensures { Encodes standalone value buffer.old buffer.new result written.new }
{
    calls::tell(compact_u64::encode(buffer, value), written)
}

// How many bytes that takes.
#[unsafe(no_mangle)]
pub extern "C" fn jakepuro_standalone_len_of_encoding(value: u64, length: &mut usize) -> u8
    ensures { Told (length_answer standalone value) result length.new }
{
    *length = compact_u64::len_of_encoding(value);
    0
}

// Reads a standalone number.
#[unsafe(no_mangle)]
pub extern "C" fn jakepuro_standalone_decode(
    message: &[u8],
    start: usize,
    canonic: bool,
    value: &mut u64,
    consumed: &mut usize,
) -> u8
    ensures { Stores (λ v. v) (read_standalone canonic (drop start message.now)) value.old value.new result consumed.new }
{
    calls::tell(
        store(compact_u64::decode(message, start, canonic), value),
        consumed,
    )
}
