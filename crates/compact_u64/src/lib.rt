// Compact numbers: docs/FORMAT.md, "Compact numbers". Names follow the crate compact_u64 that willow-rs uses.

#![tactic(auto)]

ghost use Rattle.std.specs.Prelude.{◌≡◌, ◌++◌, ◌+◌, ◌≤◌, ◌<◌, ◌^◌, length, drop};
ghost use Rattle.codec.specs.Answers.{answer_of, outcome_of};
ghost use Rattle.codec.specs.Format.{allowed, over, put_answer, put_buffer, write_answer, write_buffer};
ghost use Rattle.compact_u64.specs.BigEndian.{big_endian, read_big_endian};
ghost use Rattle.compact_u64.specs.Number.{inline_limit, width_exponent, min_tag, number_bytes, standalone_bytes, read_number, read_standalone, standalone};
ghost use Rattle.compact_u64.specs.Answers.{bits, HasBits};

use codec::{DecodeError, Decoded, EncodeError, Malformed};

// How many bits a tag has.
#[derive(Clone, Copy, Debug, PartialEq, Eq)]
pub enum TagWidth {
    Two = 2,
    Three = 3,
    Four = 4,
    Five = 5,
    Six = 6,
    Seven = 7,
    Eight = 8,
}

// A number of bits that no tag has is malformed.
impl TryFrom<u8> for TagWidth {
    type Error = Malformed;

    ghost try_from_gives = { HasBits };

    fn try_from(bits: u8) -> Result<TagWidth, Malformed> {
        match bits {
            2 => Ok(TagWidth::Two),
            3 => Ok(TagWidth::Three),
            4 => Ok(TagWidth::Four),
            5 => Ok(TagWidth::Five),
            6 => Ok(TagWidth::Six),
            7 => Ok(TagWidth::Seven),
            8 => Ok(TagWidth::Eight),
            _ => Err(Malformed),
        }
    }
}

impl TagWidth {
    // Every tag of this width is below it.
    pub fn tag_limit(self) -> u64
        ensures { (result ≡ 2 ^ bits self) × (result ≤ 256) }
    {
        1 << self as u64
    }

    // A value below it is its own tag.
    fn inline_limit(self) -> u64
        ensures { (result ≡ inline_limit (bits self)) × (result ≤ 252) }
    {
        self.tag_limit() - 4
    }
}

fn two_to(exponent: u64) -> usize
    requires { exponent < 4 }
    ensures { (result ≡ 2 ^ exponent) × (1 ≤ result) × (result ≤ 8) }
{
    1 << exponent
}

// 0, 1, 2 or 3 for a value of 1, 2, 4 or 8 bytes.
fn width_exponent(value: u64) -> u64
    ensures { (result ≡ width_exponent value) × (result < 4) }
{
    if value < 256 {
        0
    } else if value < 65536 {
        1
    } else if value < 4294967296 {
        2
    } else {
        3
    }
}

// The tag that writing gives the value: the shortest form.
#[tactic(auto, unfolding(crate::specs::Number::min_tag))]
pub fn min_tag(width: TagWidth, value: u64) -> u8
    ensures { result ≡ min_tag (bits width) value }
{
    let limit = width.inline_limit();
    if value < limit {
        return value as u8;
    }
    (limit + width_exponent(value)) as u8
}

// Reads the number that the first `n` bytes make, the highest first; more than eight are refused.
pub fn decode_big_endian(message: &[u8], n: usize) -> Result<Decoded<u64>, DecodeError>
    ensures { answer_of result ≡ read_big_endian n message.now }
{
    if 8 < n {
        return Err(DecodeError::TheirFault);
    }
    if message.len() < n {
        return Err(DecodeError::EndOfInput);
    }
    let mut value = 0;
    for &byte in &message[..n] {
        value = value * 256 + u64::from(byte);
    }
    Ok(Decoded { value, consumed: n })
}

// Reads the bytes after `tag`, which start at `start`.
pub fn relative_decode(
    message: &[u8],
    start: usize,
    width: TagWidth,
    tag: u8,
    canonic: bool,
) -> Result<Decoded<u64>, DecodeError>
    ensures { answer_of result ≡ read_number canonic (bits width) tag (drop start message.now) }
{
    let limit = width.inline_limit();
    let t = u64::from(tag);
    if t < limit {
        return Ok(Decoded {
            value: t,
            consumed: 0,
        });
    }
    if limit + 3 < t {
        return Err(DecodeError::TheirFault);
    }
    if message.len() < start {
        return Err(DecodeError::EndOfInput);
    }
    let read = decode_big_endian(&message[start..], two_to(t - limit))?;
    if canonic && min_tag(width, read.value) != tag {
        return Err(DecodeError::TheirFault);
    }
    Ok(read)
}

// Reads a standalone number.
pub fn decode(message: &[u8], start: usize, canonic: bool) -> Result<Decoded<u64>, DecodeError>
    ensures { answer_of result ≡ read_standalone canonic (drop start message.now) }
{
    if message.len() <= start {
        return Err(DecodeError::EndOfInput);
    }
    let number = relative_decode(message, start + 1, TagWidth::Eight, message[start], canonic)?;
    Ok(Decoded {
        value: number.value,
        consumed: 1 + number.consumed,
    })
}

// How many bytes writing puts after the tag.
pub fn relative_len_of_encoding(width: TagWidth, value: u64) -> usize
    ensures { (result ≡ length (number_bytes (bits width) value)) × (result ≤ 8) }
{
    if value < width.inline_limit() {
        return 0;
    }
    two_to(width_exponent(value))
}

// The lowest `n` bytes of a value, the highest first.
fn fill_big_endian(buffer: &mut [u8], n: usize, value: u64)
    requires { n ≤ length buffer.old }
    ensures { buffer.new ≡ over (big_endian n value) buffer.old }
{
    let mut x = value;
    let mut at = n;
    for _ in 0..n {
        at -= 1;
        buffer[at] = (x % 256) as u8;
        x /= 256;
    }
}

// Writes the lowest `n` bytes of a value, the highest first.
pub fn put_big_endian(buffer: &mut [u8], n: usize, value: u64) -> Result<usize, EncodeError>
    ensures { (outcome_of result ≡ put_answer allowed (big_endian n value) (length buffer.old)) × (buffer.new ≡ put_buffer allowed (big_endian n value) buffer.old) }
{
    if buffer.len() < n {
        return Err(EncodeError::NoRoom);
    }
    fill_big_endian(buffer, n, value);
    Ok(n)
}

// The bytes after the tag; answers how many.
fn put_number(buffer: &mut [u8], width: TagWidth, value: u64) -> usize
    requires { length (number_bytes (bits width) value) ≤ length buffer.old }
    ensures { (result ≡ length (number_bytes (bits width) value)) × (buffer.new ≡ over (number_bytes (bits width) value) buffer.old) }
{
    let n = relative_len_of_encoding(width, value);
    fill_big_endian(buffer, n, value);
    n
}

// Writes the bytes after the tag.
pub fn relative_encode(buffer: &mut [u8], width: TagWidth, value: u64) -> Result<usize, EncodeError>
    ensures { (outcome_of result ≡ put_answer allowed (number_bytes (bits width) value) (length buffer.old)) × (buffer.new ≡ put_buffer allowed (number_bytes (bits width) value) buffer.old) }
{
    put_big_endian(buffer, relative_len_of_encoding(width, value), value)
}

// How many bytes two numbers take after their tags.
pub fn relative_len_of_pair(width: TagWidth, value: u64, next_width: TagWidth, next: u64) -> usize
    ensures { (result ≡ length (number_bytes (bits width) value ++ number_bytes (bits next_width) next)) × (result ≤ 16) }
{
    relative_len_of_encoding(width, value) + relative_len_of_encoding(next_width, next)
}

// Writes the bytes of two numbers after their tags.
pub fn relative_encode_pair(
    buffer: &mut [u8],
    width: TagWidth,
    value: u64,
    next_width: TagWidth,
    next: u64,
) -> Result<usize, EncodeError>
    ensures { (outcome_of result ≡ put_answer allowed (number_bytes (bits width) value ++ number_bytes (bits next_width) next) (length buffer.old)) × (buffer.new ≡ put_buffer allowed (number_bytes (bits width) value ++ number_bytes (bits next_width) next) buffer.old) }
{
    let both = relative_len_of_pair(width, value, next_width, next);
    if buffer.len() < both {
        return Err(EncodeError::NoRoom);
    }
    let n = put_number(buffer, width, value);
    put_number(&mut buffer[n..], next_width, next);
    Ok(both)
}

// How many bytes a standalone number takes.
pub fn len_of_encoding(value: u64) -> usize
    ensures { (result ≡ length (standalone_bytes value)) × (result ≤ 9) }
{
    1 + relative_len_of_encoding(TagWidth::Eight, value)
}

// Writes a standalone number.
pub fn encode(buffer: &mut [u8], value: u64) -> Result<usize, EncodeError>
    ensures { (outcome_of result ≡ write_answer standalone value (length buffer.old)) × (buffer.new ≡ write_buffer standalone value buffer.old) }
{
    let whole = len_of_encoding(value);
    if buffer.len() < whole {
        return Err(EncodeError::NoRoom);
    }
    buffer[0] = min_tag(TagWidth::Eight, value);
    put_number(&mut buffer[1..], TagWidth::Eight, value);
    Ok(whole)
}
