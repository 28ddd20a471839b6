// Case lines of a path record's raw parts.
ghost use Rattle.std.specs.Prelude.{◌≡◌, ◌*◌, ◌≤◌, length, true};
ghost use Rattle.codec.specs.Answers.{outcome_of};
ghost use Rattle.codec.specs.Format.{length_answer};
ghost use Rattle.path.specs.Limits.{max_component_count};
ghost use Rattle.path.specs.Record.{all_at_most};
ghost use Rattle.path.specs.Flat.{shorts, path_in};
ghost use Rattle.path.specs.Puts.{Puts};
ghost use Rattle.path_codec.specs.Plain.{plain_path};
ghost use Rattle.case_text.specs.Fields.{on_field};
ghost use Rattle.case_text.specs.Answers.{answer_text, answer_in_text};
ghost use Rattle.case_paths.specs.Raw.{path_of, read_lengths, read_bytes, raw_line};

use case_text::{Answer, AnswerIn, fields};
use codec::EncodeError;
use path::Path;

// As many numbers as a record has lengths, parted by commas.
fn read_lengths(field: &[u8]) -> Option<[usize; Path::MAX_COMPONENT_COUNT]>
    ensures { result ≡ read_lengths field.now }
{
    if text::part_count(field, b',') != Path::MAX_COMPONENT_COUNT {
        return None;
    }
    let mut lengths = [0; Path::MAX_COMPONENT_COUNT];
    for (i, number) in field.split(|&b| b == b',').enumerate() {
        lengths[i] = decimal::read_decimal(number)? as usize;
    }
    Some(lengths)
}

// A record's bytes: zeros follow those in the field.
fn read_bytes(field: &[u8]) -> Option<[u8; Path::MAX_PATH_LENGTH]>
    ensures { result ≡ read_bytes field.now }
{
    let mut bytes = [0u8; Path::MAX_PATH_LENGTH];
    text::read_hex(field, &mut bytes).ok()?;
    Some(bytes)
}

// The lengths, from the first byte on.
fn put_lengths(flat: &mut [u8], lengths: &[usize; Path::MAX_COMPONENT_COUNT])
    requires { (2 * max_component_count ≤ length flat.old) × (all_at_most 65535 lengths.now ≡ true) }
    ensures { Puts (2 * max_component_count) (shorts lengths.now) flat.old flat.new }
{
    for (i, &n) in lengths.iter().enumerate() {
        flat[2 * i..2 * i + 2].copy_from_slice(&(n as u16).to_be_bytes());
    }
}

// A record of these parts.
fn put_raw(
    flat: &mut [u8; path::lent::SIZE],
    bytes: &[u8; Path::MAX_PATH_LENGTH],
    lengths: &[usize; Path::MAX_COMPONENT_COUNT],
    count: u8,
)
    requires { (count ≤ max_component_count) × (all_at_most 65535 lengths.now ≡ true) }
    ensures { path_in flat.new ≡ path_of bytes.now lengths.now count }
{
    flat[0] = count;
    put_lengths(&mut flat[path::lent::LENGTHS..], lengths);
    flat[path::lent::BYTES..].copy_from_slice(bytes);
}

// Whether every length is one that a record holds.
fn held(lengths: &[usize; Path::MAX_COMPONENT_COUNT]) -> bool
    ensures { result ≡ all_at_most 65535 lengths.now }
{
    lengths.iter().all(|&n| n <= 65535)
}

// How many bytes a path of these parts takes. A count or a length that no record holds is refused as one that is too large.
fn raw_len(
    bytes: &[u8; Path::MAX_PATH_LENGTH],
    lengths: &[usize; Path::MAX_COMPONENT_COUNT],
    count: usize,
) -> Result<usize, EncodeError>
    ensures { outcome_of result ≡ length_answer plain_path (path_of bytes.now lengths.now count) }
{
    if Path::MAX_COMPONENT_COUNT < count || !held(lengths) {
        return Err(EncodeError::Malformed);
    }
    let mut flat = [0u8; path::lent::SIZE];
    put_raw(&mut flat, bytes, lengths, count as u8);
    path_codec::len_of_encoding(&flat)
}

// Answers a line of raw parts.
pub fn raw(line: &[u8]) -> Option<Answer>
    ensures { on_field result answer_text ≡ raw_line line.now }
{
    Some(raw_in(line)?.into_owned())
}

// The same, as the other kinds answer in a lent buffer; it needs none.
pub fn raw_in(line: &[u8]) -> Option<AnswerIn<'static>>
    ensures { on_field result answer_in_text ≡ raw_line line.now }
{
    if fields::count(line) != 4 {
        return None;
    }
    let count = fields::number(line, 1)? as usize;
    let lengths = read_lengths(fields::part(line, 2))?;
    let bytes = read_bytes(fields::part(line, 3))?;
    Some(AnswerIn::Length(raw_len(&bytes, &lengths, count)))
}
