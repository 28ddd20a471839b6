// The fields of a line, parted by tabs.
ghost use Rattle.std.specs.Prelude.{◌≡◌, ◌≤◌, length, take, option_map, IfSome};
ghost use Rattle.text.specs.Parts.{parts};
ghost use Rattle.path.specs.Flat.{path_in};
ghost use Rattle.case_text.specs.Bytes.{bytes_of};
ghost use Rattle.case_text.specs.Fields.{field, decimal_field, id_field, hex_field, hex_field_in, path_field, op_of};
ghost use Rattle.case_text.specs.Asking.{request_of, request_in, request_read_in, request_write_in, asking, asking_in, AskedInside};

use crate::{Asked, AskedIn, Bytes, MAX_BYTES, Message, MessageIn, Op, first_bytes};
use path::Path;

pub fn count(line: &[u8]) -> usize
    ensures { result ≡ length (parts 9 line.now) }
{
    text::part_count(line, b'\t')
}

// The i-th field of a line.
pub fn part(line: &[u8], i: usize) -> &[u8]
    ensures { result.now ≡ field i line.now }
{
    text::part(line, b'\t', i)
}

// The i-th field as a number in decimal.
pub fn number(line: &[u8], i: usize) -> Option<u64>
    ensures { result ≡ decimal_field i line.now }
{
    decimal::read_decimal(part(line, i))
}

// The i-th field as an id or a digest.
pub fn id(line: &[u8], i: usize) -> Option<[u8; 32]>
    ensures { result ≡ id_field i line.now }
{
    text::ids::read_id(part(line, i))
}

// The i-th field as a path.
pub fn path(line: &[u8], i: usize) -> Option<Path>
    ensures { option_map (λ p. path_in p.flat) result ≡ path_field i line.now }
{
    path_text::read_path(part(line, i))
}

// The i-th field as bytes in hex.
pub fn hex(line: &[u8], i: usize) -> Option<Bytes>
    ensures { option_map bytes_of result ≡ hex_field i line.now }
{
    let mut bytes = [0u8; MAX_BYTES];
    let len = hex_in(line, i, &mut bytes)?;
    Some(first_bytes(bytes, len))
}

// The same read into a buffer, no more than it has: how many bytes, from its first on.
pub fn hex_in(line: &[u8], i: usize, buffer: &mut [u8]) -> Option<usize>
    ensures said { option_map (λ n. take n buffer.new) result ≡ hex_field_in (length buffer.old) i line.now }
    ensures inside { IfSome result (λ n. n ≤ length buffer.new) }
{
    text::read_hex(part(line, i), buffer).ok()
}

// The operation that a field names.
#[tactic(auto, using(text::proofs::OneByte::one_byte), unfolding(crate::specs::Fields::op_of))]
pub fn op(field: &[u8]) -> Option<Op>
    ensures { result ≡ op_of field.now }
{
    match field {
        b"s" => Some(Op::Strict),
        b"l" => Some(Op::Lenient),
        b"w" => Some(Op::Write),
        b"n" => Some(Op::Length),
        _ => None,
    }
}

// The i-th field as a start, and the next, which is the last, as a message.
fn message(line: &[u8], i: u8, canonic: bool, buffer: &mut [u8]) -> Option<AskedIn>
    ensures said { option_map (request_in buffer.new) result ≡ request_read_in (length buffer.old) i canonic line.now }
    ensures inside { IfSome result (AskedInside (length buffer.new)) }
{
    let place = usize::from(i);
    if count(line) != place + 2 {
        return None;
    }
    let start = number(line, place)? as usize;
    let len = hex_in(line, place + 1, buffer)?;
    Some(AskedIn::Read(MessageIn {
        canonic,
        start,
        len,
    }))
}

// The j-th field, which is the last, as a lent buffer.
fn lent(line: &[u8], j: u8, buffer: &mut [u8]) -> Option<AskedIn>
    ensures said { option_map (request_in buffer.new) result ≡ request_write_in (length buffer.old) j line.now }
    ensures inside { IfSome result (AskedInside (length buffer.new)) }
{
    let place = usize::from(j);
    if count(line) != place + 1 {
        return None;
    }
    Some(AskedIn::Write(hex_in(line, place, buffer)?))
}

// Reads all of a line but its reference and its value: the operation; start and message from the i-th field on; or the lent buffer, which is the j-th field, the one after the value.
pub fn asked(line: &[u8], i: u8, j: u8) -> Option<Asked>
    ensures { option_map request_of result ≡ asking i j line.now }
{
    let mut buffer = [0u8; MAX_BYTES];
    Some(match asked_in(line, i, j, &mut buffer)? {
        AskedIn::Read(message) => Asked::Read(Message {
            canonic: message.canonic,
            start: message.start,
            bytes: first_bytes(buffer, message.len),
        }),
        AskedIn::Write(len) => Asked::Write(first_bytes(buffer, len)),
        AskedIn::Length => Asked::Length,
    })
}

// The same, message and lent buffer read into `buffer`: they are no longer than it.
pub fn asked_in(line: &[u8], i: u8, j: u8, buffer: &mut [u8]) -> Option<AskedIn>
    ensures said { option_map (request_in buffer.new) result ≡ asking_in (length buffer.old) i j line.now }
    ensures inside { IfSome result (AskedInside (length buffer.new)) }
{
    match op(part(line, 1))? {
        Op::Strict => message(line, i, true, buffer),
        Op::Lenient => message(line, i, false, buffer),
        Op::Write => lent(line, j, buffer),
        Op::Length => (count(line) == usize::from(j)).then_some(AskedIn::Length),
    }
}
