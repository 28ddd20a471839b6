// Bytes read and written as they are: what the codecs of all layers call.

#![tactic(auto)]

ghost use Rattle.std.specs.Prelude.{◌≡◌, ◌≤◌, ◌++◌, ◌+◌, Ok, [], cond, length, take, drop};
ghost use Rattle.codec.specs.Answers.{answer_of, outcome_of};
ghost use Rattle.codec.specs.Bytes.{same_bytes};
ghost use Rattle.codec.specs.Format.{allowed, in_room, over, put_answer, put_buffer};
ghost use Rattle.codec.specs.Reader.{give, some_bytes, choose};

use codec::{DecodeError, Decoded, EncodeError};

pub fn same_bytes(s: &[u8], t: &[u8]) -> bool
    ensures { result ≡ same_bytes s.now t.now }
{
    s == t
}

// Bytes are copied so many at once. A copy of a known length calls no `memmove`, and the library for C asks for none.
const BLOCK: usize = 8;

// A block from a place on.
fn put_block(buffer: &mut [u8], s: &[u8], at: usize)
    requires { (at + 8 ≤ length s.now) × (length s.now ≤ length buffer.old) }
    ensures { buffer.new ≡ take at buffer.old ++ (take 8 (drop at s.now) ++ drop (at + 8) buffer.old) }
{
    let block = *s[at..].first_chunk::<BLOCK>().unwrap();
    buffer[at..at + BLOCK].copy_from_slice(&block);
}

// Bytes to the buffer's start: fewer than a block one by one, else block by block, and the last block up to their end.
fn fill(buffer: &mut [u8], s: &[u8])
    requires { length s.now ≤ length buffer.old }
    ensures { buffer.new ≡ over s.now buffer.old }
{
    let n = s.len();
    if n < BLOCK {
        for i in 0..n {
            buffer[i] = s[i];
        }
        return;
    }
    for k in 0..n / BLOCK {
        put_block(buffer, s, BLOCK * k);
    }
    put_block(buffer, s, n - BLOCK);
}

// Writes bytes as they are.
pub fn put_bytes(buffer: &mut [u8], s: &[u8]) -> Result<usize, EncodeError>
    ensures put { (outcome_of result ≡ put_answer allowed s.now (length buffer.old)) × (buffer.new ≡ put_buffer allowed s.now buffer.old) }
    ensures whole { length buffer.old ≡ length s.now → (result ≡ Ok (length s.now)) × (buffer.new ≡ s.now) }
{
    if buffer.len() < s.len() {
        return Err(EncodeError::NoRoom);
    }
    fill(buffer, s);
    Ok(s.len())
}

// A written length that has to fit into so many free bytes.
pub fn in_room(whole: Result<usize, EncodeError>, room: usize) -> Result<usize, EncodeError>
    ensures { outcome_of result ≡ in_room (outcome_of whole) room }
{
    let n = whole?;
    if room < n {
        return Err(EncodeError::NoRoom);
    }
    Ok(n)
}

// Reads an id or a digest, 32 bytes as they are.
pub fn decode_id(message: &[u8], start: usize) -> Result<Decoded<[u8; 32]>, DecodeError>
    ensures { answer_of result ≡ some_bytes 32 (drop start message.now) }
{
    match message
        .get(start..)
        .and_then(|rest| rest.first_chunk::<32>())
    {
        Some(id) => Ok(Decoded {
            value: *id,
            consumed: 32,
        }),
        None => Err(DecodeError::EndOfInput),
    }
}

// Reads an id that is the reference's unless it is written.
pub fn decode_id_if(
    message: &[u8],
    start: usize,
    written: bool,
    reference: [u8; 32],
) -> Result<Decoded<[u8; 32]>, DecodeError>
    ensures { answer_of result ≡ choose written (some_bytes 32) (give reference) (drop start message.now) }
{
    if written {
        return decode_id(message, start);
    }
    Ok(Decoded {
        value: reference,
        consumed: 0,
    })
}

// The bytes of an id: none unless it is written.
pub fn id_bytes_if(id: &[u8; 32], written: bool) -> &[u8]
    ensures { (result.now ≡ cond written id.now []) × (length result.now ≤ 32) }
{
    if written { id } else { &[] }
}
