// The subspaces of a 3d range against those of another: docs/FORMAT.md, "3d ranges". Part of a port of relative_encodings/range3d_range3d.rs.

#![tactic(auto)]

ghost use Rattle.std.specs.Prelude.{◌≡◌, ◌≤◌, length, drop};
ghost use Rattle.codec.specs.Answers.{answer_of, outcome_of};
ghost use Rattle.codec.specs.Format.{allowed, put_answer, put_buffer};
ghost use Rattle.range_subspaces.specs.declared.IdSource.TheVariants as idsource;
ghost use Rattle.range_subspaces.specs.Subspaces.{source_of, sources_of, id_bytes, end_bytes, subspaces_bytes, read_id, read_end, read_subspaces};

use codec::{DecodeError, Decoded, EncodeError};
use range_3d::SubspaceRange;

// Where an id is taken from: nowhere, the reference's start, its end, or the bytes. The number is that of its bits in a header.
#[derive(Clone, Copy, PartialEq, Eq)]
pub enum IdSource {
    Nowhere = 0,
    Start = 1,
    End = 2,
    Written = 3,
}

#[derive(Clone, Copy)]
pub struct Sources {
    pub start: IdSource,
    pub end: IdSource,
}

#[tactic(auto, unfolding(crate::specs::Subspaces::source_of))]
fn source(id: [u8; 32], reference: SubspaceRange) -> IdSource
    ensures { result ≡ source_of reference id }
{
    if id == reference.start {
        IdSource::Start
    } else if Some(id) == reference.end {
        IdSource::End
    } else {
        IdSource::Written
    }
}

// Where the ids of subspaces are taken from; that of an open end from nowhere.
#[tactic(auto, unfolding(crate::specs::Subspaces::sources_of))]
pub fn sources_of(subspaces: SubspaceRange, reference: SubspaceRange) -> Sources
    ensures { result ≡ sources_of reference subspaces }
{
    Sources {
        start: source(subspaces.start, reference),
        end: match subspaces.end {
            Some(id) => source(id, reference),
            None => IdSource::Nowhere,
        },
    }
}

// An id that a flag could name is not to be written.
fn decode_written(
    message: &[u8],
    start: usize,
    reference: SubspaceRange,
) -> Result<Decoded<[u8; 32]>, DecodeError>
    ensures { answer_of result ≡ read_id reference idsource.Written (drop start message.now) }
{
    let id = byte_codec::decode_id(message, start)?;
    if source(id.value, reference) != IdSource::Written {
        return Err(DecodeError::TheirFault);
    }
    Ok(id)
}

// An id that is written starts at `start`.
fn decode_id(
    message: &[u8],
    start: usize,
    source: IdSource,
    reference: SubspaceRange,
) -> Result<Decoded<[u8; 32]>, DecodeError>
    ensures { answer_of result ≡ read_id reference source (drop start message.now) }
{
    let given = match source {
        IdSource::Nowhere => None,
        IdSource::Start => Some(reference.start),
        IdSource::End => reference.end,
        IdSource::Written => return decode_written(message, start, reference),
    };
    let value = given.ok_or(DecodeError::TheirFault)?;
    Ok(Decoded { value, consumed: 0 })
}

// The same of an end; an open one is taken from nowhere.
fn decode_end(
    message: &[u8],
    start: usize,
    source: IdSource,
    reference: SubspaceRange,
) -> Result<Decoded<Option<[u8; 32]>>, DecodeError>
    ensures { answer_of result ≡ read_end reference source (drop start message.now) }
{
    if source == IdSource::Nowhere {
        return Ok(Decoded {
            value: None,
            consumed: 0,
        });
    }
    let id = decode_id(message, start, source, reference)?;
    Ok(Decoded {
        value: Some(id.value),
        consumed: id.consumed,
    })
}

// Reads subspaces whose ids are taken from `sources`.
#[tactic(auto, unfolding(crate::specs::Subspaces::read_subspaces))]
pub fn relative_decode(
    message: &[u8],
    sources: Sources,
    reference: SubspaceRange,
) -> Result<Decoded<SubspaceRange>, DecodeError>
    ensures { answer_of result ≡ read_subspaces reference sources message.now }
{
    let first = decode_id(message, 0, sources.start, reference)?;
    let last = decode_end(message, first.consumed, sources.end, reference)?;
    let start = first.value;
    Ok(Decoded {
        value: SubspaceRange {
            start,
            end: last.value,
        },
        consumed: first.consumed + last.consumed,
    })
}

// The bytes that say an id: none where a flag names it.
#[tactic(auto, unfolding(crate::specs::Subspaces::id_bytes))]
fn id_bytes(id: &[u8; 32], reference: SubspaceRange) -> &[u8]
    ensures { (result.now ≡ id_bytes reference id.now) × (length result.now ≤ 32) }
{
    byte_codec::id_bytes_if(id, source(*id, reference) == IdSource::Written)
}

// The same of an end; an open one takes none.
fn end_bytes(end: &Option<[u8; 32]>, reference: SubspaceRange) -> &[u8]
    ensures { (result.now ≡ end_bytes reference end.now) × (length result.now ≤ 32) }
{
    match end {
        Some(id) => id_bytes(id, reference),
        None => &[],
    }
}

// How many bytes subspaces take.
#[tactic(auto, unfolding(crate::specs::Subspaces::subspaces_bytes))]
pub fn relative_len_of_encoding(subspaces: SubspaceRange, reference: SubspaceRange) -> usize
    ensures { (result ≡ length (subspaces_bytes reference subspaces)) × (result ≤ 64) }
{
    id_bytes(&subspaces.start, reference).len() + end_bytes(&subspaces.end, reference).len()
}

// Writes subspaces.
pub fn relative_encode(
    buffer: &mut [u8],
    subspaces: SubspaceRange,
    reference: SubspaceRange,
) -> Result<usize, EncodeError>
    ensures { (outcome_of result ≡ put_answer allowed (subspaces_bytes reference subspaces) (length buffer.old)) × (buffer.new ≡ put_buffer allowed (subspaces_bytes reference subspaces) buffer.old) }
{
    let whole = relative_len_of_encoding(subspaces, reference);
    if buffer.len() < whole {
        return Err(EncodeError::NoRoom);
    }
    let n = byte_codec::put_bytes(buffer, id_bytes(&subspaces.start, reference))?;
    byte_codec::put_bytes(&mut buffer[n..], end_bytes(&subspaces.end, reference))?;
    Ok(whole)
}
