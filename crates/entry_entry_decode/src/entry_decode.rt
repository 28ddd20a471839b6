// Reading what comes before the path: the header, the ids, the time and the payload length.
ghost use Rattle.std.specs.Prelude.{◌≡◌, drop};
ghost use Rattle.codec.specs.Answers.{answer_of};
ghost use Rattle.entry_entry.specs.Entry.{read_ids, read_head};

use codec::{DecodeError, Decoded};
use entry::EntryFields;
use entry_entry::{Head, Ids};
use entry_numbers::entry_header::HEADER_LENGTH;
use entry_numbers::{EntryHeader, entry_header};

#[tactic(auto, unfolding(entry_entry::specs::Entry::read_ids))]
fn decode_ids(
    message: &[u8],
    header: EntryHeader,
    reference: EntryFields,
) -> Result<Decoded<Ids>, DecodeError>
    ensures { answer_of result ≡ read_ids reference.namespace_id reference.subspace_id header message.now }
{
    let namespace = byte_codec::decode_id_if(
        message,
        0,
        header.namespace_written,
        reference.namespace_id,
    )?;
    let subspace = byte_codec::decode_id_if(
        message,
        namespace.consumed,
        header.subspace_written,
        reference.subspace_id,
    )?;
    let namespace_id = namespace.value;
    let subspace_id = subspace.value;
    Ok(Decoded {
        value: Ids {
            namespace_id,
            subspace_id,
        },
        consumed: namespace.consumed + subspace.consumed,
    })
}

#[tactic(auto, unfolding(entry_entry::specs::Entry::read_head))]
pub(crate) fn decode_head(
    message: &[u8],
    start: usize,
    reference: EntryFields,
) -> Result<Decoded<Head>, DecodeError>
    ensures { answer_of result ≡ read_head reference.namespace_id reference.subspace_id reference.timestamp (drop start message.now) }
{
    if message.len() <= start {
        return Err(DecodeError::EndOfInput);
    }
    let header = entry_header::unpack(message[start]);
    let at = start + HEADER_LENGTH;
    let ids = decode_ids(&message[at..], header, reference)?;
    let next = at + ids.consumed;
    let numbers = entry_numbers::relative_decode(&message[next..], header, reference.timestamp)?;
    Ok(Decoded {
        value: Head {
            ids: ids.value,
            numbers: numbers.value,
        },
        consumed: HEADER_LENGTH + (ids.consumed + numbers.consumed),
    })
}
