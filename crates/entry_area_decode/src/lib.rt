// Reading entries against a namespace and an area: docs/FORMAT.md, "Entries". A port of relative_encodings/entry_area.rs.

#![tactic(auto)]

ghost use Rattle.std.specs.Prelude.{◌≡◌, [], true, ◌+◌, ◌<◌, ◌^◌, length, drop};
ghost use Rattle.codec.specs.Answers.{answer_of};
ghost use Rattle.codec.specs.Reader.{shift, mapped};
ghost use Rattle.path.specs.Record.{path_from};
ghost use Rattle.path.specs.Flat.{path_in};
ghost use Rattle.grouping.specs.Record.{area_lent, area_with, area_of, well_formed_area};
ghost use Rattle.entry.specs.Record.{entry_from};
ghost use Rattle.entry.specs.Answers.{ReadsEntry};
ghost use Rattle.entry_area_end.specs.Header.{header_length};
ghost use Rattle.entry_area.specs.Entry.{read_id, read_parts};
ghost use Rattle.entry_area.specs.Records.{read_against_namespace_area};

use codec::{DecodeError, Decoded};
use entry::EntryFields;
use entry_area_end::EntryAreaHeader;
use entry_area_end::entry_header::HEADER_LENGTH;
use grouping::{Area, AreaSubspace};
use path_relative_decode::sized;

// Reads the id, which is written just where the area has any subspace.
fn decode_id(
    message: &[u8],
    subspace: AreaSubspace,
    written: bool,
) -> Result<Decoded<[u8; 32]>, DecodeError>
    ensures { answer_of result ≡ read_id subspace written message.now }
{
    match subspace {
        None if written => byte_codec::decode_id(message, 0),
        Some(id) if !written => Ok(Decoded {
            value: id,
            consumed: 0,
        }),
        _ => Err(DecodeError::TheirFault),
    }
}

// Reads what follows the header, which is counted too: the id, a path that the area's is a prefix of, and the fields after it.
fn decode_parts<'a>(
    message: &[u8],
    canonic: bool,
    namespace: [u8; 32],
    reference: Area<'a>,
    header: EntryAreaHeader,
    out: &mut [u8; path::lent::SIZE],
) -> Result<Decoded<EntryFields>, DecodeError>
    requires { (header_length + length message.now < 2 ^ 64) × (well_formed_area (area_with reference.head (path_in reference.path.now)) ≡ true) × (path_in out.old ≡ path_from []) }
    ensures { ReadsEntry result out.new (shift header_length (mapped entry_from (read_parts canonic namespace (area_of (area_lent reference.entry)) header) message.now)) }
{
    let head = reference.head;
    let id = decode_id(message, head.subspace, header.id_written)?;
    let a = id.consumed;
    let b = sized::decode_path_within(message, a, canonic, reference.path, out)?;
    let end = match entry_area_end::relative_decode(
        &message[a + b..],
        canonic,
        head.times,
        header,
    ) {
        Ok(end) => end,
        Err(error) => {
            path::lent::clear(out);
            return Err(error);
        }
    };
    let subspace_id = id.value;
    let payload_digest = end.value.payload_digest;
    Ok(Decoded {
        value: EntryFields {
            namespace_id: namespace,
            subspace_id,
            timestamp: end.value.timestamp,
            payload_length: end.value.payload_length,
            payload_digest,
        },
        consumed: HEADER_LENGTH + a + (b + end.consumed),
    })
}

// Reads an entry against a namespace and an area, its path into a lent record; beside a refusal that is the empty one.
pub fn relative_decode<'a>(
    message: &[u8],
    start: usize,
    canonic: bool,
    namespace: [u8; 32],
    reference: Area<'a>,
    out: &mut [u8; path::lent::SIZE],
) -> Result<Decoded<EntryFields>, DecodeError>
    ensures { ReadsEntry result out.new (read_against_namespace_area canonic namespace (area_lent reference.entry) (drop start message.now)) }
{
    path::lent::clear(out);
    if !reference.is_well_formed() {
        return Err(DecodeError::Malformed);
    }
    if message.len() <= start {
        return Err(DecodeError::EndOfInput);
    }
    let header = entry_area_end::entry_header::unpack(message[start]);
    if header.spare != 0 {
        return Err(DecodeError::TheirFault);
    }
    decode_parts(
        &message[start + HEADER_LENGTH..],
        canonic,
        namespace,
        reference,
        header,
        out,
    )
}
