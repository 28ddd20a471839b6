// Reading entries against an entry: docs/FORMAT.md, "Entries against an entry". A port of relative_encodings/entry_entry.rs.

#![tactic(auto)]

ghost use Rattle.std.specs.Prelude.{◌≡◌, [], true, drop};
ghost use Rattle.path.specs.Record.{path_from};
ghost use Rattle.path.specs.Flat.{path_in};
ghost use Rattle.entry.specs.Record.{entry_lent, entry_with, well_formed_entry};
ghost use Rattle.entry.specs.Answers.{ReadsEntry};
ghost use Rattle.entry_entry.specs.Records.{read_against_entry};

use codec::{DecodeError, Decoded};
use entry::{Entry, EntryFields};
use entry_entry::Ids;
use path_relative_decode::sized;

mod entry_decode;

// Reads an entry against a reference that was tested.
fn decode_tested<'a>(
    message: &[u8],
    start: usize,
    reference: Entry<'a>,
    out: &mut [u8; path::lent::SIZE],
) -> Result<Decoded<EntryFields>, DecodeError>
    requires { (well_formed_entry (entry_with reference.fields (path_in reference.path.now)) ≡ true) × (path_in out.old ≡ path_from []) }
    ensures { ReadsEntry result out.new (read_against_entry (entry_lent reference.entry) (drop start message.now)) }
{
    let head = entry_decode::decode_head(message, start, reference.fields)?;
    let at = start + head.consumed;
    let b = sized::relative_decode(message, at, false, reference.path, out)?;
    let digest = match byte_codec::decode_id(message, at + b) {
        Ok(digest) => digest,
        Err(error) => {
            path::lent::clear(out);
            return Err(error);
        }
    };
    let Ids {
        namespace_id,
        subspace_id,
    } = head.value.ids;
    let payload_digest = digest.value;
    Ok(Decoded {
        value: EntryFields {
            namespace_id,
            subspace_id,
            timestamp: head.value.numbers.timestamp,
            payload_length: head.value.numbers.payload_length,
            payload_digest,
        },
        consumed: head.consumed + (b + digest.consumed),
    })
}

// Reads an entry against a reference, its path into a lent record; beside a refusal that is the empty one.
pub fn relative_decode<'a>(
    message: &[u8],
    start: usize,
    reference: Entry<'a>,
    out: &mut [u8; path::lent::SIZE],
) -> Result<Decoded<EntryFields>, DecodeError>
    ensures { ReadsEntry result out.new (read_against_entry (entry_lent reference.entry) (drop start message.now)) }
{
    path::lent::clear(out);
    if !reference.is_well_formed() {
        return Err(DecodeError::Malformed);
    }
    decode_tested(message, start, reference, out)
}
