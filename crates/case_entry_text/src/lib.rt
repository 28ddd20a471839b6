// The fields of an entry in a case line: docs/CASES.md.

#![tactic(auto)]

ghost use Rattle.std.specs.Prelude.{◌≡◌, option_map};
ghost use Rattle.entry.specs.Record.{entry_lent};
ghost use Rattle.case_text.specs.Bytes.{bytes_of};
ghost use Rattle.case_entry_text.specs.Fields.{entry_text, entry_field, field_entry};

use case_text::{Bytes, MAX_BYTES, fields};
use entry::{Entry, EntryFields};
use path::Path;
use text::Writer;

// An entry that six fields say.
#[derive(Drop)]
pub struct EntryField {
    pub fields: EntryFields,
    pub path: Path,
}

impl EntryField {
    ghost use Rattle.std.specs.Prelude.{◌≡◌};
    ghost use Rattle.entry.specs.Record.{entry_lent};
    ghost use Rattle.case_entry_text.specs.Fields.{field_entry};

    pub fn entry(&self) -> Entry<'_>
        ensures { entry_lent result ≡ field_entry self.now }
    {
        Entry {
            fields: self.fields,
            path: &self.path.flat,
        }
    }
}

// Reads the place-th field of a line and the five after it.
pub fn read_entry(line: &[u8], place: u8) -> Option<EntryField>
    ensures { option_map field_entry result ≡ entry_field place line.now }
{
    let i = usize::from(place);
    let namespace_id = fields::id(line, i)?;
    let subspace_id = fields::id(line, i + 1)?;
    let path = fields::path(line, i + 2)?;
    let timestamp = fields::number(line, i + 3)?;
    let payload_length = fields::number(line, i + 4)?;
    let payload_digest = fields::id(line, i + 5)?;
    Some(EntryField {
        fields: EntryFields {
            namespace_id,
            subspace_id,
            timestamp,
            payload_length,
            payload_digest,
        },
        path,
    })
}

// Prints an entry.
pub fn print_entry(entry: Entry<'_>) -> Bytes
    ensures { bytes_of result ≡ entry_text (entry_lent entry.entry) }
{
    let mut bytes = [0u8; MAX_BYTES];
    let fields = entry.fields;
    let mut text = Writer::new(&mut bytes, 0);
    text.put_hex(&fields.namespace_id);
    text.put_bytes(b"\t");
    text.put_hex(&fields.subspace_id);
    text.put_bytes(b"\t");
    path_text::put_path(&mut text, entry.path);
    text.put_bytes(b"\t");
    text.put_decimal(fields.timestamp);
    text.put_bytes(b"\t");
    text.put_decimal(fields.payload_length);
    text.put_bytes(b"\t");
    text.put_hex(&fields.payload_digest);
    let len = text.at;
    case_text::first_bytes(bytes, len)
}
