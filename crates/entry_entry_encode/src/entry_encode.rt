// An entry against a reference, and how it is written.
ghost use Rattle.std.specs.Prelude.{◌≡◌, ◌++◌, ◌+◌, ◌≤◌, length, IfOk, IfErr};
ghost use Rattle.codec.specs.Answers.{encode_number, outcome_of};
ghost use Rattle.codec.specs.Format.{allowed, refused_value, over, put_answer, put_buffer};
ghost use Rattle.path_relative_encode.specs.Shared.{shared_bytes};
ghost use Rattle.entry.specs.Record.{entry_lent};
ghost use Rattle.entry_numbers.specs.Header.{pack_header};
ghost use Rattle.entry_numbers.specs.Numbers.{numbers_from};
ghost use Rattle.entry_entry.specs.Entry.{id_bytes};
ghost use Rattle.entry_entry.specs.Records.{against_entry};
ghost use Rattle.entry_entry.specs.inside.Writing.{header_with, ids_with, rest_with, parts_with, known_bytes};

use codec::EncodeError;
use entry::{Entry, EntryFields};
use entry_numbers::Numbers;
use entry_numbers::entry_header::HEADER_LENGTH;
use path_relative_encode::shared_path::SharedPath;

// The bytes of an id, which is not written where it is the reference's.
#[tactic(auto, unfolding(entry_entry::specs::Entry::id_bytes, entry_entry::specs::Entry::id_written))]
fn id_bytes(id: &[u8; 32], reference: [u8; 32]) -> &[u8]
    ensures { (result.now ≡ id_bytes reference id.now) × (length result.now ≤ 32) }
{
    byte_codec::id_bytes_if(id, *id != reference)
}

// An entry beside what its reference has beside its path, of which the entry's shares components.
#[derive(Clone, Copy)]
pub(crate) struct Difference<'a> {
    fields: EntryFields,
    path: SharedPath<'a>,
    reference: EntryFields,
}

impl<'a> Difference<'a> {
    // Both records are tested here.
    pub(crate) fn between(
        entry: Entry<'a>,
        reference: Entry<'a>,
    ) -> Result<Difference<'a>, EncodeError>
        ensures ok { IfOk result (λ d. ((against_entry (entry_lent reference.entry)).check (entry_lent entry.entry) ≡ allowed) × (known_bytes d.reference d.fields (shared_bytes d.path) ≡ (against_entry (entry_lent reference.entry)).encode (entry_lent entry.entry))) }
        ensures err { IfErr result (λ error. (against_entry (entry_lent reference.entry)).check (entry_lent entry.entry) ≡ refused_value (encode_number error)) }
    {
        let shared = path::longest_common_prefix(reference.path, entry.path)?;
        let path = SharedPath {
            path: entry.path,
            shared,
        };
        Ok(Difference {
            fields: entry.fields,
            path,
            reference: reference.fields,
        })
    }

    // The time and the payload length.
    fn numbers(self) -> Numbers
        ensures { result ≡ numbers_from self.entry.fields.timestamp self.entry.fields.payload_length }
    {
        Numbers {
            timestamp: self.fields.timestamp,
            payload_length: self.fields.payload_length,
        }
    }

    #[tactic(auto, unfolding(entry_entry::specs::Entry::id_written))]
    fn header_byte(self) -> u8
        ensures { result ≡ pack_header (header_with self.entry.reference self.entry.fields) }
    {
        entry_numbers::header_byte(
            self.fields.namespace_id != self.reference.namespace_id,
            self.fields.subspace_id != self.reference.subspace_id,
            self.numbers(),
            self.reference.timestamp,
        )
    }

    // How many bytes the ids take.
    fn ids_len(self) -> usize
        ensures { (result ≡ length (ids_with self.entry.reference self.entry.fields)) × (result ≤ 64) }
    {
        id_bytes(&self.fields.namespace_id, self.reference.namespace_id).len()
            + id_bytes(&self.fields.subspace_id, self.reference.subspace_id).len()
    }

    // How many bytes the entry takes.
    pub(crate) fn len(self) -> usize
        ensures { result ≡ length (known_bytes self.entry.reference self.entry.fields (shared_bytes self.entry.path)) }
    {
        let numbers = entry_numbers::relative_len_of_encoding(
            self.numbers(),
            self.reference.timestamp,
        );
        HEADER_LENGTH + self.ids_len() + numbers + self.path.len() + 32
    }

    // The ids.
    fn put_ids(self, buffer: &mut [u8]) -> usize
        requires { length (ids_with self.reference self.fields) ≤ length buffer.old }
        ensures { (result ≡ length (ids_with self.entry.reference self.entry.fields)) × (buffer.new ≡ over (ids_with self.entry.reference self.entry.fields) buffer.old) }
    {
        let namespace = id_bytes(&self.fields.namespace_id, self.reference.namespace_id);
        let subspace = id_bytes(&self.fields.subspace_id, self.reference.subspace_id);
        let n = namespace.len();
        let whole = n + subspace.len();
        byte_codec::put_bytes(&mut buffer[..n], namespace).unwrap();
        byte_codec::put_bytes(&mut buffer[n..whole], subspace).unwrap();
        whole
    }

    // The path and the digest.
    fn put_end(self, buffer: &mut [u8])
        requires { length (shared_bytes self.path ++ self.fields.payload_digest) ≤ length buffer.old }
        ensures { buffer.new ≡ over (shared_bytes self.entry.path ++ self.entry.fields.payload_digest) buffer.old }
    {
        let n = self.path.encode(buffer).unwrap();
        buffer[n..n + 32].copy_from_slice(&self.fields.payload_digest);
    }

    // What follows the ids.
    fn put_rest(self, buffer: &mut [u8])
        requires { length (rest_with self.reference self.fields (shared_bytes self.path)) ≤ length buffer.old }
        ensures { buffer.new ≡ over (rest_with self.entry.reference self.entry.fields (shared_bytes self.entry.path)) buffer.old }
    {
        let n = entry_numbers::relative_encode(
            buffer,
            self.numbers(),
            self.reference.timestamp,
        ).unwrap();
        self.put_end(&mut buffer[n..]);
    }

    // What follows the header.
    fn put_parts(self, buffer: &mut [u8])
        requires { length (parts_with self.reference self.fields (shared_bytes self.path)) ≤ length buffer.old }
        ensures { buffer.new ≡ over (parts_with self.entry.reference self.entry.fields (shared_bytes self.entry.path)) buffer.old }
    {
        let n = self.put_ids(buffer);
        self.put_rest(&mut buffer[n..]);
    }

    fn put(self, buffer: &mut [u8])
        requires { length (known_bytes self.reference self.fields (shared_bytes self.path)) ≤ length buffer.old }
        ensures { buffer.new ≡ over (known_bytes self.entry.reference self.entry.fields (shared_bytes self.entry.path)) buffer.old }
    {
        buffer[0] = self.header_byte();
        self.put_parts(&mut buffer[HEADER_LENGTH..]);
    }

    // Writes the entry.
    pub(crate) fn encode(self, buffer: &mut [u8]) -> Result<usize, EncodeError>
        ensures { (outcome_of result ≡ put_answer allowed (known_bytes self.entry.reference self.entry.fields (shared_bytes self.entry.path)) (length buffer.old)) × (buffer.new ≡ put_buffer allowed (known_bytes self.entry.reference self.entry.fields (shared_bytes self.entry.path)) buffer.old) }
    {
        let whole = self.len();
        if buffer.len() < whole {
            return Err(EncodeError::NoRoom);
        }
        self.put(buffer);
        Ok(whole)
    }
}
