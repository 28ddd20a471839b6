// An entry against a namespace and an area, and how it is written.
ghost use Rattle.std.specs.Prelude.{◌≡◌, ◌≤◌, length, IfOk, IfErr};
ghost use Rattle.codec.specs.Answers.{encode_number, outcome_of};
ghost use Rattle.codec.specs.Format.{allowed, refused_value, over, put_answer, put_buffer};
ghost use Rattle.path_relative_encode.specs.Shared.{shared_bytes};
ghost use Rattle.grouping.specs.Record.{area_lent};
ghost use Rattle.entry.specs.Record.{entry_lent};
ghost use Rattle.entry_area.specs.Entry.{id_bytes, start_of};
ghost use Rattle.entry_area.specs.Records.{against_namespace_area};
ghost use Rattle.entry_area.specs.inside.Writing.{end_in, tail_bytes, known_bytes};

use codec::EncodeError;
use entry::{Entry, EntryFields};
use entry_area_end::End;
use entry_area_end::entry_header::HEADER_LENGTH;
use grouping::{Area, AreaHead, AreaSubspace};
use path_relative_encode::shared_path::SharedPath;

// The bytes of an id, which is written where the area has any subspace.
fn id_bytes(id: &[u8; 32], subspace: AreaSubspace) -> &[u8]
    ensures { (result.now ≡ id_bytes subspace id.now) × (length result.now ≤ 32) }
{
    byte_codec::id_bytes_if(id, subspace.is_none())
}

// An entry beside what an area has beside its path, all of whose components the entry's shares.
#[derive(Clone, Copy)]
pub(crate) struct Difference<'a> {
    fields: EntryFields,
    path: SharedPath<'a>,
    reference: AreaHead,
}

impl<'a> Difference<'a> {
    // Both records are tested here, and whether the entry lies inside.
    pub(crate) fn within(
        entry: Entry<'a>,
        namespace: [u8; 32],
        reference: Area<'a>,
    ) -> Result<Difference<'a>, EncodeError>
        ensures ok { IfOk result (λ d. ((against_namespace_area namespace (area_lent reference.entry)).check (entry_lent entry.entry) ≡ allowed) × (known_bytes d.reference d.fields (shared_bytes d.path) ≡ (against_namespace_area namespace (area_lent reference.entry)).encode (entry_lent entry.entry))) }
        ensures err { IfErr result (λ error. (against_namespace_area namespace (area_lent reference.entry)).check (entry_lent entry.entry) ≡ refused_value (encode_number error)) }
    {
        let inside = entry.lies_inside(namespace, reference)?;
        if !inside {
            return Err(EncodeError::Outside);
        }
        let path = SharedPath {
            path: entry.path,
            shared: path::lent::count(reference.path),
        };
        Ok(Difference {
            fields: entry.fields,
            path,
            reference: reference.head,
        })
    }

    // What stands after the path.
    fn end(self) -> End
        ensures { result ≡ end_in self.entry.fields }
    {
        let payload_digest = self.fields.payload_digest;
        End {
            timestamp: self.fields.timestamp,
            payload_length: self.fields.payload_length,
            payload_digest,
        }
    }

    // How many bytes the entry takes.
    pub(crate) fn len(self) -> usize
        ensures { result ≡ length (known_bytes self.entry.reference self.entry.fields (shared_bytes self.entry.path)) }
    {
        let id = id_bytes(&self.fields.subspace_id, self.reference.subspace).len();
        let end = entry_area_end::relative_len_of_encoding(self.end(), self.reference.times);
        HEADER_LENGTH + id + self.path.len() + end
    }

    // The header and the id.
    fn put_start(self, buffer: &mut [u8]) -> usize
        requires { length (start_of self.reference.times self.reference.subspace self.fields.subspace_id (end_in self.fields)) ≤ length buffer.old }
        ensures { (result ≡ length (start_of self.entry.reference.times self.entry.reference.subspace self.entry.fields.subspace_id (end_in self.entry.fields))) × (buffer.new ≡ over (start_of self.entry.reference.times self.entry.reference.subspace self.entry.fields.subspace_id (end_in self.entry.fields)) buffer.old) }
    {
        let subspace = self.reference.subspace;
        buffer[0] = entry_area_end::header_byte(
            subspace.is_none(),
            self.end(),
            self.reference.times,
        );
        let id = id_bytes(&self.fields.subspace_id, subspace);
        let end = HEADER_LENGTH + id.len();
        byte_codec::put_bytes(&mut buffer[HEADER_LENGTH..end], id).unwrap();
        end
    }

    // What stands after the id.
    fn put_rest(self, buffer: &mut [u8])
        requires { length (tail_bytes self.reference.times self.fields (shared_bytes self.path)) ≤ length buffer.old }
        ensures { buffer.new ≡ over (tail_bytes self.entry.reference.times self.entry.fields (shared_bytes self.entry.path)) buffer.old }
    {
        let n = self.path.encode(buffer).unwrap();
        entry_area_end::relative_encode(
            &mut buffer[n..],
            self.end(),
            self.reference.times,
        ).unwrap();
    }

    fn put(self, buffer: &mut [u8])
        requires { length (known_bytes self.reference self.fields (shared_bytes self.path)) ≤ length buffer.old }
        ensures { buffer.new ≡ over (known_bytes self.entry.reference self.entry.fields (shared_bytes self.entry.path)) buffer.old }
    {
        let n = self.put_start(buffer);
        self.put_rest(&mut buffer[n..]);
    }

    // Writes the entry.
    pub(crate) fn encode(self, buffer: &mut [u8]) -> Result<usize, EncodeError>
        ensures { (outcome_of result ≡ put_answer allowed (known_bytes self.entry.reference self.entry.fields (shared_bytes self.entry.path)) (length buffer.old)) × (buffer.new ≡ put_buffer allowed (known_bytes self.entry.reference self.entry.fields (shared_bytes self.entry.path)) buffer.old) }
    {
        let whole = self.len();
        if buffer.len() < whole {
            return Err(EncodeError::NoRoom);
        }
        self.put(buffer);
        Ok(whole)
    }
}
