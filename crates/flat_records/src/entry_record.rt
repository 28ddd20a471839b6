// An entry: namespace id, subspace id, path, timestamp, payload length, payload digest.
ghost use Rattle.std.specs.Prelude.{◌≡◌, length, take, drop};
ghost use Rattle.path.specs.Flat.{path_size, path_in};
ghost use Rattle.entry.specs.Record.{fields_of, entry_with, entry_lent};
ghost use Rattle.flat.specs.EntryRecord.{entry_in, entry_flat};

use entry::{Entry, EntryFields};

// Where an entry's parts start, and how many bytes it has.
const SUBSPACE: usize = 32;

const PATH: usize = 64;

const TIMESTAMP: usize = PATH + path::lent::SIZE;

const PAYLOAD_LENGTH: usize = TIMESTAMP + 8;

const DIGEST: usize = PAYLOAD_LENGTH + 8;

pub const SIZE: usize = DIGEST + 32;

// What an entry has beside its path, and the record of its path.
#[tactic(auto, unfolding(flat::specs::EntryRecord::entry_in))]
pub fn fields(flat: &[u8; SIZE]) -> EntryFields
    ensures { result ≡ fields_of (entry_in flat.now) }
{
    EntryFields {
        namespace_id: *crate::part(flat),
        subspace_id: *crate::part(crate::after(flat, SUBSPACE)),
        timestamp: crate::number(crate::after(flat, TIMESTAMP)),
        payload_length: crate::number(crate::after(flat, PAYLOAD_LENGTH)),
        payload_digest: *crate::part(crate::after(flat, DIGEST)),
    }
}

pub fn path(flat: &[u8; SIZE]) -> &[u8]
    ensures { (result.now ≡ take path_size (drop 64 flat.now)) × (length result.now ≡ path_size) }
{
    crate::path(crate::after(flat, PATH))
}

// The entry that bytes are, its path lent.
#[tactic(auto, using(flat::proofs::EntryLaws::entry_lent))]
pub fn load<'a>(flat: &'a [u8; SIZE]) -> Entry<'a>
    ensures { entry_lent result ≡ entry_in flat.now }
{
    Entry {
        fields: fields(flat),
        path: path(flat),
    }
}

pub fn store(flat: &mut [u8; SIZE], fields: EntryFields, path: &[u8; path::lent::SIZE])
    ensures { flat.new ≡ entry_flat (entry_with fields (path_in path.now)) }
{
    crate::put(flat, &fields.namespace_id);
    crate::put(&mut flat[SUBSPACE..], &fields.subspace_id);
    crate::put(&mut flat[PATH..], path);
    crate::put_number(&mut flat[TIMESTAMP..], fields.timestamp);
    crate::put_number(&mut flat[PAYLOAD_LENGTH..], fields.payload_length);
    crate::put(&mut flat[DIGEST..], &fields.payload_digest);
}
