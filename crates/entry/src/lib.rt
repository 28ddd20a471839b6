// Entries: docs/FORMAT.md, "Entries". A port of entry.rs, as far as the codecs use it.

#![tactic(auto)]

ghost use Rattle.std.specs.Prelude.{◌≡◌};
ghost use Rattle.codec.specs.Answers.{said_of};
ghost use Rattle.grouping.specs.Record.{area_lent};
ghost use Rattle.entry.specs.Record.{entry_lent, well_formed_entry, fields_lie_inside, says_entry_inside};

use codec::Malformed;
use grouping::{Area, AreaHead};

// What an entry has beside its path.
#[derive(Clone, Copy)]
pub struct EntryFields {
    pub namespace_id: [u8; 32],
    pub subspace_id: [u8; 32],
    pub timestamp: u64,
    pub payload_length: u64,
    pub payload_digest: [u8; 32],
}

// An entry whose path is lent as its record.
#[derive(Clone, Copy)]
pub struct Entry<'a> {
    pub fields: EntryFields,
    pub path: &'a [u8],
}

impl EntryFields {
    // Whether an entry lies inside a namespace and an area, as far as what both have beside their paths tells.
    #[tactic(auto, unfolding(crate::specs::Record::fields_lie_inside))]
    pub fn lies_inside(self, namespace: [u8; 32], reference: AreaHead) -> bool
        ensures { result ≡ fields_lie_inside namespace reference self }
    {
        namespace == self.namespace_id
            && grouping::includes_subspace(reference.subspace, Some(self.subspace_id))
            && reference.times.includes(self.timestamp)
    }
}

impl<'a> Entry<'a> {
    // Whether an entry is well formed: for where it comes in.
    pub fn is_well_formed(self) -> bool
        ensures { result ≡ well_formed_entry (entry_lent self.entry) }
    {
        path::lent::well_formed(self.path)
    }

    // Whether an entry lies inside a namespace and an area.
    #[tactic(auto, using(grouping::proofs::Compare::both_sized), unfolding(crate::specs::Record::says_entry_inside, crate::specs::Entry::entry_lies_inside, crate::specs::Record::fields_lie_inside))]
    pub fn lies_inside(self, namespace: [u8; 32], area: Area<'a>) -> Result<bool, Malformed>
        ensures { said_of result ≡ says_entry_inside namespace (area_lent area.entry) (entry_lent self.entry) }
    {
        if !area.is_well_formed() || !self.is_well_formed() {
            return Err(Malformed);
        }
        if !self.fields.lies_inside(namespace, area.head) {
            return Ok(false);
        }
        path::lent::is_prefix_of(area.path, self.path)
    }
}
