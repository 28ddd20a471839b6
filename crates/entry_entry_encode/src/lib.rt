// Writing entries against an entry: docs/FORMAT.md, "Entries against an entry". A port of relative_encodings/entry_entry.rs.

#![tactic(auto)]

ghost use Rattle.std.specs.Prelude.{◌≡◌};
ghost use Rattle.codec.specs.Answers.{outcome_of};
ghost use Rattle.codec.specs.Format.{length_answer, WritesInto};
ghost use Rattle.entry.specs.Record.{entry_lent};
ghost use Rattle.entry_entry.specs.Records.{against_entry};

use codec::EncodeError;
use entry::Entry;
use entry_encode::Difference;

mod entry_encode;

// How many bytes an entry against a reference takes.
#[tactic(auto, using(codec::proofs::Lending::length_allowed))]
pub fn relative_len_of_encoding<'a>(
    entry: Entry<'a>,
    reference: Entry<'a>,
) -> Result<usize, EncodeError>
    ensures { outcome_of result ≡ length_answer (against_entry (entry_lent reference.entry)) (entry_lent entry.entry) }
{
    let told = Difference::between(entry, reference)?;
    Ok(told.len())
}

// Writes an entry against a reference.
pub fn relative_encode<'a>(
    buffer: &mut [u8],
    entry: Entry<'a>,
    reference: Entry<'a>,
) -> Result<usize, EncodeError>
    ensures { WritesInto (against_entry (entry_lent reference.entry)) (entry_lent entry.entry) result buffer.old buffer.new }
{
    Difference::between(entry, reference)?.encode(buffer)
}
