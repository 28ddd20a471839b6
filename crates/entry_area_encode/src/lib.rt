// Writing entries against a namespace and an area: docs/FORMAT.md, "Entries". A port of relative_encodings/entry_area.rs.

#![tactic(auto)]

ghost use Rattle.std.specs.Prelude.{◌≡◌};
ghost use Rattle.codec.specs.Answers.{outcome_of};
ghost use Rattle.codec.specs.Format.{length_answer, WritesInto};
ghost use Rattle.grouping.specs.Record.{area_lent};
ghost use Rattle.entry.specs.Record.{entry_lent};
ghost use Rattle.entry_area.specs.Records.{against_namespace_area};

use codec::EncodeError;
use entry::Entry;
use entry_encode::Difference;
use grouping::Area;

mod entry_encode;

// How many bytes an entry against a namespace and an area takes.
#[tactic(auto, using(codec::proofs::Lending::length_allowed))]
pub fn relative_len_of_encoding<'a>(
    entry: Entry<'a>,
    namespace: [u8; 32],
    reference: Area<'a>,
) -> Result<usize, EncodeError>
    ensures { outcome_of result ≡ length_answer (against_namespace_area namespace (area_lent reference.entry)) (entry_lent entry.entry) }
{
    let told = Difference::within(entry, namespace, reference)?;
    Ok(told.len())
}

// Writes an entry against a namespace and an area.
pub fn relative_encode<'a>(
    buffer: &mut [u8],
    entry: Entry<'a>,
    namespace: [u8; 32],
    reference: Area<'a>,
) -> Result<usize, EncodeError>
    ensures { WritesInto (against_namespace_area namespace (area_lent reference.entry)) (entry_lent entry.entry) result buffer.old buffer.new }
{
    Difference::within(entry, namespace, reference)?.encode(buffer)
}
