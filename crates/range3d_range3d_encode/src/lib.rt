// Writing 3d ranges against a 3d range: docs/FORMAT.md, "3d ranges". A port of relative_encodings/range3d_range3d.rs.

#![tactic(auto)]

ghost use Rattle.std.specs.Prelude.{◌≡◌};
ghost use Rattle.codec.specs.Answers.{outcome_of};
ghost use Rattle.codec.specs.Format.{length_answer, WritesInto};
ghost use Rattle.range_3d.specs.Record.{range_lent};
ghost use Rattle.range3d_range3d.specs.Records.{against_range};

use codec::EncodeError;
use range_3d::Range3d;
use range_encode::Difference;

mod range_encode;

// How many bytes a 3d range against a reference takes.
pub fn relative_len_of_encoding<'a>(
    range: Range3d<'a>,
    reference: Range3d<'a>,
) -> Result<usize, EncodeError>
    ensures { outcome_of result ≡ length_answer (against_range (range_lent reference.entry)) (range_lent range.entry) }
{
    let told = Difference::between(range, reference)?;
    Ok(told.len())
}

// Writes a 3d range against a reference.
pub fn relative_encode<'a>(
    buffer: &mut [u8],
    range: Range3d<'a>,
    reference: Range3d<'a>,
) -> Result<usize, EncodeError>
    ensures { WritesInto (against_range (range_lent reference.entry)) (range_lent range.entry) result buffer.old buffer.new }
{
    Difference::between(range, reference)?.encode(buffer)
}
