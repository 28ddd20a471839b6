// Writing areas against an area: docs/FORMAT.md, "Areas". A port of relative_encodings/area_area.rs.

#![tactic(auto)]

ghost use Rattle.std.specs.Prelude.{◌≡◌, OnOk, IfErr};
ghost use Rattle.codec.specs.Answers.{encode_number, outcome_of};
ghost use Rattle.codec.specs.Format.{refused_value, length_answer, WritesInto};
ghost use Rattle.grouping.specs.Record.{area_lent};
ghost use Rattle.area_area.specs.Records.{against_area};
ghost use Rattle.area_area.specs.inside.Writing.{IsInHead};

use codec::EncodeError;
use grouping::Area;

mod area_encode;

// The tests before the paths are compared: 5, then 3 as far as subspaces and times tell.
fn check<'a>(area: Area<'a>, reference: Area<'a>) -> Result<(), EncodeError>
    ensures ok { OnOk result (IsInHead (area_lent reference.entry) (area_lent area.entry)) }
    ensures err { IfErr result (λ error. (against_area (area_lent reference.entry)).check (area_lent area.entry) ≡ refused_value (encode_number error)) }
{
    if !reference.both_formed(area) {
        return Err(EncodeError::Malformed);
    }
    if !reference.head.contains(area.head) {
        return Err(EncodeError::Outside);
    }
    Ok(())
}

// How many bytes an area against a reference takes.
pub fn relative_len_of_encoding<'a>(
    area: Area<'a>,
    reference: Area<'a>,
) -> Result<usize, EncodeError>
    ensures { outcome_of result ≡ length_answer (against_area (area_lent reference.entry)) (area_lent area.entry) }
{
    check(area, reference)?;
    let path = path_relative_encode::sized::path_extends_path_encoding_len(
        area.path,
        reference.path,
    )?;
    Ok(area_encode::head_len(area.head, reference.head) + path)
}

// Writes an area against a reference: the path before what comes first, since it is what may not fit.
pub fn relative_encode<'a>(
    buffer: &mut [u8],
    area: Area<'a>,
    reference: Area<'a>,
) -> Result<usize, EncodeError>
    ensures { WritesInto (against_area (area_lent reference.entry)) (area_lent area.entry) result buffer.old buffer.new }
{
    check(area, reference)?;
    let head = area_encode::head_len(area.head, reference.head);
    if buffer.len() < head {
        let whole = relative_len_of_encoding(area, reference);
        return byte_codec::in_room(whole, buffer.len());
    }
    let path = path_relative_encode::sized::encode_path_extends_path(
        &mut buffer[head..],
        area.path,
        reference.path,
    )?;
    area_encode::put_head(buffer, area.head, reference.head);
    Ok(head + path)
}
