// The fields of an area in a line, read and printed: docs/CASES.md.

#![tactic(auto)]

ghost use Rattle.std.specs.Prelude.{◌≡◌, ◌≤◌, length, option_map};
ghost use Rattle.grouping.specs.Record.{area_lent};
ghost use Rattle.text.specs.Writer.{Writes, Keeps};
ghost use Rattle.case_text.specs.Bytes.{bytes_of};
ghost use Rattle.area_text.specs.AreaText.{read_subspace_text, read_end_text, subspace_text, end_text, area_text, area_field, field_area};

use case_text::{Bytes, MAX_BYTES, fields};
use grouping::{Area, AreaHead, AreaSubspace, RangeEnd, TimeRange};
use path::Path;
use text::Writer;

// An area that four fields say.
#[derive(Drop)]
pub struct AreaField {
    pub head: AreaHead,
    pub path: Path,
}

impl AreaField {
    ghost use Rattle.std.specs.Prelude.{◌≡◌};
    ghost use Rattle.grouping.specs.Record.{area_lent};
    ghost use Rattle.area_text.specs.AreaText.{field_area};

    pub fn area(&self) -> Area<'_>
        ensures { area_lent result ≡ field_area self.now }
    {
        Area {
            head: self.head,
            path: &self.path.flat,
        }
    }
}

// `*` is any subspace.
#[tactic(auto, using(text::proofs::OneByte::one_byte), unfolding(crate::specs::AreaText::read_subspace_text))]
pub fn read_subspace(s: &[u8]) -> Option<AreaSubspace>
    ensures { result ≡ read_subspace_text s.now }
{
    match s {
        b"*" => Some(None),
        _ => text::ids::read_id(s).map(Some),
    }
}

// `*` is an open end.
#[tactic(auto, using(text::proofs::OneByte::one_byte), unfolding(crate::specs::AreaText::read_end_text))]
pub fn read_end(s: &[u8]) -> Option<RangeEnd>
    ensures { result ≡ read_end_text s.now }
{
    match s {
        b"*" => Some(RangeEnd::Open),
        _ => decimal::read_decimal(s).map(RangeEnd::Closed),
    }
}

#[tactic(auto, using(text::proofs::HexSteps::hex_text_long))]
pub fn put_subspace(text: &mut Writer<'_>, subspace: AreaSubspace)
    ensures put { Writes (subspace_text subspace) text.old text.new }
    ensures few { length (subspace_text subspace) ≤ 64 }
    ensures same { Keeps text.old text.new }
{
    match subspace {
        Some(id) => text.put_hex(&id),
        None => text.put_bytes(b"*"),
    }
}

pub fn put_end(text: &mut Writer<'_>, end: RangeEnd)
    ensures put { Writes (end_text end) text.old text.new }
    ensures same { Keeps text.old text.new }
{
    match end {
        RangeEnd::Closed(time) => text.put_decimal(time),
        RangeEnd::Open => text.put_bytes(b"*"),
    }
}

// Reads the place-th field of a line and the three after it.
pub fn read_area(line: &[u8], place: u8) -> Option<AreaField>
    ensures { option_map field_area result ≡ area_field place line.now }
{
    let i = usize::from(place);
    let subspace = read_subspace(fields::part(line, i))?;
    let path = fields::path(line, i + 1)?;
    let start = fields::number(line, i + 2)?;
    let end = read_end(fields::part(line, i + 3))?;
    Some(AreaField {
        head: AreaHead {
            subspace,
            times: TimeRange { start, end },
        },
        path,
    })
}

// Prints an area.
pub fn print_area(area: Area<'_>) -> Bytes
    ensures { bytes_of result ≡ area_text (area_lent area.entry) }
{
    let mut bytes = [0u8; MAX_BYTES];
    let mut text = Writer::new(&mut bytes, 0);
    put_subspace(&mut text, area.head.subspace);
    text.put_bytes(b"\t");
    path_text::put_path(&mut text, area.path);
    text.put_bytes(b"\t");
    text.put_decimal(area.head.times.start);
    text.put_bytes(b"\t");
    put_end(&mut text, area.head.times.end);
    let len = text.at;
    case_text::first_bytes(bytes, len)
}
