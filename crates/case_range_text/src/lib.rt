// The fields of a 3d range in a case line: docs/CASES.md.

#![tactic(auto)]

ghost use Rattle.std.specs.Prelude.{◌≡◌, option_map};
ghost use Rattle.range_3d.specs.Range3d.{end_named};
ghost use Rattle.range_3d.specs.Record.{range_lent};
ghost use Rattle.path.specs.Flat.{path_in};
ghost use Rattle.text.specs.Writer.{Writes, Keeps};
ghost use Rattle.case_text.specs.Bytes.{bytes_of};
ghost use Rattle.case_range_text.specs.Fields.{end_held, read_path_end, range_field, field_range, path_end_text, range_text};

use case_text::{Bytes, MAX_BYTES, fields};
use grouping::TimeRange;
use path::Path;
use range_3d::{Range, Range3d, SubspaceRange};
use text::Writer;

// A 3d range that six fields say; no end of the paths is an open one.
#[derive(Drop)]
pub struct RangeField {
    pub subspaces: SubspaceRange,
    pub start: Path,
    pub end: Option<Path>,
    pub times: TimeRange,
}

impl RangeField {
    ghost use Rattle.std.specs.Prelude.{◌≡◌};
    ghost use Rattle.range_3d.specs.Record.{range_lent};
    ghost use Rattle.case_range_text.specs.Fields.{field_range};

    pub fn range(&self) -> Range3d<'_>
        ensures { range_lent result ≡ field_range self.now }
    {
        let end = self.end.as_ref().map(|path| path.flat.as_slice());
        Range3d {
            subspaces: self.subspaces,
            paths: Range {
                start: &self.start.flat,
                end,
            },
            times: self.times,
        }
    }
}

// `*` is an open end.
#[tactic(auto, using(text::proofs::OneByte::one_byte), unfolding(crate::specs::Fields::read_path_end))]
fn read_path_end(s: &[u8]) -> Option<Option<Path>>
    ensures { option_map end_held result ≡ read_path_end s.now }
{
    match s {
        b"*" => Some(None),
        _ => path_text::read_path(s).map(Some),
    }
}

// Reads the place-th field of a line and the five after it.
pub fn read_range(line: &[u8], place: u8) -> Option<RangeField>
    ensures { option_map field_range result ≡ range_field place line.now }
{
    let i = usize::from(place);
    let first_subspace = fields::id(line, i)?;
    let last_subspace = area_text::read_subspace(fields::part(line, i + 1))?;
    let start = fields::path(line, i + 2)?;
    let end = read_path_end(fields::part(line, i + 3))?;
    let first_time = fields::number(line, i + 4)?;
    let last_time = area_text::read_end(fields::part(line, i + 5))?;
    Some(RangeField {
        subspaces: Range {
            start: first_subspace,
            end: last_subspace,
        },
        start,
        end,
        times: TimeRange {
            start: first_time,
            end: last_time,
        },
    })
}

fn put_path_end(text: &mut Writer<'_>, end: Option<&[u8]>)
    ensures put { Writes (path_end_text (end_named (λ s. path_in s.now) end.entry)) text.old text.new }
    ensures same { Keeps text.old text.new }
{
    match end {
        Some(path) => path_text::put_path(text, path),
        None => text.put_bytes(b"*"),
    }
}

// Prints a 3d range.
pub fn print_range(range: Range3d<'_>) -> Bytes
    ensures { bytes_of result ≡ range_text (range_lent range.entry) }
{
    let mut bytes = [0u8; MAX_BYTES];
    let subspaces = range.subspaces;
    let times = range.times;
    let mut text = Writer::new(&mut bytes, 0);
    text.put_hex(&subspaces.start);
    text.put_bytes(b"\t");
    area_text::put_subspace(&mut text, subspaces.end);
    text.put_bytes(b"\t");
    path_text::put_path(&mut text, range.paths.start);
    text.put_bytes(b"\t");
    put_path_end(&mut text, range.paths.end);
    text.put_bytes(b"\t");
    text.put_decimal(times.start);
    text.put_bytes(b"\t");
    area_text::put_end(&mut text, times.end);
    let len = text.at;
    case_text::first_bytes(bytes, len)
}
