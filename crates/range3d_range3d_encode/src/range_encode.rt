// A 3d range against another, and how it is written.
ghost use Rattle.std.specs.Prelude.{◌≡◌};
ghost use Rattle.codec.specs.Answers.{said, said_of};
ghost use Rattle.range_3d.specs.Record.{range_lent};
ghost use Rattle.range3d_range3d.specs.inside.Writing.{measure_range};

use codec::{EncodeError, Malformed};
use range_3d::Range3d;
use range_header::{HEADER_LENGTH, Range3dHeader};
use range_paths::MeasuredPaths;

// What writing a 3d range needs to know of its paths. Both records are tested here.
fn measure<'a>(range: Range3d<'a>, reference: Range3d<'a>) -> Result<MeasuredPaths, Malformed>
    ensures { said_of result ≡ measure_range (range_lent reference.entry) (range_lent range.entry) }
{
    if !reference.is_well_formed() || !range.is_well_formed() {
        return Err(Malformed);
    }
    range_paths::sized::measure(range.paths, reference.paths)
}

// A 3d range beside its reference, and what was measured of its paths.
#[derive(Clone, Copy)]
pub(crate) struct Difference<'a> {
    range: Range3d<'a>,
    reference: Range3d<'a>,
    paths: MeasuredPaths,
    ghost told: { said paths ≡ measure_range (range_lent reference) (range_lent range) },
}

impl<'a> Difference<'a> {
    ghost use Rattle.std.specs.Prelude.{◌≤◌, length, Ok, IfOk, IfErr};
    ghost use Rattle.codec.specs.Answers.{encode_number, outcome_of};
    ghost use Rattle.codec.specs.Format.{refused_value, over, length_answer, WritesInto};
    ghost use Rattle.range_3d.specs.Record.{paths_lent};
    ghost use Rattle.range_paths.specs.inside.Writing.{both_bytes};
    ghost use Rattle.range_header.specs.Header.{header_length};
    ghost use Rattle.range3d_range3d.specs.Records.{against_range};
    ghost use Rattle.range3d_range3d.specs.inside.Writing.{head_with};

    pub(crate) fn between(
        range: Range3d<'a>,
        reference: Range3d<'a>,
    ) -> Result<Difference<'a>, EncodeError>
        ensures ok { IfOk result (λ d. (d.range ≡ range.entry) × (d.reference ≡ reference.entry)) }
        ensures err { IfErr result (λ error. (against_range (range_lent reference.entry)).check (range_lent range.entry) ≡ refused_value (encode_number error)) }
    {
        let paths = measure(range, reference)?;
        Ok(Difference {
            range,
            reference,
            paths,
        })
    }

    // How many bytes the range takes.
    pub(crate) fn len(self) -> usize
        ensures { outcome_of (Ok result) ≡ length_answer (against_range (range_lent self.entry.reference)) (range_lent self.entry.range) }
    {
        let Difference {
            range,
            reference,
            paths,
        } = self;
        let subspaces = range_subspaces::relative_len_of_encoding(
            range.subspaces,
            reference.subspaces,
        );
        let times = range_times::relative_len_of_encoding(range.times, reference.times);
        HEADER_LENGTH + subspaces + paths.len + times
    }

    // The header bytes.
    fn put_head(self, buffer: &mut [u8])
        requires { header_length ≤ length buffer.old }
        ensures { buffer.new ≡ over (head_with (range_lent self.entry.reference) (range_lent self.entry.range) self.entry.paths) buffer.old }
    {
        let Difference {
            range,
            reference,
            paths,
        } = self;
        let sources = range_subspaces::sources_of(range.subspaces, reference.subspaces);
        buffer[0] = range_header::pack(Range3dHeader {
            subspace_start: sources.start,
            subspace_end: sources.end,
            path_start_from_start: paths.start.from_start,
            path_end_open: range.paths.end.is_none(),
            path_end_from_start: paths.end.is_some_and(|near| near.from_start),
            times_end_open: range.times.end.is_open(),
        });
        buffer[1] = range_times::header_byte(range.times, reference.times);
    }

    // Both paths after what they share.
    fn put_paths(self, buffer: &mut [u8])
        requires { length (both_bytes (paths_lent self.range.paths) self.paths) ≤ length buffer.old }
        ensures { buffer.new ≡ over (both_bytes (paths_lent self.entry.range.paths) self.entry.paths) buffer.old }
    {
        let paths = self.range.paths;
        let shared = self.paths.start.shared;
        let n = path_relative_encode::sized::encode_shared(buffer, paths.start, shared).unwrap();
        if let Some(end) = paths.end {
            let shared = self.paths.end.unwrap().shared;
            path_relative_encode::sized::encode_shared(&mut buffer[n..], end, shared).unwrap();
        }
    }

    // Writes the range.
    pub(crate) fn encode(self, buffer: &mut [u8]) -> Result<usize, EncodeError>
        ensures { WritesInto (against_range (range_lent self.entry.reference)) (range_lent self.entry.range) result buffer.old buffer.new }
    {
        let Difference {
            range,
            reference,
            paths,
        } = self;
        let s = HEADER_LENGTH
            + range_subspaces::relative_len_of_encoding(range.subspaces, reference.subspaces);
        let t = s + paths.len;
        let whole = t + range_times::relative_len_of_encoding(range.times, reference.times);
        if buffer.len() < whole {
            return Err(EncodeError::NoRoom);
        }
        self.put_head(buffer);
        let subspaces = &mut buffer[HEADER_LENGTH..];
        range_subspaces::relative_encode(subspaces, range.subspaces, reference.subspaces).unwrap();
        self.put_paths(&mut buffer[s..]);
        range_times::relative_encode(&mut buffer[t..], range.times, reference.times).unwrap();
        Ok(whole)
    }
}
