// To write paths that are lent as their records, whose sizes are tested: what each shares with the nearer path of the reference, and how many bytes it takes.
ghost use Rattle.std.specs.Prelude.{◌≡◌};
ghost use Rattle.codec.specs.Answers.{said_of};
ghost use Rattle.path.specs.Flat.{path_in};
ghost use Rattle.range_3d.specs.Record.{paths_lent};
ghost use Rattle.range_paths.specs.Records.{measure_in};
ghost use Rattle.range_paths.specs.inside.Writing.{near_in};

use crate::{MeasuredPaths, NearPath};
use codec::Malformed;
use path_relative_encode::shared_path::SharedPath;
use range_3d::PathRange;

// The nearer path of the reference.
fn nearest<'a>(path: &'a [u8], reference: PathRange<'a>) -> Result<NearPath, Malformed>
    ensures { said_of result ≡ near_in (paths_lent reference.entry) (path_in path.now) }
{
    let shared = path::lent::longest_common_prefix(reference.start, path)?;
    if let Some(end) = reference.end {
        let with_end = path::lent::longest_common_prefix(end, path)?;
        if shared < with_end {
            return Ok(NearPath {
                from_start: false,
                shared: with_end,
            });
        }
    }
    Ok(NearPath {
        from_start: true,
        shared,
    })
}

// What writing paths against those of a reference needs to know.
pub fn measure<'a>(
    paths: PathRange<'a>,
    reference: PathRange<'a>,
) -> Result<MeasuredPaths, Malformed>
    ensures { said_of result ≡ measure_in (paths_lent reference.entry) (paths_lent paths.entry) }
{
    let start = nearest(paths.start, reference)?;
    let start_len = SharedPath {
        path: paths.start,
        shared: start.shared,
    }
    .len();
    let Some(path) = paths.end else {
        return Ok(MeasuredPaths {
            start,
            end: None,
            len: start_len,
        });
    };
    let end = nearest(path, reference)?;
    let shared = end.shared;
    Ok(MeasuredPaths {
        start,
        end: Some(end),
        len: start_len + SharedPath { path, shared }.len(),
    })
}
