// A 3d range: subspace start, mark, end; path start, mark, end; times. The marks say that an end is open.
ghost use Rattle.std.specs.Prelude.{◌≡◌, ◌↔◌, [], true, false, length, take, drop, IfOk, IsErr};
ghost use Rattle.path.specs.Record.{path_from};
ghost use Rattle.path.specs.Flat.{path_size, path_in};
ghost use Rattle.range_3d.specs.Record.{head_of, range_with, range_lent};
ghost use Rattle.flat.specs.RangeRecord.{range_path_end, range_marked, range_in, range_flat, range_stored};

use codec::Malformed;
use range_3d::{PathRange, Range3d, Range3dHead, SubspaceRange};

// Where a 3d range's parts start, and how many bytes it has.
const SUBSPACE_END: usize = 32;

const PATH_START: usize = 65;

const PATH_OPEN: usize = PATH_START + path::lent::SIZE;

const PATH_END: usize = PATH_OPEN + 1;

const TIMES: usize = PATH_END + path::lent::SIZE;

pub const SIZE: usize = TIMES + crate::times::SIZE;

// What a 3d range has beside its paths, and the records of its paths, whatever the marks.
#[tactic(auto, unfolding(flat::specs::RangeRecord::range_in))]
pub fn head(flat: &[u8; SIZE]) -> Range3dHead
    ensures { result ≡ head_of (range_in flat.now) }
{
    Range3dHead {
        subspaces: SubspaceRange {
            start: *crate::part(flat),
            end: crate::optional(crate::after(flat, SUBSPACE_END)).copied(),
        },
        end_open: flat[PATH_OPEN] == 1,
        times: crate::times::times_in(crate::part(crate::after(flat, TIMES))),
    }
}

pub fn path_start(flat: &[u8; SIZE]) -> &[u8]
    ensures { (result.now ≡ take path_size (drop 65 flat.now)) × (length result.now ≡ path_size) }
{
    crate::path(crate::after(flat, PATH_START))
}

// What stands after the mark of an open end, also where that says that the end is open.
pub fn path_end(flat: &[u8; SIZE]) -> &[u8]
    ensures { (result.now ≡ take path_size (drop range_path_end flat.now)) × (length result.now ≡ path_size) }
{
    crate::path(crate::after(flat, PATH_END))
}

// Whether the marks are 0 or 1, and zeros stand beside those of open ends.
#[tactic(auto, unfolding(flat::specs::RangeRecord::range_marked))]
pub fn is_marked(flat: &[u8; SIZE]) -> bool
    ensures { result ≡ range_marked flat.now }
{
    crate::is_marked(crate::after(flat, SUBSPACE_END), 32)
        && crate::is_marked(crate::after(flat, PATH_OPEN), path::lent::SIZE)
        && crate::times::is_marked(crate::part(crate::after(flat, TIMES)))
}

// The 3d range that bytes are, its paths lent; bytes whose marks are none are no 3d range's.
pub fn load<'a>(flat: &'a [u8; SIZE]) -> Result<Range3d<'a>, Malformed>
    ensures ok { IfOk result (λ range. range_lent range ≡ range_in flat.now) }
    ensures err { IsErr result ↔ (range_marked flat.now ≡ false) }
{
    if !is_marked(flat) {
        return Err(Malformed);
    }
    let head = head(flat);
    Ok(Range3d {
        subspaces: head.subspaces,
        paths: PathRange {
            start: path_start(flat),
            end: (!head.end_open).then_some(path_end(flat)),
        },
        times: head.times,
    })
}

// Stores a 3d range by its head and the records of its paths; the second is stored as it is, also beside an open end.
pub fn store(
    flat: &mut [u8; SIZE],
    head: Range3dHead,
    start: &[u8; path::lent::SIZE],
    end: &[u8; path::lent::SIZE],
)
    ensures stored { flat.new ≡ range_stored head (path_in start.now) (path_in end.now) }
    ensures range { (head.end_open ≡ true → path_in end.now ≡ path_from []) → flat.new ≡ range_flat (range_with head (path_in start.now) (path_in end.now)) }
{
    crate::put(flat, &head.subspaces.start);
    crate::put_optional(&mut flat[SUBSPACE_END..], head.subspaces.end.as_ref());
    crate::put(&mut flat[PATH_START..], start);
    flat[PATH_OPEN] = u8::from(head.end_open);
    crate::put(&mut flat[PATH_END..], end);
    crate::times::put_times(&mut flat[TIMES..], head.times);
}

// Stores a 3d range by its head and the records of its paths, zeros beside an open end, whatever path is given there.
pub fn store_range(
    flat: &mut [u8; SIZE],
    head: Range3dHead,
    start: &[u8; path::lent::SIZE],
    end: &[u8; path::lent::SIZE],
)
    ensures { flat.new ≡ range_flat (range_with head (path_in start.now) (path_in end.now)) }
{
    if head.end_open {
        store(flat, head, start, &[0; path::lent::SIZE]);
    } else {
        store(flat, head, start, end);
    }
}
