// An area: the mark of any subspace, the id, the path, the times.
ghost use Rattle.std.specs.Prelude.{◌≡◌, ◌↔◌, false, length, take, drop, IfOk, IsErr};
ghost use Rattle.path.specs.Flat.{path_size, path_in};
ghost use Rattle.grouping.specs.Record.{head_of, area_with, area_lent};
ghost use Rattle.flat.specs.AreaRecord.{area_marked, area_in, area_flat};

use codec::Malformed;
use grouping::{Area, AreaHead};

// Where an area's parts start, and how many bytes it has.
const PATH: usize = 33;

const TIMES: usize = PATH + path::lent::SIZE;

pub const SIZE: usize = TIMES + crate::times::SIZE;

// What an area has beside its path, and the record of its path, whatever the marks.
#[tactic(auto, unfolding(flat::specs::AreaRecord::area_in))]
pub fn head(flat: &[u8; SIZE]) -> AreaHead
    ensures { result ≡ head_of (area_in flat.now) }
{
    AreaHead {
        subspace: crate::optional(flat).copied(),
        times: crate::times::times_in(crate::part(crate::after(flat, TIMES))),
    }
}

pub fn path(flat: &[u8; SIZE]) -> &[u8]
    ensures { (result.now ≡ take path_size (drop 33 flat.now)) × (length result.now ≡ path_size) }
{
    crate::path(crate::after(flat, PATH))
}

// Whether the marks are 0 or 1, and zeros stand beside those of any subspace and of an open end.
#[tactic(auto, unfolding(flat::specs::AreaRecord::area_marked))]
pub fn is_marked(flat: &[u8; SIZE]) -> bool
    ensures { result ≡ area_marked flat.now }
{
    crate::is_marked(flat, 32) && crate::times::is_marked(crate::part(crate::after(flat, TIMES)))
}

// The area that bytes are, its path lent; bytes whose marks are none are no area's.
#[tactic(auto, using(flat::proofs::AreaLaws::area_lent))]
pub fn load<'a>(flat: &'a [u8; SIZE]) -> Result<Area<'a>, Malformed>
    ensures ok { IfOk result (λ area. area_lent area ≡ area_in flat.now) }
    ensures err { IsErr result ↔ (area_marked flat.now ≡ false) }
{
    if !is_marked(flat) {
        return Err(Malformed);
    }
    Ok(Area {
        head: head(flat),
        path: path(flat),
    })
}

pub fn store(flat: &mut [u8; SIZE], head: AreaHead, path: &[u8; path::lent::SIZE])
    ensures { flat.new ≡ area_flat (area_with head (path_in path.now)) }
{
    crate::put_optional(flat, head.subspace.as_ref());
    crate::put(&mut flat[PATH..], path);
    crate::times::put_times(&mut flat[TIMES..], head.times);
}
