// Paths that grow by components in a lent record: a port of path/builder.rs.
ghost use Rattle.std.specs.Prelude.{◌≡◌, [], ◌∷◌, true, length, take};
ghost use Rattle.path.specs.Record.{components_of, start_at};
ghost use Rattle.path.specs.inside.Sizes.{Leads};
ghost use Rattle.path.specs.Flat.{path_in};
ghost use Rattle.path.specs.Builder.{builder_of, fits_after, record_more, Appends, Prefixes};

use crate::{Path, PathBuilder, PathError, lent};

// The first `k` components of a path, of `total` bytes, as they stand in its record.
#[tactic(auto, using(crate::proofs::Components::sized_formed, crate::proofs::Components::start_small, crate::proofs::Records::whole_in))]
fn put_prefix(out: &mut [u8; lent::SIZE], path: &[u8], k: usize, total: usize)
    requires { Leads (path_in path.now) k × (total ≡ start_at (path_in path.now) k) }
    ensures { out.new ≡ record_more 0 0 (take k (components_of (path_in path.now))) out.old }
{
    let end = lent::BYTES + total;
    let lengths_end = lent::LENGTHS + 2 * k;
    byte_codec::put_bytes(&mut out[lent::BYTES..end], &path[lent::BYTES..end]).unwrap();
    byte_codec::put_bytes(
        &mut out[lent::LENGTHS..lengths_end],
        &path[lent::LENGTHS..lengths_end],
    )
    .unwrap();
    out[0] = k as u8;
}

impl PathBuilder {
    pub fn new() -> PathBuilder
        ensures { result ≡ builder_of 0 0 }
    {
        PathBuilder { total: 0, count: 0 }
    }

    // Whether a component of `n` bytes fits after those that are there.
    #[tactic(auto, using(crate::proofs::Builder::room_left), unfolding(crate::specs::Builder::fits_after))]
    fn fits(self, n: usize) -> bool
        ensures { result ≡ fits_after self.total self.count n }
    {
        n <= Path::MAX_COMPONENT_LENGTH
            && self.count < Path::MAX_COMPONENT_COUNT
            && self.total <= Path::MAX_PATH_LENGTH
            && n <= Path::MAX_PATH_LENGTH - self.total
    }

    // A component after those that are there.
    #[tactic(auto, using(crate::proofs::Builder::fitting))]
    fn put_component(self, out: &mut [u8; lent::SIZE], component: &[u8])
        requires { fits_after self.total self.count (length component.now) ≡ true }
        ensures { out.new ≡ record_more self.total self.count (component.now ∷ []) out.old }
    {
        let at = lent::BYTES + self.total;
        byte_codec::put_bytes(&mut out[at..at + component.len()], component).unwrap();
        let length_at = lent::LENGTHS + 2 * self.count;
        out[length_at..length_at + 2].copy_from_slice(&(component.len() as u16).to_be_bytes());
        out[0] = (self.count + 1) as u8;
    }

    // One component more; its bytes and its length go after those that are there.
    #[tactic(auto, using(crate::proofs::Builder::fitting))]
    pub fn append_component(
        mut self,
        out: &mut [u8; lent::SIZE],
        component: &[u8],
    ) -> Result<PathBuilder, PathError>
        ensures { Appends self component.now out.old result out.new }
    {
        let n = component.len();
        if !self.fits(n) {
            return Err(PathError::Outside);
        }
        self.put_component(out, component);
        self.total += n;
        self.count += 1;
        Ok(self)
    }

    // The builder of a path's first `k` components, their bytes and their lengths each copied at once; beside a refusal the record is the empty one.
    #[tactic(auto, using(crate::proofs::Components::sized_formed, crate::proofs::Records::whole_in, crate::proofs::Records::span_start, crate::proofs::Growing::flat_empty))]
    pub fn new_from_prefix(
        path: &[u8],
        k: usize,
        out: &mut [u8; lent::SIZE],
    ) -> Result<PathBuilder, PathError>
        ensures { Prefixes (path_in path.now) k result out.new }
    {
        lent::clear(out);
        if !lent::sized(path) {
            return Err(PathError::Malformed);
        }
        if lent::count(path) < k {
            return Err(PathError::Outside);
        }
        let total = lent::span(path, 0, k);
        put_prefix(out, path, k, total);
        Ok(PathBuilder { total, count: k })
    }
}
