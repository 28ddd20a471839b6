// The suffix of a path that is lent as its record, whose sizes are tested.
ghost use Rattle.std.specs.Prelude.{◌≡◌, ◌≤◌, IfOk, IfErr, length, drop};
ghost use Rattle.codec.specs.Answers.{outcome_of, encode_number};
ghost use Rattle.codec.specs.Format.{refused_value, over, length_answer, WritesInto};
ghost use Rattle.path.specs.Record.{components_of, sized};
ghost use Rattle.path.specs.inside.Sizes.{Leads};
ghost use Rattle.path.specs.Flat.{path_in};
ghost use Rattle.path_suffix.specs.inside.Lengths.{max_suffix_length};
ghost use Rattle.path_suffix.specs.Suffix.{sizes_of, component_bytes, suffix_bytes, suffix_by};

use crate::suffix_header::{COUNT_WIDTH, HEADER_LENGTH, TOTAL_WIDTH};
use codec::EncodeError;
use path_suffix::Sizes;

// A path's components from the k-th on: its sizes are within the limits, and it has k components at least.
#[derive(Clone, Copy)]
struct Suffix<'a> {
    path: &'a [u8],
    k: usize,
    ghost leads: { Leads (path_in path.now) k },
}

impl<'a> Suffix<'a> {
    #[tactic(auto, using(path::proofs::Records::whole_in, path::proofs::Components::sized_formed))]
    fn new(path: &'a [u8], k: usize) -> Result<Suffix<'a>, EncodeError>
        ensures ok { IfOk result (λ s. (s.path.now ≡ path.now) × (s.k ≡ k)) }
        ensures err { IfErr result (λ e. (suffix_by sized k).check (path_in path.now) ≡ refused_value (encode_number e)) }
    {
        if !path::lent::sized(path) {
            return Err(EncodeError::Malformed);
        }
        if path::lent::count(path) < k {
            return Err(EncodeError::Outside);
        }
        Ok(Suffix { path, k })
    }

    // Their total length and their count.
    #[tactic(auto, using(path::proofs::Records::whole_in, path::proofs::Components::sized_formed, crate::proofs::Records::suffix_sizes))]
    fn sizes(self) -> Sizes
        ensures { result ≡ sizes_of (drop self.entry.k (components_of (path_in self.entry.path.now))) }
    {
        let n = path::lent::count(self.path);
        Sizes {
            total: path::lent::span(self.path, self.k, n) as u64,
            count: (n - self.k) as u64,
        }
    }

    // How many bytes they are written as.
    #[tactic(auto, using(path::proofs::Records::whole_in, path::proofs::Components::sized_formed, crate::proofs::Records::none_left, crate::proofs::Records::one_more_long, crate::proofs::Records::last_one_long, crate::proofs::Records::some_short))]
    fn components_len(self) -> usize
        ensures { (result ≡ length (component_bytes (drop self.entry.k (components_of (path_in self.entry.path.now))))) × (result ≤ max_suffix_length) }
    {
        let Suffix { path, k } = self;
        let n = path::lent::count(path);
        if n == k {
            return 0;
        }
        let mut t = 0;
        for i in k..n - 1 {
            let len = path::lent::component_len(path, i);
            t += compact_u64::len_of_encoding(len as u64) + len;
        }
        t + path::lent::component_len(path, n - 1)
    }

    // Writes them.
    #[tactic(auto, using(path::proofs::Records::whole_in, path::proofs::Components::sized_formed, crate::proofs::Records::none_left))]
    fn put_components(self, buffer: &mut [u8])
        requires { length (component_bytes (drop self.k (components_of (path_in self.path.now)))) ≤ length buffer.old }
        ensures { buffer.new ≡ over (component_bytes (drop self.entry.k (components_of (path_in self.entry.path.now)))) buffer.old }
    {
        let Suffix { path, k } = self;
        let n = path::lent::count(path);
        if n == k {
            return;
        }
        let bytes = path::lent::bytes(path);
        let mut from = path::lent::span(path, 0, k);
        let mut at = 0;
        for i in k..n - 1 {
            let to = from + path::lent::component_len(path, i);
            at += crate::put_sized(&mut buffer[at..], &bytes[from..to]);
            from = to;
        }
        let len = path::lent::component_len(path, n - 1);
        byte_codec::put_bytes(&mut buffer[at..at + len], &bytes[from..from + len]).unwrap();
    }

    // How many bytes the suffix takes.
    #[tactic(auto, using(path::proofs::Components::sized_formed, path_suffix::proofs::Writing::sizes_long, path_suffix::proofs::Writing::suffix_parts, crate::proofs::Records::all_short_lem))]
    fn len(self) -> usize
        ensures { (result ≡ length (suffix_bytes (drop self.entry.k (components_of (path_in self.entry.path.now))))) × (result ≤ max_suffix_length) }
    {
        let Sizes { total, count } = self.sizes();
        HEADER_LENGTH
            + compact_u64::relative_len_of_pair(TOTAL_WIDTH, total, COUNT_WIDTH, count)
            + self.components_len()
    }

    // Writes it, where there is room.
    #[tactic(auto, using(path_suffix::proofs::Writing::suffix_parts))]
    fn put(self, buffer: &mut [u8])
        requires { length (suffix_bytes (drop self.k (components_of (path_in self.path.now)))) ≤ length buffer.old }
        ensures { buffer.new ≡ over (suffix_bytes (drop self.entry.k (components_of (path_in self.entry.path.now)))) buffer.old }
    {
        let a = crate::put_sizes(buffer, self.sizes());
        self.put_components(&mut buffer[a..]);
    }
}

// How many bytes the suffix from the k-th component on takes.
pub fn suffix_len(path: &[u8], k: usize) -> Result<usize, EncodeError>
    ensures { outcome_of result ≡ length_answer (suffix_by sized k) (path_in path.now) }
{
    let suffix = Suffix::new(path, k)?;
    Ok(suffix.len())
}

// Writes the suffix from the k-th component on.
pub fn encode_suffix(buffer: &mut [u8], path: &[u8], k: usize) -> Result<usize, EncodeError>
    ensures { WritesInto (suffix_by sized k) (path_in path.now) result buffer.old buffer.new }
{
    let suffix = Suffix::new(path, k)?;
    let len = suffix.len();
    if buffer.len() < len {
        return Err(EncodeError::NoRoom);
    }
    suffix.put(buffer);
    Ok(len)
}
