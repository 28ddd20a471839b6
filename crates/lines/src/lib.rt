// The lines of a stream in bounded memory: what of a buffer is kept for the next reading.

#![tactic(auto)]

ghost use Rattle.std.specs.Prelude.{◌≡◌, ◌≤◌, length};
ghost use Rattle.codec.specs.Format.{over};
ghost use Rattle.lines.specs.Stream.{kept};

// Moves the bytes from `at` to `end`, at most `limit` of them, to the front, and answers how many.
// Where the buffer ends before `end`, nothing is kept and nothing changes.
#[tactic(auto, using(crate::proofs::Keeping::keeping))]
pub fn keep(buf: &mut [u8], at: usize, end: usize, limit: usize) -> usize
    ensures { (result ≡ length (kept limit at end buf.old)) × (buf.new ≡ over (kept limit at end buf.old) buf.old) × (result ≤ limit) × (result ≤ length buf.new) }
{
    if buf.len() < end || end < at {
        return 0;
    }
    let n = limit.min(end - at);
    buf.copy_within(at..at + n, 0);
    n
}
