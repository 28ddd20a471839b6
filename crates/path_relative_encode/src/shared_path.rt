// A path of which it is known how many components are shared, lent as its record: what is written is their number and the suffix after them.
ghost use Rattle.std.specs.Prelude.{◌≡◌, ◌&&◌, true, leb};
ghost use Rattle.path.specs.Record.{sized};
ghost use Rattle.path.specs.Flat.{path_in};

use codec::EncodeError;

// A path that has so many components and more.
#[derive(Clone, Copy)]
pub struct SharedPath<'a> {
    pub path: &'a [u8],
    pub shared: usize,
    pub ghost fits: { (sized (path_in path.now) && leb shared (path_in path.now).count) ≡ true },
}

impl<'a> SharedPath<'a> {
    ghost use Rattle.std.specs.Prelude.{◌≤◌, length, Ok};
    ghost use Rattle.codec.specs.Answers.{outcome_of};
    ghost use Rattle.codec.specs.Format.{allowed, over, put_answer, put_buffer};
    ghost use Rattle.path_suffix.specs.inside.Lengths.{max_against_length};
    ghost use Rattle.path_relative_encode.specs.Shared.{shared_bytes};

    // How many bytes it takes.
    pub fn len(self) -> usize
        ensures { (result ≡ length (shared_bytes self.entry)) × (result ≤ max_against_length) }
    {
        crate::sized::shared_len(self.path, self.shared).unwrap()
    }

    // Writes it.
    pub fn encode(self, buffer: &mut [u8]) -> Result<usize, EncodeError>
        ensures fits { length (shared_bytes self.entry) ≤ length buffer.old → (result ≡ Ok (length (shared_bytes self.entry))) × (buffer.new ≡ over (shared_bytes self.entry) buffer.old) }
        ensures writes { (outcome_of result ≡ put_answer allowed (shared_bytes self.entry) (length buffer.old)) × (buffer.new ≡ put_buffer allowed (shared_bytes self.entry) buffer.old) }
    {
        crate::sized::encode_shared(buffer, self.path, self.shared)
    }
}
