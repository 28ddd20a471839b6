// Texts of at most MAX_BYTES bytes.
ghost use Rattle.std.specs.Prelude.{◌≤◌, length};
ghost use Rattle.case_text.specs.Limits.{max_bytes};

use crate::{Buffer, MAX_BYTES};

// The first `len` bytes.
#[derive(Clone, Copy)]
pub struct Bytes {
    pub bytes: [u8; MAX_BYTES],
    pub len: usize,
    ghost inside: { len ≤ max_bytes },
}

impl Bytes {
    ghost use Rattle.std.specs.Prelude.{◌≡◌};
    ghost use Rattle.case_text.specs.Bytes.{bytes_of, text_of};

    pub fn as_slice(&self) -> &[u8]
        ensures { result.now ≡ bytes_of self.now }
    {
        &self.bytes[..self.len]
    }

    // The same as a text that is lent.
    pub fn text(&self) -> Text<'_>
        ensures { text_of result ≡ bytes_of self.now }
    {
        Text {
            bytes: self.as_slice(),
        }
    }

    // A copy that lies in a buffer.
    pub fn copy_to<'a>(&self, buffer: &'a mut Buffer) -> Text<'a>
        ensures { text_of result ≡ bytes_of self.now }
    {
        buffer[..self.len].copy_from_slice(self.as_slice());
        Text::first(buffer, self.len)
    }
}

// Bytes that lie in a buffer.
#[derive(Clone, Copy)]
pub struct Text<'a> {
    pub bytes: &'a [u8],
    ghost few: { length bytes.now ≤ max_bytes },
}

impl<'a> Text<'a> {
    ghost use Rattle.std.specs.Prelude.{◌≡◌, take};
    ghost use Rattle.case_text.specs.Bytes.{bytes_of, text_of};

    // A copy of its own.
    pub fn to_bytes(&self) -> Bytes
        ensures { bytes_of result ≡ text_of self.now }
    {
        let len = self.bytes.len();
        let mut bytes = [0u8; MAX_BYTES];
        bytes[..len].copy_from_slice(self.bytes);
        Bytes { bytes, len }
    }

    // The first bytes of a buffer.
    pub fn first(buffer: &'a Buffer, len: usize) -> Text<'a>
        ensures { text_of result ≡ take len buffer.now }
    {
        Text {
            bytes: &buffer[..len.min(MAX_BYTES)],
        }
    }
}
