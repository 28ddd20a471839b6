// What case lines share: the fields that they are read from, the texts that answer them (docs/CASES.md).

#![tactic(auto)]

ghost use Rattle.std.specs.Prelude.{◌≡◌, take};
ghost use Rattle.case_text.specs.Bytes.{bytes_of};

use codec::{DecodeError, Decoded, EncodeError};

pub mod fields;
pub mod put;
mod texts;

pub use texts::{Bytes, Text};

// The bytes of a message or a lent buffer: all that a line can hold.
pub const MAX_BYTES: usize = 8192;

// A line's message or lent buffer is read into it, and the bytes of the answer lie in it.
pub type Buffer = [u8; MAX_BYTES];

// The free bytes that any answer asks for.
pub const MAX_ANSWER: usize = 2 * MAX_BYTES + 256;

// The operation that a line asks for.
#[derive(Clone, Copy)]
pub enum Op {
    Strict,
    Lenient,
    Write,
    Length,
}

// The first bytes of an array.
pub fn first_bytes(array: [u8; MAX_BYTES], n: usize) -> Bytes
    ensures { bytes_of result ≡ take n array }
{
    Bytes {
        bytes: array,
        len: n.min(MAX_BYTES),
    }
}

// A message that is read from a byte on, strictly or not.
#[derive(Clone, Copy)]
pub struct Message {
    pub canonic: bool,
    pub start: usize,
    pub bytes: Bytes,
}

// The same that is the first `len` bytes of a lent buffer.
#[derive(Clone, Copy)]
pub struct MessageIn {
    pub canonic: bool,
    pub start: usize,
    pub len: usize,
}

impl MessageIn {
    ghost use Rattle.std.specs.Prelude.{◌≡◌, take};

    // The message; all of the buffer where it has no more.
    pub fn bytes_in(self, buffer: &[u8]) -> &[u8]
        ensures { result.now ≡ take self.len buffer.now }
    {
        &buffer[..self.len.min(buffer.len())]
    }
}

// What a line asks for: a message read; a value written into a lent buffer, or measured.
#[derive(Clone, Copy)]
pub enum Asked {
    Read(Message),
    Write(Bytes),
    Length,
}

// The same in a lent buffer: how many of its first bytes are the message, or the buffer to write into.
#[derive(Clone, Copy)]
pub enum AskedIn {
    Read(MessageIn),
    Write(usize),
    Length,
}

// What answers a line that is in its form.
#[derive(Clone, Copy)]
pub enum Answer {
    // What was read, as it prints, and how many bytes it took.
    Read {
        consumed: usize,
        text: Bytes,
    },
    Number(Decoded<u64>),
    NotRead(DecodeError),
    // What a writer answered, and the lent buffer afterwards; of a number that was written its tag too.
    Written {
        outcome: Result<usize, EncodeError>,
        lent: Bytes,
    },
    WrittenNumber {
        len: usize,
        tag: u8,
        lent: Bytes,
    },
    Length(Result<usize, EncodeError>),
}

// The same, its bytes in a lent buffer.
#[derive(Clone, Copy)]
pub enum AnswerIn<'a> {
    Read {
        consumed: usize,
        text: Text<'a>,
    },
    Number(Decoded<u64>),
    NotRead(DecodeError),
    Written {
        outcome: Result<usize, EncodeError>,
        lent: Text<'a>,
    },
    WrittenNumber {
        len: usize,
        tag: u8,
        lent: Text<'a>,
    },
    Length(Result<usize, EncodeError>),
}

impl Answer {
    ghost use Rattle.std.specs.Prelude.{◌≡◌};
    ghost use Rattle.case_text.specs.Answers.{answer_text, answer_in_text};

    // The same, its bytes lent.
    pub fn lent(&self) -> AnswerIn<'_>
        ensures { answer_in_text result ≡ answer_text self.now }
    {
        match self {
            Answer::Read { consumed, text } => AnswerIn::Read {
                consumed: *consumed,
                text: text.text(),
            },
            Answer::Number(number) => AnswerIn::Number(*number),
            Answer::NotRead(error) => AnswerIn::NotRead(*error),
            Answer::Written { outcome, lent } => AnswerIn::Written {
                outcome: *outcome,
                lent: lent.text(),
            },
            Answer::WrittenNumber { len, tag, lent } => AnswerIn::WrittenNumber {
                len: *len,
                tag: *tag,
                lent: lent.text(),
            },
            Answer::Length(outcome) => AnswerIn::Length(*outcome),
        }
    }
}

impl<'a> AnswerIn<'a> {
    ghost use Rattle.std.specs.Prelude.{◌≡◌};
    ghost use Rattle.case_text.specs.Answers.{answer_text, answer_in_text};

    // The same with a copy of its bytes.
    pub fn into_owned(self) -> Answer
        ensures { answer_text result ≡ answer_in_text self.entry }
    {
        match self {
            AnswerIn::Read { consumed, text } => Answer::Read {
                consumed,
                text: text.to_bytes(),
            },
            AnswerIn::Number(number) => Answer::Number(number),
            AnswerIn::NotRead(error) => Answer::NotRead(error),
            AnswerIn::Written { outcome, lent } => Answer::Written {
                outcome,
                lent: lent.to_bytes(),
            },
            AnswerIn::WrittenNumber { len, tag, lent } => Answer::WrittenNumber {
                len,
                tag,
                lent: lent.to_bytes(),
            },
            AnswerIn::Length(outcome) => Answer::Length(outcome),
        }
    }
}
