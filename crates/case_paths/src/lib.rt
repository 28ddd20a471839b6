// Case lines of paths: docs/CASES.md.

#![tactic(auto)]

ghost use Rattle.std.specs.Prelude.{◌≡◌, [], ◌≤◌};
ghost use Rattle.codec.specs.Answers.{outcome_of, Gives};
ghost use Rattle.codec.specs.Format.{length_answer, WritesInto};
ghost use Rattle.path.specs.Record.{path_from};
ghost use Rattle.path.specs.Flat.{path_in};
ghost use Rattle.path_text.specs.PathText.{path_text_of};
ghost use Rattle.case_text.specs.Bytes.{bytes_of, rest_in};
ghost use Rattle.case_text.specs.Texts.{read_text};
ghost use Rattle.case_text.specs.Fields.{on_field};
ghost use Rattle.case_text.specs.Answers.{answer_text, answer_in_text};
ghost use Rattle.case_paths.specs.Lines.{encoding_reader, encoding_format, encoding_line, plain_line, relative_line};

use case_text::{Answer, AnswerIn, AskedIn, Buffer, Bytes, MAX_BYTES, MessageIn, Text, fields};
use codec::{DecodeError, EncodeError};
use path::Path;
use text::Writer;

pub mod raw;

// The encodings of a path.
#[derive(Clone, Copy)]
pub enum Encoding {
    Plain,
    Against,
    Extends,
}

fn decode(
    encoding: Encoding,
    message: MessageIn,
    buffer: &[u8],
    reference: &[u8],
    out: &mut [u8; path::lent::SIZE],
) -> Result<usize, DecodeError>
    ensures { Gives (path_from []) result (path_in out.new) (encoding_reader encoding (path_in reference.now) message.canonic (rest_in message buffer.now)) }
{
    let canonic = message.canonic;
    let start = message.start;
    let message = message.bytes_in(buffer);
    match encoding {
        Encoding::Plain => path_codec::decode(message, start, canonic, out),
        Encoding::Against => path_relative_decode::relative_decode(
            message, start, canonic, reference, out,
        ),
        Encoding::Extends => path_relative_decode::decode_path_extends_path(
            message, start, canonic, reference, out,
        ),
    }
}

fn encode(
    encoding: Encoding,
    buffer: &mut [u8],
    path: &[u8],
    reference: &[u8],
) -> Result<usize, EncodeError>
    ensures { WritesInto (encoding_format encoding (path_in reference.now)) (path_in path.now) result buffer.old buffer.new }
{
    match encoding {
        Encoding::Plain => path_codec::encode(buffer, path),
        Encoding::Against => path_relative_encode::relative_encode(buffer, path, reference),
        Encoding::Extends => path_relative_encode::encode_path_extends_path(
            buffer, path, reference,
        ),
    }
}

fn len_of_encoding(encoding: Encoding, path: &[u8], reference: &[u8]) -> Result<usize, EncodeError>
    ensures { outcome_of result ≡ length_answer (encoding_format encoding (path_in reference.now)) (path_in path.now) }
{
    match encoding {
        Encoding::Plain => path_codec::len_of_encoding(path),
        Encoding::Against => path_relative_encode::relative_len_of_encoding(path, reference),
        Encoding::Extends => path_relative_encode::path_extends_path_encoding_len(path, reference),
    }
}

// Prints a path.
fn print(path: &[u8]) -> Bytes
    ensures { bytes_of result ≡ path_text_of (path_in path.now) }
{
    let mut bytes = [0u8; MAX_BYTES];
    let mut text = Writer::new(&mut bytes, 0);
    path_text::put_path(&mut text, path);
    let len = text.at;
    case_text::first_bytes(bytes, len)
}

// Reads a path from a message, and prints it.
fn read<'a>(
    encoding: Encoding,
    message: MessageIn,
    reference: &[u8],
    buffer: &'a mut Buffer,
) -> AnswerIn<'a>
    ensures { answer_in_text result ≡ read_text path_text_of (encoding_reader encoding (path_in reference.now) message.canonic (rest_in message buffer.old)) }
{
    let mut path = [0u8; path::lent::SIZE];
    match decode(encoding, message, buffer, reference, &mut path) {
        Ok(consumed) => AnswerIn::Read {
            consumed,
            text: print(&path).copy_to(buffer),
        },
        Err(error) => AnswerIn::NotRead(error),
    }
}

// Answers a line whose path, or start and message, stand from the i-th field on.
fn answer<'a>(
    line: &[u8],
    encoding: Encoding,
    i: u8,
    reference: Path,
    buffer: &'a mut Buffer,
) -> Option<AnswerIn<'a>>
    requires { i ≤ 3 }
    ensures { on_field result answer_in_text ≡ encoding_line encoding (path_in reference.flat) i line.now }
{
    Some(match fields::asked_in(line, i, i + 1, buffer)? {
        AskedIn::Read(message) => read(encoding, message, &reference.flat, buffer),
        AskedIn::Write(len) => {
            let path = fields::path(line, usize::from(i))?;
            let lent = &mut buffer[..len];
            let outcome = encode(encoding, lent, &path.flat, &reference.flat);
            let lent = Text::first(buffer, len);
            AnswerIn::Written { outcome, lent }
        }
        AskedIn::Length => {
            let path = fields::path(line, usize::from(i))?;
            AnswerIn::Length(len_of_encoding(encoding, &path.flat, &reference.flat))
        }
    })
}

// Answers a line of a plain path.
pub fn plain(line: &[u8]) -> Option<Answer>
    ensures { on_field result answer_text ≡ plain_line line.now }
{
    Some(plain_in(line, &mut [0; MAX_BYTES])?.into_owned())
}

// The same in a lent buffer.
pub fn plain_in<'a>(line: &[u8], buffer: &'a mut Buffer) -> Option<AnswerIn<'a>>
    ensures { on_field result answer_in_text ≡ plain_line line.now }
{
    answer(line, Encoding::Plain, 2, Path::new_empty(), buffer)
}

// Answers a line of a path against a reference, which stands before the other fields.
pub fn relative(line: &[u8], encoding: Encoding) -> Option<Answer>
    ensures { on_field result answer_text ≡ relative_line encoding line.now }
{
    Some(relative_in(line, encoding, &mut [0; MAX_BYTES])?.into_owned())
}

// The same in a lent buffer.
pub fn relative_in<'a>(
    line: &[u8],
    encoding: Encoding,
    buffer: &'a mut Buffer,
) -> Option<AnswerIn<'a>>
    ensures { on_field result answer_in_text ≡ relative_line encoding line.now }
{
    let reference = fields::path(line, 2)?;
    answer(line, encoding, 3, reference, buffer)
}
