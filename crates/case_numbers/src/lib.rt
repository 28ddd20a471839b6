// Case lines of compact numbers: docs/CASES.md.

#![tactic(auto)]

ghost use Rattle.std.specs.Prelude.{◌≡◌, ◌≤◌, length, option_map};
ghost use Rattle.codec.specs.Answers.{answer_of};
ghost use Rattle.codec.specs.Format.{allowed, put_answer, put_buffer};
ghost use Rattle.text.specs.Decimal.{decimal_text};
ghost use Rattle.compact_u64.specs.Answers.{bits};
ghost use Rattle.compact_u64.specs.Number.{min_tag, number_bytes};
ghost use Rattle.case_text.specs.Texts.{read_text, written_number_text};
ghost use Rattle.case_text.specs.Limits.{max_bytes};
ghost use Rattle.case_text.specs.Fields.{on_field};
ghost use Rattle.case_text.specs.Answers.{answer_text, answer_in_text};
ghost use Rattle.case_numbers.specs.Lines.{width_of, tagged_line, standalone_line};

use case_text::{Answer, AnswerIn, AskedIn, Buffer, MAX_BYTES, Text, fields};
use codec::{DecodeError, Decoded};
use compact_u64::TagWidth;

// The width of a number's tag.
#[tactic(auto, using(crate::proofs::Widths::width_none))]
fn width(field: &[u8]) -> Option<TagWidth>
    ensures { option_map bits result ≡ width_of field.now }
{
    match field {
        [digit] => TagWidth::try_from(digit.checked_sub(b'0')?).ok(),
        _ => None,
    }
}

// Writes a number into a lent buffer; its tag is told too.
fn write<'a>(lent: &'a mut [u8], width: TagWidth, value: u64) -> AnswerIn<'a>
    requires { length lent.old ≤ max_bytes }
    ensures { answer_in_text result ≡ written_number_text (put_answer allowed (number_bytes (bits width) value) (length lent.old)) (min_tag (bits width) value) (put_buffer allowed (number_bytes (bits width) value) lent.old) }
{
    let outcome = compact_u64::relative_encode(lent, width, value);
    let lent = Text { bytes: lent };
    match outcome {
        Ok(len) => AnswerIn::WrittenNumber {
            len,
            tag: compact_u64::min_tag(width, value),
            lent,
        },
        Err(_) => AnswerIn::Written { outcome, lent },
    }
}

// What reading a number answers.
fn read(number: Result<Decoded<u64>, DecodeError>) -> AnswerIn<'static>
    ensures { answer_in_text result ≡ read_text decimal_text (answer_of number) }
{
    match number {
        Ok(number) => AnswerIn::Number(number),
        Err(error) => AnswerIn::NotRead(error),
    }
}

// Answers a line of a number after its tag. The tag stands where a number to write or measure does.
pub fn number(line: &[u8]) -> Option<Answer>
    ensures { on_field result answer_text ≡ tagged_line line.now }
{
    Some(number_in(line, &mut [0; MAX_BYTES])?.into_owned())
}

// The same in a lent buffer.
pub fn number_in<'a>(line: &[u8], buffer: &'a mut Buffer) -> Option<AnswerIn<'a>>
    ensures { on_field result answer_in_text ≡ tagged_line line.now }
{
    let width = width(fields::part(line, 2))?;
    let value = fields::number(line, 3)?;
    match fields::asked_in(line, 4, 4, buffer)? {
        AskedIn::Read(message) => {
            if width.tag_limit() <= value {
                return None;
            }
            Some(read(compact_u64::relative_decode(
                message.bytes_in(buffer),
                message.start,
                width,
                value as u8,
                message.canonic,
            )))
        }
        AskedIn::Write(len) => Some(write(&mut buffer[..len], width, value)),
        AskedIn::Length => Some(AnswerIn::Length(Ok(compact_u64::relative_len_of_encoding(
            width, value,
        )))),
    }
}

// Answers a line of a number that stands alone.
pub fn standalone(line: &[u8]) -> Option<Answer>
    ensures { on_field result answer_text ≡ standalone_line line.now }
{
    Some(standalone_in(line, &mut [0; MAX_BYTES])?.into_owned())
}

// The same in a lent buffer.
#[tactic(auto, unfolding(codec::specs::Format::length_answer))]
pub fn standalone_in<'a>(line: &[u8], buffer: &'a mut Buffer) -> Option<AnswerIn<'a>>
    ensures { on_field result answer_in_text ≡ standalone_line line.now }
{
    Some(match fields::asked_in(line, 2, 3, buffer)? {
        AskedIn::Read(message) => read(compact_u64::decode(
            message.bytes_in(buffer),
            message.start,
            message.canonic,
        )),
        AskedIn::Write(len) => {
            let value = fields::number(line, 2)?;
            let outcome = compact_u64::encode(&mut buffer[..len], value);
            let lent = Text::first(buffer, len);
            AnswerIn::Written { outcome, lent }
        }
        AskedIn::Length => {
            let value = fields::number(line, 2)?;
            AnswerIn::Length(Ok(compact_u64::len_of_encoding(value)))
        }
    })
}
