// Case lines of 3d ranges against a 3d range: docs/CASES.md.

#![tactic(auto)]

ghost use Rattle.std.specs.Prelude.{◌≡◌};
ghost use Rattle.range_3d.specs.Record.{range_lent};
ghost use Rattle.range3d_range3d.specs.Records.{read_against_range};
ghost use Rattle.case_range_text.specs.Fields.{range_text};
ghost use Rattle.case_text.specs.Bytes.{rest_in};
ghost use Rattle.case_text.specs.Texts.{read_text};
ghost use Rattle.case_text.specs.Fields.{on_field};
ghost use Rattle.case_text.specs.Answers.{answer_text, answer_in_text};
ghost use Rattle.case_ranges.specs.Lines.{range_line};

use case_text::{Answer, AnswerIn, AskedIn, Buffer, MAX_BYTES, MessageIn, Text, fields};
use range_3d::{PathRange, Range3d};

// Reads a 3d range from a message, and prints it.
fn read<'a>(message: MessageIn, reference: Range3d<'_>, buffer: &'a mut Buffer) -> AnswerIn<'a>
    ensures { answer_in_text result ≡ read_text range_text (read_against_range (range_lent reference.entry) (rest_in message buffer.old)) }
{
    let mut start = [0u8; path::lent::SIZE];
    let mut end = [0u8; path::lent::SIZE];
    match range3d_range3d_decode::relative_decode(
        message.bytes_in(buffer),
        message.start,
        reference,
        &mut start,
        &mut end,
    ) {
        Ok(read) => {
            let head = read.value;
            let paths = PathRange {
                start: &start,
                end: (!head.end_open).then_some(end.as_slice()),
            };
            AnswerIn::Read {
                consumed: read.consumed,
                text: case_range_text::print_range(Range3d {
                    subspaces: head.subspaces,
                    paths,
                    times: head.times,
                })
                .copy_to(buffer),
            }
        }
        Err(error) => AnswerIn::NotRead(error),
    }
}

// Answers a line of a 3d range against a reference, which stands before the other fields. No strict reading is asked for.
pub fn range(line: &[u8]) -> Option<Answer>
    ensures { on_field result answer_text ≡ range_line line.now }
{
    Some(range_in(line, &mut [0; MAX_BYTES])?.into_owned())
}

// The same in a lent buffer.
pub fn range_in<'a>(line: &[u8], buffer: &'a mut Buffer) -> Option<AnswerIn<'a>>
    ensures { on_field result answer_in_text ≡ range_line line.now }
{
    let reference = case_range_text::read_range(line, 2)?;
    Some(match fields::asked_in(line, 8, 14, buffer)? {
        AskedIn::Read(message) => {
            if message.canonic {
                return None;
            }
            read(message, reference.range(), buffer)
        }
        AskedIn::Write(len) => {
            let range = case_range_text::read_range(line, 8)?;
            let outcome = range3d_range3d_encode::relative_encode(
                &mut buffer[..len],
                range.range(),
                reference.range(),
            );
            let lent = Text::first(buffer, len);
            AnswerIn::Written { outcome, lent }
        }
        AskedIn::Length => {
            let range = case_range_text::read_range(line, 8)?;
            AnswerIn::Length(range3d_range3d_encode::relative_len_of_encoding(
                range.range(),
                reference.range(),
            ))
        }
    })
}
