// Case lines of areas against an area: docs/CASES.md.

#![tactic(auto)]

ghost use Rattle.std.specs.Prelude.{◌≡◌};
ghost use Rattle.grouping.specs.Record.{area_lent};
ghost use Rattle.area_area.specs.Records.{read_against_area};
ghost use Rattle.area_text.specs.AreaText.{area_text};
ghost use Rattle.case_text.specs.Bytes.{rest_of, rest_in};
ghost use Rattle.case_text.specs.Texts.{read_text};
ghost use Rattle.case_text.specs.Fields.{on_field};
ghost use Rattle.case_text.specs.Answers.{answer_text, answer_in_text};
ghost use Rattle.case_areas.specs.Lines.{area_line};

use case_text::{Answer, AnswerIn, AskedIn, Buffer, MAX_BYTES, Message, MessageIn, Text, fields};
use grouping::Area;

// Reads an area from a message, and prints it.
pub fn read<'a>(message: &Message, reference: Area<'a>) -> Answer
    ensures { answer_text result ≡ read_text area_text (read_against_area message.now.canonic (area_lent reference.entry) (rest_of message.now)) }
{
    let message_in = MessageIn {
        canonic: message.canonic,
        start: message.start,
        len: message.bytes.len,
    };
    let mut buffer = message.bytes.bytes;
    read_in(message_in, reference, &mut buffer).into_owned()
}

// The same in a lent buffer, where the message stands.
pub fn read_in<'a>(message: MessageIn, reference: Area<'_>, buffer: &'a mut Buffer) -> AnswerIn<'a>
    ensures { answer_in_text result ≡ read_text area_text (read_against_area message.canonic (area_lent reference.entry) (rest_in message buffer.old)) }
{
    let mut path = [0u8; path::lent::SIZE];
    match area_area_decode::relative_decode(
        message.bytes_in(buffer),
        message.start,
        message.canonic,
        reference,
        &mut path,
    ) {
        Ok(read) => AnswerIn::Read {
            consumed: read.consumed,
            text: area_text::print_area(Area {
                head: read.value,
                path: &path,
            })
            .copy_to(buffer),
        },
        Err(error) => AnswerIn::NotRead(error),
    }
}

// Answers a line of an area against a reference, which stands before the other fields.
pub fn area(line: &[u8]) -> Option<Answer>
    ensures { on_field result answer_text ≡ area_line line.now }
{
    Some(area_in(line, &mut [0; MAX_BYTES])?.into_owned())
}

// The same in a lent buffer.
pub fn area_in<'a>(line: &[u8], buffer: &'a mut Buffer) -> Option<AnswerIn<'a>>
    ensures { on_field result answer_in_text ≡ area_line line.now }
{
    let reference = area_text::read_area(line, 2)?;
    Some(match fields::asked_in(line, 6, 10, buffer)? {
        AskedIn::Read(message) => read_in(message, reference.area(), buffer),
        AskedIn::Write(len) => {
            let area = area_text::read_area(line, 6)?;
            let outcome = area_area_encode::relative_encode(
                &mut buffer[..len],
                area.area(),
                reference.area(),
            );
            let lent = Text::first(buffer, len);
            AnswerIn::Written { outcome, lent }
        }
        AskedIn::Length => {
            let area = area_text::read_area(line, 6)?;
            AnswerIn::Length(area_area_encode::relative_len_of_encoding(
                area.area(),
                reference.area(),
            ))
        }
    })
}
