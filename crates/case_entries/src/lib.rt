// Case lines of entries against a namespace and an area: docs/CASES.md.

#![tactic(auto)]

ghost use Rattle.std.specs.Prelude.{◌≡◌};
ghost use Rattle.grouping.specs.Record.{area_lent};
ghost use Rattle.entry_area.specs.Records.{read_against_namespace_area};
ghost use Rattle.case_entry_text.specs.Fields.{entry_text};
ghost use Rattle.case_text.specs.Bytes.{rest_in};
ghost use Rattle.case_text.specs.Texts.{read_text};
ghost use Rattle.case_text.specs.Fields.{on_field};
ghost use Rattle.case_text.specs.Answers.{answer_text, answer_in_text};
ghost use Rattle.case_entries.specs.Lines.{entry_line};

use case_text::{Answer, AnswerIn, AskedIn, Buffer, MAX_BYTES, MessageIn, Text, fields};
use entry::Entry;
use grouping::Area;

// Reads an entry from a message, and prints it.
fn read<'a>(
    message: MessageIn,
    namespace: [u8; 32],
    reference: Area<'_>,
    buffer: &'a mut Buffer,
) -> AnswerIn<'a>
    ensures { answer_in_text result ≡ read_text entry_text (read_against_namespace_area message.canonic namespace (area_lent reference.entry) (rest_in message buffer.old)) }
{
    let mut path = [0u8; path::lent::SIZE];
    match entry_area_decode::relative_decode(
        message.bytes_in(buffer),
        message.start,
        message.canonic,
        namespace,
        reference,
        &mut path,
    ) {
        Ok(read) => AnswerIn::Read {
            consumed: read.consumed,
            text: case_entry_text::print_entry(Entry {
                fields: read.value,
                path: &path,
            })
            .copy_to(buffer),
        },
        Err(error) => AnswerIn::NotRead(error),
    }
}

// Answers a line of an entry against a namespace and an area, which stand before the other fields.
pub fn entry(line: &[u8]) -> Option<Answer>
    ensures { on_field result answer_text ≡ entry_line line.now }
{
    Some(entry_in(line, &mut [0; MAX_BYTES])?.into_owned())
}

// The same in a lent buffer.
pub fn entry_in<'a>(line: &[u8], buffer: &'a mut Buffer) -> Option<AnswerIn<'a>>
    ensures { on_field result answer_in_text ≡ entry_line line.now }
{
    let namespace = fields::id(line, 2)?;
    let reference = area_text::read_area(line, 3)?;
    Some(match fields::asked_in(line, 7, 13, buffer)? {
        AskedIn::Read(message) => read(message, namespace, reference.area(), buffer),
        AskedIn::Write(len) => {
            let entry = case_entry_text::read_entry(line, 7)?;
            let outcome = entry_area_encode::relative_encode(
                &mut buffer[..len],
                entry.entry(),
                namespace,
                reference.area(),
            );
            let lent = Text::first(buffer, len);
            AnswerIn::Written { outcome, lent }
        }
        AskedIn::Length => {
            let entry = case_entry_text::read_entry(line, 7)?;
            AnswerIn::Length(entry_area_encode::relative_len_of_encoding(
                entry.entry(),
                namespace,
                reference.area(),
            ))
        }
    })
}
