// Case lines of entries against an entry: docs/CASES.md.

#![tactic(auto)]

ghost use Rattle.std.specs.Prelude.{◌≡◌};
ghost use Rattle.entry.specs.Record.{entry_lent};
ghost use Rattle.entry_entry.specs.Records.{read_against_entry};
ghost use Rattle.case_entry_text.specs.Fields.{entry_text};
ghost use Rattle.case_text.specs.Bytes.{rest_in};
ghost use Rattle.case_text.specs.Texts.{read_text};
ghost use Rattle.case_text.specs.Fields.{on_field};
ghost use Rattle.case_text.specs.Answers.{answer_text, answer_in_text};
ghost use Rattle.case_entry_entry.specs.Lines.{entry_entry_line};

use case_text::{Answer, AnswerIn, AskedIn, Buffer, MAX_BYTES, MessageIn, Text, fields};
use entry::Entry;

// Reads an entry from a message, and prints it.
fn read<'a>(message: MessageIn, reference: Entry<'_>, buffer: &'a mut Buffer) -> AnswerIn<'a>
    ensures { answer_in_text result ≡ read_text entry_text (read_against_entry (entry_lent reference.entry) (rest_in message buffer.old)) }
{
    let mut path = [0u8; path::lent::SIZE];
    match entry_entry_decode::relative_decode(
        message.bytes_in(buffer),
        message.start,
        reference,
        &mut path,
    ) {
        Ok(read) => AnswerIn::Read {
            consumed: read.consumed,
            text: case_entry_text::print_entry(Entry {
                fields: read.value,
                path: &path,
            })
            .copy_to(buffer),
        },
        Err(error) => AnswerIn::NotRead(error),
    }
}

// Answers a line of an entry against a reference, which stands before the other fields. No strict reading is asked for.
pub fn entry(line: &[u8]) -> Option<Answer>
    ensures { on_field result answer_text ≡ entry_entry_line line.now }
{
    Some(entry_in(line, &mut [0; MAX_BYTES])?.into_owned())
}

// The same in a lent buffer.
pub fn entry_in<'a>(line: &[u8], buffer: &'a mut Buffer) -> Option<AnswerIn<'a>>
    ensures { on_field result answer_in_text ≡ entry_entry_line line.now }
{
    let reference = case_entry_text::read_entry(line, 2)?;
    Some(match fields::asked_in(line, 8, 14, buffer)? {
        AskedIn::Read(message) => {
            if message.canonic {
                return None;
            }
            read(message, reference.entry(), buffer)
        }
        AskedIn::Write(len) => {
            let entry = case_entry_text::read_entry(line, 8)?;
            let outcome = entry_entry_encode::relative_encode(
                &mut buffer[..len],
                entry.entry(),
                reference.entry(),
            );
            let lent = Text::first(buffer, len);
            AnswerIn::Written { outcome, lent }
        }
        AskedIn::Length => {
            let entry = case_entry_text::read_entry(line, 8)?;
            AnswerIn::Length(entry_entry_encode::relative_len_of_encoding(
                entry.entry(),
                reference.entry(),
            ))
        }
    })
}
