// Answers to case lines: docs/CASES.md.

#![tactic(auto)]

ghost use Rattle.std.specs.Prelude.{◌≡◌};
ghost use Rattle.text.specs.Writer.{Keeps};
ghost use Rattle.case_text.specs.Fields.{on_field};
ghost use Rattle.case_text.specs.Answers.{answer_in_text, Answers};
ghost use Rattle.case_answers.specs.Lines.{kind_line, line_answer, answer_to};

use byte_codec::same_bytes;
use case_paths::Encoding;
use case_text::{AnswerIn, Buffer, fields, put};
use text::Writer;

#[cfg(test)]
mod tests;

// The longest line, its newline not counted.
pub const MAX_LINE: usize = 2 * case_text::MAX_BYTES;

// What a line of the kind that its first field names is answered.
#[tactic(auto, unfolding(crate::specs::Lines::kind_line))]
fn by_kind<'a>(kind: &[u8], line: &[u8], buffer: &'a mut Buffer) -> Option<AnswerIn<'a>>
    ensures { on_field result answer_in_text ≡ kind_line kind.now line.now }
{
    if same_bytes(kind, b"number") {
        case_numbers::number_in(line, buffer)
    } else if same_bytes(kind, b"standalone") {
        case_numbers::standalone_in(line, buffer)
    } else if same_bytes(kind, b"path") {
        case_paths::plain_in(line, buffer)
    } else if same_bytes(kind, b"path_path") {
        case_paths::relative_in(line, Encoding::Against, buffer)
    } else if same_bytes(kind, b"path_extends") {
        case_paths::relative_in(line, Encoding::Extends, buffer)
    } else if same_bytes(kind, b"area_area") {
        case_areas::area_in(line, buffer)
    } else if same_bytes(kind, b"entry_area") {
        case_entries::entry_in(line, buffer)
    } else if same_bytes(kind, b"entry_entry") {
        case_entry_entry::entry_in(line, buffer)
    } else if same_bytes(kind, b"range3d_range3d") {
        case_ranges::range_in(line, buffer)
    } else if same_bytes(kind, b"raw") {
        case_paths::raw::raw_in(line)
    } else {
        None
    }
}

// What a line is answered.
fn line_answer<'a>(line: &[u8], buffer: &'a mut Buffer) -> Option<AnswerIn<'a>>
    ensures { on_field result answer_in_text ≡ line_answer line.now }
{
    if MAX_LINE < line.len() {
        return None;
    }
    by_kind(fields::part(line, 0), line, buffer)
}

// Puts the answer to a line; where fewer than MAX_ANSWER bytes are free, nothing changes.
#[tactic(auto, unfolding(crate::specs::Lines::answer_to))]
pub fn answer(line: &[u8], text: &mut Writer<'_>)
    ensures put { Answers (answer_to line.now) text.old text.new }
    ensures same { Keeps text.old text.new }
{
    let mut buffer = [0u8; case_text::MAX_BYTES];
    put::answer_in(text, line_answer(line, &mut buffer));
}
