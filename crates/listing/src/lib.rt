// The area listing: the answer to one of its lines, docs/LISTING.md. A line is answered where MAX_ANSWER bytes are free; elsewhere nothing changes.

#![tactic(auto)]

ghost use Rattle.std.specs.Prelude.{◌≡◌};
ghost use Rattle.text.specs.Writer.{Keeps};
ghost use Rattle.case_text.specs.Fields.{on_field};
ghost use Rattle.case_text.specs.Answers.{answer_in_text, Answers};
ghost use Rattle.listing.specs.Lines.{read_line, line_answer, answer_to};

use case_text::{AnswerIn, Buffer, MAX_BYTES, MessageIn, Op, fields, put};
use text::Writer;

// The longest line, its newline not counted.
pub const MAX_LINE: usize = 4096;

// Reads the area of a line in one of the modes.
fn read_line<'a>(line: &[u8], canonic: bool, buffer: &'a mut Buffer) -> Option<AnswerIn<'a>>
    ensures { on_field result answer_in_text ≡ read_line canonic line.now }
{
    if fields::count(line) != 6 {
        return None;
    }
    let reference = area_text::read_area(line, 1)?;
    let len = fields::hex_in(line, 5, buffer)?;
    let message = MessageIn {
        canonic,
        start: 0,
        len,
    };
    Some(case_areas::read_in(message, reference.area(), buffer))
}

// What a line is answered.
fn line_answer<'a>(line: &[u8], buffer: &'a mut Buffer) -> Option<AnswerIn<'a>>
    ensures { on_field result answer_in_text ≡ line_answer line.now }
{
    if MAX_LINE < line.len() {
        return None;
    }
    match fields::op(fields::part(line, 0))? {
        Op::Strict => read_line(line, true, buffer),
        Op::Lenient => read_line(line, false, buffer),
        Op::Write | Op::Length => None,
    }
}

// Puts the answer to a line; where fewer than MAX_ANSWER bytes are free, nothing changes.
#[tactic(auto, unfolding(crate::specs::Lines::answer_to))]
pub fn answer(line: &[u8], text: &mut Writer<'_>)
    ensures put { Answers (answer_to line.now) text.old text.new }
    ensures same { Keeps text.old text.new }
{
    let mut buffer = [0u8; MAX_BYTES];
    put::answer_in(text, line_answer(line, &mut buffer));
}
