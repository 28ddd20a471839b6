// The programs: what they answer to a line.
ghost use Rattle.std.specs.Prelude.{ℕ, ◌+◌, ◌<◌, List};
ghost use Rattle.std.proofs.Common.{rules};
ghost use Rattle.lines.specs.Laws.{AnswersLines};
ghost use Rattle.text.specs.Writer.{Keeps};
ghost use Rattle.case_text.specs.Answers.{Answers};
ghost use Rattle.listing.specs.Lines as listed;
ghost use Rattle.listing.proofs.Stream.{listed_lines};
ghost use Rattle.case_answers.specs.Lines as cases;
ghost use Rattle.case_answers.proofs.Stream.{case_lines};

use text::Writer;

pub trait Program {
    const NAME: &'static [u8];

    // The most bytes that are kept between two readings: one more than a line may have, so that a longer line is known.
    const LIMIT: usize;

    ghost LIMIT: { ℕ };

    ghost answer_to: { List ℕ → List ℕ };

    // Puts the answer to a line; where fewer than MAX_ANSWER bytes are free, nothing changes.
    fn answer(line: &[u8], text: &mut Writer<'_>)
        ensures put { Answers (answer_to line.now) text.old text.new }
        ensures same { Keeps text.old text.new };

    // What is kept leaves room to read into buffers of the programs' size.
    ghost room: { LIMIT < 65536 };

    // The answers to a text that is read piece by piece are those to the lines of the whole.
    ghost whole: { AnswersLines answer_to LIMIT };
}

#[derive(Clone, Copy)]
pub struct Listing;

impl Program for Listing {
    const NAME: &'static [u8] = b"area_listing";

    const LIMIT: usize = listing::MAX_LINE + 1;

    ghost LIMIT = { listed.max_line + 1 };

    ghost answer_to = { listed.answer_to };

    ghost room = { Prim.search rules };

    ghost whole = { listed_lines };

    fn answer(line: &[u8], text: &mut Writer<'_>) {
        listing::answer(line, text);
    }
}

#[derive(Clone, Copy)]
pub struct CaseLines;

impl Program for CaseLines {
    const NAME: &'static [u8] = b"case_lines";

    const LIMIT: usize = case_answers::MAX_LINE + 1;

    ghost LIMIT = { cases.max_line + 1 };

    ghost answer_to = { cases.answer_to };

    ghost room = { Prim.search rules };

    ghost whole = { case_lines };

    fn answer(line: &[u8], text: &mut Writer<'_>) {
        case_answers::answer(line, text);
    }
}
