// A program that answers the lines of standard input: docs/LISTING.md, docs/CASES.md. A failed read or write ends it with a line on standard error.

#![tactic(auto)]

ghost use Rattle.std.specs.Prelude.{◌≡◌, ◌≤◌, length};
ghost use Rattle.codec.specs.Format.{over};
ghost use Rattle.lines.specs.Lines.{span, answers, fitting_lines};
ghost use Rattle.case_text.specs.Limits.{max_answer};

use case_text::MAX_ANSWER;
use text::Writer;

pub mod programs;
mod turns;

pub use programs::Program;
pub use turns::run;

// What was answered: the bytes of the lines, and those of the answers.
#[derive(Clone, Copy)]
pub struct Answered {
    pub taken: usize,
    pub put: usize,
}

// Answers the whole lines of a text, one after another, while MAX_ANSWER bytes of the buffer are free.
pub fn answer_lines<P: Program>(s: &[u8], out: &mut [u8]) -> Answered
    ensures taken_value { (result.taken ≡ span (fitting_lines P.answer_to max_answer (length out.old) s.now)) × (result.put ≡ length (answers P.answer_to (fitting_lines P.answer_to max_answer (length out.old) s.now))) }
    ensures out_after { out.new ≡ over (answers P.answer_to (fitting_lines P.answer_to max_answer (length out.old) s.now)) out.old }
    ensures taken_in_bounds { (result.taken ≤ length s.now) × (result.put ≤ length out.new) }
{
    let mut taken = 0;
    let mut text = Writer::new(out, 0);
    while MAX_ANSWER <= text.free() {
        let rest = &s[taken..];
        let Some(k) = text::find(rest, b'\n') else {
            break;
        };
        P::answer(&rest[..k], &mut text);
        taken += k + 1;
    }
    Answered {
        taken,
        put: text.at,
    }
}
