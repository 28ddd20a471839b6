// Answers put by a writer.
ghost use Rattle.std.specs.Prelude.{◌++◌, ◌+◌, ◌*◌, ◌≤◌, length};
ghost use Rattle.codec.specs.Answers.{outcome_of};
ghost use Rattle.text.specs.Decimal.{decimal_text};
ghost use Rattle.text.specs.Writer.{Keeps};
ghost use Rattle.text.specs.Hex.{hex_text};
ghost use Rattle.case_text.specs.Limits.{max_bytes, max_answer};
ghost use Rattle.case_text.specs.Bytes.{text_of};
ghost use Rattle.case_text.specs.Texts.{ok_text, no_text, after_tab, ended, length_text};
ghost use Rattle.case_text.specs.Fields.{on_field};
ghost use Rattle.case_text.specs.Answers.{answer_text, answer_in_text, Puts, Answers};

use crate::{Answer, AnswerIn, MAX_ANSWER, Text};
use codec::EncodeError;
use text::Writer;

// A word, then a number.
fn worded(text: &mut Writer<'_>, word: &[u8], n: u64)
    requires { text.old.at + (length word.now + 20) ≤ length text.old.out.now }
    ensures put { Puts (word.now ++ decimal_text n) text.old text.new × (text.new.at ≤ text.old.at + (length word.now + 20)) }
    ensures same { Keeps text.old text.new }
{
    text.put_bytes(word);
    text.put_decimal(n);
}

#[tactic(auto, unfolding(crate::specs::Texts::ok_text))]
fn ok(text: &mut Writer<'_>, n: usize)
    requires { text.old.at + 23 ≤ length text.old.out.now }
    ensures put { Puts (ok_text n) text.old text.new × (text.new.at ≤ text.old.at + 23) }
    ensures same { Keeps text.old text.new }
{
    worded(text, b"ok\t", n as u64);
}

// A refusal's number.
#[tactic(auto, unfolding(crate::specs::Texts::no_text))]
fn no(text: &mut Writer<'_>, number: u8)
    requires { text.old.at + 23 ≤ length text.old.out.now }
    ensures put { Puts (no_text number) text.old text.new × (text.new.at ≤ text.old.at + 23) }
    ensures same { Keeps text.old text.new }
{
    worded(text, b"no\t", u64::from(number));
}

// The length that a writer answered, or the number of its refusal.
fn outcome(text: &mut Writer<'_>, outcome: Result<usize, EncodeError>)
    requires { text.old.at + 23 ≤ length text.old.out.now }
    ensures put { Puts (length_text (outcome_of outcome)) text.old text.new × (text.new.at ≤ text.old.at + 23) }
    ensures same { Keeps text.old text.new }
{
    match outcome {
        Ok(n) => ok(text, n),
        Err(error) => no(text, u8::from(error)),
    }
}

// A lent buffer in hex, after a tab.
fn tab_hex(text: &mut Writer<'_>, lent: &Text<'_>)
    requires { text.old.at + (1 + 2 * max_bytes) ≤ length text.old.out.now }
    ensures put { Puts (after_tab (hex_text (text_of lent.now))) text.old text.new × (text.new.at ≤ text.old.at + (1 + 2 * max_bytes)) }
    ensures same { Keeps text.old text.new }
{
    text.put_bytes(b"\t");
    text.put_hex(lent.bytes);
}

fn tab_bytes(text: &mut Writer<'_>, value: &Text<'_>)
    requires { text.old.at + (1 + max_bytes) ≤ length text.old.out.now }
    ensures put { Puts (after_tab (text_of value.now)) text.old text.new × (text.new.at ≤ text.old.at + (1 + max_bytes)) }
    ensures same { Keeps text.old text.new }
{
    text.put_bytes(b"\t");
    text.put_bytes(value.bytes);
}

// An answer, without the line's end.
fn unended(text: &mut Writer<'_>, answer: AnswerIn<'_>)
    requires { text.old.at + max_answer ≤ length text.old.out.now }
    ensures put { Puts (answer_in_text answer.entry) text.old text.new × (text.new.at + 1 ≤ text.old.at + max_answer) }
    ensures same { Keeps text.old text.new }
{
    match answer {
        AnswerIn::Read {
            consumed,
            text: value,
        } => {
            ok(text, consumed);
            tab_bytes(text, &value);
        }
        AnswerIn::Number(number) => {
            ok(text, number.consumed);
            worded(text, b"\t", number.value);
        }
        AnswerIn::NotRead(error) => no(text, u8::from(error)),
        AnswerIn::Written {
            outcome: written,
            lent,
        } => {
            outcome(text, written);
            tab_hex(text, &lent);
        }
        AnswerIn::WrittenNumber { len, tag, lent } => {
            ok(text, len);
            worded(text, b"\t", u64::from(tag));
            tab_hex(text, &lent);
        }
        AnswerIn::Length(written) => outcome(text, written),
    }
}

// Puts the answer to a line, 6 for one that is not in its form; where fewer than MAX_ANSWER bytes are free, nothing changes.
pub fn answer(text: &mut Writer<'_>, answer: Option<Answer>)
    ensures put { Answers (ended (on_field answer answer_text)) text.old text.new }
    ensures same { Keeps text.old text.new }
{
    match &answer {
        Some(answer) => answer_in(text, Some(answer.lent())),
        None => answer_in(text, None),
    }
}

// The same of an answer whose bytes lie in a lent buffer.
pub fn answer_in(text: &mut Writer<'_>, answer: Option<AnswerIn<'_>>)
    ensures put { Answers (ended (on_field answer.entry answer_in_text)) text.old text.new }
    ensures same { Keeps text.old text.new }
{
    if text.free() < MAX_ANSWER {
        return;
    }
    match answer {
        Some(answer) => {
            unended(text, answer);
            text.put_bytes(b"\n");
        }
        None => text.put_bytes(b"no\t6\n"),
    }
}
