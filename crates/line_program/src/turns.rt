// Reading, answering and writing, in turns.
ghost use Rattle.std.specs.Prelude.{◌≡◌, ◌≤◌, ◌<◌, length, take, IfOk, IfSome};
ghost use Rattle.codec.specs.Format.{over};
ghost use Rattle.lines.specs.Lines.{span, whole_lines};
ghost use Rattle.lines.specs.Stream.{kept_after};
ghost use Rattle.case_text.specs.Limits.{max_answer};

use crate::{Program, answer_lines};
use case_text::MAX_ANSWER;
use std::io::{Read, Write};
use text::Writer;

// What ends a program before its input does.
#[derive(Clone, Copy)]
enum Failure {
    Reading,
    Writing,
    TooMuchHeld,
    NoRoomToRead,
    NoRoomToAnswer,
}

impl Failure {
    fn text(self) -> &'static [u8] {
        match self {
            Failure::Reading => b": reading failed\n",
            Failure::Writing => b": writing failed\n",
            Failure::TooMuchHeld => b": too much is held\n",
            Failure::NoRoomToRead => b": no room to read\n",
            Failure::NoRoomToAnswer => b": no room to answer\n",
        }
    }
}

// Writes bytes to standard output.
fn put_all(rt: HostRuntime, s: &[u8]) -> Result<(), Failure> {
    rt.stdout().write_all(s).map_err(|_| Failure::Writing)
}

// Writes bytes to standard error; where that fails, nobody can be told.
fn tell(rt: HostRuntime, s: &[u8]) {
    let _ = rt.stderr().write_all(s);
}

// Writes the answers to the whole lines of a text, and answers how many bytes these take.
fn drain<P: Program>(rt: HostRuntime, s: &[u8], out: &mut [u8]) -> Result<usize, Failure>
    requires { max_answer ≤ length out.old }
    ensures { IfOk result (λ n. (n ≡ span (whole_lines s.now)) × (n ≤ length s.now)) }
{
    let mut at = 0;
    loop {
        let answered = answer_lines::<P>(&s[at..], out);
        if answered.taken == 0 {
            return Ok(at);
        }
        put_all(rt, &out[..answered.put])?;
        at += answered.taken;
    }
}

// Input that is held between two readings, the first `have` bytes of a buffer, and where its answers go.
#[derive(Drop)]
struct Held<'a> {
    buf: &'a mut [u8],
    have: usize,
    out: &'a mut [u8],
}

impl<'a> Held<'a> {
    // Answers the whole lines of the first `end` bytes, and keeps what is left of them at the front.
    fn settle<P: Program>(self, rt: HostRuntime, end: usize) -> Result<Held<'a>, Failure>
        requires { (end ≤ length self.buf.now) × (max_answer ≤ length self.out.now) }
        ensures have_value { IfOk result (λ held. (held.have ≡ length (kept_after P.LIMIT (take end self.entry.buf.now))) × (held.buf.now ≡ over (kept_after P.LIMIT (take end self.entry.buf.now)) self.entry.buf.now)) }
        ensures have_bound { IfOk result (λ held. held.have ≤ P.LIMIT) }
    {
        let Held { buf, have: _, out } = self;
        let at = drain::<P>(rt, &buf[..end], out)?;
        let have = lines::keep(buf, at, end, P::LIMIT);
        Ok(Held { buf, have, out })
    }

    // The last line, where it lacks its newline.
    fn finish<P: Program>(self, rt: HostRuntime) -> Result<(), Failure>
        requires { self.have ≤ length self.buf.now }
    {
        let Held { buf, have, out } = self;
        if have == 0 {
            return Ok(());
        }
        let mut text = Writer::new(out, 0);
        P::answer(&buf[..have], &mut text);
        let put = text.at;
        match out.get(..put) {
            Some(answer) => put_all(rt, answer),
            None => Ok(()),
        }
    }

    // Reads once, answers the whole lines and keeps what is left at the front; at the end of the input the last line is answered.
    fn read_once<P: Program>(self, rt: HostRuntime) -> Result<Option<Held<'a>>, Failure>
        requires { (self.have ≤ P.LIMIT) × ((P.LIMIT < length self.buf.now) × (max_answer ≤ length self.out.now)) }
        ensures { IfOk result (λ held. IfSome held (λ h. h.have ≤ P.LIMIT)) }
    {
        let Held { buf, have, out } = self;
        let mut input = rt.stdin();
        match input.read(&mut buf[have..]) {
            Err(_) => Err(Failure::Reading),
            Ok(0) => {
                Held { buf, have, out }.finish::<P>(rt)?;
                Ok(None)
            }
            Ok(n) => Ok(Some(Held { buf, have, out }.settle::<P>(rt, have + n)?)),
        }
    }

    // One turn of a program: what it holds then, none once the input has ended. Nothing is read into buffers that are too short.
    fn turn<P: Program>(self, rt: HostRuntime) -> Result<Option<Held<'a>>, Failure>
        ensures { IfOk result (λ held. IfSome held (λ h. h.have ≤ P.LIMIT)) }
    {
        if P::LIMIT < self.have {
            return Err(Failure::TooMuchHeld);
        }
        if self.buf.len() <= P::LIMIT {
            return Err(Failure::NoRoomToRead);
        }
        if self.out.len() < MAX_ANSWER {
            return Err(Failure::NoRoomToAnswer);
        }
        self.read_once::<P>(rt)
    }
}

// Takes turns to the end of the input, and answers how many bytes the last one left, none at the end or once a turn failed. Nothing says that the
// input ends, so the turns are counted.
pub fn run<P: Program>(rt: HostRuntime, buf: &mut [u8], out: &mut [u8]) -> Option<usize>
    ensures { IfSome result (λ n. n ≤ P.LIMIT) }
{
    let mut held = Held { buf, have: 0, out };
    for _ in 0..u64::MAX {
        match held.turn::<P>(rt) {
            Ok(next) => held = next?,
            Err(failure) => {
                tell(rt, P::NAME);
                tell(rt, failure.text());
                return None;
            }
        }
    }
    Some(held.have)
}
