// What functions that are lent nothing answer. Whole lines are those of crates/case_lines/stdin, with the Rust's answers.
use case_paths::Encoding;
use case_text::{Answer, Asked, MAX_ANSWER, Message, fields, first_bytes, put};
use grouping::{Area, AreaHead, RangeEnd, TimeRange};
use text::Writer;

// Whether an answer is put as `expected`, a line without its end.
fn is_put(answer: Option<Answer>, expected: &[u8]) -> bool {
    let mut out = [0; MAX_ANSWER];
    let mut text = Writer::new(&mut out, 0);
    put::answer(&mut text, answer);
    out.starts_with(expected) && out[expected.len().min(MAX_ANSWER - 1)] == b'\n'
}

#[test]
fn numbers(rt: HostRuntime) {
    let line = b"number\tw\t2\t0\teeee";
    assert!(rt; is_put(case_numbers::number(line), b"ok\t1\t0\t00ee"));
    let line = b"standalone\tw\t0\teeee";
    assert!(rt; is_put(case_numbers::standalone(line), b"ok\t1\t00ee"));
}

#[test]
fn paths(rt: HostRuntime) {
    let line = b"path\tw\t-\teeee";
    assert!(rt; is_put(case_paths::plain(line), b"ok\t1\t00ee"));
    let line = b"path_path\ts\t61\t0\t01216263";
    assert!(rt;
        is_put(
            case_paths::relative(line, Encoding::Against),
            b"ok\t4\t61/6263"
        )
    );
    let line = b"path_extends\ts\t-\t0\t0c1400000000000000000000000000000000000000";
    assert!(rt;
        is_put(
            case_paths::relative(line, Encoding::Extends),
            b"ok\t21\t///////////////////"
        )
    );
    let line = b"raw\t2\t1,2,0,0,0,0,0,0,0,0,0,0,0,0,0,0,0,0,0,0\t616263";
    assert!(rt; is_put(case_paths::raw::raw(line), b"ok\t5"));
}

#[test]
fn areas(rt: HostRuntime) {
    let line = b"area_area\ts\t*\t-\t0\t*\t0\t600000";
    assert!(rt; is_put(case_areas::area(line), b"ok\t3\t*\t-\t0\t*"));
}

#[test]
fn entries(rt: HostRuntime) {
    let line = b"entry_area\ts\t1111111111111111111111111111111111111111111111111111111111111111\t\
          aaaaaaaaaaaaaaaaaaaaaaaaaaaaaaaaaaaaaaaaaaaaaaaaaaaaaaaaaaaaaaaa\t-\t0\t*\t0\t\
          4000000507dddddddddddddddddddddddddddddddddddddddddddddddddddddddddddddddd";
    assert!(rt;
        is_put(
            case_entries::entry(line),
            b"ok\t37\t1111111111111111111111111111111111111111111111111111111111111111\t\
          aaaaaaaaaaaaaaaaaaaaaaaaaaaaaaaaaaaaaaaaaaaaaaaaaaaaaaaaaaaaaaaa\t-\t5\t7\t\
          dddddddddddddddddddddddddddddddddddddddddddddddddddddddddddddddd"
        )
    );
    let line = b"entry_entry\tn\t4e4e4e4e4e4e4e4e4e4e4e4e4e4e4e4e4e4e4e4e4e4e4e4e4e4e4e4e4e4e4e4e\t\
          5a5a5a5a5a5a5a5a5a5a5a5a5a5a5a5a5a5a5a5a5a5a5a5a5a5a5a5a5a5a5a5a\t-\t0\t0\t\
          d1d1d1d1d1d1d1d1d1d1d1d1d1d1d1d1d1d1d1d1d1d1d1d1d1d1d1d1d1d1d1d1\t\
          4e4e4e4e4e4e4e4e4e4e4e4e4e4e4e4e4e4e4e4e4e4e4e4e4e4e4e4e4e4e4e4e\t\
          5a5a5a5a5a5a5a5a5a5a5a5a5a5a5a5a5a5a5a5a5a5a5a5a5a5a5a5a5a5a5a5a\t-\t355\t0\t\
          d1d1d1d1d1d1d1d1d1d1d1d1d1d1d1d1d1d1d1d1d1d1d1d1d1d1d1d1d1d1d1d1";
    assert!(rt; is_put(case_entry_entry::entry(line), b"ok\t37"));
}

#[test]
fn ranges(rt: HostRuntime) {
    let line = b"range3d_range3d\tl\t\
          5a5a5a5a5a5a5a5a5a5a5a5a5a5a5a5a5a5a5a5a5a5a5a5a5a5a5a5a5a5a5a5a\t*\t-\t*\t0\t*\t0\t\
          4bc0000000000000";
    assert!(rt;
        is_put(
            case_ranges::range(line),
            b"ok\t7\t5a5a5a5a5a5a5a5a5a5a5a5a5a5a5a5a5a5a5a5a5a5a5a5a5a5a5a5a5a5a5a5a\t*\t-\t-\t\
          0\t*"
        )
    );
}

#[test]
fn area_of_a_message(rt: HostRuntime) {
    let mut bytes = [0; case_text::MAX_BYTES];
    bytes[1] = 0x60;
    let message = Message {
        canonic: true,
        start: 1,
        bytes: first_bytes(bytes, 4),
    };
    let reference = Area {
        head: AreaHead {
            subspace: None,
            times: TimeRange {
                start: 0,
                end: RangeEnd::Open,
            },
        },
        path: &[0; path::lent::SIZE],
    };
    let answer = case_areas::read(&message, reference);
    assert!(rt; is_put(Some(answer), b"ok\t3\t*\t-\t0\t*"));
}

#[test]
fn no_line_of_its_form(rt: HostRuntime) {
    assert!(rt; is_put(case_areas::area(b"area_area"), b"no\t6"));
}

#[test]
fn hex(rt: HostRuntime) {
    let read = fields::hex(b"path\tw\t-\teeee", 3);
    assert!(rt; read.is_some_and(|bytes| bytes.as_slice() == [0xee, 0xee].as_slice()));
    assert!(rt; fields::hex(b"path\tw\t-\teeee", 2).is_none());
}

#[test]
fn asked(rt: HostRuntime) {
    let read = match fields::asked(b"path\tl\t0\t10", 2, 3) {
        Some(Asked::Read(message)) => {
            !message.canonic && message.start == 0 && message.bytes.as_slice() == [0x10].as_slice()
        }
        _ => false,
    };
    assert!(rt; read);
    let written = match fields::asked(b"path\tw\t-\teeee", 2, 3) {
        Some(Asked::Write(lent)) => lent.as_slice() == [0xee, 0xee].as_slice(),
        _ => false,
    };
    assert!(rt; written);
    assert!(rt; matches!(fields::asked(b"path\tn\t-", 2, 3), Some(Asked::Length)));
}

#[test]
fn answers_lent_and_owned(rt: HostRuntime) {
    let bytes = first_bytes([b'a'; case_text::MAX_BYTES], 2);
    let text = bytes.text();
    assert!(rt; text.bytes == b"aa".as_slice());
    assert!(rt; text.to_bytes().as_slice() == b"aa".as_slice());
    let answer = Answer::Read {
        consumed: 3,
        text: bytes,
    };
    assert!(rt; is_put(Some(answer.lent().into_owned()), b"ok\t3\taa"));
}
