// Answers the case lines of standard input: docs/CASES.md.

#![tactic(auto)]

use line_program::programs::CaseLines;

fn main(rt: HostRuntime) {
    let mut buf = [0u8; 65536];
    let mut out = [0u8; 65536];
    line_program::run::<CaseLines>(rt, &mut buf, &mut out);
}
