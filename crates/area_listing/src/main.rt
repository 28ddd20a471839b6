// Answers the lines of standard input: docs/LISTING.md.

#![tactic(auto)]

use line_program::programs::Listing;

fn main(rt: HostRuntime) {
    let mut buf = [0u8; 65536];
    let mut out = [0u8; 65536];
    line_program::run::<Listing>(rt, &mut buf, &mut out);
}
