// Reads a day file from standard input and prints its figure or its first fault.
#![tactic(auto)]

use dayfile::read;
use dayreport::report;
use figures::{Figure, Position};
use std::io;
use std::io::{Read, Write};
use terms::limits::{MOST_CHANGES, MOST_FILE_BYTES, MOST_POSITIONS};

fn main(rt: HostRuntime) -> io::Result<()> {
    // One byte past the limit tells that a file is too long; the rest is read and let go.
    let mut bytes = Vec::new(rt.alloc());
    rt.stdin()
        .take(MOST_FILE_BYTES as u64 + 1)
        .read_to_end(&mut bytes)?;
    io::copy(&mut rt.stdin(), &mut io::sink())?;

    let mut changes = [0; MOST_CHANGES];
    let mut positions = [Position::default(); MOST_POSITIONS];
    let answer = read(bytes.as_slice(), &mut changes, &mut positions).map(Figure::set_aside);
    rt.stdout().write_all(report(answer).as_bytes())
}
