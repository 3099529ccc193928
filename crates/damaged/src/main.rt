// Many day files in one input, each ended by `==` and byte 10: prints the report of each. A table of damaged files and
// what is told of them stands beside it.
#![tactic(auto)]

ghost use Rattle.std.specs.Prelude.{◌<◌, length, IfSome};

use dayfile::read;
use dayreport::{Report, report};
use figures::{Figure, Position};
use std::io;
use std::io::{Read, Write};
use terms::limits::{MOST_CHANGES, MOST_POSITIONS};

// The first file, and what follows its end.
fn first_file<'a>(bytes: &'a [u8]) -> Option<(&'a [u8], &'a [u8])>
    ensures { IfSome result (λ p. length p.1.now < length bytes.now) }
{
    let end = bytes
        .windows(3)
        .position(|three| matches!(three, [b'=', b'=', b'\n']))?;
    Some((&bytes[..end], &bytes[end + 3..]))
}

fn told(file: &[u8]) -> Report {
    let mut changes = [0; MOST_CHANGES];
    let mut positions = [Position::default(); MOST_POSITIONS];
    report(read(file, &mut changes, &mut positions).map(Figure::set_aside))
}

fn main(rt: HostRuntime) -> io::Result<()> {
    let mut bytes = Vec::new(rt.alloc());
    rt.stdin().read_to_end(&mut bytes)?;
    let mut rest = bytes.as_slice();
    while let Some((file, next)) = first_file(rest) {
        rt.stdout().write_all(told(file).as_bytes())?;
        rest = next;
    }
    Ok(())
}

#[cfg(test)]
mod tests {
    use super::*;
    use dayreport::Fault;
    use terms::Refusal;

    const FILE: &[u8] =
        b"form=1\nmember=7\nsegment=3\nday=120\nscen=2\nassets=1\nchg=-500,300\nacc=own,0,0\npos=0,3\npos=0,4\nacc=cli,0,0\npos=0,-5\nend=2\n";

    // What stood in the lists before.
    const NINES: Position = Position {
        asset: 9,
        quantity: 9,
    };

    // The fault, if any; a figure is set aside.
    fn fault(file: &[u8], changes: &mut [i32], positions: &mut [Position]) -> Option<Fault> {
        read(file, changes, positions).map(Figure::set_aside).err()
    }

    #[test]
    fn lists_hold_the_sheet_and_the_last_positions(rt: HostRuntime) {
        let mut changes = [9; 4096];
        let mut positions = [NINES; 64];
        assert!(rt; fault(FILE, &mut changes, &mut positions) == None);
        assert!(rt; changes[0] == -500 && changes[1] == 300 && changes[2] == 0);
        assert!(rt;
            positions[0].quantity == -5 && positions[1].quantity == 0 && positions[63].asset == 0
        );
    }

    #[test]
    fn lists_are_cleared_after_a_fault(rt: HostRuntime) {
        let mut changes = [9; 4096];
        let mut positions = [NINES; 64];
        assert!(rt;
            fault(&FILE[0..FILE.len() - 1], &mut changes, &mut positions)
                == Some(Fault::Line(Refusal::Key, 13))
        );
        assert!(rt;
            changes[0] == 0
                && changes[4095] == 0
                && positions[0].asset == 0
                && positions[63].quantity == 0
        );
    }

    #[test]
    fn lists_of_other_lengths_stay(rt: HostRuntime) {
        let mut changes = [9; 4095];
        let mut positions = [NINES; 64];
        assert!(rt;
            fault(FILE, &mut changes, &mut positions) == Some(Fault::Line(Refusal::Lengths, 1))
        );
        assert!(rt; changes[0] == 9 && changes[4094] == 9 && positions[0].asset == 9);
    }
}
