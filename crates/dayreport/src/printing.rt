// The printed lines of a figure or of a fault. A report cannot fail, and no clause says when a `write!` succeeds, so each
// piece is put behind the last, where it fits as is proved.

ghost use Rattle.std.specs.Prelude.{◌≡◌, ◌+◌, ◌≤◌, length, take};
ghost use Rattle.daytext.specs.Text.{decimal};
ghost use Rattle.dayreport.specs.Printing.{Wrote, fault_text, figure_text, line_text, printed, report_bytes};

use crate::faults::Fault;
use crate::reports::{REPORT_BYTES, Report};
use figures::Numbers;

impl Report {
    // Two functions, for a text and for a number: as one over a trait they would need a type for the digits.
    // Writes `text` behind what stands.
    fn put(&mut self, text: &[u8])
        requires { self.old.len + length text.now ≤ report_bytes }
        ensures { Wrote self.old.bytes self.old.len text.now self.new.len self.new.bytes }
    {
        self.len = daytext::put(&mut self.bytes, self.len, text);
    }

    // Writes the digits of `n` behind what stands. No number has more than 20.
    fn put_number(&mut self, n: u64)
        requires { self.old.len + 20 ≤ report_bytes }
        ensures wrote { Wrote self.old.bytes self.old.len (decimal n) self.new.len self.new.bytes }
        ensures short { self.new.len ≤ self.old.len + 20 }
    {
        self.len = daytext::put_number(&mut self.bytes, self.len, n);
    }

    // Writes a line of a key and a number.
    fn put_line(&mut self, key: &[u8], n: u64)
        requires { self.old.len + length key.now + 21 ≤ report_bytes }
        ensures wrote { Wrote self.old.bytes self.old.len (line_text key.now n) self.new.len self.new.bytes }
        ensures short { self.new.len ≤ self.old.len + length key.now + 21 }
    {
        self.put(key);
        self.put_number(n);
        self.put(b"\n");
    }

    // Writes the lines of a figure.
    fn put_figure(&mut self, numbers: Numbers)
        requires { self.old.len ≡ 0 }
        ensures { take self.new.len self.new.bytes ≡ figure_text numbers }
    {
        self.put_line(b"member=", numbers.member);
        self.put_line(b"segment=", numbers.segment);
        self.put_line(b"day=", numbers.day);
        self.put_line(b"risk=", numbers.amount);
    }

    // Writes the line of a fault.
    fn put_fault(&mut self, fault: Fault)
        requires { self.old.len ≡ 0 }
        ensures { take self.new.len self.new.bytes ≡ fault_text fault }
    {
        self.put(b"refused=");
        self.put_number(u64::from(fault.refusal().number()));
        self.put(b",");
        self.put_number(u64::from(fault.line()));
        self.put(b",");
        self.put(&[fault.layer(), b'\n']);
    }
}

/// What is printed of an answer: a figure's member, segment, day and amount, a line each, or `refused=` with the fault's
/// number, line and layer.
pub fn report(answer: Result<Numbers, Fault>) -> Report
    ensures { take result.len result.bytes ≡ printed answer }
{
    let mut report = Report {
        bytes: [0; REPORT_BYTES],
        len: 0,
    };
    match answer {
        Ok(numbers) => report.put_figure(numbers),
        Err(fault) => report.put_fault(fault),
    }
    report
}
