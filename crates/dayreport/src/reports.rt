// What is printed, as bytes.

ghost use Rattle.std.specs.Prelude.{◌≡◌, ◌≤◌, length, take};
ghost use Rattle.dayreport.specs.Printing.{report_bytes};

/// Room for the longest report.
pub const REPORT_BYTES: usize = 128;

/// The bytes that are printed of an answer.
// Bytes with a length: a report is `Copy`, takes no heap and its making can't fail, and the kit's `ArrayVec` is not `Copy`.
#[derive(Clone, Copy)]
pub struct Report {
    pub(crate) bytes: [u8; REPORT_BYTES],
    pub(crate) len: usize,
    ghost long: { length bytes ≡ report_bytes },
    ghost within: { len ≤ report_bytes },
}

impl Report {
    pub fn as_bytes(&self) -> &[u8]
        ensures { result.now ≡ take self.now.len self.now.bytes }
    {
        &self.bytes[..self.len]
    }
}
