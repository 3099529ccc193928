// Day files in a journal.

ghost use Rattle.journal.specs.Days.{LineEndsBefore, begins, day_length};
ghost use Rattle.std.specs.Prelude.{◌≡◌, ◌<◌, ◌≤◌, ◌==◌, codes, count_by, length};

use daytext::split;

/// Whether a day file begins here.
pub fn is_day_file(bytes: &[u8]) -> bool
    ensures { result ≡ begins (codes "form=") bytes.now }
{
    matches!(bytes, [b'f', b'o', b'r', b'm', b'=', ..])
}

// Whether a day file's last line begins here. It is no case of one test with `is_day_file`: a slice pattern names its bytes, and
// takes none from a parameter.
fn is_end(bytes: &[u8]) -> bool
    ensures { result ≡ begins (codes "end=") bytes.now }
{
    matches!(bytes, [b'e', b'n', b'd', b'=', ..])
}

// What follows the first line and its byte 10.
fn after_line(bytes: &[u8]) -> &[u8]
    ensures is { LineEndsBefore bytes.now result.now }
    ensures within { length result.now ≤ length bytes.now }
    ensures shorter { 0 < length bytes.now → length result.now < length bytes.now }
{
    split(bytes, b'\n').map_or(&bytes[bytes.len()..], |(_, rest)| rest)
}

/// How long the day file is that begins here: to and with the first line after the first that begins `end=`, or up to the
/// next that begins `form=`, or to the end.
pub fn day_file(bytes: &[u8]) -> usize
    ensures is { result ≡ day_length bytes.now }
    ensures within { result ≤ length bytes.now }
    ensures some { 0 < length bytes.now → 0 < result }
{
    let mut rest = after_line(bytes);
    while !rest.is_empty() && !is_day_file(rest) {
        let others = after_line(rest);
        if is_end(rest) {
            return bytes.len() - others.len();
        }
        rest = others;
    }
    bytes.len() - rest.len()
}

/// How many lines end in these bytes.
pub fn lines_in(bytes: &[u8]) -> usize
    ensures is { result ≡ count_by (λ b. b == 10) bytes.now }
    ensures within { result ≤ length bytes.now }
{
    // By a loop: the library's `filter` and `count` take half as long again over a day file.
    let mut ended = 0;
    for &b in bytes {
        ended += usize::from(b == b'\n');
    }
    ended
}
