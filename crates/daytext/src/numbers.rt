// Whole numbers, read from their digits.

ghost use Rattle.std.specs.Prelude.{◌≡◌, ◌≤◌, length};
ghost use Rattle.daytext.specs.Text.{NumbersStand, Small, SmallSize, digits, longest, plain_of, signed_of};

// The most digits that a number has.
const LONGEST: usize = 13;

// The number that a few digits make, with zeros in front or none.
fn digits_value(text: &[u8]) -> Option<u64>
    requires { length text.now ≤ longest }
    ensures is { result ≡ digits 0 text.now }
    ensures short { Small result }
{
    // A loop: a closure of `try_fold` would have to be safe for any number that it is handed.
    let mut n = 0;
    for &b in text {
        if !b.is_ascii_digit() {
            return None;
        }
        n = n * 10 + u64::from(b - b'0');
    }
    Some(n)
}

/// A whole number: at most 13 digits, and no zero in front of others.
pub fn plain(text: &[u8]) -> Option<u64>
    ensures is { result ≡ plain_of text.now }
    ensures short { Small result }
{
    match text {
        [] => None,
        [b'0'] => Some(0),
        [b'0', ..] => None,
        _ if text.len() > LONGEST => None,
        _ => digits_value(text),
    }
}

/// A whole number, or one below 0 after a minus. There is none of size 0 below 0, since a number has one text alone.
pub fn signed(text: &[u8]) -> Option<i64>
    ensures is { result ≡ signed_of text.now }
    ensures short { SmallSize result }
{
    match text {
        [b'-', rest @ ..] => plain(rest).filter(|n| *n != 0).map(|n| -(n as i64)),
        _ => plain(text).map(|n| n as i64),
    }
}

/// The theorem that reading and writing of numbers are inverse.
pub fn numbers_stand()
    ensures { NumbersStand }
{}
