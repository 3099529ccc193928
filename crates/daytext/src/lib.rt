// The text of a file of lines `key=value,value`: parts are found, whole numbers read, and text written over bytes.
#![tactic(auto)]

pub mod numbers;
pub mod parts;
pub mod write;

pub use numbers::{numbers_stand, plain, signed};
pub use parts::{Fields, past, split, upto};
pub use write::{put, put_number};

#[cfg(test)]
mod tests {
    use super::*;

    #[test]
    fn whole_numbers(rt: HostRuntime) {
        assert_eq!(rt; plain(b"9999999999999"), Some(9_999_999_999_999));
        assert_eq!(rt; plain(b"10000000000000"), None);
        assert_eq!(rt; plain(b"0"), Some(0));
        assert_eq!(rt; plain(b"00"), None);
    }

    #[test]
    fn numbers_with_a_sign(rt: HostRuntime) {
        assert_eq!(rt; signed(b"-9999999999999"), Some(-9_999_999_999_999));
        assert_eq!(rt; signed(b"-0"), None);
        assert_eq!(rt; signed(b"7"), Some(7));
    }

    #[test]
    fn fields_between_commas(rt: HostRuntime) {
        let mut fields = Fields::of(b"7,,8");
        assert_eq!(rt; fields.next(), Some(&b"7"[..]));
        assert_eq!(rt; fields.next(), Some(&b""[..]));
        assert_eq!(rt; fields.next(), Some(&b"8"[..]));
        assert_eq!(rt; fields.next(), None);
        assert_eq!(rt; Fields::of(b"").count(), 1);
    }

    #[test]
    fn text_at_the_end(rt: HostRuntime) {
        let mut out = [b'.'; 5];
        assert_eq!(rt; put(&mut out, 2, b"abc"), 5);
        assert_eq!(rt; put(&mut out, 3, b"xyz"), 3);
        assert_eq!(rt; out, *b"..abc");
    }

    // The bytes with `n` from place 2 on, and the place behind it.
    fn numbered(n: u64) -> ([u8; 22], usize) {
        let mut out = [b'.'; 22];
        let end = put_number(&mut out, 2, n);
        (out, end)
    }

    #[test]
    fn numbers_at_the_end(rt: HostRuntime) {
        assert_eq!(rt; numbered(0), (*b"..0...................", 3));
        assert_eq!(rt; numbered(u64::MAX), (*b"..18446744073709551615", 22));
    }
}
