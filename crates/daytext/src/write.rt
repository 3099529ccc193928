// Text written over bytes that the caller has. Bytes and a place come apart, and no vector stands for them: the bytes may be any,
// the text may stand anywhere in them, and nothing is allocated.

ghost use Rattle.std.specs.Prelude.{◌≡◌};
ghost use Rattle.daytext.specs.Text.{behind, decimal, laid};

use itoa::Buffer;

/// Writes `text` over `out` from the place `at` on, and answers the place behind it. Where not all of it fits, nothing
/// is written, and the answer is `at`.
pub fn put(out: &mut [u8], at: usize, text: &[u8]) -> usize
    ensures bytes { out.new ≡ laid out.old at text.now }
    ensures place { result ≡ behind out.old at text.now }
{
    if text.len() > out.len() || at > out.len() - text.len() {
        return at;
    }
    let end = at + text.len();
    out[at..end].copy_from_slice(text);
    end
}

/// Writes the digits of `n` over `out` from the place `at` on, and answers the place behind them. Where not all of them
/// fit, nothing is written, and the answer is `at`.
#[tactic(auto, using(crate::proofs::Numerals::std_decimal))]
pub fn put_number(out: &mut [u8], at: usize, n: u64) -> usize
    ensures bytes { out.new ≡ laid out.old at (decimal n) }
    ensures place { result ≡ behind out.old at (decimal n) }
{
    put(out, at, Buffer::new().format(n).as_bytes())
}
