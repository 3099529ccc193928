// Division that rounds up.

ghost use Rattle.terms.specs.Rounding.{up};
ghost use Rattle.std.specs.Prelude.{◌≡◌};

/// a / b rounded up, and 0 where b is 0.
pub fn divided_up(a: u64, b: u64) -> u64
    ensures { result ≡ up a b }
{
    if b == 0 {
        return 0;
    }
    a.div_ceil(b)
}
