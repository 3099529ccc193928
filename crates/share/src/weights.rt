// What a total is split by.

ghost use Rattle.std.specs.Prelude.{◌≡◌, ℕ};

/// A record with a weight.
pub trait Weighted {
    ghost weighs: { Self → ℕ };

    fn weight(&self) -> u64
        ensures { result ≡ weighs self.now };
}

/// A number is its own weight.
impl Weighted for u64 {
    ghost weighs = { λ x. x };

    fn weight(&self) -> u64 {
        *self
    }
}
