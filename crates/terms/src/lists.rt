// Lists that a caller brings.

ghost use Rattle.std.specs.Prelude.{◌≡◌, ◌-◌, ◌++◌, length, take, replicate};

/// Writes the value over every element from the place `from` on.
pub fn fill<T: Copy>(list: &mut [T], from: usize, value: T)
    ensures { list.new ≡ take from list.old ++ replicate (length list.old - from) value }
{
    for i in from..list.len() {
        list[i] = value;
    }
}
