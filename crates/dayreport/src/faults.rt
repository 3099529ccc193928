// The first fault of a day file.

ghost use Rattle.dayreport.specs.Faults.{layer_in, line_in, refusal_in};
ghost use Rattle.std.specs.Prelude.{◌≡◌};

use terms::Refusal;

/// The first fault of a day file, by the layer that found it, with its refusal and its line.
#[derive(Clone, Copy, PartialEq, Eq, Debug)]
pub enum Fault {
    /// The line itself is at fault.
    Line(Refusal, u32),
    /// The heading's numbers are refused, at the line of the last of them.
    Heading(Refusal, u32),
    /// The tally refuses an account, at the account's line.
    Tally(Refusal, u32),
}

impl Fault {
    // Refusal and line are each read out of every case: a case for each layer is what a reader matches on.
    pub fn refusal(self) -> Refusal
        ensures { result ≡ refusal_in self }
    {
        match self {
            Fault::Line(refusal, _) | Fault::Heading(refusal, _) | Fault::Tally(refusal, _) =>
                refusal,
        }
    }

    /// The line, counted from 1.
    pub fn line(self) -> u32
        ensures { result ≡ line_in self }
    {
        match self {
            Fault::Line(_, line) | Fault::Heading(_, line) | Fault::Tally(_, line) => line,
        }
    }

    /// The layer's letter: L line, H heading, T tally. A byte, since that is what is printed and promised of it.
    pub fn layer(self) -> u8
        ensures { result ≡ layer_in self }
    {
        match self {
            Fault::Line(..) => b'L',
            Fault::Heading(..) => b'H',
            Fault::Tally(..) => b'T',
        }
    }
}
