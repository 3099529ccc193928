// The lines of a file that are left to be read.

ghost use Rattle.std.specs.Prelude.{◌+◌, ◌^◌, ◌<◌, length};

use daykeys::{Key, after_key};
use dayreport::Fault;
use daytext::{plain, split};
use terms::Refusal;
use terms::limits::MOST_FILE_BYTES;

// The bytes of the lines that are left, and the number of the first of them. Lines are counted from 1.
#[derive(Drop)]
pub(crate) struct Lines<'a> {
    pub(crate) rest: &'a [u8],
    pub(crate) number: u32,
    ghost few: { number + length rest.now < 2 ^ 32 },
}

impl<'a> Lines<'a> {
    ghost use Rattle.std.specs.Prelude.{◌≡◌, ◌+◌, IfOk};
    ghost use Rattle.dayfile.specs.Reading.{next, numbered};
    ghost use Rattle.dayfile.specs.Seen.{LineRead, LinesOf, seen_as, text_as};
    ghost use Rattle.daykeys.specs.KeyTexts.{key_text};
    ghost use Rattle.daytext.specs.Text.{parted};

    // All lines of a file, unless it is too long.
    pub(crate) fn of(bytes: &'a [u8]) -> Result<Lines<'a>, Fault>
        ensures { LinesOf bytes.now result }
    {
        if bytes.len() > MOST_FILE_BYTES {
            return Err(Fault::Line(Refusal::TooLong, 1));
        }
        Ok(Lines {
            rest: bytes,
            number: 1,
        })
    }

    // The next line; `None` where what is left does not end.
    pub(crate) fn line(&mut self) -> Option<&'a [u8]>
        ensures { LineRead self.old result self.new }
    {
        let (line, rest) = split(self.rest, b'\n')?;
        self.rest = rest;
        self.number += 1;
        Some(line)
    }

    // What follows the key of the next line, which is to have this one. This and the next say how far the lines have gone, as
    // their callers do: reading tells each fault at a number of its own.
    pub(crate) fn text(&mut self, key: Key) -> Result<&'a [u8], Fault>
        ensures is { text_as result self.new ≡ next (key_text key) self.old.number (parted 10 self.old.rest.now) }
        ensures on { IfOk result (λ _. self.new.number ≡ self.old.number + 1) }
    {
        let fault = Fault::Line(Refusal::Key, self.number);
        let line = self.line().ok_or(fault)?;
        after_key(line, key).ok_or(fault)
    }

    // The number that stands in the next line, which is to have this key.
    pub(crate) fn value(&mut self, key: Key) -> Result<u64, Fault>
        ensures is { seen_as result self.new ≡ numbered (key_text key) self.old.number (parted 10 self.old.rest.now) }
        ensures on { IfOk result (λ _. self.new.number ≡ self.old.number + 1) }
    {
        let fault = Fault::Line(Refusal::Field, self.number);
        let text = self.text(key)?;
        plain(text).ok_or(fault)
    }
}
