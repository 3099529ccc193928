// A text cut at a separator, or behind a key.

ghost use Rattle.std.specs.Prelude.{◌≡◌, ◌≤◌, ◌==◌, length};
ghost use Rattle.daytext.specs.Fields.{left};
ghost use Rattle.daytext.specs.Text.{FirstAt, SplitIs, after, fields_of, seen, unlike};
ghost use Rattle.std.specs.Iterator.{YieldsFirstRef, item_count};
ghost use Rattle.std.specs.List.{position, prefix_len};

// The place of the first separator.
fn first(text: &[u8], sep: u8) -> Option<usize>
    ensures { result ≡ position (λ b. b == sep) text.now }
{
    text.iter().position(|b| *b == sep)
}

/// How many bytes come before the first `sep`, or all of them.
#[tactic(auto, using(crate::proofs::Cuts::upto_found, crate::proofs::Cuts::first_found))]
pub fn upto(text: &[u8], sep: u8) -> usize
    ensures is { prefix_len (unlike sep) text.now ≡ result }
    ensures within { result ≤ length text.now }
    ensures parts { FirstAt sep text.now result }
{
    first(text, sep).unwrap_or(text.len())
}

/// The first part and what follows the separator after it; `None` where there is no separator.
pub fn split<'a>(bytes: &'a [u8], sep: u8) -> Option<(&'a [u8], &'a [u8])>
    ensures { SplitIs sep bytes.now result }
{
    let n = first(bytes, sep)?;
    Some((&bytes[..n], &bytes[n + 1..]))
}

/// The fields of a text that are left, with a comma between each two.
#[derive(Drop)]
pub struct Fields<'a> {
    rest: Option<&'a [u8]>,
}

impl<'a> Fields<'a> {
    /// All fields of a text: one more than it has commas.
    pub fn of(text: &'a [u8]) -> Fields<'a>
        ensures { left result ≡ fields_of text.now }
    {
        Fields { rest: Some(text) }
    }
}

impl<'a> Iterator for Fields<'a> {
    type Item = &'a [u8];

    ghost next_gives = { YieldsFirstRef left };

    ghost remaining = { item_count left };

    fn next(&mut self) -> Option<&'a [u8]> {
        let text = self.rest.take()?;
        let Some((field, rest)) = split(text, b',') else {
            return Some(text);
        };
        self.rest = Some(rest);
        Some(field)
    }
}

/// What follows the key, where the line begins with it.
#[tactic(auto, using(crate::proofs::Cuts::past_front))]
pub fn past<'a>(line: &'a [u8], key: &[u8]) -> Option<&'a [u8]>
    ensures { seen result ≡ after key.now line.now }
{
    line.strip_prefix(key)
}
