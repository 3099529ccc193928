// The keys that lines begin with, and what follows them.

ghost use Rattle.daykeys.specs.KeyTexts.{RowIs, key_text};
ghost use Rattle.daytext.specs.Text.{after, seen};
ghost use Rattle.std.specs.Prelude.{◌≡◌};

/// The keys of the heading's and the sheet's lines.
#[derive(Clone, Copy)]
pub enum Key {
    Form,
    Member,
    Segment,
    Day,
    Scenarios,
    Assets,
    Changes,
}

/// What follows the key, where the line begins with it.
pub fn after_key<'a>(line: &'a [u8], key: Key) -> Option<&'a [u8]>
    ensures { seen result ≡ after (key_text key) line.now }
{
    match (key, line) {
        (Key::Form, [b'f', b'o', b'r', b'm', b'=', rest @ ..]) => Some(rest),
        (Key::Member, [b'm', b'e', b'm', b'b', b'e', b'r', b'=', rest @ ..]) => Some(rest),
        (Key::Segment, [b's', b'e', b'g', b'm', b'e', b'n', b't', b'=', rest @ ..]) => Some(rest),
        (Key::Day, [b'd', b'a', b'y', b'=', rest @ ..]) => Some(rest),
        (Key::Scenarios, [b's', b'c', b'e', b'n', b'=', rest @ ..]) => Some(rest),
        (Key::Assets, [b'a', b's', b's', b'e', b't', b's', b'=', rest @ ..]) => Some(rest),
        (Key::Changes, [b'c', b'h', b'g', b'=', rest @ ..]) => Some(rest),
        _ => None,
    }
}

/// The lines after the sheet, by their key, with what follows it.
#[derive(Clone, Copy)]
pub enum Row<'a> {
    Position(&'a [u8]),
    Account(&'a [u8]),
    End(&'a [u8]),
}

/// Which of these lines this is, and what follows its key.
pub fn row_of<'a>(line: &'a [u8]) -> Option<Row<'a>>
    ensures { RowIs line.now result }
{
    match line {
        [b'p', b'o', b's', b'=', rest @ ..] => Some(Row::Position(rest)),
        [b'a', b'c', b'c', b'=', rest @ ..] => Some(Row::Account(rest)),
        [b'e', b'n', b'd', b'=', rest @ ..] => Some(Row::End(rest)),
        _ => None,
    }
}
