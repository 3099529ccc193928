// The fields of a line.

ghost use Rattle.std.specs.Prelude.{◌≡◌};
ghost use Rattle.dayfile.specs.Reading.{account_fields, kind_of, position_fields};
ghost use Rattle.daytext.specs.Text.{parted};

use daytext::{Fields, plain, signed};
use figures::{Account, Kind, Position};

// Asset and quantity.
pub(crate) fn position(text: &[u8]) -> Option<Position>
    ensures { result ≡ position_fields (parted 44 text.now) }
{
    let mut fields = Fields::of(text);
    let position = Position {
        asset: plain(fields.next()?)?,
        quantity: signed(fields.next()?)?,
    };
    fields.next().is_none().then_some(position)
}

#[tactic(auto, using(crate::proofs::KindTexts::kind_none))]
fn kind(text: &[u8]) -> Option<Kind>
    ensures { result ≡ kind_of text.now }
{
    match text {
        [b'o', b'w', b'n'] => Some(Kind::Own),
        [b'c', b'l', b'i'] => Some(Kind::Client),
        _ => None,
    }
}

// Kind, required and posted margin.
pub(crate) fn account(text: &[u8]) -> Option<Account>
    ensures { result ≡ account_fields (parted 44 text.now) }
{
    let mut fields = Fields::of(text);
    let account = Account {
        kind: kind(fields.next()?)?,
        required: plain(fields.next()?)?,
        posted: plain(fields.next()?)?,
    };
    fields.next().is_none().then_some(account)
}
