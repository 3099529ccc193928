// The lines of a journal that make a call.

ghost use Rattle.daytext.specs.Text.{fields_of};
ghost use Rattle.journal.specs.Entries.{line_entry, numbers_of};
ghost use Rattle.std.specs.Prelude.{◌≡◌};

use daytext::{Fields, plain};

/// A line that makes a call, read whole. Its numbers are judged by the call alone.
#[derive(Clone, Copy, PartialEq, Eq, Debug)]
pub enum Entry {
    Admit {
        member: u64,
        segment: u64,
        class: u64,
        minimum: u64,
        paid: u64,
    },
    Pay {
        member: u64,
        segment: u64,
        amount: u64,
    },
    Withdraw {
        member: u64,
        segment: u64,
        amount: u64,
    },
    Depart {
        member: u64,
        segment: u64,
    },
}

// Exactly `N` numbers, with a comma between each two.
fn numbers<const N: usize>(text: &[u8]) -> Option<[u64; N]>
    ensures { result ≡ numbers_of N (fields_of text.now) }
{
    let mut fields = Fields::of(text);
    let mut numbers = [0; N];
    for number in &mut numbers {
        *number = plain(fields.next()?)?;
    }
    fields.next().is_none().then_some(numbers)
}

// Paying and withdrawing are two calls of the book that are told the same numbers; each has its arm.
/// The entry that a line makes, without its byte 10; `None` where it makes none.
pub fn entry_of(line: &[u8]) -> Option<Entry>
    ensures { result ≡ line_entry line.now }
{
    match line {
        [b'a', b'd', b'm', b'i', b't', b'=', rest @ ..] => {
            let [member, segment, class, minimum, paid] = numbers::<5>(rest)?;
            Some(Entry::Admit {
                member,
                segment,
                class,
                minimum,
                paid,
            })
        }
        [b'p', b'a', b'y', b'=', rest @ ..] => {
            let [member, segment, amount] = numbers::<3>(rest)?;
            Some(Entry::Pay {
                member,
                segment,
                amount,
            })
        }
        [
            b'w',
            b'i',
            b't',
            b'h',
            b'd',
            b'r',
            b'a',
            b'w',
            b'=',
            rest @ ..,
        ] => {
            let [member, segment, amount] = numbers::<3>(rest)?;
            Some(Entry::Withdraw {
                member,
                segment,
                amount,
            })
        }
        [b'd', b'e', b'p', b'a', b'r', b't', b'=', rest @ ..] => {
            let [member, segment] = numbers::<2>(rest)?;
            Some(Entry::Depart { member, segment })
        }
        _ => None,
    }
}
