// The two pledges of a member.

ghost use Rattle.house.specs.Pledging.{pledge_of, pledging};
ghost use Rattle.std.specs.Prelude.{◌≡◌};

use tables::Pledges;

/// Which of a member's two pledges.
#[derive(Clone, Copy, PartialEq, Eq, Debug)]
pub enum PledgeKind {
    Individual,
    Extraordinary,
}

impl PledgeKind {
    // The pledge of this kind.
    pub(crate) fn pledged(self, pledges: Pledges) -> u64
        ensures { result ≡ pledge_of self pledges }
    {
        match self {
            PledgeKind::Individual => pledges.individual,
            PledgeKind::Extraordinary => pledges.extraordinary,
        }
    }

    // The pledges once that of this kind is `amount`.
    pub(crate) fn with_pledge(self, pledges: Pledges, amount: u64) -> Pledges
        ensures { result ≡ pledging self amount pledges }
    {
        match self {
            PledgeKind::Individual => Pledges {
                individual: amount,
                ..pledges
            },
            PledgeKind::Extraordinary => Pledges {
                extraordinary: amount,
                ..pledges
            },
        }
    }
}
