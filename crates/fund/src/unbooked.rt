// A figure that was not booked.

use figures::Figure;
use terms::Refusal;

/// A figure that was not booked, and why. The figure is still to be spent.
pub struct Unbooked {
    pub refusal: Refusal,
    pub figure: Figure,
}
