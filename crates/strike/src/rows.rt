// The row in which a strike tells a member its ask.

/// What is asked of a member, and whether its place is marked; 0 and unmarked where it does not share. The row of member m stands
/// at place m - 1.
#[derive(Clone, Copy, PartialEq, Eq, Debug, Default)]
pub struct Row {
    pub ask: u64,
    pub marked: bool,
}
