// What is proved of the split.

ghost use Rattle.share.specs.Split.{SplitInProportion};

/// The theorem that the parts of a split add to the total, that none is above its weight, and that each is less than one off its
/// exact share.
pub fn split_stands()
    ensures { SplitInProportion }
{}
