// What is proved of the two rules' places.

ghost use Rattle.sizing.specs.Firsts.{FirstLargestStands};

/// The theorem that cover-one marks exactly the first largest mean, and cover-two also exactly the first largest among the rest.
pub fn first_largest_stands()
    ensures { FirstLargestStands }
{}
