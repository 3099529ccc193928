// Examples worked by hand, shown of the definitions.
#![tactic(auto)]

ghost use Rattle.examples.specs.Worked.{Right, worked};

/// The theorem that the definitions give what each worked example expects.
pub fn examples_stand()
    ensures { Right worked }
{}
