// What is proved of labels and of the choice between siblings, for every width plan and any number of bits.
ghost use Rattle.gap.specs.Between.{CandidatesAreChildren, CandidatesAreLabels, OneAnswer, SomeAnswer};
ghost use Rattle.gap.specs.Examples.{ExamplesHold};
ghost use Rattle.gap.specs.PlanLabels.{LabelsAreSound};

// The candidates are exactly the lawful labels one level below the parent, led by it and strictly between the bounds; an opening has one answer; and the labels of every plan are as the laws
// over whole runs need them.
pub fn facts_stand() -> bool
    ensures children { CandidatesAreChildren }
    ensures labels { CandidatesAreLabels }
    ensures one { OneAnswer }
    ensures some { SomeAnswer }
    ensures sound { LabelsAreSound }
{
    true
}

// The definitions give the worked examples.
pub fn examples_stand() -> bool
    ensures { ExamplesHold }
{
    true
}
