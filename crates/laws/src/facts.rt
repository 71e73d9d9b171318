// What is proved of sheets, for every width plan with widths of 1 to 8 bits, every kind of card and every shelf.
ghost use Rattle.laws.specs.Example.{ExampleRuns};
ghost use Rattle.laws.specs.Laws.{StepPins, StepTotal, ThreeLaws};

// After every list of calls on a newly made sheet the three laws hold: labels and rows follow the drawing; in one firing next obeys
// places in reading order; and when next answers end, each filled place was obeyed or was filled behind one that had been obeyed.
pub fn laws_stand() -> bool
    ensures { ThreeLaws }
{
    true
}

// Every call has an answer, and it has only one and leaves one sheet.
pub fn steps_stand() -> bool
    ensures total { StepTotal }
    ensures pins { StepPins }
{
    true
}

// A run of calls with their answers, worked through, in which a place is filled behind the mark before next answers end.
pub fn example_stands() -> bool
    ensures { ExampleRuns }
{
    true
}
