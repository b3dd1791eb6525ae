// Theorems on the check and on cycles.
ghost use Rattle.drawing.specs.Cycle.{CycleLaw};
ghost use Rattle.drawing.specs.Faults.{OneFirst, SuitedIsRight, SuitsOrFirst};

// A draft has at most one first fault.
pub fn one_first()
    ensures { OneFirst }
{}

// Nothing is wrong with a draft that suits the library, and one that does not suit has a first fault.
pub fn suits_or_first()
    ensures right { SuitedIsRight }
    ensures either { SuitsOrFirst }
{}

// A cycle has one solution, and working in any order that respects the connections finds it.
pub fn cycle_stands()
    ensures { CycleLaw }
{}
