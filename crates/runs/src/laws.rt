// What users feel of the law over runs.
ghost use Rattle.runs.specs.Laws.{SameValues, NeverUnopened};

pub fn laws_hold()
    ensures same_values { SameValues }
    ensures never_unopened { NeverUnopened }
{}
