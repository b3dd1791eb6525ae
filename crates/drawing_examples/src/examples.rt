// Drawings of the plant library that the check accepts or refuses.
ghost use Rattle.drawing_examples.specs.Inverters.{OnItself, ThroughDelay};
ghost use Rattle.drawing_examples.specs.Accepted.{BuiltInAccepted};

// A NOT that is fed by itself is refused: a closed chain, told as 17 at block 0.
pub fn inverter_on_itself_is_refused()
    ensures { OnItself }
{}

// A NOT that is fed by itself through a DELB suits the library; the DELB is placed first.
pub fn inverter_through_delay_suits()
    ensures { ThroughDelay }
{}

// The built-in drawing is what the check makes of the built-in draft.
pub fn built_in_is_accepted()
    ensures { BuiltInAccepted }
{}
