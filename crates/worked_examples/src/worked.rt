// The worked examples, jointly.
ghost use Rattle.plant.specs.Examples.{Sums, Sequences, Scales, OnDelays};
ghost use Rattle.drawing_examples.specs.Inverters.{OnItself, ThroughDelay};
ghost use Rattle.packed.specs.Example.{CounterFile};
ghost use Rattle.worked_examples.specs.Demonstration.{Meant, Demonstrates, OneDemonstrates};

use blocks::BlockLibrary;
use keyframes::KeyframeStore;

// The demonstration's file, and its run by a player of any types that mean the plant library and stores with room for a row, and of
// the store that keeps one row; ADD, SEQ, SCALE and ONDT; a NOT fed by itself, and one fed by itself through a DELB.
pub fn worked_examples_stand<L: BlockLibrary, S: KeyframeStore>()
    ensures file { CounterFile }
    ensures run { Meant L.meaning S.means → Demonstrates L.BlockLibrary S.KeyframeStore L.meaning S.means }
    ensures one_run { OneDemonstrates }
    ensures sums { Sums }
    ensures sequences { Sequences }
    ensures scales { Scales }
    ensures on_delays { OnDelays }
    ensures inverter_on_itself { OnItself }
    ensures inverter_through_delay { ThroughDelay }
{}
