// What a move does to a store on its way.
ghost use Rattle.std.specs.Prelude.{◌≡◌, ℕ, suc, true, map};
ghost use Rattle.keyframes.specs.Chain.{due, Keeps, packed, Visits};
ghost use Rattle.keyframes.specs.Frames.{Frames};
ghost use Rattle.keyframes.specs.Right.{Right, RightStays};
ghost use Rattle.values.specs.Packed.{state_of};
ghost use Rattle.values.specs.declared.working.Row.{Row};

use crate::store::KeyframeStore;
use values::{Row, States};

// Whether the row of a cycle just reached is put: every 32nd, if the store takes it.
fn is_due<S: KeyframeStore>(store: &S, cycle: u32) -> bool
    ensures { result ≡ due (S.means store.now) cycle }
{
    cycle % 32 == 0 && store.takes(cycle)
}

// On reaching a cycle divisible by 32, puts its row if the store takes it. Any chain of such puts that led here leads on,
// and rows that are right stay right.
#[tactic(auto, using(crate::proofs::Staying::right_stays))]
pub fn reach<S: KeyframeStore>(store: &mut S, cycle: u32, row: &Row)
    ensures keeps { Keeps (S.means store.old) cycle row.now (S.means store.new) }
    ensures visits { (rows : ℕ → Row) (from c : ℕ) (f : Frames) → cycle ≡ suc c → rows cycle ≡ row.now → Visits rows from f c (S.means store.old) → Visits rows from f cycle (S.means store.new) }
    ensures right { (rows : ℕ → Row) → rows cycle ≡ row.now → Right rows (S.means store.old) → Right rows (S.means store.new) }
    ensures law { RightStays }
{
    if is_due(store, cycle) {
        store.put(cycle, row);
    }
}

// The same with states, whose row is made only where it is put; it gives the states back.
#[tactic(auto, using(crate::proofs::Staying::right_stays))]
pub fn reach_with<S: KeyframeStore>(store: &mut S, cycle: u32, states: &States)
    ensures keeps { Keeps (S.means store.old) cycle (packed states.now.all) (S.means store.new) }
    ensures visits { (rows : ℕ → Row) (from c : ℕ) (f : Frames) → cycle ≡ suc c → rows cycle ≡ packed states.now.all → Visits rows from f c (S.means store.old) → Visits rows from f cycle (S.means store.new) }
    ensures right { (rows : ℕ → Row) → rows cycle ≡ packed states.now.all → Right rows (S.means store.old) → Right rows (S.means store.new) }
    ensures law { RightStays }
    ensures back { due (S.means store.old) cycle ≡ true → map state_of (packed states.now.all).states ≡ states.now.all }
{
    if is_due(store, cycle) {
        store.put(cycle, &Row::from(states));
    }
}
