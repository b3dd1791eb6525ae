// One call of a run: made, and told. Room in the hand stands on each: the hand is the caller's vector.
ghost use Rattle.std.specs.Prelude.{◌≡◌, ◌+◌, ◌<◌, ◌≤◌, vec_len, vec_capacity};
ghost use Rattle.std.specs.List.{insert};
ghost use Rattle.sheet.specs.Page.{page};
ghost use Rattle.runs.specs.Chain.{desk, Made, Roomy, answer_or, Ended};

use crate::call::Call;
use blocks::BlockLibrary;
use faults::Fault;
use keyframes::KeyframeStore;
use marks::MarkTable;
use player::{Answer, Player};
use sheet::{Returned, Sheet, Slip};

// Puts a slip back to its place, for which there is room.
fn put_back(hand: &mut Vec<Slip>, i: usize, slip: Slip)
    requires place { i ≤ vec_len hand.old }
    requires room { vec_len hand.old < vec_capacity hand.old }
    ensures items { hand.new.items ≡ insert hand.old.items i slip }
    ensures len { vec_len hand.new ≡ vec_len hand.old + 1 }
    ensures capacity { vec_capacity hand.new ≡ vec_capacity hand.old }
{
    match hand.insert(i, slip) {
        Ok(()) => (),
        Err(_) => unreachable(),
    }
}

// What the end of a trial tells. The slip of a refused one goes back to its place, for which there is room.
fn ended(hand: &mut Vec<Slip>, i: usize, end: Result<u32, Returned>) -> Result<u32, Fault>
    requires place { i ≤ vec_len hand.old }
    requires room { vec_len hand.old < vec_capacity hand.old }
    ensures told { Ended end i hand.old.items result hand.new.items }
    ensures room { Roomy hand.old hand.new }
{
    // no `map_err`: the hand takes the slip back, and a closure would hold the hand
    match end {
        Ok(n) => Ok(n),
        Err(Returned { fault, slip }) => {
            put_back(hand, i, slip);
            Err(fault)
        }
    }
}

// Makes one call. A begin puts its slip at the end of the hand, and a confirm or a drop takes its own out of it.
// Player, sheet and hand stay three parameters: a struct of the borrows is no plainer, with two lifetimes and made anew at each call.
fn make<L: BlockLibrary, S: KeyframeStore>(
    player: &mut Player<L, S>,
    sheet: &mut Sheet,
    hand: &mut Vec<Slip>,
    marks: &MarkTable,
    call: Call,
) -> Result<Answer, Fault>
    requires { vec_len hand.old < vec_capacity hand.old }
    ensures made { Made L.meaning S.means marks.now call (desk player.old (page sheet.old) hand.old.items) (answer_or result) (desk player.new (page sheet.new) hand.new.items) }
    ensures room { Roomy hand.old hand.new }
{
    Ok(match call {
        Call::Step => Answer::Worked(player.step(sheet)?),
        Call::Jump(cycle) => Answer::Worked(player.jump(sheet, cycle)?),
        Call::Goto(name) => Answer::Worked(player.jump_to_mark(sheet, marks, name)?),
        Call::Write(cycle, column, value) => {
            Answer::Worked(player.write(sheet, cycle, column, value)?)
        }
        Call::TakeBack => Answer::Worked(player.take_back(sheet)?),
        Call::Begin => {
            let slip = player.begin_trial(sheet)?;
            let n = slip.number();
            hand.push_reserved(slip);
            Answer::Slip(n)
        }
        Call::Confirm(i) | Call::Drop(i) if i >= hand.len() => Answer::NoSlip,
        Call::Confirm(i) => {
            let slip = hand.remove(i);
            Answer::Worked(ended(hand, i, player.confirm_trial(sheet, slip))?)
        }
        Call::Drop(i) => {
            let slip = hand.remove(i);
            Answer::Worked(ended(hand, i, player.drop_trial(sheet, slip))?)
        }
        Call::Show(block) => Answer::Value(player.show(block)?),
        Call::Tally(column) => Answer::Count(sheet.tally(column)?),
    })
}

// Makes one call, and tells a refusal as an answer.
pub(crate) fn perform<L: BlockLibrary, S: KeyframeStore>(
    player: &mut Player<L, S>,
    sheet: &mut Sheet,
    hand: &mut Vec<Slip>,
    marks: &MarkTable,
    call: Call,
) -> Answer
    requires { vec_len hand.old < vec_capacity hand.old }
    ensures made { Made L.meaning S.means marks.now call (desk player.old (page sheet.old) hand.old.items) result (desk player.new (page sheet.new) hand.new.items) }
    ensures room { Roomy hand.old hand.new }
{
    make(player, sheet, hand, marks, call).unwrap_or_else(Answer::Refused)
}
