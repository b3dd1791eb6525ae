// Runs: lists of calls, made in turn.
ghost use Rattle.std.specs.Prelude.{◌≡◌, ◌+◌, ◌≤◌, length, vec_len, vec_capacity, MatchResult};
ghost use Rattle.sheet.specs.Page.{page};
ghost use Rattle.runs.specs.Chain.{desk, Tells};
ghost use Rattle.runs.specs.Run.{Runs, Replays, Halts, Short};

use crate::call::Call;
use crate::halt::Halt;
use crate::made::perform;
use blocks::BlockLibrary;
use drawing::Drawing;
use keyframes::KeyframeStore;
use marks::MarkTable;
use player::{Answer, Player};
use sheet::{Sheet, Slip};
use std::alloc::AllocError;

// Room for n answers and n slips more.
fn reserve(hand: &mut Vec<Slip>, answers: &mut Vec<Answer>, n: usize) -> Result<(), AllocError>
    ensures room { MatchResult result (λ _. (vec_len answers.new + n ≤ vec_capacity answers.new) × (vec_len hand.new + n ≤ vec_capacity hand.new)) (λ _. Short answers.old hand.old n) }
    ensures hand { hand.new.items ≡ hand.old.items }
    ensures answers { answers.new.items ≡ answers.old.items }
{
    answers.reserve(n)?;
    hand.reserve(n)
}

// Makes the calls in turn, in memory that suffices.
fn follow<L: BlockLibrary, S: KeyframeStore>(
    player: &mut Player<L, S>,
    sheet: &mut Sheet,
    hand: &mut Vec<Slip>,
    marks: &MarkTable,
    calls: &[Call],
    answers: &mut Vec<Answer>,
)
    requires memory { vec_len answers.old + length calls.now ≤ vec_capacity answers.old }
    requires room { vec_len hand.old + length calls.now ≤ vec_capacity hand.old }
    ensures { Tells L.meaning S.means marks.now (desk player.old (page sheet.old) hand.old.items) calls.now answers.old.items answers.new.items (desk player.new (page sheet.new) hand.new.items) }
{
    for call in calls {
        answers.push_reserved(perform(player, sheet, hand, marks, *call));
    }
}

// Makes the calls in turn, from where the player and the sheet stand, and tells the answers after those that are there.
// Want of memory is told only where the lists lent have no room; then no call is made.
pub fn run<L: BlockLibrary, S: KeyframeStore>(
    player: &mut Player<L, S>,
    sheet: &mut Sheet,
    hand: &mut Vec<Slip>,
    marks: &MarkTable,
    calls: &[Call],
    answers: &mut Vec<Answer>,
) -> Result<(), AllocError>
    ensures { MatchResult result (λ _. Runs L.meaning S.means marks.now (desk player.old (page sheet.old) hand.old.items) calls.now answers.old.items answers.new.items (desk player.new (page sheet.new) hand.new.items)) (λ _. Short answers.old hand.old (length calls.now) × (player.new ≡ player.old) × (sheet.new ≡ sheet.old) × (hand.new.items ≡ hand.old.items) × (answers.new.items ≡ answers.old.items)) }
{
    reserve(hand, answers, calls.len())?;
    follow(player, sheet, hand, marks, calls, answers);
    Ok(())
}

// Opens the player on a drawing and the sheet, and makes the calls in turn. Where the opening is refused, or the lists lent
// have no room, no call is made, and the drawing comes back.
pub fn replay<L: BlockLibrary, S: KeyframeStore>(
    player: &mut Player<L, S>,
    drawing: Drawing,
    sheet: &mut Sheet,
    hand: &mut Vec<Slip>,
    marks: &MarkTable,
    calls: &[Call],
    answers: &mut Vec<Answer>,
) -> Result<(), Halt>
    ensures { MatchResult result (λ _. Replays L.meaning S.means marks.now drawing (desk player.old (page sheet.old) hand.old.items) calls.now answers.old.items answers.new.items (desk player.new (page sheet.new) hand.new.items)) (λ halt. Halts (L.meaning player.old.library) drawing (page sheet.old) (Short answers.old hand.old (length calls.now)) halt × (player.new ≡ player.old) × (sheet.new ≡ sheet.old) × (hand.new.items ≡ hand.old.items) × (answers.new.items ≡ answers.old.items)) }
{
    // no `map_err`: its closure would own the drawing in the other case too
    if let Err(_) = reserve(hand, answers, calls.len()) {
        return Err(Halt::NoMemory(drawing));
    }
    player.open(drawing, sheet).map_err(Halt::Refused)?;
    follow(player, sheet, hand, marks, calls, answers);
    Ok(())
}
