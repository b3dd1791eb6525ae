// A replay that has its own hand.
ghost use Rattle.std.specs.Prelude.{◌≡◌, length, MatchResult};
ghost use Rattle.sheet.specs.Page.{page};
ghost use Rattle.runs.specs.Run.{Halts, Short};
ghost use Rattle.runs.specs.Own.{Own, Settled, Rehearses};

use crate::call::Call;
use crate::halt::Halt;
use crate::hand::EmptyHand;
use crate::runs::replay;
use blocks::BlockLibrary;
use drawing::Drawing;
use keyframes::KeyframeStore;
use marks::MarkTable;
use player::{Answer, Player};
use sheet::{Sheet, Slip};

// Ends a hand that began empty: the slip of a trial still open is spent, and the trial's writes stay.
fn settle(sheet: &mut Sheet, hand: Vec<Slip>)
    requires { Own hand.items (page sheet.old).trial }
    ensures { Settled hand.items (page sheet.old) (page sheet.new) }
{
    let mut slips = hand;
    match slips.pop() {
        Some(slip) => match sheet.close_trial(slip) {
            Ok(()) => slips.destroy_empty(),
            Err(_) => unreachable(),
        },
        None => slips.destroy_empty(),
    }
}

// Opens the player on a drawing and the sheet and makes the calls in turn, with a hand that begins empty; a trial still open at the
// end is confirmed. Where the opening is refused, or the lists lent have no room, no call is made.
pub fn rehearse<L: BlockLibrary, S: KeyframeStore>(
    player: &mut Player<L, S>,
    drawing: Drawing,
    sheet: &mut Sheet,
    marks: &MarkTable,
    calls: &[Call],
    answers: &mut Vec<Answer>,
    hand: EmptyHand,
) -> Result<(), Halt>
    ensures { MatchResult result (λ _. Rehearses L.meaning S.means marks.now drawing player.old (page sheet.old) calls.now answers.old.items answers.new.items player.new (page sheet.new)) (λ halt. Halts (L.meaning player.old.library) drawing (page sheet.old) (Short answers.old hand.slips (length calls.now)) halt × (player.new ≡ player.old) × (sheet.new ≡ sheet.old) × (answers.new.items ≡ answers.old.items)) }
{
    let EmptyHand { mut slips } = hand;
    // the slips are linear: each answer ends them in its own way
    match replay(player, drawing, sheet, &mut slips, marks, calls, answers) {
        Ok(()) => {
            settle(sheet, slips);
            Ok(())
        }
        Err(halt) => {
            slips.destroy_empty();
            Err(halt)
        }
    }
}
