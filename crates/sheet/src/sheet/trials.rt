// Trials: opened with a slip, and ended by what spends it.
ghost use Rattle.std.specs.Prelude.{◌≡◌, ◌≤◌, IfOk};
ghost use Rattle.sheet.specs.Page.{page, opened, closed, since, struck_since};
ghost use Rattle.sheet.specs.Rows.{rows_of};
ghost use Rattle.sheet.specs.Calls.{Does, Untouched, Answers, Spends, open_refusal, slip_now, slip_refusal, lowest};
ghost use Rattle.sheet.specs.Laws.{SameBelow, Lowest, UndoesTrial};

use super::Sheet;
use crate::slip::{Returned, Slip};
use faults::Fault;

impl Sheet<'_> {
    fn may_open(&self) -> Result<(), Fault>
        ensures { Answers (open_refusal (page self.now)) tt result }
    {
        if self.trial.is_some() {
            return Err(Fault::TrialOpen);
        }
        Ok(())
    }

    // Why no trial may be opened.
    pub fn open_refusal(&self) -> Option<Fault>
        ensures { result ≡ open_refusal (page self.now) }
    {
        self.may_open().err()
    }

    // Opens a trial, and hands out its slip.
    pub fn open_trial(&mut self) -> Result<Slip, Fault>
        ensures outcome { Does (open_refusal (page self.old)) (page self.old) (opened (page self.old)) (slip_now (page self.old)) result (page self.new) }
        ensures kept { IfOk result (λ slip. slip.standing ≤ 1024) }
        ensures untouched { Untouched result self.old self.new }
    {
        self.may_open()?;
        let standing = self.writes.len() as u32;
        self.trial = Some(standing);
        Ok(Slip::new(standing))
    }

    // Why a slip ends no trial.
    pub fn slip_refusal(&self, slip: &Slip) -> Option<Fault>
        ensures { result ≡ slip_refusal (page self.now) slip.now }
    {
        match self.trial {
            Some(n) if n == slip.number() => None,
            _ => Some(Fault::NoSuchTrial),
        }
    }

    // Ends the trial, and keeps its writes.
    pub fn close_trial(&mut self, slip: Slip) -> Result<(), Returned>
        ensures outcome { Spends (slip_refusal (page self.old) slip) slip (page self.old) (closed (page self.old)) tt result (page self.new) }
        ensures untouched { Untouched result self.old self.new }
    {
        // no `map_err`: its closure would own the slip in the other case too
        if let Some(fault) = self.slip_refusal(&slip) {
            return Err(Returned { fault, slip });
        }
        let _ = slip.spend();
        self.trial = None;
        Ok(())
    }

    // Ends the trial, and strikes every write that stands since its begin. Answers the lowest cycle among them.
    pub fn strike_since(&mut self, slip: Slip) -> Result<Option<u32>, Returned>
        ensures outcome { Spends (slip_refusal (page self.old) slip) slip (page self.old) (struck_since (page self.old) slip.standing) (lowest (since (page self.old) slip.standing)) result (page self.new) }
        ensures lowest { IfOk result (Lowest (since (page self.old) slip.standing)) }
        ensures rows { IfOk result (λ low. SameBelow low (rows_of (page self.old)) (rows_of (page self.new))) }
        ensures undoes { UndoesTrial (page self.old) slip result (page self.new) }
        ensures untouched { Untouched result self.old self.new }
    {
        // no `map_err`: its closure would own the slip in the other case too
        if let Some(fault) = self.slip_refusal(&slip) {
            return Err(Returned { fault, slip });
        }
        let standing = slip.spend();
        Ok(self.end_trial(standing))
    }

    // Ends the trial with the first n writes alone. Answers the lowest cycle among the others.
    fn end_trial(&mut self, n: u32) -> Option<u32>
        ensures low { result ≡ lowest (since (page self.old) n) }
        ensures left { page self.new ≡ struck_since (page self.old) n }
    {
        let low = self.writes.cut(n as usize);
        self.trial = None;
        low
    }
}
