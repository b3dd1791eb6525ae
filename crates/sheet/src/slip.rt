// What a trial that is opened hands out.
ghost use Rattle.std.specs.Prelude.{◌≡◌, ◌<◌};

use faults::Fault;

// How many writes stood when the trial began. Only the sheet makes a slip and takes it back.
pub struct Slip {
    standing: u32,
}

// Nothing lets a slip go but what spends it: a sheet keeps at most 1,024 writes, so no trial hands out a slip
// that meets this.
impl Drop for Slip {
    fn drop(self)
        requires { 1024 < self.standing }
    {
        let Slip { standing: _ } = self;
    }
}

// A refused close or strike hands the slip back.
pub struct Returned {
    pub fault: Fault,
    pub slip: Slip,
}

impl Slip {
    pub(crate) fn new(standing: u32) -> Slip
        ensures { result ≡ record { standing = standing } }
    {
        Slip { standing }
    }

    pub fn number(&self) -> u32
        ensures { result ≡ self.now.standing }
    {
        self.standing
    }

    pub(crate) fn spend(self) -> u32
        ensures { result ≡ self.standing }
    {
        let Slip { standing } = self;
        standing
    }
}
