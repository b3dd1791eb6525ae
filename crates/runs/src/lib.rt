// Runs of calls, with the law that they obey.
#![tactic(auto)]

mod call;
mod halt;
mod hand;
mod laws;
mod made;
mod rehearsal;
mod runs;

pub use call::Call;
pub use halt::Halt;
pub use hand::EmptyHand;
pub use laws::laws_hold;
pub use rehearsal::rehearse;
pub use runs::{replay, run};
