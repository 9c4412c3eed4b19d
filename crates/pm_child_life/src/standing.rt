//! The signals that a child has taken and not heeded yet.
ghost use Rattle.std.specs.Prelude.{◌≡◌};
ghost use Rattle.pm_child_life.specs.Attention.{attention, nothing_stands, with_signals, CancelStands, Hears, IsAttentive};

use crate::life::{Life, Signals};
use pm_supervisor::Reason;

/// What stands to be heeded.
#[derive(Clone, Copy, Debug, PartialEq, Eq)]
pub struct Standing {
    pub kill: bool,
    pub quit: Option<Reason>,
    pub terminate: bool,
    pub cancel: bool,
    pub checkpoint: bool,
}

impl Standing {
    /// Nothing stands.
    pub fn none() -> Standing
        ensures { result ≡ nothing_stands }
    {
        Standing {
            kill: false,
            quit: None,
            terminate: false,
            cancel: false,
            checkpoint: false,
        }
    }

    // What stands after one more answer.
    fn with(self, signals: Signals) -> Standing
        ensures { result ≡ with_signals signals self }
    {
        Standing {
            kill: self.kill || signals.kill,
            quit: signals.quit.or(self.quit),
            terminate: self.terminate || signals.terminate,
            cancel: self.cancel || signals.cancel,
            checkpoint: self.checkpoint || signals.checkpoint,
        }
    }
}

/// Takes the child's signals.
pub fn listen<F: Life>(life: &mut F, standing: &mut Standing)
    requires { IsAttentive (attention (F.told life.old) (F.child life.old) standing.old) }
    ensures hears { Hears 1 (attention (F.told life.old) (F.child life.old) standing.old)
        (attention (F.told life.new) (F.child life.new) standing.new) }
    ensures attentive { IsAttentive (attention (F.told life.new) (F.child life.new)
        standing.new) }
    ensures cancel { CancelStands (attention (F.told life.old) (F.child life.old) standing.old)
        (attention (F.told life.new) (F.child life.new) standing.new) }
    ensures rests { F.rests life.old life.new }
{
    *standing = standing.with(life.signals());
}
