//! The calls of a turn that tell of no child.
ghost use Rattle.std.specs.Prelude.{◌≡◌, ◌∷◌, ℕ, List, [], false, OnErr, OnOk, is_some};
ghost use Rattle.pm_supervisor_journal.specs.{Standing.{IsAtRest, MayAsk, asking, later, ticking, turning}, Stands.IsSettled, Supervision.{at_work, standing, told}};
ghost use Rattle.pm_board_acts.specs.{Calls.{AsksFor, Makes, StandsStill}, Sitting.{AreReaped, KeepsPast}, Seating.{Kill, Move, Reads}, Standing.{Goes, IsRunning, view}};

use crate::audience::Audience;
use crate::desk::Desk;
use crate::laws::laws;
use crate::mail::Report;
use crate::telling::tell;
use pm_board::Signal;
use pm_modes::Mode;
use pm_outside::Chronicle;
use pm_state::PmEvent;
use std::alloc::AllocError;

impl<J: Chronicle<PmEvent>, M: Report + Drop> Desk<J, M> {
    /// It is this moment, in milliseconds, or that of the last entry where that is later.
    pub fn tick(&mut self, at: u64) -> Result<(), AllocError>
        requires running { IsRunning (view (at_work self.old.supervision) self.old.roster.knows) }
        requires rests { IsAtRest (standing self.old.supervision) }
        requires unowed { (standing self.old.supervision).owes_smart ≡ false }
        ensures table { self.new.roster.table ≡ self.old.roster.table }
        ensures tells { is_some (told self.new.supervision) ≡ is_some (told self.old.supervision) }
        ensures ticks { Makes result (ticking at (standing self.old.supervision)) []
            (view (at_work self.old.supervision) self.old.roster.knows)
            (view (at_work self.new.supervision) self.new.roster.knows) }
    {
        laws();
        self.supervision.tick(at)
    }

    /// What the machine does by itself. A connection may be accepted once its acts are done.
    pub fn turn(&mut self) -> Result<(), AllocError>
        requires running { IsRunning (view (at_work self.old.supervision) self.old.roster.knows) }
        requires rests { IsAtRest (standing self.old.supervision) }
        requires unowed { (standing self.old.supervision).owes_smart ≡ false }
        ensures table { self.new.roster.table ≡ self.old.roster.table }
        ensures tells { is_some (told self.new.supervision) ≡ is_some (told self.old.supervision) }
        ensures turns { Makes result turning []
            (view (at_work self.old.supervision) self.old.roster.knows)
            (view (at_work self.new.supervision) self.new.roster.knows) }
        ensures settled { OnOk result (IsSettled (standing self.new.supervision)) }
    {
        laws();
        self.supervision.turn()
    }

    /// A shutdown is asked for, by the console, since the port has ended, or since the last pid was drawn.
    pub fn ask(&mut self, mode: Mode, at: u64) -> Result<(), AllocError>
        requires running { IsRunning (view (at_work self.old.supervision) self.old.roster.knows) }
        requires rests { IsAtRest (standing self.old.supervision) }
        requires may { MayAsk mode (standing self.old.supervision) }
        ensures table { self.new.roster.table ≡ self.old.roster.table }
        ensures tells { is_some (told self.new.supervision) ≡ is_some (told self.old.supervision) }
        ensures asks { (move : Move) → AsksFor mode (later at (standing self.old.supervision)) move
            → Makes result (asking mode at (standing self.old.supervision)) (move ∷ [])
            (view (at_work self.old.supervision) self.old.roster.knows)
            (view (at_work self.new.supervision) self.new.roster.knows) }
    {
        laws();
        self.supervision.ask(mode, at)
    }

    /// The console asks to kill the child with this pid: where it is there, it is killed.
    pub fn kill(&mut self, pid: u32) -> Result<(), AllocError>
        requires running { IsRunning (view (at_work self.old.supervision) self.old.roster.knows) }
        requires rests { IsAtRest (standing self.old.supervision) }
        requires unowed { (standing self.old.supervision).owes_smart ≡ false }
        ensures table { self.new.roster.table ≡ self.old.roster.table }
        ensures tells { is_some (told self.new.supervision) ≡ is_some (told self.old.supervision) }
        ensures standing { standing self.new.supervision ≡ standing self.old.supervision }
        ensures slots { self.new.roster.knows.slots ≡ self.old.roster.knows.slots }
        ensures limit { self.new.roster.knows.session_limit ≡ self.old.roster.knows.session_limit }
        ensures past { KeepsPast self.old.roster.knows self.new.roster.knows }
        ensures kills { OnOk result ((line : List ℕ) (at : ℕ) → Goes (Reads line (Kill pid) at ∷ [])
            (view (at_work self.old.supervision) self.old.roster.knows)
            (view (at_work self.new.supervision) self.new.roster.knows)) }
        ensures refused { OnErr result (StandsStill
            (view (at_work self.old.supervision) self.old.roster.knows)
            (view (at_work self.new.supervision) self.new.roster.knows)) }
        ensures reaped { (n : ℕ) → AreReaped n self.old.roster.knows
            → AreReaped n self.new.roster.knows }
    {
        laws();
        if self.supervision.kind_of(pid).is_none() {
            return Ok(());
        }
        self.supervision.kill(pid)?;
        tell(&mut self.roster, Audience::One(pid), Signal::Kill);
        Ok(())
    }
}
