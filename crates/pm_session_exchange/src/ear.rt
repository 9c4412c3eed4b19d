//! What a child hears of its own life. It takes its signals before each read and each write, and wherever a query may be
//! stopped.
ghost use Rattle.std.specs.Prelude.{◌≡◌, ℕ, None, Some, IfErr, IsTrue, false, option_map};
ghost use Rattle.pm_child_life.specs.{Life.{HasNoCancel, IsUntried, asked_cancel, let_go}, Attention.{attention, nothing_stands, CancelStands, Hears, IsAttentive}};
ghost use Rattle.pm_session_exchange.specs.{Attention.{ends_by, ends_of, EndsIn}, Line.{MeetsGate, without_cancel}, Moments.{IsHeeded, IsWaitEnd, GoesOrStops, IsUntold}};

use crate::ending::Cause;
use pm_child_life::{GateNo, Life, Standing, listen};
use std::marker::Model;

/// A child's work, and the signals that it has taken and not heeded yet.
pub struct Ear<W: Life> {
    pub(crate) work: W,
    standing: Standing,
}

impl<W: Life> Model for Ear<W> {
    ghost use Rattle.pm_child_life.specs.Attention.{attention, IsAttentive};
    ghost use Rattle.pm_session_exchange.specs.Line.{EarView};

    ghost Value = { EarView W };

    ghost view = { λ e. record { work = e.work; child = attention (W.told e.work) (W.child e.work) e.standing } };

    ghost invariant = { λ e. IsAttentive (attention (W.told e.work) (W.child e.work) e.standing) };
}

impl<W: Life> Ear<W> {
    /// Of a child that has just started.
    pub fn new(work: W) -> Ear<W>
        requires untold { IsUntold (W.told work) }
        ensures work { result.work ≡ work }
        ensures child { result.child ≡ attention (W.told work) (W.child work) nothing_stands }
    {
        Ear {
            work,
            standing: Standing::none(),
        }
    }

    /// The work, given back.
    pub fn into_work(self) -> W
        ensures work { result ≡ self.work }
        ensures told { W.told result ≡ self.child.told }
        ensures child { W.child result ≡ self.child.child }
    {
        let Ear { work, standing: _ } = self;
        work
    }

    /// Whose life it is.
    pub fn pid(&self) -> u32
        ensures { result ≡ self.now.child.child.pid }
    {
        self.work.pid()
    }

    /// Takes the child's signals.
    pub fn listen(&mut self)
        ensures hears { Hears 1 self.old.child self.new.child }
        ensures attentive { IsAttentive self.new.child }
        ensures cancel { CancelStands self.old.child self.new.child }
        ensures rests { W.rests self.old.work self.new.work }
    {
        listen(&mut self.work, &mut self.standing);
    }

    /// By what a session has to end now, if it has to: by a Kill before a Quit, and by a Quit before a Terminate.
    pub fn ends(&self) -> Option<Cause>
        ensures { result ≡ ends_of self.now.child.standing }
    {
        ends(self.standing)
    }

    /// By what a wait for the log has to end now, if it has to: as a session, but a Terminate stands until the reply was
    /// sent.
    fn ends_wait(&self) -> Option<Cause>
        ensures { result ≡ ends_by self.now.child.standing.kill self.now.child.standing.quit false }
    {
        ends(Standing {
            terminate: false,
            ..self.standing
        })
    }

    /// Whether a Kill stands.
    pub fn is_killed(&self) -> bool
        ensures { result ≡ self.now.child.standing.kill }
    {
        self.standing.kill
    }

    /// Whether a cancel stands.
    pub fn is_cancelled(&self) -> bool
        ensures { result ≡ self.now.child.standing.cancel }
    {
        self.standing.cancel
    }

    /// Takes the child's signals, and tells by what the session has to end, if it has to.
    pub fn heed(&mut self) -> Result<(), Cause>
        ensures hears { Hears 1 self.old.child self.new.child }
        ensures attentive { IsAttentive self.new.child }
        ensures ends { EndsIn result self.new.child.standing }
        ensures stops { GoesOrStops result self.new.child }
        ensures cancel { CancelStands self.old.child self.new.child }
        ensures rests { W.rests self.old.work self.new.work }
    {
        self.listen();
        match self.ends() {
            Some(cause) => Err(cause),
            None => Ok(()),
        }
    }

    /// Takes the child's signals while it waits for the log. A Kill or a Quit ends the wait.
    pub fn heed_waiting(&mut self) -> Result<(), Cause>
        ensures hears { Hears 1 self.old.child self.new.child }
        ensures attentive { IsAttentive self.new.child }
        ensures stops { IfErr result (λ cause. IsWaitEnd cause × IsHeeded cause self.new.child) }
        ensures rests { W.rests self.old.work self.new.work }
    {
        self.listen();
        match self.ends_wait() {
            Some(cause) => Err(cause),
            None => Ok(()),
        }
    }

    /// Drops a cancel that stands: it was taken before the query that begins now, and isn't for it.
    pub fn drop_cancel(&mut self)
        ensures child { self.new.child ≡ without_cancel self.old.child }
        ensures work { self.new.work ≡ self.old.work }
    {
        self.standing.cancel = false;
    }

    /// Goes through the gate, as [`Life::attach`] does.
    pub fn attach(&mut self, is_ordinary: bool) -> Result<u32, GateNo>
        requires free { self.old.child.child.attached ≡ None }
        requires may { ¬ (IsTrue self.old.child.child.is_dead_end) }
        requires once { IsUntried self.old.child.told }
        ensures meets { MeetsGate is_ordinary result self.old.child self.new.child }
        ensures rests { W.rests self.old.work self.new.work }
    {
        self.work.attach(is_ordinary)
    }

    /// Goes out again.
    pub fn detach(&mut self)
        requires { (generation : ℕ) × (self.old.child.child.attached ≡ Some generation) }
        ensures child { self.new.child.child ≡ let_go self.old.child.child }
        ensures told { self.new.child.told ≡ self.old.child.told }
        ensures rests { W.rests self.old.work self.new.work }
    {
        self.work.detach();
    }

    /// Asks that the query of another child be cancelled.
    pub fn cancel(&mut self, pid: u32, key: u32)
        requires { HasNoCancel self.old.child.told }
        ensures told { self.new.child.told ≡ option_map (asked_cancel pid key) self.old.child.told }
        ensures child { self.new.child.child ≡ self.old.child.child }
        ensures standing { self.new.child.standing ≡ self.old.child.standing }
        ensures rests { W.rests self.old.work self.new.work }
    {
        self.work.cancel(pid, key);
    }
}

// By what a session has to end where this stands.
fn ends(standing: Standing) -> Option<Cause>
    ensures { result ≡ ends_of standing }
{
    match (standing.kill, standing.quit, standing.terminate) {
        (true, _, _) => Some(Cause::Killed),
        (false, Some(reason), _) => Some(Cause::ToldToQuit(reason)),
        (false, None, true) => Some(Cause::ToldToTerminate),
        (false, None, false) => None,
    }
}
