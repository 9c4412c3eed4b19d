//! The laws on which a server of many connections stands.

ghost use Rattle.pm_board_acts.specs.{pm_board.Children.CountsChildren, pm_supervisor_journal.Laws.{GoesOnOverItsJournal, KeepsALegalJournal}, Final.{EndsWithNobody, MayEndAnywhere}, Laws.LinesMayAskForNothing, pm_state.Laws.RestartsSafely, pm_worker.declared.mail.MailTold.MailTold};

use pm_board::counts_children;
use pm_board_acts::{ends_with_nobody, lines_may_ask_for_nothing, may_end_anywhere};
use pm_outside::Link;
use pm_state::restarts_safely;
use pm_supervisor_journal::{goes_on_over_its_journal, keeps_a_legal_journal};
use pm_worker::Mail;

pub(crate) fn laws<L: Link + Drop>()
    ensures work { GoesOnOverItsJournal }
    ensures journal { KeepsALegalJournal }
    ensures may_end { MayEndAnywhere MailTold }
    ensures nobody { EndsWithNobody MailTold }
    ensures lines { LinesMayAskForNothing MailTold }
    ensures counts { CountsChildren }
    ensures safely { RestartsSafely }
{
    counts_children();
    restarts_safely();
    goes_on_over_its_journal();
    keeps_a_legal_journal();
    may_end_anywhere::<Mail<L>>();
    ends_with_nobody::<Mail<L>>();
    lines_may_ask_for_nothing::<Mail<L>>();
}
