//! The mails of workers, as a supervisor asks them.
ghost use Rattle.pm_board_acts.specs.Mails.{kept_told};
ghost use Rattle.pm_worker.specs.Mails.{aux_mail, mail_told};

use crate::mail::Report;
use pm_exit::Kind;
use pm_outside::Link;
use pm_worker::Mail;

impl<L: Link> Report for Mail<L> {
    ghost ordered = { aux_mail };

    ghost kept = { λ mail. kept_told (mail_told L.Link mail) };

    fn order(kind: Kind) -> Mail<L> {
        match kind {
            Kind::Startup => Mail::Startup,
            Kind::Checkpointer => Mail::Checkpointer,
            Kind::Writer => Mail::Writer,
            Kind::Worker | Kind::Backend | Kind::DeadEnd => Mail::Close,
        }
    }

    fn kept(&self) -> Option<u64> {
        match self {
            Mail::Aux { kept, .. } => *kept,
            _ => None,
        }
    }
}
