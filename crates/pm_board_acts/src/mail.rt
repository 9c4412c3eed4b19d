//! What a supervisor asks of the mails that it gives and gets back.
ghost use Rattle.std.specs.Prelude.{◌≡◌, ◌≢◌, ℕ, Bool, Option, None, true};
ghost use Rattle.pm_board.specs.{pm_exit.declared.child.Kind.Kind, Places.is_auxiliary};
ghost use Rattle.pm_board.specs.pm_exit.declared.child.Kind.TheVariants as kind;
ghost use Rattle.pm_board.specs.pm_exit.declared.child.Status.TheVariants as status;

use pm_board::Letter;
use pm_exit::Kind;

/// A mail that sends a child off, and that tells, of a startup child that brought the data up to date, how many commits it kept.
pub trait Report: Letter {
    /// What the mail tells with which a child of this kind is sent off.
    ghost ordered: { Kind → Self.Told };

    /// How many commits the child has kept that gave it back, if it tells.
    ghost kept: { Self → Option ℕ };

    /// The mail for a child that serves no connection.
    fn order(kind: Kind) -> Self
        requires { is_auxiliary kind ≡ true }
        ensures told { Self.told result ≡ ordered kind }
        ensures fits { Self.fits result kind };

    fn kept(&self) -> Option<u64>
        ensures { result ≡ kept self.now };
}
