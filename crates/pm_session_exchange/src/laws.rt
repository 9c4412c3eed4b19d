//! What a session has room for. The function does nothing: it stands for the law in its contract.
ghost use Rattle.std.specs.Prelude.{◌≤◌, ℕ, List};
ghost use Rattle.pm_startup.specs.pm_wire.Frontend.{Wants};
ghost use Rattle.pm_session_exchange.specs.Room.{buffer_bytes};

/// However many bytes the front of a message asks for, a buffer holds them.
pub fn wanted_bytes_fit()
    ensures { (unread : List ℕ) (wanted : ℕ) → Wants unread wanted → wanted ≤ buffer_bytes }
{}
