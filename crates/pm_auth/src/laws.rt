//! What holds of every exchange.

ghost use Rattle.pm_auth.specs.Laws.{NoneWithoutSecret, PasswordProves};

/// Whoever knows the password of a secret has a last message that is taken, and that can't be refused, in any exchange.
pub fn password_proves()
    ensures { PasswordProves }
{}

/// No last message is taken of a user without a secret.
pub fn none_without_secret()
    ensures { NoneWithoutSecret }
{}
