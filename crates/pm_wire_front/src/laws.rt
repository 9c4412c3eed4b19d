//! What holds of what a client sends. The function does nothing: it stands for the law in its contract.

ghost use Rattle.std.specs.Prelude.{◌≤◌, List, ℕ, length};
ghost use Rattle.pm_wire.specs.{pm_facts.Zeros.HasNoZero, Frontend.{IsFront, Query, Terminate}};
ghost use Rattle.pm_wire_front.specs.Requests.{query, terminate};

/// A server reads what a client of this crate sends as that query, and as the end of its session.
pub fn requests_are_read()
    ensures query { (text : List ℕ) → HasNoZero text → length text ≤ 65536 → IsFront (query text)
        (Query text) }
    ensures end { IsFront terminate Terminate }
{}
