//! What holds of each session. The function does nothing: it stands for the law in its contract.
ghost use Rattle.pm_session.specs.Complete.{EachQueryIsAnswered};

use pm_outside::Clock;
use pm_query::Store;
use pm_sql::no_fault;
use pm_startup::prefix_free;
use pm_wire::front_messages_stand_apart;

/// Where a session was let through the gate and given no signal, and its link didn't fail, each query in the grammar and within
/// the limits before the first message that ends the session has its reply, or was told that the log is full or memory short;
/// unless the session ended for want of memory, or because the log broke or the store went on without it.
pub fn each_query_is_answered<S: Store, C: Clock>()
    ensures { EachQueryIsAnswered S.notes C.gives }
{
    no_fault();
    prefix_free();
    front_messages_stand_apart();
}
