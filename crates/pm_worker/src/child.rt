//! The work of one worker.
ghost use Rattle.std.specs.Prelude.{◌≡◌};
ghost use Rattle.pm_board.specs.pm_board_words.declared.views.Work.TheVariants.{Idle};
ghost use Rattle.pm_worker.specs.Runs.{HasClosed};

use crate::mail::Mail;
use crate::runs::run_child;
use crate::tools::Tools;
use pm_board::{Post, Started};
use pm_outside::{Clock, Link};
use pm_query::Store;
use pm_spawn::Task;
use std::sync::Wait;

/// Runs the children that the supervisor assigns to the post's slot, one after the other, up to the one that closes the worker.
/// While none is offered it sleeps on its slot, and after each exit it rings at the supervisor's clock.
fn work_off<R: Wait, C: Clock, L: Link + Drop, S: Store>(
    tools: &Tools<R, C>,
    post: Post<Mail<L>>,
    store: S,
) -> (Post<Mail<L>>, S)
    requires { post.knows.work ≡ Idle }
    ensures { HasClosed S.notes S.met S.learned (S.stamp store) tools.now.seed
        tools.now.conf.authentication_ms (C.gives tools.now.clock) post result.0 store result.1 }
{
    let mut post = post;
    let mut store = store;
    for _ in tools.rt.forever() {
        match post.start() {
            Started::Idle => post.wait(&tools.rt),
            Started::Job { pid, kind: _, job } => {
                let (next, worked_on, closed) = run_child(tools, post, pid, job, store);
                post = next;
                store = worked_on;
                tools.clock.ring();
                if closed {
                    return (post, store);
                }
            }
        }
    }
    unreachable!()
}

/// The work of one thread of the pool: its post, its store, and what it goes by.
#[derive(Drop)]
pub struct Child<R, C, L: Link + Drop, S> {
    tools: Tools<R, C>,
    post: Post<Mail<L>>,
    store: S,
}

impl<R, C, L: Link + Drop, S> Child<R, C, L, S> {
    pub fn new(tools: Tools<R, C>, post: Post<Mail<L>>, store: S) -> Child<R, C, L, S>
        ensures { (result.tools ≡ tools) × (result.post ≡ post) × (result.store ≡ store) }
    {
        Child { tools, post, store }
    }

    /// Takes one apart whose start was refused.
    pub fn apart(self) -> (Post<Mail<L>>, S)
    where
        R: Drop,
        C: Drop,
        ensures { (result.0 ≡ self.post) × (result.1 ≡ self.store) }
    {
        let Child {
            tools: _,
            post,
            store,
        } = self;
        (post, store)
    }
}

impl<R: Wait + Drop, C: Clock + Drop, L: Link + Drop, S: Store> Task for Child<R, C, L, S> {
    type Runtime = R;

    type Output = (Post<Mail<L>>, S);

    ghost can_work = { λ child. child.post.knows.work ≡ Idle };

    ghost gives = { λ child output. HasClosed S.notes S.met S.learned (S.stamp child.store)
        child.tools.seed child.tools.conf.authentication_ms (C.gives child.tools.clock) child.post
        output.0 child.store output.1 };

    fn work(self) -> (Post<Mail<L>>, S) {
        let Child { tools, post, store } = self;
        work_off(&tools, post, store)
    }
}
