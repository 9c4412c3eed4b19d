//! One run of a child, from its start to its exit.
ghost use Rattle.std.specs.Prelude.{◌≡◌, ◌↔◌, ◌<◌, ℕ, true, List, Some, None, IfSome, IsTrue};
ghost use Rattle.pm_board.specs.{Places.is_auxiliary, Slots.child_slots, pm_keys.CancelKey.cancel_key, pm_child_life.Life.nothing_told};
ghost use Rattle.pm_exit.specs.declared.child.Kind.TheVariants.{Startup};
ghost use Rattle.pm_aux.specs.{pm_query.declared.book.BookEntry.BookEntry, Ends.{IsMetBehind, LearnsWhy}, Runs.{IsRunOf, runner, at_end}};
ghost use Rattle.pm_board_life.specs.Lives.{beginning};
ghost use Rattle.pm_worker.specs.declared.mail.MailTold.TheVariants as told;
ghost use Rattle.pm_worker.specs.{Mails.{link_told, mail_told, aux_mail}, Runs.{HasBegun, HasRun, HasRunOne, close_run}};

use crate::mail::{Mail, MailTold, NewLink};
use crate::tools::Tools;
use pm_admit::Cac;
use pm_aux::{AuxDone, checkpointer, startup, writer};
use pm_board::Post;
use pm_board_life::{Begun, PostLife};
use pm_child_life::Life;
use pm_exit::{Kind, Status};
use pm_outside::{Clock, Link};
use pm_query::{Store, Work};
use pm_session::{Admission, Done, Means, serve};
use std::marker::Brand;
use std::sync::Wait;

// The cancel key of a child. Pid 0 has none.
fn key_of(seed: &[u8; 32], pid: u32) -> u32
    ensures { 0 < pid → result ≡ cancel_key seed.now pid }
{
    if pid == 0 {
        return 0;
    }
    pm_keys::key(seed, pid)
}

// Serves a connection.
fn serve_one<R: Wait, C: Clock, L: Link + Drop, S: Store, K: Begun<MailTold>>(
    tools: &Tools<R, C>,
    post: Post<Mail<L>>,
    pid: u32,
    link: NewLink<L>,
    decision: Cac,
    store: S,
) -> (Post<Mail<L>>, S)
    requires begun { K.begun ≡ Some (beginning post tools.now.seed) }
    requires started { HasBegun pid (told.Serve (link_told L.Link link.link) decision) post }
    ensures { (one : HasRunOne S.notes S.met S.learned (S.stamp store) tools.now.seed
        tools.now.conf.authentication_ms (C.gives tools.now.clock) post result.0 store result.1)
        × (one.run.child.offer.given ≡ told.Serve (link_told L.Link link.link) decision) }
{
    let life = PostLife::<Mail<L>, K>::new(post, pid, tools.seed);
    let work = Work { life, store };
    let link = link.open();
    let key = key_of(&tools.seed, pid);
    let means = Means {
        rt: &tools.rt,
        alloc: tools.alloc,
        clock: &tools.clock,
    };
    let admission = Admission { decision, key };
    let Done { status, link, work } = serve(&means, link, work, admission, &tools.conf);
    let Work { life, store } = work;
    let mut post = life.into_post();
    post.exit(status, Mail::Served { link });
    (post, store)
}

// Does what an auxiliary child of this kind is there for.
fn tend<R: Wait, C: Clock, W: Store + Life>(
    tools: &Tools<R, C>,
    kind: Kind,
    work: &mut W,
) -> AuxDone
    requires kind { is_auxiliary kind ≡ true }
    requires free { (W.child work.old).attached ≡ None }
    requires may { ¬ (IsTrue (W.child work.old).is_dead_end) }
    requires untold { IfSome (W.told work.old) (λ told. told ≡ nothing_told) }
    ensures run { (noted : List BookEntry) × W.notes noted work.old work.new
        × IsRunOf kind (runner (W.stamp work.old) (W.child work.old))
        (at_end result (W.told work.new) (W.child work.new)) noted }
    ensures met { IsMetBehind (W.met work.new) result.fault }
    ensures learned { kind ≡ Startup → LearnsWhy (W.learned work.new) result.fault }
{
    match kind {
        Kind::Startup => startup(work),
        Kind::Checkpointer => checkpointer(&tools.rt, work, &tools.clock),
        Kind::Writer => writer(&tools.rt, work, &tools.clock),
        Kind::Worker | Kind::Backend | Kind::DeadEnd => unreachable!(),
    }
}

// Runs an auxiliary child.
fn tend_one<R: Wait, C: Clock, L: Link + Drop, S: Store, K: Begun<MailTold>>(
    tools: &Tools<R, C>,
    post: Post<Mail<L>>,
    pid: u32,
    kind: Kind,
    store: S,
) -> (Post<Mail<L>>, S)
    requires begun { K.begun ≡ Some (beginning post tools.now.seed) }
    requires kind { is_auxiliary kind ≡ true }
    requires started { HasBegun pid (aux_mail kind) post }
    ensures { (one : HasRunOne S.notes S.met S.learned (S.stamp store) tools.now.seed
        tools.now.conf.authentication_ms (C.gives tools.now.clock) post result.0 store result.1)
        × (one.run.child.offer.given ≡ aux_mail kind) }
{
    let life = PostLife::<Mail<L>, K>::new(post, pid, tools.seed);
    let mut work = Work { life, store };
    let done = tend(tools, kind, &mut work);
    let Work { life, store } = work;
    let mut post = life.into_post();
    post.exit(
        done.status,
        Mail::Aux {
            fault: done.fault,
            kept: done.kept,
        },
    );
    (post, store)
}

// Ends the child that closes the worker.
fn close_one<L: Link + Drop>(post: Post<Mail<L>>) -> Post<Mail<L>>
    requires { (pid : ℕ) × HasBegun pid told.Close post }
    ensures { (pid met : ℕ) (begun : HasBegun pid told.Close post)
        → HasRun (close_run (child_slots post.table.slots) met begun.offer) post result }
{
    let mut post = post;
    post.exit(Status::Code(0), Mail::Close);
    post
}

/// Runs the child that was started on the post, and ends it. True where the worker ends with it.
pub(crate) fn run_child<R: Wait, C: Clock, L: Link + Drop, S: Store>(
    tools: &Tools<R, C>,
    post: Post<Mail<L>>,
    pid: u32,
    job: Mail<L>,
    store: S,
) -> (Post<Mail<L>>, S, bool)
    requires { HasBegun pid (mail_told L.Link job) post }
    ensures { (one : HasRunOne S.notes S.met S.learned (S.stamp store) tools.now.seed
        tools.now.conf.authentication_ms (C.gives tools.now.clock) post result.0 store result.1)
        × (IsTrue result.2 ↔ (one.run.child.offer.given ≡ told.Close)) }
{
    match job {
        Mail::Serve { link, decision } => {
            let (post, store) = serve_one::<R, C, L, S, Brand>(
                tools, post, pid, link, decision, store,
            );
            (post, store, false)
        }
        Mail::Startup => {
            let (post, store) = tend_one::<R, C, L, S, Brand>(
                tools,
                post,
                pid,
                Kind::Startup,
                store,
            );
            (post, store, false)
        }
        Mail::Checkpointer => {
            let (post, store) = tend_one::<R, C, L, S, Brand>(
                tools,
                post,
                pid,
                Kind::Checkpointer,
                store,
            );
            (post, store, false)
        }
        Mail::Writer => {
            let (post, store) = tend_one::<R, C, L, S, Brand>(
                tools,
                post,
                pid,
                Kind::Writer,
                store,
            );
            (post, store, false)
        }
        Mail::Close => (close_one(post), store, true),
        Mail::Served { .. } | Mail::Aux { .. } => unreachable!(),
    }
}
