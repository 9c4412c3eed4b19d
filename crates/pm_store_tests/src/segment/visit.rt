//! A child's visit to a store: it enters, makes calls, and leaves or not.

use crate::segment::told::answer;
use pm_query::Store;
use std::alloc::Global;
use std::test::Fail;

// What a call is answered: a call of who tends the store, or a script.
fn called<S: Store>(
    alloc: Global,
    store: &mut S,
    pass: &mut S::Pass,
    call: &str,
) -> Result<String, Fail>
    requires { S.admits store.old pass.old }
    ensures { S.admits store.new pass.new }
{
    let number = match call {
        "redo" => store.redo(pass),
        "flush" => store.flush(pass),
        "checkpoint" | "clean checkpoint" => {
            return match store.checkpoint(pass, call == "clean checkpoint") {
                Ok(made) => Ok(format!(in alloc; "{made:?}")?),
                Err(refusal) => Ok(format!(in alloc; "{refusal:?}")?),
            };
        }
        script => return answer(alloc, store, pass, script),
    };
    match number {
        Ok(number) => Ok(format!(in alloc; "{number}")?),
        Err(refusal) => Ok(format!(in alloc; "{refusal:?}")?),
    }
}

/// What each call of a visit is answered: `redo / SELECT count(*) FROM kv / leave`.
pub fn visit<S: Store>(
    alloc: Global,
    store: &mut S,
    pid: u32,
    generation: u32,
    calls: &str,
) -> Result<String, Fail> {
    let mut pass = match store.enter(pid, generation) {
        Ok(pass) => pass,
        Err(refusal) => return Ok(format!(in alloc; "{refusal:?}")?),
    };
    let mut all = String::new(alloc);
    for call in calls.split(" / ") {
        if matches!(call, "" | "leave") {
            continue;
        }
        if !all.is_empty() {
            all.push_str(" / ")?;
        }
        all.push_str(called(alloc, store, &mut pass, call)?.as_str())?;
    }
    if calls.ends_with("leave") {
        store.leave(pass);
    }
    Ok(all)
}
