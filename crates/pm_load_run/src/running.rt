//! The run of a workload.
ghost use Rattle.std.specs.Prelude.{◌≡◌, ◌≢◌, ◌≤◌, Err, IfOk, string_bytes};
ghost use Rattle.pm_disk.specs.Cause.{IsCounted};
ghost use Rattle.pm_load.specs.{Replay.Replayed, Summary.{summary_lines, summary_of}};
ghost use Rattle.pm_load_run.specs.Worked.{HasTold, IsMeant};

use crate::checking::checked;
use crate::memory::memory;
use pm_load::summary_text;
use pm_once_promises::{Ended, once_as_promised};
use pm_outside::Sink;
use pm_server::{Conf, ServerEnd};
use pm_server_lines::print;
use pm_session::SessionConf;
use pm_supervisor::Limits;
use std::alloc::{AllocError, Global};
use std::sync::Wait;
use std::time::Clock;
use thiserror::Error;

/// What the server of a workload goes by.
const CONF: Conf = Conf {
    limits: Limits {
        max_connections: 1,
        max_worker_processes: 0,
        reserved: 0,
        restart_after_crash: true,
    },
    session: SessionConf {
        authentication_ms: 60_000,
    },
};

/// Why a workload isn't done.
#[derive(Clone, Copy, Debug, PartialEq, Eq, Error)]
pub enum WorkloadNo {
    /// What it has to tell wasn't written.
    #[error("the sink failed")]
    SinkFailed,
    /// It or one of its queries found no memory.
    #[error("out of memory")]
    NoMemory,
}

impl From<AllocError> for WorkloadNo {
    ghost use Rattle.std.specs.Prelude.{◌≡◌};
    ghost use Rattle.pm_load_run.specs.declared.running.WorkloadNo.TheVariants.{NoMemory};

    ghost from_gives = { λ _ no. no ≡ NoMemory };

    fn from(_error: AllocError) -> WorkloadNo {
        WorkloadNo::NoMemory
    }
}

/// Makes a new cluster, has a server answer so many queries on it, reads the log once more, and prints a summary of what it found.
/// All of that is in memory. It prints nothing unless every query had the answer that it means.
pub fn workload<R: Wait + Clock + Copy + Drop, O: Sink>(
    rt: &R,
    alloc: Global,
    number: u32,
    sink: &mut O,
) -> Result<(), WorkloadNo>
    requires { number ≤ 100000 }
    ensures said { result ≢ Err WorkloadNo.NoMemory → HasTold number
        (result ≡ Err WorkloadNo.SinkFailed) (O.written sink.old) (O.written sink.new) }
    ensures silent { result ≡ Err WorkloadNo.NoMemory → sink.new ≡ sink.old }
    ensures cause { IsCounted (O.faults sink.old) (O.faults sink.new)
        (result ≡ Err WorkloadNo.SinkFailed) }
{
    let text = worked(rt, alloc, number)?;
    match print(sink, text.as_bytes()) {
        Ok(()) => Ok(()),
        Err(_) => Err(WorkloadNo::SinkFailed),
    }
}

// The lines of a workload whose queries had their answers.
fn worked<R: Wait + Clock + Copy + Drop>(
    rt: &R,
    alloc: Global,
    number: u32,
) -> Result<String, AllocError>
    requires { number ≤ 100000 }
    ensures { IfOk result (λ text. (meant : Replayed) × IsMeant number meant
        × (string_bytes text ≡ summary_lines number (summary_of meant.standing))) }
{
    let mut outside = memory(rt, alloc, number)?;
    if pm_log::init(&mut outside.disk).is_err() {
        return Err(AllocError);
    }
    let Ended { end, mut outside } = once_as_promised(rt, alloc, &CONF, outside);
    if end != ServerEnd::Clean {
        return Err(AllocError);
    }
    let left = &mut outside;
    let summary = checked(alloc, number, &left.port, &mut left.disk)?;
    summary_text(alloc, number, &summary)
}
