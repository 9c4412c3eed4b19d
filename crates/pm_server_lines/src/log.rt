//! A server's log.

ghost use Rattle.std.specs.Prelude.{◌≡◌, ◌≤◌, true};

use crate::printing::{print, print_redo};
use crate::say::say_line;
use pm_outside::Sink;
use pm_record::RedoFault;
use pm_state::Line;

/// A server's log: lines for a sink. After a fault of the sink none is written any more.
#[derive(Drop)]
pub struct Log<O: Sink> {
    pub(crate) sink: O,
    pub(crate) is_cut: bool,
    ghost failed: { is_cut ≡ true → 1 ≤ O.faults sink },
}

impl<O: Sink> Log<O> {
    ghost use Rattle.std.specs.Prelude.{false};
    ghost use Rattle.pm_server_lines.specs.{Log.{Says, log_line, opened, view_of}, Print.redo_line};

    /// A log for a sink that hasn't failed at a line yet.
    pub fn new(sink: O) -> Log<O>
        ensures { view_of result ≡ opened (O.written sink) (O.faults sink) }
    {
        Log {
            sink,
            is_cut: false,
        }
    }

    /// The sink.
    pub fn into_sink(self) -> O
        ensures written { O.written result ≡ (view_of self).written }
        ensures faults { O.faults result ≡ (view_of self).faults }
    {
        let Log { sink, is_cut: _ } = self;
        sink
    }

    /// Writes a line of a journal, unless the sink has failed.
    pub fn say(&mut self, line: Line)
        ensures { Says (log_line line) (view_of self.old) (view_of self.new) }
    {
        if self.is_cut {
            return;
        }
        if say_line(&mut self.sink, line).is_err() {
            self.is_cut = true;
        }
    }

    /// Writes why the files can't be read, unless the sink has failed.
    pub fn say_redo(&mut self, fault: RedoFault)
        ensures { Says (redo_line fault) (view_of self.old) (view_of self.new) }
    {
        if self.is_cut {
            return;
        }
        if print_redo(&mut self.sink, fault).is_err() {
            self.is_cut = true;
        }
    }

    /// Writes these bytes, unless the sink has failed.
    pub fn say_text(&mut self, text: &[u8])
        ensures { Says text.now (view_of self.old) (view_of self.new) }
    {
        if self.is_cut {
            return;
        }
        if print(&mut self.sink, text).is_err() {
            self.is_cut = true;
        }
    }
}
