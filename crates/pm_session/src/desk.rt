//! What a client is sent for a query. What is said stands in the outbox until that is full, or the query's piece is at its
//! end. Where sending is broken off, a front of it went out.
ghost use Rattle.std.specs.Prelude.{◌≡◌, ◌≤◌, ◌<◌, ◌++◌, ◌∷◌, [], All, length, flat_map, None, OnOk};
ghost use Rattle.pm_wire.specs.{Outgoing.room, Backend.{back_message, spelling, IsWritable, Fields, Pair, One, Complete, Ready}, Conditions.{told, error, fixed_message}, Longest.{longest, longest_told, HasSizes, IsGiven}};
ghost use Rattle.pm_wire.specs.declared.back.Tag.TheVariants as tags;
ghost use Rattle.pm_session_exchange.specs.{pm_query.Limits.{HasShortValues, IsShortRow}, Sent.{item_messages, row_messages, fault_state}, Answers.{IsSayable, piece_of}, Room.{buffer_bytes, IsFaultString}};
ghost use Rattle.pm_session_exchange.specs.pm_query.declared.item.Item.TheVariants as items;
ghost use Rattle.pm_session.specs.Turns.{Says, without_work};

use itoa::Buffer;
use pm_child_life::Life;
use pm_outside::Link;
use pm_query::Item;
use pm_rows::Text;
use pm_session_exchange::{Answer, Cause, Line, Released};
use pm_sql::SqlFault;
use pm_wire::{
    Back, Condition, Fixed, Outbox, Report, Severity, Shape, SqlState, StatementFault, Tag,
    back_messages_have_a_longest, conditions_can_be_told,
};
use std::marker::Model;

/// The bytes of the longest message that holds neither a value nor a text of the client's.
const SHORT_MESSAGE: usize = 140;

/// The bytes of the longest row.
const ROW_MESSAGE: usize = 8_227;

/// The bytes of the longest message: it says a token of the client's query.
const LONGEST_MESSAGE: usize = 65_606;

/// The line, and what is to be sent on it. It has room for any message that is said.
pub struct Desk<L: Link, W: Life> {
    pub(crate) line: Line<L, W>,
    pub(crate) outbox: Outbox,
}

impl<L: Link, W: Life> Model for Desk<L, W> {
    ghost use Rattle.std.specs.Prelude.{◌≤◌};
    ghost use Rattle.pm_session_exchange.specs.Room.{buffer_bytes};
    ghost use Rattle.pm_session.specs.Turns.{DeskView};

    ghost Value = { DeskView W };

    ghost view = { λ d. record { link = d.line.link; outbox = d.outbox; work = d.line.work; child = d.line.child } };

    ghost invariant = { λ d. buffer_bytes ≤ d.outbox.capacity };
}

impl<L: Link, W: Life> Desk<L, W> {
    pub(crate) fn new(line: Line<L, W>, outbox: Outbox) -> Desk<L, W>
        requires room { buffer_bytes ≤ outbox.capacity }
        ensures link { result.link ≡ line.link }
        ensures work { result.work ≡ line.work }
        ensures child { result.child ≡ line.child }
        ensures outbox { result.outbox ≡ outbox }
    {
        Desk { line, outbox }
    }

    /// The line, given back.
    pub(crate) fn into_line(self) -> Line<L, W>
        ensures link { result.link ≡ self.link }
        ensures work { result.work ≡ self.work }
        ensures child { result.child ≡ self.child }
    {
        let Desk { line, outbox: _ } = self;
        line
    }

    /// Says an answer, and sends all of it.
    pub(crate) fn say_answer(&mut self, answer: &Answer) -> Result<(), Cause>
        requires sayable { IsSayable answer.now }
        ensures says { Says result (piece_of answer.now) (without_work self.old) (without_work self.new) }
        ensures empty { OnOk result (self.new.outbox.bytes ≡ []) }
        ensures rests { W.rests self.old.work self.new.work }
    {
        self.say_piece(answer)?;
        self.flush()
    }

    // Sends what stands in the outbox.
    fn flush(&mut self) -> Result<(), Cause>
        ensures says { Says result [] (without_work self.old) (without_work self.new) }
        ensures empty { OnOk result (self.new.outbox.bytes ≡ []) }
        ensures rests { W.rests self.old.work self.new.work }
    {
        self.line.send(self.outbox.as_slice())?;
        self.outbox.clear();
        Ok(())
    }

    // Says an answer.
    fn say_piece(&mut self, answer: &Answer) -> Result<(), Cause>
        requires sayable { IsSayable answer.now }
        ensures says { Says result (piece_of answer.now) (without_work self.old) (without_work self.new) }
        ensures rests { W.rests self.old.work self.new.work }
    {
        match answer {
            Answer::Ran(released) => self.say_reply(released),
            Answer::Faulted { fault, message } => self.say_fault(*fault, message.as_str()),
            Answer::NotUtf8 => self.say_refusal(Fixed::NotUtf8),
            Answer::Cancelled => self.say_refusal(Fixed::Canceled),
            Answer::LogIsFull => self.say_refusal(Fixed::LogFull),
            Answer::Memory => self.say_refusal(Fixed::ErrorMemory),
        }
    }

    // The messages of each item in order, and then ReadyForQuery. No reply of a script is said but here.
    fn say_reply(&mut self, released: &Released) -> Result<(), Cause>
        requires short { All HasShortValues released.now }
        ensures says { Says result (flat_map item_messages released.now ++ Ready ∷ []) (without_work self.old)
            (without_work self.new) }
        ensures rests { W.rests self.old.work self.new.work }
    {
        for item in released.reply().items() {
            self.say_item(item)?;
        }
        self.say_plain(Back::Ready)
    }

    // Says why a text is no script.
    fn say_fault(&mut self, fault: SqlFault, message: &str) -> Result<(), Cause>
        requires text { IsFaultString message.now }
        ensures says { Says result (error (fault_state fault) message.now None ∷ Ready ∷ []) (without_work self.old) (without_work self.new) }
        ensures rests { W.rests self.old.work self.new.work }
    {
        let report = Report {
            severity: Severity::Error,
            code: fault_state(fault).code(),
            text: message,
            detail: None,
        };
        back_messages_have_a_longest();
        self.say(Back::Fault(report), LONGEST_MESSAGE)?;
        self.say_plain(Back::Ready)
    }

    // Says why a query has no reply.
    fn say_refusal(&mut self, fixed: Fixed) -> Result<(), Cause>
        ensures says { Says result (fixed_message fixed ∷ Ready ∷ []) (without_work self.old) (without_work self.new) }
        ensures rests { W.rests self.old.work self.new.work }
    {
        self.say_told(Condition::Fixed(fixed))?;
        self.say_plain(Back::Ready)
    }

    // Says what one statement answered.
    fn say_item(&mut self, item: &Item) -> Result<(), Cause>
        requires short { HasShortValues item.now }
        ensures says { Says result (item_messages item.now) (without_work self.old) (without_work self.new) }
        ensures rests { W.rests self.old.work self.new.work }
    {
        match item {
            Item::Empty => self.say_plain(Back::Empty),
            Item::Insert => self.say_plain(Back::Complete(Tag::Insert(1))),
            Item::Update(count) => self.say_plain(Back::Complete(Tag::Update(*count))),
            Item::Delete(count) => self.say_plain(Back::Complete(Tag::Delete(*count))),
            Item::Rows(pairs) => self.say_rows(pairs.pairs()),
            Item::Count(count) => self.say_count(*count),
            Item::Slept => self.say_one(Shape::Sleep, ""),
            Item::Duplicate { key } => self.say_told(Condition::Duplicate { key: *key }),
            Item::TableFull => self.say_told(Condition::Fixed(Fixed::TableFull)),
            Item::RowsTooLarge => self.say_told(Condition::Fixed(Fixed::RowsTooLarge)),
        }
    }

    // Says rows: their columns, each row, and their number.
    fn say_rows(&mut self, rows: &[(i64, Text)]) -> Result<(), Cause>
        requires short { All IsShortRow rows.now }
        ensures says { Says result (row_messages rows.now) (without_work self.old) (without_work self.new) }
        ensures rests { W.rests self.old.work self.new.work }
    {
        self.say_plain(Back::Fields(Shape::Pair))?;
        for (key, value) in rows {
            self.say_row(*key, value.as_str())?;
        }
        self.say_plain(Back::Complete(Tag::Select(rows.len() as u64)))
    }

    // Says one row.
    fn say_row(&mut self, key: i64, value: &str) -> Result<(), Cause>
        requires short { length value.now ≤ 8192 }
        ensures says { Says result (Pair key value.now ∷ []) (without_work self.old) (without_work self.new) }
        ensures rests { W.rests self.old.work self.new.work }
    {
        back_messages_have_a_longest();
        self.say(Back::Pair { key, value }, ROW_MESSAGE)
    }

    // Says how many rows there are.
    fn say_count(&mut self, count: u64) -> Result<(), Cause>
        ensures says { Says result (item_messages (items.Count count)) (without_work self.old) (without_work self.new) }
        ensures rests { W.rests self.old.work self.new.work }
    {
        let mut digits = Buffer::new();
        self.say_one(Shape::Count, digits.format(count))
    }

    // Says a row of one column.
    fn say_one(&mut self, shape: Shape, text: &str) -> Result<(), Cause>
        requires short { length text.now ≤ 40 }
        ensures says { Says result (Fields shape ∷ One text.now ∷ Complete (tags.Select 1) ∷ []) (without_work self.old) (without_work self.new) }
        ensures rests { W.rests self.old.work self.new.work }
    {
        self.say_plain(Back::Fields(shape))?;
        self.say_plain(Back::One { text })?;
        self.say_plain(Back::Complete(Tag::Select(1)))
    }

    // Says an error of the table.
    fn say_told(&mut self, condition: Condition) -> Result<(), Cause>
        requires given { IsGiven condition }
        requires short { longest_told condition ≤ 140 }
        ensures says { Says result (told condition.entry ∷ []) (without_work self.old) (without_work self.new) }
        ensures rests { W.rests self.old.work self.new.work }
    {
        conditions_can_be_told();
        self.say(Back::Told(condition), SHORT_MESSAGE)
    }

    // Says a short message.
    fn say_plain(&mut self, message: Back) -> Result<(), Cause>
        requires writable { IsWritable (back_message message) }
        requires sizes { HasSizes (back_message message) }
        requires short { longest (back_message message) ≤ 140 }
        ensures says { Says result (back_message message.entry ∷ []) (without_work self.old) (without_work self.new) }
        ensures rests { W.rests self.old.work self.new.work }
    {
        back_messages_have_a_longest();
        self.say(message, SHORT_MESSAGE)
    }

    // Says a message of at most so many bytes.
    fn say(&mut self, message: Back, most: usize) -> Result<(), Cause>
        requires writable { IsWritable (back_message message) }
        requires most { length (spelling (back_message message)) ≤ most }
        requires fits { most ≤ buffer_bytes }
        ensures says { Says result (back_message message.entry ∷ []) (without_work self.old) (without_work self.new) }
        ensures rests { W.rests self.old.work self.new.work }
    {
        self.make_room(most)?;
        message.put(&mut self.outbox);
        Ok(())
    }

    // Has room for so many bytes in the outbox: where they are more than it has, what stands there is sent first.
    fn make_room(&mut self, most: usize) -> Result<(), Cause>
        requires fits { most ≤ buffer_bytes }
        ensures says { Says result [] (without_work self.old) (without_work self.new) }
        ensures room { OnOk result (most ≤ room self.new.outbox) }
        ensures rests { W.rests self.old.work self.new.work }
    {
        if most <= self.outbox.room() {
            return Ok(());
        }
        self.flush()
    }
}

// The code of a text's fault.
fn fault_state(fault: SqlFault) -> SqlState
    ensures { result ≡ fault_state fault }
{
    match fault {
        SqlFault::Syntax { .. } => StatementFault::Syntax.state(),
        SqlFault::Table { .. } => StatementFault::NoTable.state(),
        SqlFault::Range { .. } => StatementFault::NumberRange.state(),
        SqlFault::TooLong { .. } => StatementFault::LongValue.state(),
        SqlFault::TooMany { .. } => StatementFault::ManyStatements.state(),
        SqlFault::NoMemory => SqlState::OutOfMemory,
    }
}
