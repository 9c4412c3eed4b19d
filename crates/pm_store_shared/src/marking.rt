//! The second half of a flush, and of a piece of a checkpoint: it is written without the store, and what that came to is marked.
ghost use Rattle.std.specs.Prelude.{◌≡◌, List, None, Some};
ghost use Rattle.pm_segment.specs.{pm_query.{declared.book.BookEntry.BookEntry, Book.generation_of, Calls.{FlushNotes, LearnsFront, MetLater, StepNotes, user_of}}, Lending.IsReadyFor, Passes.view_of, Pieces.IsReadyForPiece};
ghost use Rattle.pm_store_shared.specs.{Grows.Grew, Learned.Learned, Passes.Among, Told.{IsResting, IsSmall, between, first_of, is_own_of, passes_of, past_of, token_of}};

use crate::holding::{Holder, give, take};
use crate::inner::Inner;
use crate::place::Place;
use pm_disk::Disk;
use pm_log::Making;
use pm_outside::Chronicle;
use pm_query::{BookEntry, Stepping, StoreNo};
use pm_segment::{Batch, Pass, Piece};
use std::marker::Brand;
use std::sync::Wait;

/// Writes the batch, and takes the store to mark what that came to. The caller has lent the disk for it, and leads no longer then.
pub(crate) fn finish<R: Wait, D: Disk, B: Chronicle<BookEntry>>(
    rt: &R,
    inner: &Inner<D, B>,
    seat: &mut Holder<D, B>,
    number: u32,
    pass: &Pass,
    disk: D,
    batch: Batch,
) -> Result<u64, StoreNo>
    requires table { (seat.old.table_id ≡ inner.now.table.shared.table_id)
        × IsSmall inner.now.table.shared.table_id }
    requires seat { (first : D) × (seat.old.me ≡ between number first (is_own_of seat.old.me.0)
        (passes_of seat.old.me.0) (past_of seat.old.me.0)
        (Some (record { disk = disk; batch = batch; generation = pass.now.generation }))) }
    requires admits { Among pass.now (passes_of seat.old.me.0) }
    requires ready { IsReadyFor batch (D.seen disk) }
    ensures same { seat.new.table_id ≡ seat.old.table_id }
    ensures rests { IsResting number seat.new.me }
    ensures first { first_of seat.new.me.0 ≡ first_of seat.old.me.0 }
    ensures notes { (entries : List BookEntry)
        × Grew entries (token_of seat.old.table_id number seat.old.me.0)
        (token_of seat.new.table_id number seat.new.me.0)
        × FlushNotes (user_of None (view_of pass.now)) result entries }
    ensures admits { Among pass.now (passes_of seat.new.me.0) }
    ensures stale { MetLater (generation_of (past_of seat.new.me.0)) pass.now.generation result }
    ensures learned { LearnsFront (Learned D.Disk B.Chronicle (first_of seat.new.me.0)
        (past_of seat.new.me.0)) result }
{
    let mut disk = disk;
    let written = batch.write(&mut disk);
    let Place {
        mut apart,
        disk: lent,
        making,
    } = take(rt, inner, seat, number);
    match lent {
        None => {}
        Some(_) => unreachable!(),
    }
    let result = apart.mark(pass, batch, &disk, written);
    inner.due.note(apart.is_due());
    let place = Place {
        apart,
        disk: Some(disk),
        making,
    };
    give::<Brand, D, B, (), Result<u64, StoreNo>>(inner, seat, place, *pass, *pass, &(), &result);
    inner.joining.end(rt, result.ok());
    result
}

/// Makes a piece of the log's other file, and takes the store to mark what that came to. The caller has lent the disk for it, and
/// leads still, unless the disk fails.
pub(crate) fn finish_piece<R: Wait, D: Disk, B: Chronicle<BookEntry>>(
    rt: &R,
    inner: &Inner<D, B>,
    seat: &mut Holder<D, B>,
    number: u32,
    pass: &Pass,
    disk: D,
    piece: (Batch, Making),
) -> Result<Stepping, StoreNo>
    requires table { (seat.old.table_id ≡ inner.now.table.shared.table_id)
        × IsSmall inner.now.table.shared.table_id }
    requires seat { (first : D) × (seat.old.me ≡ between number first (is_own_of seat.old.me.0)
        (passes_of seat.old.me.0) (past_of seat.old.me.0)
        (Some (record { disk = disk; batch = piece.0; generation = pass.now.generation }))) }
    requires admits { Among pass.now (passes_of seat.old.me.0) }
    requires ready { IsReadyForPiece piece.0.log piece.1 (D.seen disk) }
    ensures same { seat.new.table_id ≡ seat.old.table_id }
    ensures rests { IsResting number seat.new.me }
    ensures notes { (entries : List BookEntry)
        × Grew entries (token_of seat.old.table_id number seat.old.me.0)
        (token_of seat.new.table_id number seat.new.me.0)
        × StepNotes (user_of None (view_of pass.now)) result entries }
    ensures admits { Among pass.now (passes_of seat.new.me.0) }
    ensures stale { MetLater (generation_of (past_of seat.new.me.0)) pass.now.generation result }
{
    let mut disk = disk;
    let (batch, making) = piece;
    let Piece { came, making } = batch.make_piece(&mut disk, making);
    let Place {
        mut apart,
        disk: lent,
        making: _,
    } = take(rt, inner, seat, number);
    match lent {
        None => {}
        Some(_) => unreachable!(),
    }
    let result = apart.mark_piece(pass, batch, &disk, came);
    inner.due.note(apart.is_due());
    let place = Place {
        apart,
        disk: Some(disk),
        making,
    };
    give::<Brand, D, B, (), Result<Stepping, StoreNo>>(
        inner,
        seat,
        place,
        *pass,
        *pass,
        &(),
        &result,
    );
    if result.is_err() {
        inner.joining.end(rt, None);
    }
    result
}
