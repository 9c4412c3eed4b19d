//! A checkpoint in pieces, over one worker's side of the store.
ghost use Rattle.std.specs.Prelude.{◌≡◌, [], List, None};
ghost use Rattle.pm_segment.specs.{pm_query.{declared.book.BookEntry.BookEntry, Book.generation_of, Calls.{MetLater, StepNotes, user_of}}, Passes.view_of};
ghost use Rattle.pm_store_shared.specs.{Grows.Grew, Passes.Among, Piecewise.{BeginsOrNot, IsTold, MakesOrNot}};

use crate::holding::{give, give_unchanged, take_for, take_whole_for};
use crate::marking::finish_piece;
use crate::place::Place;
use crate::token::Token;
use pm_disk::Disk;
use pm_log::Making;
use pm_outside::Chronicle;
use pm_query::{BookEntry, Stepping, StoreNo};
use pm_segment::{Batch, Pass};
use std::marker::Brand;
use std::sync::Wait;

impl<D: Disk + Drop, B: Chronicle<BookEntry> + Drop> Token<D, B> {
    /// One step of a checkpoint that isn't the last: a piece of the log's other file, where it is made; else its beginning, where
    /// the log is due and that file isn't longer; else the whole of it.
    pub fn checkpoint_step<R: Wait>(&mut self, rt: &R, pass: &mut Pass) -> Result<Stepping, StoreNo>
        requires admits { Among pass.old self.old.passes }
        ensures notes { (entries : List BookEntry) × Grew entries self.old self.new
            × StepNotes (user_of None (view_of pass.old)) result entries }
        ensures admits { Among pass.new self.new.passes }
        ensures view { view_of pass.new ≡ view_of pass.old }
        ensures stale { MetLater (generation_of self.new.past) pass.old.generation result }
    {
        self.inner.joining.lead(rt);
        match self.make_piece(rt, pass)? {
            Some(Stepping::More) => return self.make_another(rt, pass),
            Some(ended) => {
                self.inner.joining.end(rt, None);
                return Ok(ended);
            }
            None => {}
        }
        if self.begin_pieces(rt, pass)? {
            return Ok(Stepping::More);
        }
        Ok(Stepping::of(self.checkpoint(rt, pass, false)?))
    }

    // Makes a second piece. The caller leads since before the first, so nobody has committed since: where that one copied all that there
    // was, this one ends the checkpoint. The caller leads no longer then.
    fn make_another<R: Wait>(&mut self, rt: &R, pass: &Pass) -> Result<Stepping, StoreNo>
        requires admits { Among pass.now self.old.passes }
        ensures notes { (entries : List BookEntry) × Grew entries self.old self.new
            × StepNotes (user_of None (view_of pass.now)) result entries }
        ensures admits { Among pass.now self.new.passes }
        ensures stale { MetLater (generation_of self.new.past) pass.now.generation result }
    {
        let second = self.make_piece(rt, pass)?;
        self.inner.joining.end(rt, None);
        Ok(second.unwrap_or(Stepping::More))
    }

    // Makes a piece of the log's other file, if that is being made. The caller leads, and does still unless that is refused.
    fn make_piece<R: Wait>(&mut self, rt: &R, pass: &Pass) -> Result<Option<Stepping>, StoreNo>
        requires admits { Among pass.now self.old.passes }
        ensures notes { (entries : List BookEntry) × Grew entries self.old self.new
            × MakesOrNot (user_of None (view_of pass.now)) result entries }
        ensures admits { Among pass.now self.new.passes }
        ensures stale { MetLater (generation_of self.new.past) pass.now.generation result }
    {
        let place = take_whole_for(rt, &self.inner, &mut self.seat, self.number, pass)?;
        if place.making.is_none() {
            give_unchanged(&self.inner, &mut self.seat, place);
            return Ok(None);
        }
        let Place {
            mut apart,
            disk,
            making,
        } = place;
        let (Some(disk), Some(making)) = (disk, making) else {
            unreachable!()
        };
        match apart.lend_piece(pass) {
            Err(refused) => {
                let result = Err(refused);
                let place = Place {
                    apart,
                    disk: Some(disk),
                    making: Some(making),
                };
                give::<Brand, D, B, (), Result<Option<Stepping>, StoreNo>>(
                    &self.inner,
                    &mut self.seat,
                    place,
                    *pass,
                    *pass,
                    &(),
                    &result,
                );
                self.inner.joining.end(rt, None);
                result
            }
            Ok(batch) => {
                let place = Place {
                    apart,
                    disk: None,
                    making: None,
                };
                give::<Brand, D, B, D, Batch>(
                    &self.inner,
                    &mut self.seat,
                    place,
                    *pass,
                    *pass,
                    &disk,
                    &batch,
                );
                let piece = (batch, making);
                let stepping = finish_piece(
                    rt,
                    &self.inner,
                    &mut self.seat,
                    self.number,
                    pass,
                    disk,
                    piece,
                )?;
                Ok(Some(stepping))
            }
        }
    }

    // Begins to make the log's other file, where the log is due and that file isn't longer. Answers whether that is so. The caller leads,
    // and does no longer.
    fn begin_pieces<R: Wait>(&mut self, rt: &R, pass: &Pass) -> Result<bool, StoreNo>
        requires admits { Among pass.now self.old.passes }
        ensures notes { (entries : List BookEntry) × Grew entries self.old self.new
            × BeginsOrNot (user_of None (view_of pass.now)) result entries }
        ensures admits { Among pass.now self.new.passes }
        ensures stale { MetLater (generation_of self.new.past) pass.now.generation result }
    {
        let place = take_whole_for(rt, &self.inner, &mut self.seat, self.number, pass)?;
        if !place.apart.may_begin() {
            give_unchanged(&self.inner, &mut self.seat, place);
            self.inner.joining.end(rt, None);
            return Ok(false);
        }
        let Place {
            mut apart,
            disk,
            making: _,
        } = place;
        let Some(mut disk) = disk else { unreachable!() };
        let begun = apart.begin_pieces(&mut disk, pass);
        let (result, making) = told(begun);
        let place = Place {
            apart,
            disk: Some(disk),
            making,
        };
        give::<Brand, D, B, (), Result<bool, StoreNo>>(
            &self.inner,
            &mut self.seat,
            place,
            *pass,
            *pass,
            &(),
            &result,
        );
        self.inner.joining.end(rt, None);
        result
    }

    /// Gives up the checkpoint that is under way, if one is. It takes no memory.
    pub fn checkpoint_drop<R: Wait>(&mut self, rt: &R, pass: &Pass)
        requires admits { Among pass.now self.old.passes }
        ensures notes { Grew [] self.old self.new }
        ensures admits { Among pass.now self.new.passes }
    {
        match take_for(rt, &self.inner, &mut self.seat, self.number, pass) {
            Err(_) => {}
            Ok(place) => {
                let Place {
                    apart,
                    disk,
                    making: given_up,
                } = place;
                let place = Place {
                    apart,
                    disk,
                    making: None,
                };
                give::<Brand, D, B, (), ()>(
                    &self.inner,
                    &mut self.seat,
                    place,
                    *pass,
                    *pass,
                    &(),
                    &(),
                );
                // Its rows are let go while others have the store.
                drop(given_up);
            }
        }
    }
}

// Whether a beginning goes on, and what is made then.
fn told(begun: Result<Option<Making>, StoreNo>) -> (Result<bool, StoreNo>, Option<Making>)
    ensures { IsTold begun result.0 result.1 }
{
    match begun {
        Ok(making) => (Ok(true), making),
        Err(refused) => (Err(refused), None),
    }
}
