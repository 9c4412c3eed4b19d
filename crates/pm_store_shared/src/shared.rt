//! The shared side of the store.
ghost use Rattle.std.specs.{Prelude.{◌≡◌, ℕ, ◌+◌, ◌<◌, ◌≤◌, ◌++◌, List, [], ◌∷◌, None, Some, IfErr, IfOk, IfSome, OnErr, OnOk, length, map, slice_get, vec_capacity, MatchOption}, Arc.arc_value};
ghost use Rattle.pm_segment.specs.{pm_query.declared.book.BookEntry.{BookEntry, TheVariants.{Gone, Opened}}, Moment.{disk_of, moment}, pm_store_apart.declared.commits.Commits.TheVariants.Staged};
ghost use Rattle.atomic_table.specs.Seated.{TableId};
ghost use Rattle.pm_store_shared.specs.{Behind.Behind, Ending.EndsSafely, Log.{IsShuffle, noted}, Places.EachOnce, Renewed.AreApart, declared.views.View.TheVariants.Vacant, Told.{AllContinue, AreNewTokens, AreShares, AreTokens, HasRenewed, IsBlank, IsNewShared, IsSmall, SharedModel, TokenModel, DeskRests, known_by, new_token, owns, pasts, shared_of, shared_with}};

use crate::holding::{Holder, give_renewed, take_whole};
use crate::inner::Inner;
use crate::place::Place;
use crate::plays::{Deals, Founds, Gathers, Guarded, Opening, TakesAlone};
use crate::token::Token;
use pm_disk::Disk;
use pm_outside::Chronicle;
use pm_query::BookEntry;
use pm_segment::{Commits, Segment};
use pm_store_turns::{Due, Joining, Sleepers};
use std::alloc::{AllocError, Global};
use std::marker::{Brand, Model};
use std::sync::{Arc, Wait};

/// The shared side. Between two calls it holds nothing of the store.
#[derive(Drop)]
pub struct Shared<D: Disk + Drop, B: Chronicle<BookEntry> + Drop> {
    inner: Arc<Inner<D, B>>,
    seat: Holder<D, B>,
    tokens: u32,
}

impl<D: Disk + Drop, B: Chronicle<BookEntry> + Drop> Model for Shared<D, B> {
    ghost Value = { SharedModel D };

    ghost view = { λ s. shared_of s.seat.table_id s.tokens s.seat.me.0 };

    ghost invariant = { λ s. ((arc_value s.inner).table.shared.table_id ≡ s.seat.table_id) × IsSmall s.seat.table_id
        × DeskRests s.tokens s.seat.me };
}

/// Tokens that were not taken yet, or are back.
#[derive(Drop)]
pub struct Tokens<D: Disk + Drop, B: Chronicle<BookEntry> + Drop> {
    list: Vec<Token<D, B>>,
}

impl<D: Disk + Drop, B: Chronicle<BookEntry> + Drop> Model for Tokens<D, B> {
    ghost Value = { List (TokenModel D) };

    ghost view = { λ t. t.list.items };
}

impl<D: Disk + Drop, B: Chronicle<BookEntry> + Drop> Tokens<D, B> {
    /// None, where room is made for some.
    pub fn new(alloc: Global) -> Tokens<D, B>
        ensures { result ≡ [] }
    {
        Tokens {
            list: Vec::new(alloc),
        }
    }

    /// Takes the last token.
    pub fn take(&mut self) -> Option<Token<D, B>>
        ensures { MatchOption result ((self.old ≡ []) × (self.new ≡ []))
            (λ t. self.old ≡ self.new ++ t ∷ []) }
    {
        self.list.pop()
    }

    /// Puts a token after the others.
    pub fn put(&mut self, token: Token<D, B>) -> Result<(), AllocError>
        ensures { OnOk result (self.new ≡ self.old ++ token ∷ []) }
    {
        self.list.push(token)?;
        Ok(())
    }
}

// A hold on the table.
#[derive(Drop)]
struct Share<D: Disk + Drop, B: Chronicle<BookEntry> + Drop> {
    inner: Arc<Inner<D, B>>,
}

impl<D: Disk + Drop, B: Chronicle<BookEntry> + Drop> Model for Share<D, B> {
    ghost Value = { TableId };

    ghost view = { λ s. (arc_value s.inner).table.shared.table_id };
}

impl<D: Disk + Drop, B: Chronicle<BookEntry> + Drop> Share<D, B> {
    fn another(&self) -> Result<Share<D, B>, AllocError>
        ensures { IfOk result (λ share. share ≡ self.now) }
    {
        Ok(Share {
            inner: Arc::try_clone(&self.inner)?,
        })
    }

    fn into_inner(self) -> Arc<Inner<D, B>>
        ensures { (arc_value result).table.shared.table_id ≡ self }
    {
        let Share { inner } = self;
        inner
    }
}

// So many holds on the table.
fn shares<D: Disk + Drop, B: Chronicle<BookEntry> + Drop>(
    alloc: Global,
    share: &Share<D, B>,
    count: u32,
) -> Result<Vec<Share<D, B>>, AllocError>
    ensures { IfOk result (λ all. AreShares share.now count all.items) }
{
    let mut all = Vec::with_capacity(alloc, count as usize)?;
    for _ in 0..count {
        all.push_reserved(share.another()?);
    }
    Ok(all)
}

// A table without a store, and room for its tokens.
#[derive(Drop)]
struct Blank<D: Disk + Drop, B: Chronicle<BookEntry> + Drop> {
    share: Share<D, B>,
    seat: Holder<D, B>,
    shares: Vec<Share<D, B>>,
    list: Vec<Token<D, B>>,
}

impl<D: Disk + Drop, B: Chronicle<BookEntry> + Drop> Blank<D, B> {
    fn new(alloc: Global, tokens: u32) -> Result<Blank<D, B>, AllocError>
        ensures { IfOk result (λ blank. IsBlank blank.share blank.seat.table_id blank.seat.me
            blank.shares.items blank.list.items (vec_capacity blank.list) tokens) }
    {
        let Ok((table, seat)) = Guarded::vacant(alloc, &[1], 1, &()) else {
            return Err(AllocError);
        };
        let inner = Inner {
            table,
            sleepers: Sleepers::new(),
            joining: Joining::new(),
            due: Due::new(),
        };
        let share = Share {
            inner: Arc::new(alloc, inner)?,
        };
        let shares = shares(alloc, &share, tokens)?;
        let list = Vec::with_capacity(alloc, tokens as usize)?;
        Ok(Blank {
            share,
            seat,
            shares,
            list,
        })
    }

    // Lays the store into the slot.
    fn filled(self, store: Segment<D, B>) -> (Shared<D, B>, Tokens<D, B>)
        requires blank { IsBlank self.share self.seat.table_id self.seat.me self.shares.items
            self.list.items (vec_capacity self.list) (length self.shares.items) }
        requires few { length self.shares.items < 4294967296 }
        requires stands { Behind (disk_of store) (Opened 1 ∷ []) store }
        requires staged { (moment store).commits ≡ Staged }
        ensures shared { IsNewShared (length self.shares.items) (disk_of store) result.0 }
        ensures tokens { AreNewTokens (length self.shares.items) result.0 result.1 }
    {
        let Blank {
            share,
            seat,
            shares,
            list,
        } = self;
        let shared = founded(share.into_inner(), seat, store);
        deal_all(shared, shares, list)
    }
}

// The shared side of a table, once the store lies in its slot.
fn founded<D: Disk + Drop, B: Chronicle<BookEntry> + Drop>(
    inner: Arc<Inner<D, B>>,
    seat: Holder<D, B>,
    store: Segment<D, B>,
) -> Shared<D, B>
    requires same { (arc_value inner).table.shared.table_id ≡ seat.table_id }
    requires small { IsSmall seat.table_id }
    requires vacant { seat.me ≡ (Vacant, []) }
    requires stands { Behind (disk_of store) (Opened 1 ∷ []) store }
    requires staged { (moment store).commits ≡ Staged }
    ensures shared { IsNewShared 0 (disk_of store) result }
    ensures table { result.table ≡ seat.table_id }
{
    let mut seat = seat;
    let place = Place::of(store);
    inner.table.shared.swap::<Opening>(&mut seat, 0, 1);
    match inner.table.shared.exchange(&mut seat, 0, Some(place)) {
        None => {}
        Some(_) => unreachable!(),
    }
    inner.table.shared.swap::<Founds>(&mut seat, 0, 0);
    Shared {
        inner,
        seat,
        tokens: 0,
    }
}

// A token for each hold on the table.
fn deal_all<D: Disk + Drop, B: Chronicle<BookEntry> + Drop>(
    shared: Shared<D, B>,
    shares: Vec<Share<D, B>>,
    list: Vec<Token<D, B>>,
) -> (Shared<D, B>, Tokens<D, B>)
    requires each { AreShares shared.table (length shares.items) shares.items }
    requires few { length shares.items < 4294967296 }
    requires none { (shared.tokens ≡ 0) × (list.items ≡ []) }
    requires room { length shares.items ≤ vec_capacity list }
    ensures shared { result.0 ≡ shared_with shared (length shares.items) shared.joined }
    ensures tokens { AreNewTokens (length shares.items) result.0 result.1 }
{
    let mut shared = shared;
    let mut list = list;
    for share in shares {
        let token = shared.deal(share);
        list.push_reserved(token);
    }
    (shared, Tokens { list })
}

impl<D: Disk + Drop, B: Chronicle<BookEntry> + Drop> Shared<D, B> {
    /// A store in its first generation, for this many tokens. Where memory is short disk and book come back.
    pub fn new(
        alloc: Global,
        disk: D,
        book: B,
        tokens: u32,
    ) -> Result<(Shared<D, B>, Tokens<D, B>), (D, B)>
        requires empty { IfSome (B.entries book) (λ entries. entries ≡ []) }
        ensures shared { IfOk result (λ made. IsNewShared tokens disk made.0) }
        ensures tokens { IfOk result (λ made. AreNewTokens tokens made.0 made.1) }
        ensures refused { IfErr result (λ parts.
            (parts.0 ≡ disk) × (B.entries parts.1 ≡ B.entries book)) }
    {
        let Ok(blank) = Blank::new(alloc, tokens) else {
            return Err((disk, book));
        };
        match Segment::new(alloc, Commits::Staged, disk, book) {
            Ok(store) => Ok(blank.filled(store)),
            Err(parts) => Err(parts),
        }
    }

    // One more token.
    fn deal(&mut self, share: Share<D, B>) -> Token<D, B>
        requires table { share ≡ self.old.table }
        requires few { self.old.tokens < 4294967295 }
        ensures token { result ≡ new_token self.old }
        ensures shared { self.new ≡ shared_with self.old (self.old.tokens + 1) self.old.joined }
    {
        let seat = self.inner.table.shared.split_seat::<Deals>(&mut self.seat);
        let number = self.tokens;
        self.tokens += 1;
        let Share { inner } = share;
        Token {
            inner,
            seat,
            number,
        }
    }

    /// Goes on to the next generation: Gone for each pid given, then for every other that is still attached, then Opened. Where
    /// memory is short all is as before.
    pub fn renew<R: Wait>(
        &mut self,
        rt: &R,
        generation: u32,
        gone: &[u32],
    ) -> Result<(), AllocError>
        requires { generation ≡ self.old.generation + 1 }
        ensures ok { OnOk result ((others : List ℕ) × AreApart gone.now others
            × HasRenewed self.old generation others
            (map Gone (gone.now ++ others) ++ Opened generation ∷ []) self.new) }
        ensures err { OnErr result (self.new ≡ self.old) }
    {
        self.inner.joining.lead(rt);
        let place = take_whole(rt, &self.inner, &mut self.seat, self.tokens);
        let mut store = place.into_store();
        let result = store.renew(generation, gone);
        let place = Place::of(store);
        give_renewed::<Brand, D, B>(
            &self.inner,
            &mut self.seat,
            place,
            generation,
            gone,
            &result,
        );
        self.inner.joining.end(rt, None);
        result
    }

    /// Takes the next token back, in the order of their numbers. It takes no memory.
    pub fn take_back(&mut self, token: Token<D, B>)
        requires { (token.table ≡ self.old.table) × (token.number ≡ length self.old.joined) }
        ensures { self.new ≡ shared_with self.old self.old.tokens
            (self.old.joined ++ record { own = token.own; past = token.past } ∷ []) }
    {
        let Token {
            inner: _,
            seat,
            number: _,
        } = token;
        self.inner
            .table
            .shared
            .join_seat::<Gathers>(&mut self.seat, seat);
    }

    /// The store, once all tokens are back, after all entries. It takes no memory and doesn't wait.
    pub fn into_store(mut self, tokens: Tokens<D, B>) -> Segment<D, B>
        requires all { AreTokens self.table self.tokens tokens }
        requires none { self.joined ≡ [] }
        ensures behind { IfSome self.first (λ first. (log : List BookEntry)
            × Behind first log result
            × IsShuffle self.tokens (owns (known_by tokens)) self.own log
            × EachOnce (owns (known_by tokens)) self.own log
            × AllContinue (pasts (known_by tokens)) log) }
    {
        let Tokens { list } = tokens;
        for token in list {
            self.take_back(token);
        }
        self.into_segment()
    }

    /// The disk and the book, once all tokens are back. Where both tell, the first redo hasn't come, and at every tick since
    /// the store got the disk a stop leaves what it could leave at first; or the book is legal, and a stop leaves what a
    /// durable run leaves.
    pub fn into_parts(self, tokens: Tokens<D, B>) -> (D, B)
        requires all { AreTokens self.table self.tokens tokens }
        requires none { self.joined ≡ [] }
        ensures { IfSome self.first (λ first. EndsSafely (D.seen first) (D.ticks first)
            (D.faults first) (B.entries result.1) (D.seen result.0) (D.ticks result.0)
            (D.images result.0)) }
    {
        let store = self.into_store(tokens);
        store.keeps_its_run();
        store.into_parts()
    }

    /// The store, once each token was taken back, after all entries. It takes no memory and doesn't wait, since nobody else
    /// has it.
    pub fn into_segment(self) -> Segment<D, B>
        requires { length self.joined ≡ self.tokens }
        ensures { IfSome self.first (λ first. (log : List BookEntry) × Behind first log result
            × IsShuffle self.tokens (owns self.joined) self.own log
            × EachOnce (owns self.joined) self.own log × AllContinue (pasts self.joined) log) }
    {
        let Shared {
            inner,
            mut seat,
            tokens,
        } = self;
        inner
            .table
            .shared
            .compare_exchange::<TakesAlone>(&mut seat, 0, 0, u64::from(tokens) + 1);
        let place = inner.table.shared.exchange(&mut seat, 0, None);
        place.unwrap().into_store()
    }
}
