//! What a board takes of memory, before anything lies at its home.
ghost use Rattle.std.specs.{Prelude.{◌≡◌, ◌<◌, ◌≤◌, [], IfOk, true, false, None, length, replicate, vec_capacity}, Arc.arc_value};
ghost use Rattle.atomic_table.specs.Seated.{TableId};
ghost use Rattle.pm_board_home.specs.Views.{no_takes, with_knows, dealt_by, MayGiveIt};
ghost use Rattle.pm_board_words.specs.declared.views.SessionLimit.{SessionLimit};
ghost use Rattle.pm_board.specs.{Told.{new_roster, roster_of}, Rooms.{RoomModel, AreShares, HasRoom}, Models.{AreNewPosts, IsNewSeat}, Ties.{HasHome, IsFilled}};

use crate::home_steps::OF_ROSTER;
use crate::plays::{Limits, Seated, Silent, Words};
use crate::post::Post;
use crate::posts::Posts;
use crate::roster::Roster;
use pm_board_home::{Founds, Given, Gives, Home};
use pm_board_words::{FIRST_GATE, Letter, SessionLimit, UNUSED};
use pm_exit::Kind;
use std::alloc::{AllocError, Global};
use std::collections::VecDeque;
use std::marker::Model;
use std::sync::Arc;

/// All the memory of a board, at whose home nothing lies yet.
#[derive(Drop)]
pub struct Room<J: Letter + Drop, H: Home + Drop> {
    words: Share<J, H>,
    seat: Seated<J, H>,
    /// One for each post.
    shares: Vec<Share<J, H>>,
    posts: Vec<Post<J, H>>,
    children: Vec<Option<(u32, Kind)>>,
    session_limit: SessionLimit,
}

impl<J: Letter + Drop, H: Home + Drop> Model for Room<J, H> {
    ghost Value = { RoomModel };

    ghost view = { λ r. record {
      slots = length r.shares.items;
      session_limit = r.session_limit;
    } };

    ghost invariant = { λ r. IsNewSeat (length r.shares.items) r.session_limit r.words r.seat
        × (r.seat.more ≡ (no_takes H.first, [])) × (length r.shares.items ≤ 407)
        × AreShares r.words (length r.shares.items) r.shares.items
        × HasRoom (length r.shares.items) r.posts.items (vec_capacity r.posts)
        × (r.children.items ≡ replicate (length r.shares.items) None) };
}

impl<J: Letter + Drop, H: Home + Drop> Room<J, H> {
    // Of a board whose home has this word.
    pub(crate) fn new(
        alloc: Global,
        slots: u32,
        session_limit: SessionLimit,
        home: u64,
    ) -> Result<Room<J, H>, AllocError>
        requires slots { (0 < slots) × (slots ≤ 407) × (session_limit.most ≤ 200) }
        requires home { home ≡ H.begins }
        ensures { IfOk result (λ room.
            room ≡ record { slots = slots; session_limit = session_limit }) }
    {
        let (words, seat) = table(alloc, slots, session_limit, home)?;
        let words = Share {
            words: Arc::new(alloc, words)?,
        };
        Ok(Room {
            shares: shares(alloc, &words, slots)?,
            words,
            seat,
            posts: Vec::with_capacity(alloc, slots as usize)?,
            children: vec![in alloc; None; slots as usize]?,
            session_limit,
        })
    }

    /// The board, where this lies at its home. It takes no memory.
    pub fn filled<C: Given<H::Knows>>(self, home: H) -> (Roster<J, H>, Posts<J, H>)
        requires empty { H.begins ≡ 0 }
        requires may { MayGiveIt H.gives C.then H.founding home }
        requires stamp { H.stamp_of home ≡ 1 }
        ensures roster { result.0.knows ≡ new_roster self.slots self.session_limit self.slots }
        ensures posts { AreNewPosts self.slots self.session_limit result.0.table
            result.1.left.items }
        ensures home { IsFilled H.Home C.then home self.slots result.0.home }
    {
        let Room {
            words,
            seat,
            shares,
            posts,
            children,
            session_limit,
        } = self;
        let words = words.into_words();
        let mut seat = seat;
        match words.take::<Founds<H>, Silent>(&mut seat, 0, 1, None) {
            None => unreachable!(),
            Some(_) => {}
        }
        words.give::<Gives<H, C>, Silent>(&mut seat, OF_ROSTER, Some(home));
        let roster = seated(words, seat, children);
        posted(roster, shares, posts, session_limit)
    }

    // The board, where nothing ever lies at its home.
    pub(crate) fn bare(self) -> (Roster<J, H>, Posts<J, H>)
        requires nothing { (H.has H.first ≡ false) × H.numbered H.first 0 }
        ensures roster { result.0.knows ≡ new_roster self.slots self.session_limit self.slots }
        ensures posts { AreNewPosts self.slots self.session_limit result.0.table
            result.1.left.items }
    {
        let Room {
            words,
            seat,
            shares,
            posts,
            children,
            session_limit,
        } = self;
        let roster = seated(words.into_words(), seat, children);
        posted(roster, shares, posts, session_limit)
    }
}

// A hold on a board's words.
#[derive(Drop)]
struct Share<J: Letter + Drop, H: Home + Drop> {
    words: Arc<Words<J, H>>,
}

impl<J: Letter + Drop, H: Home + Drop> Model for Share<J, H> {
    ghost Value = { TableId };

    ghost view = { λ s. (arc_value s.words).table };
}

impl<J: Letter + Drop, H: Home + Drop> Share<J, H> {
    fn another(&self) -> Result<Share<J, H>, AllocError>
        ensures { IfOk result (λ share. share ≡ self.now) }
    {
        Ok(Share {
            words: Arc::try_clone(&self.words)?,
        })
    }

    fn into_words(self) -> Arc<Words<J, H>>
        ensures { (arc_value result).table ≡ self }
    {
        let Share { words } = self;
        words
    }
}

// So many holds on them.
fn shares<J: Letter + Drop, H: Home + Drop>(
    alloc: Global,
    words: &Share<J, H>,
    count: u32,
) -> Result<Vec<Share<J, H>>, AllocError>
    ensures { IfOk result (λ all. AreShares words.now count all.items) }
{
    let mut all = Vec::with_capacity(alloc, count as usize)?;
    for _ in 0..count {
        all.push_reserved(words.another()?);
    }
    Ok(all)
}

// The words of a new board and its first seat. The word of its home is this.
fn table<J: Letter + Drop, H: Home + Drop>(
    alloc: Global,
    slots: u32,
    session_limit: SessionLimit,
    home: u64,
) -> Result<(Words<J, H>, Seated<J, H>), AllocError>
    requires slots { (0 < slots) × (slots ≤ 407) × (session_limit.most ≤ 200) }
    requires home { home ≡ H.begins }
    ensures { IfOk result (λ made. IsNewSeat slots session_limit made.0.table made.1
        × (made.1.more ≡ (no_takes H.first, []))) }
{
    let count = slots as usize;
    let limits = Limits {
        slots: u64::from(slots),
        sessions: session_limit,
    };
    let mut numbers = vec![in alloc; UNUSED; 3 * count + 1]?;
    numbers[count] = FIRST_GATE;
    let (words, seat) = Words::<J, H>::vacant(alloc, numbers.as_slice(), &[home], count, &limits)?;
    Ok((words, seat))
}

// The supervisor at its seat, which has made no post.
fn seated<J: Letter + Drop, H: Home + Drop>(
    words: Arc<Words<J, H>>,
    seat: Seated<J, H>,
    children: Vec<Option<(u32, Kind)>>,
) -> Roster<J, H>
    requires slots { length children.items ≤ 407 }
    requires children { children.items ≡ replicate (length children.items) None }
    requires seat { (limit : SessionLimit)
        × IsNewSeat (length children.items) limit (arc_value words).table seat }
    requires home { HasHome H.Home 0 seat.more × (H.leads seat.more.0.knows ≡ true) }
    ensures table { result.table ≡ seat.table }
    ensures knows { result.knows ≡ roster_of seat.me.0 }
    ensures home { result.home ≡ seat.more.0 }
{
    Roster {
        words,
        seat,
        used: 0,
        children,
        generation: 1,
        noticed: None,
        dealt: 0,
    }
}

// A post for each of these holds.
fn posted<J: Letter + Drop, H: Home + Drop>(
    first: Roster<J, H>,
    shares: Vec<Share<J, H>>,
    room: Vec<Post<J, H>>,
    session_limit: SessionLimit,
) -> (Roster<J, H>, Posts<J, H>)
    requires each { AreShares first.table (length shares.items) shares.items }
    requires knows { first.knows ≡ new_roster (length shares.items) session_limit 0 }
    requires free { H.has first.home.knows ≡ false }
    requires room { HasRoom (length shares.items) room.items (vec_capacity room) }
    ensures roster { result.0.knows
        ≡ new_roster (length shares.items) session_limit (length shares.items) }
    ensures posts { AreNewPosts (length shares.items) session_limit result.0.table
        result.1.left.items }
    ensures home { result.0.home
        ≡ with_knows first.home (dealt_by H.dealt (length shares.items) first.home.knows) }
{
    let mut roster = first;
    let mut left = room;
    for share in shares {
        let post = roster.deal(share.into_words(), session_limit);
        left.push_reserved(post);
    }
    (
        roster,
        Posts {
            left: VecDeque::from(left),
        },
    )
}
