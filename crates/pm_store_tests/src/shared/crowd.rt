//! Threads that insert rows through tokens of one store, and the book that comes out.
ghost use Rattle.std.specs.Prelude.{OnOk, IfOk};
ghost use Rattle.pm_store_shared.specs.Told.{AreTokens};
ghost use Rattle.pm_store_tests.specs.Seats.{AreParted, AreSame, IsSame};

use crate::shared::world::{Book, Home, Seat, Seats, cluster, insert};
use pm_disk::MemDisk;
use pm_outside::Kept;
use pm_query::BookEntry;
use pm_store_shared::Shared;
use std::alloc::{AllocError, Global};
use std::sync::Wait;
use std::test::Fail;
use std::thread::{self, Threads};

/// How many rows each thread inserts.
const ROWS: u32 = 5;

// Lets a child in, which reads the log and inserts its rows, and lets it go.
fn insert_rows<R: Wait>(rt: &R, alloc: Global, pid: u32, token: &mut Seat)
    ensures { IsSame token.old token.new }
{
    let Ok(mut pass) = token.enter(rt, pid, 1) else {
        return;
    };
    let read = token.redo(rt, &mut pass);
    let rows = if read.is_ok() { ROWS } else { 0 };
    for row in 0..rows {
        if let Some(script) = insert(alloc, pid.wrapping_mul(ROWS).wrapping_add(row)) {
            let _answered = token.run(rt, &mut pass, &script);
        }
    }
    token.leave(rt, pass);
}

// Takes the tokens out, the last one first.
fn seats_of(alloc: Global, shared: &Home, tokens: &mut Seats) -> Result<Vec<Seat>, AllocError>
    requires { AreTokens shared.now.table shared.now.tokens tokens.old }
    ensures { IfOk result (λ seats. AreParted shared.now.table shared.now.tokens tokens.new
        seats.items) }
{
    let mut seats = Vec::new(alloc);
    while let Some(token) = tokens.take() {
        seats.push(token)?;
    }
    Ok(seats)
}

// Puts them back, in the order of their numbers.
fn put_back(shared: &Home, tokens: &mut Seats, seats: Vec<Seat>) -> Result<(), AllocError>
    requires { AreParted shared.now.table shared.now.tokens tokens.old seats.items }
    ensures { OnOk result (AreTokens shared.now.table shared.now.tokens tokens.new) }
{
    let mut seats = seats;
    while let Some(token) = seats.pop() {
        tokens.put(token)?;
    }
    Ok(())
}

// Each seat in a thread of its own.
fn work_all<R: Threads + Wait + Sync>(rt: &R, alloc: Global, seats: &mut [Seat])
    ensures { AreSame seats.old seats.new }
{
    thread::for_each_mut(
        rt,
        seats,
        8,
        &|index, token| insert_rows(rt, alloc, u32::try_from(index).unwrap_or(0), token),
    );
}

// The book after so many threads, and after a renewal.
fn crowd<R: Threads + Wait + Sync>(
    rt: &R,
    alloc: Global,
    disk: MemDisk,
    threads: u32,
) -> Result<Book, AllocError> {
    let Ok((mut shared, mut tokens)) = Shared::new(alloc, disk, Kept::new(alloc), threads) else {
        return Err(AllocError);
    };
    let mut seats = seats_of(alloc, &shared, &mut tokens)?;
    work_all(rt, alloc, seats.as_mut_slice());
    put_back(&shared, &mut tokens, seats)?;
    shared.renew(rt, 2, &[])?;
    let (_disk, book) = shared.into_parts(tokens);
    Ok(book)
}

// Whose an entry is, and a letter for its kind.
fn told(entry: &BookEntry) -> (Option<u32>, u8) {
    match entry {
        BookEntry::Opened { .. } => (None, b'o'),
        BookEntry::Attached { pid, .. } => (Some(*pid), b'a'),
        BookEntry::Redone { pid, .. } => (Some(*pid), b'r'),
        BookEntry::Answered { pid, .. } => (Some(*pid), b'w'),
        BookEntry::Detached { pid } => (Some(*pid), b'd'),
        _ => (None, b'?'),
    }
}

// The kinds of the entries of a child, or of no child, in the book's order.
fn list_of(alloc: Global, book: &[BookEntry], child: Option<u32>) -> Result<Vec<u8>, AllocError> {
    let mut kinds = Vec::new(alloc);
    for entry in book {
        let (whose, kind) = told(entry);
        if whose == child {
            kinds.push(kind)?;
        }
    }
    Ok(kinds)
}

// How many commits a book has, where each has the number after the one before it.
fn commits(book: &[BookEntry]) -> Option<u64> {
    let mut last = 0u64;
    for entry in book {
        if let BookEntry::Answered { front, .. } = entry {
            last = last.wrapping_add(1);
            if *front != last {
                return None;
            }
        }
    }
    Some(last)
}

#[test]
fn each_list_is_in_order(rt: HostRuntime) -> Result<(), Fail> {
    let alloc = rt.alloc();
    for threads in [0, 2, 8] {
        let book = crowd(&rt, alloc, cluster(alloc)?, threads)?;
        let book = book.entries();
        assert_eq!(rt; list_of(alloc, book, None)?.as_slice(), b"oo".as_slice());
        for pid in 0..threads {
            assert_eq!(rt;
                list_of(alloc, book, Some(pid))?.as_slice(),
                b"arwwwwwd".as_slice()
            );
        }
        assert_eq!(rt; commits(book), Some(u64::from(threads) * u64::from(ROWS)));
    }
    Ok(())
}
