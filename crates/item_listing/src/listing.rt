ghost use Rattle.std.specs.Prelude.{◌≡◌, [], ◌≤◌, ◌-◌, ◌==◌, ◌++◌, false, true, List, ℕ, Bool, length, take, drop, position, vec_len, OnOk, OnErr, IfOk, IfErr};
ghost use Rattle.std.specs.List.{list_any};
ghost use Rattle.item_listing.specs.Items.{Gives};
ghost use Rattle.item_listing.specs.declared.limits.TheConstants.{MOST_BYTES};
ghost use Rattle.item_listing.specs.Lines.{cut, joined, HaveNoFeed, without_return};
ghost use Rattle.item_listing.specs.Listing.{whole_line, begun_line, next, after, fed, bytes_taken, IsFault, GivesBegun, Leaves, IsDrained};
ghost use Rattle.item_listing.specs.Listed.{listed, ReadsOn};
ghost use Rattle.item_listing.specs.State.{Reading, unread};
ghost use Rattle.item_listing.specs.declared.past.ListingFault.{ListingFault as Fault};

use crate::limits::{begun_limit, byte_after_end, whole_limit};
use crate::line::{LineError, read_line};
use crate::names::RecentNames;
use crate::past::{ListingFault, Past};
use crate::{Item, Reason};
use memchr::memchr;
use std::alloc::{AllocError, Global};
use std::marker::Model;

/// Why no item was read.
#[derive(Clone, Copy)]
enum ListError {
    Memory,
    Fault(ListingFault),
}

/// Reads items from bytes that come in pieces of any size. Contracts see what it is about to read.
#[derive(Drop)]
pub struct Listing {
    bytes: Vec<u8>,
    /// Where the next line begins.
    at: usize,
    /// How many bytes from there have no line feed.
    searched: usize,
    past: Past,
    finished: bool,
    names: RecentNames,
}

impl Model for Listing {
    ghost use Rattle.item_listing.specs.State.{Reading};

    ghost Value = { Reading };

    ghost use Rattle.item_listing.specs.Held.{state_of, IsWithin};

    ghost view = { state_of };

    ghost invariant = { λ s. IsWithin s };
}

/// Where the first line feed is.
fn first_feed(bytes: &[u8]) -> Option<usize>
    ensures { result ≡ position (λ b. b == 10) bytes.now }
{
    memchr(b'\n', bytes)
}

/// Where the first line feed is, which is not among the bytes that were searched.
fn line_feed(bytes: &[u8], searched: usize) -> Option<usize>
    requires within { searched ≤ length bytes.now }
    requires plain { list_any (λ b. b == 10) (take searched bytes.now) ≡ false }
    ensures { result ≡ position (λ b. b == 10) bytes.now }
{
    match first_feed(&bytes[searched..]) {
        Some(further) => Some(searched + further),
        None => None,
    }
}

fn drop_return(line: &[u8]) -> &[u8]
    ensures { result.now ≡ without_return line.now }
{
    match line.split_last() {
        Some((last, front)) if *last == b'\r' => front,
        Some(_) => line,
        None => line,
    }
}

/// Drops the bytes before a place.
fn drop_front(bytes: &mut Vec<u8>, at: usize)
    requires { at ≤ vec_len bytes.old }
    ensures { bytes.new.items ≡ drop at bytes.old.items }
{
    let left = bytes.len() - at;
    bytes.copy_within(at.., 0);
    bytes.truncate(left);
}

/// What a whole line says, without its line feed.
fn read_whole(names: &mut RecentNames, past: Past, line: &[u8]) -> Result<Item, LineError>
    requires { past.bytes ≤ MOST_BYTES }
    ensures { Gives result (whole_line past line.now) }
{
    if past.ended {
        return Err(LineError::Refused(byte_after_end(past.bytes)));
    }
    match whole_limit(past.bytes, line.len()) {
        Some(reason) => Err(LineError::Refused(reason)),
        None => read_line(names, past.tag_open, drop_return(line)),
    }
}

/// Why the bytes of a begun line, or none, are refused without its line feed.
fn refuse_begun(past: Past, begun: &[u8], finished: bool) -> Option<Reason>
    requires { past.bytes ≤ MOST_BYTES }
    ensures { result ≡ begun_line past begun.now finished }
{
    if past.ended {
        return match begun.first() {
            Some(_) => Some(byte_after_end(past.bytes)),
            None => None,
        };
    }
    match begun_limit(past.bytes, begun.len()) {
        Some(reason) => Some(reason),
        None if finished => Some(Reason::EndMissing),
        None => None,
    }
}

/// Nothing, unless the bytes of a begun line, or none, are refused.
fn read_begun(past: Past, begun: &[u8], finished: bool) -> Result<Option<Item>, ListError>
    requires bytes { past.bytes ≤ MOST_BYTES }
    requires lines { past.lines ≤ past.bytes }
    ensures { GivesBegun result past (begun_line past begun.now finished) }
{
    match refuse_begun(past, begun, finished) {
        Some(reason) => Err(ListError::Fault(past.at_next(reason))),
        None => Ok(None),
    }
}

impl Listing {
    /// A listing that has read nothing.
    pub fn new(alloc: Global) -> Self
        ensures { result ≡ unread }
    {
        Listing {
            bytes: Vec::new(alloc),
            at: 0,
            searched: 0,
            past: Past::nothing(),
            finished: false,
            names: RecentNames::new(alloc),
        }
    }

    /// Takes the next piece of the stream. After `finish` nothing is taken.
    pub fn feed(&mut self, piece: &[u8]) -> Result<(), AllocError>
        ensures ok { OnOk result (self.new ≡ fed self.old piece.now) }
        ensures err { OnErr result (self.new ≡ self.old) }
        // However bytes are cut into pieces, the same will be read.
        ensures listed { OnOk result ((more : List ℕ) (closed : Bool) → listed self.new more closed ≡ listed self.old (piece.now ++ more) closed) }
    {
        if self.finished {
            return Ok(());
        }
        self.forget_front();
        self.bytes.extend_from_slice(piece)?;
        Ok(())
    }

    /// The source has ended: no further byte comes.
    pub fn finish(&mut self)
        ensures finished { self.new ≡ record self.old { finished = true } }
        ensures listed { (more : List ℕ) (closed : Bool) → listed self.new more closed ≡ listed self.old [] true }
    {
        self.finished = true;
    }

    /// How many lines were read.
    pub fn line_count(&self) -> u32
        ensures { result ≡ self.now.past.lines }
    {
        self.past.lines
    }

    /// Lets bytes go that were read, where they are half of those kept, so that each byte is moved seldom.
    fn forget_front(&mut self)
        ensures { self.new ≡ self.old }
    {
        if self.bytes.len() - self.at <= self.at {
            drop_front(&mut self.bytes, self.at);
            self.at = 0;
        }
    }

    fn next_line(&mut self) -> Result<Option<Item>, ListError>
        ensures item { IfOk result (λ it. next self.old ≡ Ok it) }
        ensures after { IfOk result (λ it. self.new ≡ after self.old it) }
        ensures fault { IfErr result (IsFault self.old) }
        ensures few { self.old.past.bytes ≤ MOST_BYTES }
        ensures err { OnErr result (self.new ≡ self.old) }
    {
        let rest = &self.bytes[self.at..];
        let Some(count) = line_feed(rest, self.searched) else {
            self.searched = rest.len();
            return read_begun(self.past, rest, self.finished);
        };
        match read_whole(&mut self.names, self.past, &rest[..count]) {
            Ok(item) => {
                self.past = self.past.and_line(count, &item);
                self.at += count + 1;
                self.searched = 0;
                Ok(Some(item))
            }
            Err(LineError::Memory) => Err(ListError::Memory),
            Err(LineError::Refused(reason)) => Err(ListError::Fault(self.past.at_next(reason))),
        }
    }

    /// The next line's item, or `None` where no whole line is left.
    ///
    /// # Errors
    ///
    /// `AllocError` is want of memory; a `ListingFault` names the line and its first reason. The listing
    /// is then as before, so that the same fault is answered again, whatever comes.
    pub fn next_item(&mut self) -> Result<Result<Option<Item>, ListingFault>, AllocError>
        ensures read { IfOk result (λ read. read ≡ next self.old) }
        ensures leaves { IfOk result (λ read. Leaves self.old read self.new) }
        ensures listed { IfOk result (λ read. ReadsOn self.old read self.new) }
        ensures taken { bytes_taken self.new ≡ bytes_taken self.old }
        ensures drained { IfOk result (λ read. IsDrained self.old read) }
        ensures err { OnErr result (self.new ≡ self.old) }
    {
        match self.next_line() {
            Ok(item) => Ok(Ok(item)),
            Err(ListError::Memory) => Err(AllocError),
            Err(ListError::Fault(fault)) => Ok(Err(fault)),
        }
    }
}

/// The lines of a byte string, joined by line feeds, are the byte string, and no line has one.
pub fn lines_are_cut()
    ensures joined { (bytes : List ℕ) → joined (cut bytes).whole (cut bytes).begun ≡ bytes }
    ensures only { (lines : List (List ℕ)) (begun : List ℕ) → HaveNoFeed lines → list_any (λ b. b == 10) begun ≡ false
        → cut (joined lines begun) ≡ record { whole = lines; begun = begun } }
{}

/// After a fault the same fault is read, whatever is fed, and where the source ends.
pub fn faults_stay()
    ensures fed { (r : Reading) (fault : Fault) (piece : List ℕ) → next r ≡ Err fault → next (fed r piece) ≡ Err fault }
    ensures finished { (r : Reading) (fault : Fault) → next r ≡ Err fault → next (record r { finished = true }) ≡ Err fault }
{}
