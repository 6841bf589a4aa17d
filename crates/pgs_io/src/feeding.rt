//! Reading a source by lines.
ghost use Rattle.std.specs.Prelude.{◌≡◌, ◌<◌, ◌≤◌, ◌+◌, ◌^◌, [], ℕ, List, Option, IfSome, IfNone, true, false, take, length};
ghost use Rattle.pgs_io.specs.Faults.{HasRisen};
ghost use Rattle.pgs_io.specs.Lines.{HasNoNewline};
ghost use Rattle.pgs_io.specs.Feeding.{HasFed, GivesLine, MeetsEnd, MeetsFault, MeetsLimit, BeginWithLine};
ghost use Rattle.pgs_io.specs.FedAnswers.{IfLine, OnEnd, OnFault, OnTooLong, OnNoFault, is_last};
ghost use Rattle.pgs_io.specs.FeedParts.{TakesPart, Fills, FillsNoFault};
ghost use Rattle.pgs_io.specs.declared.feeding.TheConstants.{MOST_READ};

use crate::Failed;
use crate::finding::first_of;
use crate::lines::LineBuf;
use crate::sources::Source;
use std::marker::Model;

const NEWLINE: u8 = b'\n';

/// The most bytes that one read asks for.
pub const MOST_READ: usize = 512;

/// What `Feed::line` met.
#[derive(Clone, Copy, PartialEq, Eq, Debug)]
pub enum Fed {
    /// A line. Where it is `long`, it has more than 512 bytes, of which the buffer has the first.
    Line { long: bool },
    /// The source has ended, and no byte of a line is left.
    End,
    /// The source failed. What was read of a line is lost.
    Fault,
    /// The source has more bytes than the limit, and no line ends within those that are left.
    TooLong,
}

/// Reads a source by lines, through a chunk of its own. It takes no memory.
///
/// It takes at most `limit` bytes, and one more, which belongs to no line. It reads the source only where the bytes
/// that it has read hold no whole line, so that somebody who types line by line is served at each. To flush an output
/// before each read of the source, ask `buffered` first, and flush and call `line` where that has none.
#[derive(Drop)]
pub struct Feed {
    chunk: [u8; MOST_READ],
    start: usize,
    end: usize,
    /// How many bytes may still be taken, the one past the limit among them.
    room: u32,
    source_ended: bool,
    ended: bool,
}

impl Model for Feed {
    ghost use Rattle.std.specs.Prelude.{◌≤◌, slice_range};
    ghost use Rattle.pgs_io.specs.Feeding.{Feeding};

    ghost Value = { Feeding };

    ghost view = { λ f. record { pending = slice_range f.chunk f.start f.end; room = f.room; source_ended = f.source_ended; ended = f.ended } };

    ghost invariant = { λ f. (f.start ≤ f.end) × (f.end ≤ 512) };
}

impl Feed {
    /// A feed of at most `limit` bytes, which has read none.
    pub fn new(limit: u32) -> Feed
        requires some { 1 ≤ limit }
        requires most { limit ≤ 2 ^ 24 }
        ensures starts { (left : Option (List ℕ)) → HasFed limit left left result [] }
        ensures ended { result.ended ≡ false }
        ensures few { length result.pending ≤ MOST_READ }
    {
        Feed {
            chunk: [0; MOST_READ],
            start: 0,
            end: 0,
            room: limit + 1,
            source_ended: false,
            ended: false,
        }
    }

    /// The next line, where the bytes that were read hold a whole one. It reads nothing, and passes over nothing.
    pub fn buffered(&self) -> Option<&[u8]>
        ensures line { IfSome result (λ line. line.now ≡ take (length line.now) self.now.pending) }
        ensures whole { IfSome result (λ line. BeginWithLine (length line.now) self.now.pending) }
        ensures none { IfNone result (HasNoNewline self.now.pending) }
    {
        let pending = &self.chunk[self.start..self.end];
        let at = first_of(pending, NEWLINE)?;
        Some(&pending[..at])
    }

    /// Passes over the line that `buffered` gave, which has so many bytes.
    pub fn pass(&mut self, count: usize)
        requires { BeginWithLine count self.old.pending }
        ensures line { (left : Option (List ℕ)) → GivesLine left left self.old self.new (take count self.old.pending) false }
        ensures ended { self.new.ended ≡ self.old.ended }
        ensures few { length self.new.pending ≤ MOST_READ }
    {
        let newline = self.start + count;
        self.start = newline + 1;
    }

    /// Puts the next line into `buf`, and reads the source as often as that needs.
    ///
    /// The last line may lack its newline. After an answer other than `Line` no call may follow.
    pub fn line<S: Source>(&mut self, src: &mut S, buf: &mut LineBuf) -> Fed
        requires { self.old.ended ≡ false }
        ensures line { IfLine result (λ long. GivesLine (S.left src.old) (S.left src.new) self.old self.new buf.new long) }
        ensures end { OnEnd result (MeetsEnd (S.left src.old) (S.left src.new) self.old) }
        ensures at_fault { OnFault result (MeetsFault (S.left src.old) (S.left src.new) self.old) }
        ensures too_long { OnTooLong result (MeetsLimit (S.left src.old) (S.left src.new) self.old) }
        ensures ended { self.new.ended ≡ is_last result }
        ensures few { length self.new.pending ≤ MOST_READ }
        ensures unread { self.old.source_ended ≡ true → src.new ≡ src.old }
        ensures no_fault { OnNoFault result (S.faults src.new ≡ S.faults src.old) }
        ensures fault { OnFault result (HasRisen (S.faults src.old) (S.faults src.new)) }
        ensures never_falls { S.faults src.old ≤ S.faults src.new }
    {
        prove!(!self.ended);
        buf.clear();
        let mut long = false;
        loop {
            let part = self.take_part(buf);
            long |= part.cut;
            if part.ended {
                return Fed::Line { long };
            }
            match self.fill(src) {
                Filled::Bytes => {}
                Filled::End if buf.as_slice().is_empty() => {
                    self.ended = true;
                    return Fed::End;
                }
                Filled::End => return Fed::Line { long },
                Filled::Fault => {
                    self.ended = true;
                    return Fed::Fault;
                }
                Filled::TooLong => {
                    self.ended = true;
                    return Fed::TooLong;
                }
            }
        }
    }

    /// Appends the pending bytes up to the newline to `buf`, or all of them where there is none.
    fn take_part(&mut self, buf: &mut LineBuf) -> Part
        ensures part { TakesPart self.old self.new buf.old buf.new result.ended result.cut }
        ensures few { length self.new.pending ≤ MOST_READ }
    {
        let pending = &self.chunk[self.start..self.end];
        match first_of(pending, NEWLINE) {
            Some(at) => {
                let fits = buf.extend(&pending[..at]);
                self.start += at + 1;
                Part {
                    ended: true,
                    cut: !fits,
                }
            }
            None => {
                let fits = buf.extend(pending);
                self.start = self.end;
                Part {
                    ended: false,
                    cut: !fits,
                }
            }
        }
    }

    /// Reads the source once, where nothing is pending, it has not ended, and there is room.
    #[tactic(auto, using(crate::proofs::FeedLemmas::front_within))]
    fn fill<S: Source>(&mut self, src: &mut S) -> Filled
        requires { self.old.pending ≡ [] }
        ensures cases { Fills result (S.left src.old) (S.left src.new) self.old self.new }
        ensures ended { self.new.ended ≡ self.old.ended }
        ensures unread { self.old.source_ended ≡ true → src.new ≡ src.old }
        ensures no_fault { FillsNoFault result (S.faults src.old) (S.faults src.new) }
        ensures never_falls { S.faults src.old ≤ S.faults src.new }
    {
        if self.source_ended {
            return Filled::End;
        }
        if self.room == 0 {
            return Filled::TooLong;
        }
        let most = MOST_READ.min(self.room as usize);
        self.start = 0;
        self.end = 0;
        match src.read(&mut self.chunk[..most]) {
            Ok(0) => {
                self.source_ended = true;
                Filled::End
            }
            Ok(count) => {
                self.end = count.min(self.room as usize - 1);
                self.room -= count as u32;
                Filled::Bytes
            }
            Err(Failed) => Filled::Fault,
        }
    }
}

/// What a part of a line was.
#[derive(Clone, Copy)]
struct Part {
    /// Its newline was found.
    ended: bool,
    /// Not all of it fitted.
    cut: bool,
}

/// What a read of the source brought.
#[derive(Clone, Copy)]
enum Filled {
    Bytes,
    End,
    Fault,
    TooLong,
}
