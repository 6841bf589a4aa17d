//! Where bytes come from.
ghost use Rattle.std.specs.Prelude.{◌≡◌, ◌<◌, ◌≤◌, ◌+◌, ◌++◌, ◌↔◌, ℕ, List, [], Option, None, Some, length, take, drop, min, IfOk, IfSome, IfNone, IsErr, IsTrue, OnOk, OnErr};
ghost use Rattle.std.specs.Io.KnownBytes.{prepend_known, Consumes, Keeps, IsAtEnd};
ghost use Rattle.pgs_io.specs.Faults.{HasRisen, counted};
ghost use Rattle.pgs_io.specs.Memory.{MustFail};

use crate::Failed;
use std::io::{ErrorKind, Read};
use std::marker::Model;

/// A stream of bytes that is read in pieces.
pub trait Source {
    // The bytes still to come, where the source tells them. `None` claims nothing.
    ghost left: { Self → Option (List ℕ) };

    // How often it has failed. The count never falls, and one that stands at 2^64 - 1 counts as risen.
    ghost faults: { Self → ℕ };

    /// Reads at least one byte into the front of `buf`, and answers how many.
    ///
    /// The answer 0 is the end of the input. After `Failed` nothing was taken from the source, and `buf` holds
    /// no byte to rely on.
    fn read(&mut self, buf: &mut [u8]) -> Result<usize, Failed>
        requires { 0 < length buf.old }
        ensures bound { IfOk result (λ count. count ≤ length buf.new) }
        ensures bytes { IfOk result (λ count. left self.old ≡ prepend_known (take count buf.new) (left self.new)) }
        ensures end { IfOk result (λ count. IfSome (left self.old) (λ bytes. (count ≡ 0) ↔ (bytes ≡ []))) }
        ensures unchanged { OnErr result (left self.new ≡ left self.old) }
        ensures no_fault { OnOk result (faults self.new ≡ faults self.old) }
        ensures fault { OnErr result (HasRisen (faults self.old) (faults self.new)) }
        ensures never_falls { faults self.old ≤ faults self.new };
}

/// A source over bytes in memory, for tests. It tells what it has left.
#[derive(Drop)]
pub struct MemSource {
    bytes: Vec<u8>,
    at: usize,
    piece: u32,
    fail_at: Vec<u64>,
    calls: u64,
    faults: u64,
}

impl Model for MemSource {
    ghost use Rattle.std.specs.Prelude.{◌≤◌, drop, length};
    ghost use Rattle.pgs_io.specs.Memory.{SourceState};

    ghost Value = { SourceState };

    ghost view = { λ s. record {
      unread = drop s.at s.bytes.items;
      piece = s.piece;
      failing = s.fail_at.items;
      calls = s.calls;
      failed = s.faults;
    } };

    ghost invariant = { λ s. (s.at ≤ length s.bytes.items) × (1 ≤ s.piece) };
}

impl MemSource {
    /// A source of these bytes, which gives at most `piece` of them in a call.
    ///
    /// Its n-th call fails where n is in `fail_at`. Calls count from 1.
    pub fn new(bytes: Vec<u8>, piece: u32, fail_at: Vec<u64>) -> MemSource
        requires { 1 ≤ piece }
        ensures { result ≡ record { unread = bytes.items; piece = piece; failing = fail_at.items; calls = 0; failed = 0 } }
    {
        MemSource {
            bytes,
            at: 0,
            piece,
            fail_at,
            calls: 0,
            faults: 0,
        }
    }

    /// The bytes that no call has given yet.
    pub fn unread(&self) -> &[u8]
        ensures { result.now ≡ self.now.unread }
    {
        &self.bytes[self.at..]
    }

    /// How many calls were made, those that failed among them.
    pub fn calls(&self) -> u64
        ensures { result ≡ self.now.calls }
    {
        self.calls
    }

    /// How many calls failed.
    pub fn faults(&self) -> u64
        ensures { result ≡ self.now.failed }
    {
        self.faults
    }
}

impl Source for MemSource {
    ghost left = { λ s. Some s.unread };

    ghost faults = { λ s. s.failed };

    fn read(&mut self, buf: &mut [u8]) -> Result<usize, Failed>
        requires { 0 < length buf.old }
        ensures bound { IfOk result (λ count. count ≤ length buf.new) }
        ensures bytes { IfOk result (λ count. self.old.unread ≡ take count buf.new ++ self.new.unread) }
        ensures end { IfOk result (λ count. (count ≡ 0) ↔ (self.old.unread ≡ [])) }
        ensures unchanged { OnErr result (self.new.unread ≡ self.old.unread) }
        ensures no_fault { OnOk result (self.new.failed ≡ self.old.failed) }
        ensures fault { OnErr result (HasRisen self.old.failed self.new.failed) }
        ensures never_falls { self.old.failed ≤ self.new.failed }
        ensures failed { OnErr result (self.new.failed ≡ counted self.old.failed) }
        ensures fails { IsErr result ↔ MustFail self.old.failing self.old.calls }
        ensures count { IfOk result (λ count. count ≡ min self.old.piece (min (length buf.old) (length self.old.unread))) }
        ensures calls { self.new.calls ≡ counted self.old.calls }
        ensures piece { self.new.piece ≡ self.old.piece }
        ensures failing { self.new.failing ≡ self.old.failing }
    {
        if call_fails(&mut self.calls, &self.fail_at) {
            self.faults = self.faults.saturating_add(1);
            return Err(Failed);
        }
        let rest = &self.bytes[self.at..];
        let count = (self.piece as usize).min(buf.len()).min(rest.len());
        buf[..count].copy_from_slice(&rest[..count]);
        self.at += count;
        Ok(count)
    }
}

/// Counts a call, and answers whether it is one that has to fail.
///
/// The count stands still at 2^64 - 1, and no call behind that one fails.
pub(crate) fn call_fails(calls: &mut u64, fail_at: &[u64]) -> bool
    ensures fails { IsTrue result ↔ MustFail fail_at.now calls.old }
    ensures calls { calls.new ≡ counted calls.old }
{
    let Some(number) = calls.checked_add(1) else {
        return false;
    };
    *calls = number;
    fail_at.contains(&number)
}

/// A source over a reader of std, as the runtime's standard input. It tells nothing of its content.
///
/// A read that a signal interrupts is tried again, and is no failure.
#[derive(Drop)]
pub struct StdSource<R> {
    reader: R,
    faults: u64,
}

impl<R> Model for StdSource<R> {
    ghost use Rattle.std.specs.Prelude.{ℕ};

    ghost Value = { R × ℕ };

    ghost view = { λ s. (s.reader, s.faults) };
}

impl<R: Read + Drop> StdSource<R> {
    /// A source that has not failed yet.
    pub fn new(reader: R) -> StdSource<R>
        ensures { result ≡ (reader, 0) }
    {
        StdSource { reader, faults: 0 }
    }
}

impl<R: Read + Drop> Source for StdSource<R> {
    ghost left = { λ s. None };

    ghost faults = { λ s. s.1 };

    fn read(&mut self, buf: &mut [u8]) -> Result<usize, Failed>
        requires { 0 < length buf.old }
        ensures bound { IfOk result (λ count. count ≤ length buf.new) }
        ensures no_fault { OnOk result (self.new.1 ≡ self.old.1) }
        ensures fault { OnErr result (HasRisen self.old.1 self.new.1) }
        ensures never_falls { self.old.1 ≤ self.new.1 }
        // What the reader gave, where it is known what that has.
        ensures given { IfOk result (λ count. Consumes (R.remaining self.old.0) (R.remaining self.new.0) (take count buf.new)) }
        ensures end { IfOk result (λ count. count ≡ 0 → IsAtEnd (R.remaining self.new.0)) }
        ensures kept { OnErr result (Keeps (R.remaining self.old.0) (R.remaining self.new.0)) }
    {
        if let Some(count) = read_again(&mut self.reader, buf) {
            return Ok(count);
        }
        self.faults = self.faults.saturating_add(1);
        Err(Failed)
    }
}

/// One read, tried again where a signal interrupts it, up to 2^64 - 1 times. `None` is a failure.
fn read_again<R: Read>(reader: &mut R, buf: &mut [u8]) -> Option<usize>
    requires { 0 < length buf.old }
    ensures bound { IfSome result (λ count. count ≤ length buf.new) }
    ensures given { IfSome result (λ count. Consumes (R.remaining reader.old) (R.remaining reader.new) (take count buf.new)) }
    ensures end { IfSome result (λ count. count ≡ 0 → IsAtEnd (R.remaining reader.new)) }
    ensures kept { IfNone result (Keeps (R.remaining reader.old) (R.remaining reader.new)) }
{
    for _ in 0..u64::MAX {
        match reader.read(buf) {
            Ok(count) => return Some(count),
            Err(error) if error.kind() == ErrorKind::Interrupted => {}
            Err(_) => return None,
        }
    }
    None
}
