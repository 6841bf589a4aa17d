//! Where bytes go to.
ghost use Rattle.std.specs.Prelude.{◌≡◌, ◌<◌, ◌≤◌, ◌+◌, ◌-◌, ◌++◌, ◌↔◌, ◌⊎◌, ℕ, List, [], Option, None, Some, length, take, min, IfOk, IfSome, IfNone, IsErr, OnOk, OnErr};
ghost use Rattle.std.specs.Io.KnownBytes.{append_known, Appends, Keeps};
ghost use Rattle.pgs_io.specs.Faults.{HasRisen, counted};
ghost use Rattle.pgs_io.specs.Memory.{MustFail};

use crate::Failed;
use crate::sources::call_fails;
use std::alloc::{AllocError, Global};
use std::io::{ErrorKind, Write};
use std::marker::Model;

/// A stream that takes bytes in pieces.
pub trait Sink {
    // The bytes that it has taken, where the sink tells them. `None` claims nothing.
    ghost written: { Self → Option (List ℕ) };

    // How often it has failed. The count never falls, and one that stands at 2^64 - 1 counts as risen.
    ghost faults: { Self → ℕ };

    /// Takes at least one byte from the front of `buf`, and answers how many.
    ///
    /// After `Failed` nothing was taken.
    fn write(&mut self, buf: &[u8]) -> Result<usize, Failed>
        requires { 0 < length buf.now }
        ensures some { IfOk result (λ count. 0 < count) }
        ensures bound { IfOk result (λ count. count ≤ length buf.now) }
        ensures bytes { IfOk result (λ count. written self.new ≡ append_known (written self.old) (take count buf.now)) }
        ensures unchanged { OnErr result (written self.new ≡ written self.old) }
        ensures no_fault { OnOk result (faults self.new ≡ faults self.old) }
        ensures fault { OnErr result (HasRisen (faults self.old) (faults self.new)) }
        ensures never_falls { faults self.old ≤ faults self.new };
}

/// Writes all of `bytes`.
///
/// After `Failed` a front of them was taken, and not all.
pub fn put_all<K: Sink>(out: &mut K, bytes: &[u8]) -> Result<(), Failed>
    ensures all { OnOk result (K.written out.new ≡ append_known (K.written out.old) bytes.now) }
    ensures front { OnErr result ((front rest : List ℕ) × (front ++ rest ≡ bytes.now) × (0 < length rest)
        × (K.written out.new ≡ append_known (K.written out.old) front)) }
    ensures no_fault { OnOk result (K.faults out.new ≡ K.faults out.old) }
    ensures fault { OnErr result (HasRisen (K.faults out.old) (K.faults out.new)) }
    ensures never_falls { K.faults out.old ≤ K.faults out.new }
    ensures nothing { bytes.now ≡ [] → out.new ≡ out.old }
{
    let mut at = 0;
    while at < bytes.len() {
        at += out.write(&bytes[at..])?;
    }
    Ok(())
}

/// A sink that keeps its bytes in memory, for tests. It tells what it has taken.
#[derive(Drop)]
pub struct MemSink {
    bytes: Vec<u8>,
    room: u32,
    fail_at: Vec<u64>,
    calls: u64,
    faults: u64,
}

impl Model for MemSink {
    ghost use Rattle.std.specs.Prelude.{◌≤◌, vec_len, vec_capacity};
    ghost use Rattle.pgs_io.specs.Memory.{SinkState};

    ghost Value = { SinkState };

    ghost view = { λ s. record {
      kept = s.bytes.items;
      room = s.room;
      failing = s.fail_at.items;
      calls = s.calls;
      failed = s.faults;
    } };

    ghost invariant = { λ s. (vec_len s.bytes ≤ s.room) × (s.room ≤ vec_capacity s.bytes) };
}

impl MemSink {
    /// An empty sink for at most `room` bytes, whose memory is taken here.
    ///
    /// Its n-th call fails where n is in `fail_at`, and each call fails where the sink is full. Calls count from 1.
    pub fn new(alloc: Global, room: u32, fail_at: Vec<u64>) -> Result<MemSink, AllocError>
        ensures { IfOk result (λ sink. sink ≡ record { kept = []; room = room; failing = fail_at.items; calls = 0; failed = 0 }) }
    {
        Ok(MemSink {
            bytes: Vec::with_capacity(alloc, room as usize)?,
            room,
            fail_at,
            calls: 0,
            faults: 0,
        })
    }

    /// The bytes that were taken.
    pub fn written(&self) -> &[u8]
        ensures { result.now ≡ self.now.kept }
    {
        &self.bytes
    }

    /// How many calls were made, those that failed among them.
    pub fn calls(&self) -> u64
        ensures { result ≡ self.now.calls }
    {
        self.calls
    }

    /// How many calls failed.
    pub fn faults(&self) -> u64
        ensures { result ≡ self.now.failed }
    {
        self.faults
    }
}

impl Sink for MemSink {
    ghost written = { λ s. Some s.kept };

    ghost faults = { λ s. s.failed };

    fn write(&mut self, buf: &[u8]) -> Result<usize, Failed>
        requires { 0 < length buf.now }
        ensures some { IfOk result (λ count. 0 < count) }
        ensures bound { IfOk result (λ count. count ≤ length buf.now) }
        ensures bytes { IfOk result (λ count. self.new.kept ≡ self.old.kept ++ take count buf.now) }
        ensures unchanged { OnErr result (self.new.kept ≡ self.old.kept) }
        ensures no_fault { OnOk result (self.new.failed ≡ self.old.failed) }
        ensures fault { OnErr result (HasRisen self.old.failed self.new.failed) }
        ensures never_falls { self.old.failed ≤ self.new.failed }
        ensures failed { OnErr result (self.new.failed ≡ counted self.old.failed) }
        ensures fails { IsErr result ↔ (MustFail self.old.failing self.old.calls ⊎ (length self.old.kept ≡ self.old.room)) }
        ensures count { IfOk result (λ count. count ≡ min (length buf.now) (self.old.room - length self.old.kept)) }
        ensures calls { self.new.calls ≡ counted self.old.calls }
        ensures room { self.new.room ≡ self.old.room }
        ensures failing { self.new.failing ≡ self.old.failing }
    {
        let fails = call_fails(&mut self.calls, &self.fail_at);
        let free = self.room as usize - self.bytes.len();
        let count = buf.len().min(free);
        if fails || count == 0 || self.bytes.extend_from_slice(&buf[..count]).is_err() {
            self.faults = self.faults.saturating_add(1);
            return Err(Failed);
        }
        Ok(count)
    }
}

/// A sink over a writer of std, as the runtime's standard output. It tells nothing of its content.
///
/// A write that a signal interrupts is tried again, and is no failure.
#[derive(Drop)]
pub struct StdSink<W> {
    writer: W,
    faults: u64,
}

impl<W> Model for StdSink<W> {
    ghost use Rattle.std.specs.Prelude.{ℕ};

    ghost Value = { W × ℕ };

    ghost view = { λ s. (s.writer, s.faults) };
}

impl<W: Write + Drop> StdSink<W> {
    /// A sink that has not failed yet.
    pub fn new(writer: W) -> StdSink<W>
        ensures { result ≡ (writer, 0) }
    {
        StdSink { writer, faults: 0 }
    }
}

impl<W: Write + Drop> Sink for StdSink<W> {
    ghost written = { λ s. None };

    ghost faults = { λ s. s.1 };

    /// A write that takes nothing fails too.
    fn write(&mut self, buf: &[u8]) -> Result<usize, Failed>
        requires { 0 < length buf.now }
        ensures some { IfOk result (λ count. 0 < count) }
        ensures bound { IfOk result (λ count. count ≤ length buf.now) }
        ensures no_fault { OnOk result (self.new.1 ≡ self.old.1) }
        ensures fault { OnErr result (HasRisen self.old.1 self.new.1) }
        ensures never_falls { self.old.1 ≤ self.new.1 }
        // What the writer took, where it is known what that holds.
        ensures taken { IfOk result (λ count. Appends (W.contents self.old.0) (W.contents self.new.0) (take count buf.now)) }
        ensures kept { OnErr result (Keeps (W.contents self.old.0) (W.contents self.new.0)) }
    {
        match write_again(&mut self.writer, buf) {
            Some(count) if count > 0 => Ok(count),
            _ => {
                self.faults = self.faults.saturating_add(1);
                Err(Failed)
            }
        }
    }
}

/// One write, tried again where a signal interrupts it, up to 2^64 - 1 times. `None` is a failure.
fn write_again<W: Write>(writer: &mut W, buf: &[u8]) -> Option<usize>
    ensures bound { IfSome result (λ count. count ≤ length buf.now) }
    ensures taken { IfSome result (λ count. Appends (W.contents writer.old) (W.contents writer.new) (take count buf.now)) }
    ensures kept { IfNone result (Keeps (W.contents writer.old) (W.contents writer.new)) }
{
    for _ in 0..u64::MAX {
        match writer.write(buf) {
            Ok(count) => return Some(count),
            Err(error) if error.kind() == ErrorKind::Interrupted => {}
            Err(_) => return None,
        }
    }
    None
}
