// Readers and writers of bytes that tell whether a call has failed, and what the other end can see.
ghost use Rattle.std.specs.Prelude.{◌≡◌, ℕ, Bool, true, false, ◌||◌, ◌+◌, ◌-◌, ◌^◌, ◌<◌, ◌≤◌, min, List, ◌++◌, length};
ghost use Rattle.std.specs.Prelude.{Option, is_err, IfOk, OnOk, OnErr, Ok};
ghost use Rattle.std.specs.Io.{ReadsAtMost};
ghost use Rattle.std.specs.Io.KnownBytes.{Appends, ReadConsumes, WriteAppends, Keeps};
ghost use Rattle.reh_lines.specs.Streams.{Grows, found_end};

use std::io::{Read, Write};
use std::snapshot::Snapshot;

/// A call that failed: a read or a write that moved no byte, or a flush that may have handed on a part.
#[derive(Clone, Copy, PartialEq, Eq, Debug)]
pub struct StreamFault;

/// A reader, like std's `Read`.
pub trait TextIn {
    // The bytes that are still to come, where they are known.
    ghost remaining: { Self → Option (List ℕ) };

    // Whether a call has failed so far.
    ghost has_failed: { Self → Bool };

    // How many calls there were so far.
    ghost calls: { Self → ℕ };

    // What was still to come before the last call.
    ghost before: { Self → Option (List ℕ) };

    // Whether the last call was at the end: it took no byte, though there was room.
    ghost at_end: { Self → Bool };

    /// Takes some bytes into the buffer and says how many: none only at the end, or where the buffer has no room.
    fn take(&mut self, buffer: &mut [u8]) -> Result<usize, StreamFault>
        ensures bound { ReadsAtMost result buffer.new }
        ensures bytes { ReadConsumes (remaining self.old) (remaining self.new) result buffer.new }
        ensures failed { has_failed self.new ≡ (has_failed self.old || is_err result) }
        ensures counted { calls self.new ≡ min (calls self.old + 1) (2 ^ 64 - 1) }
        ensures last { before self.new ≡ remaining self.old }
        ensures end { at_end self.new ≡ found_end result (length buffer.new) };
}

/// A writer, like std's `Write`. It may keep back what it took, until a flush hands it on.
pub trait TextOut {
    // The bytes that were written, where they are known.
    ghost contents: { Self → Option (List ℕ) };

    // The bytes that the other end can see, where they are known.
    ghost seen: { Self → Option (List ℕ) };

    // Whether a call has failed so far.
    ghost has_failed: { Self → Bool };

    /// Writes the first of some bytes and says how many: at least one, if there is one. No call may have failed before.
    fn put(&mut self, bytes: &[u8]) -> Result<usize, StreamFault>
        requires fine { has_failed self.old ≡ false }
        ensures bound { IfOk result (λ count. (count ≤ length bytes.now) × (0 < length bytes.now → 0 < count)) }
        ensures empty { length bytes.now ≡ 0 → result ≡ Ok 0 }
        ensures bytes { WriteAppends (contents self.old) (contents self.new) result bytes.now }
        ensures seen { Grows (seen self.old) (seen self.new) }
        ensures failed { has_failed self.new ≡ (has_failed self.old || is_err result) };

    /// Hands on all that was written, so that the other end can see it.
    fn flush(&mut self) -> Result<(), StreamFault>
        ensures bytes { Keeps (contents self.old) (contents self.new) }
        ensures grows { Grows (seen self.old) (seen self.new) }
        ensures seen { OnOk result (seen self.new ≡ contents self.new) }
        ensures failed { has_failed self.new ≡ (has_failed self.old || is_err result) };

    /// Whether a call has failed.
    fn failed(&self) -> bool
        ensures { result ≡ has_failed self.now };

    // What the other end can see was written.
    ghost within: { (writer : Self) → Grows (seen writer) (contents writer) };
}

/// std's reader as a `TextIn`.
#[derive(Drop)]
pub struct FromRead<R: Read> {
    inner: R,
    has_failed: bool,
    calls: u64,
    before: Snapshot<R>,
    at_end: bool,
}

impl<R: Read> FromRead<R> {
    /// The reader, of which no call was made yet.
    pub fn new(inner: R) -> Self
        ensures inner { result.inner ≡ inner }
        ensures fresh { (result.has_failed ≡ false) × (result.calls ≡ 0) }
    {
        let before = Snapshot::of(&inner);
        FromRead {
            inner,
            has_failed: false,
            calls: 0,
            before,
            at_end: false,
        }
    }
}

impl<R: Read> TextIn for FromRead<R> {
    ghost remaining = { λ s. R.remaining s.inner };

    ghost has_failed = { λ s. s.has_failed };

    ghost calls = { λ s. s.calls };

    ghost before = { λ s. R.remaining s.before.value };

    ghost at_end = { λ s. s.at_end };

    fn take(&mut self, buffer: &mut [u8]) -> Result<usize, StreamFault> {
        self.calls = self.calls.saturating_add(1);
        self.before = Snapshot::of(&self.inner);
        match self.inner.read(buffer) {
            Ok(count) => {
                self.at_end = count == 0 && !buffer.is_empty();
                Ok(count)
            }
            Err(_) => {
                self.has_failed = true;
                self.at_end = false;
                Err(StreamFault)
            }
        }
    }
}

/// std's writer as a `TextOut`, for one that hands on what it takes, as standard output does, and keeps nothing back. A
/// write that takes no byte counts as failed.
#[derive(Drop)]
pub struct ToWrite<W: Write> {
    inner: W,
    has_failed: bool,
}

impl<W: Write> ToWrite<W> {
    /// The writer, of which no call has failed yet.
    pub fn new(inner: W) -> Self
        ensures { result ≡ record { inner = inner; has_failed = false } }
    {
        ToWrite {
            inner,
            has_failed: false,
        }
    }
}

impl<W: Write> TextOut for ToWrite<W> {
    ghost use Rattle.reh_lines.specs.Streams.{grows_not};

    ghost contents = { λ s. W.contents s.inner };

    ghost seen = { λ s. W.contents s.inner };

    ghost has_failed = { λ s. s.has_failed };

    fn put(&mut self, bytes: &[u8]) -> Result<usize, StreamFault> {
        if bytes.is_empty() {
            return Ok(0);
        }
        match self.inner.write(bytes) {
            Ok(count) if count > 0 => Ok(count),
            _ => {
                self.has_failed = true;
                Err(StreamFault)
            }
        }
    }

    fn flush(&mut self) -> Result<(), StreamFault> {
        if self.inner.flush().is_err() {
            self.has_failed = true;
            return Err(StreamFault);
        }
        Ok(())
    }

    fn failed(&self) -> bool {
        self.has_failed
    }

    ghost within = { λ s. grows_not (W.contents s.inner) };
}

/// Writes all of some bytes, or as many as it can.
pub fn write_all<W: TextOut>(writer: &mut W, bytes: &[u8]) -> Result<(), StreamFault>
    requires { W.has_failed writer.old ≡ false }
    ensures ok { OnOk result (Appends (W.contents writer.old) (W.contents writer.new) bytes.now) }
    ensures fine { OnOk result (W.has_failed writer.new ≡ false) }
    ensures seen { Grows (W.seen writer.old) (W.seen writer.new) }
    ensures failed { OnErr result (W.has_failed writer.new ≡ true) }

    // A part was written, and some is lost.
    ensures part { OnErr result ((part : List ℕ) × (lost : List ℕ)
        × (part ++ lost ≡ bytes.now) × (0 < length lost)
        × Appends (W.contents writer.old) (W.contents writer.new) part) }
{
    let mut rest = bytes;
    while !rest.is_empty() {
        let count = writer.put(rest)?;
        rest = &rest[count..];
    }
    Ok(())
}
