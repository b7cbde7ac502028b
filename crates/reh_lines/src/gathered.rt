// A writer that gathers.
ghost use Rattle.std.specs.Prelude.{◌≡◌, ◌+◌, ◌<◌, ◌≤◌, ◌||◌, ◌++◌, [], false, drop, length, vec_len, vec_capacity};
ghost use Rattle.std.specs.Prelude.{IfOk, IsOk, OnOk, is_err};
ghost use Rattle.std.specs.Io.KnownBytes.{Keeps, append_known};
ghost use Rattle.reh_lines.specs.Streams.{Grows};

use crate::streams::{StreamFault, TextOut};
use std::alloc::{AllocError, Global};

/// So many bytes are gathered before they are handed on.
const GATHERED: usize = 8192;

/// Gathers what is written, up to 8,192 bytes, and hands it on at a flush, or where there is no room for more.
///
/// std's `BufWriter` does the same; but it doesn't say what its inner writer has after a call that failed.
#[derive(Drop)]
pub struct Gathered<W: TextOut + Drop> {
    inner: W,
    kept: Vec<u8>,
}

impl<W: TextOut + Drop> Gathered<W> {
    /// The writer, which keeps nothing back yet.
    pub fn new(alloc: Global, inner: W) -> Result<Self, AllocError>
        ensures inner { IfOk result (λ g. g.inner ≡ inner) }
        ensures kept { IfOk result (λ g. g.kept.items ≡ []) }
    {
        let kept = Vec::with_capacity(alloc, GATHERED)?;
        Ok(Gathered { inner, kept })
    }

    /// Hands on the bytes that are kept.
    fn send(&mut self) -> Result<(), StreamFault>
        requires { W.has_failed self.old.inner ≡ false }
        ensures bytes { Keeps (append_known (W.contents self.old.inner) self.old.kept.items)
            (append_known (W.contents self.new.inner) self.new.kept.items) }
        ensures seen { Grows (W.seen self.old.inner) (W.seen self.new.inner) }
        ensures none { OnOk result (self.new.kept.items ≡ []) }
        ensures failed { W.has_failed self.new.inner ≡ (W.has_failed self.old.inner || is_err result) }
    {
        while !self.kept.is_empty() {
            let count = self.inner.put(&self.kept)?;
            remove_front(&mut self.kept, count);
        }
        Ok(())
    }

    /// Hands on the bytes that are kept, where there is no room for so many more.
    #[tactic(auto, using(crate::specs::Streams::grows_not))]
    fn make_room(&mut self, count: usize) -> Result<(), StreamFault>
        requires { W.has_failed self.old.inner ≡ false }
        ensures bytes { Keeps (append_known (W.contents self.old.inner) self.old.kept.items)
            (append_known (W.contents self.new.inner) self.new.kept.items) }
        ensures seen { Grows (W.seen self.old.inner) (W.seen self.new.inner) }
        ensures free { count ≡ 0 → IsOk result }
        ensures room { OnOk result (count ≤ vec_capacity self.new.kept
            → vec_len self.new.kept + count ≤ vec_capacity self.new.kept) }
        ensures none { OnOk result (vec_capacity self.new.kept < count → self.new.kept.items ≡ []) }
        ensures failed { W.has_failed self.new.inner ≡ (W.has_failed self.old.inner || is_err result) }
    {
        if count > self.kept.capacity() - self.kept.len() {
            return self.send();
        }
        Ok(())
    }
}

impl<W: TextOut + Drop> TextOut for Gathered<W> {
    ghost use Rattle.reh_lines.specs.Streams.{grows_kept};

    ghost contents = { λ g. append_known (W.contents g.inner) g.kept.items };

    ghost seen = { λ g. W.seen g.inner };

    ghost has_failed = { λ g. W.has_failed g.inner };

    fn put(&mut self, bytes: &[u8]) -> Result<usize, StreamFault> {
        self.make_room(bytes.len())?;
        if bytes.len() > self.kept.capacity() {
            return self.inner.put(bytes);
        }
        append(&mut self.kept, bytes);
        Ok(bytes.len())
    }

    fn flush(&mut self) -> Result<(), StreamFault> {
        if self.inner.failed() {
            return Err(StreamFault);
        }
        self.send()?;
        self.inner.flush()
    }

    fn failed(&self) -> bool {
        self.inner.failed()
    }

    ghost within = { λ g. grows_kept (W.seen g.inner) (W.contents g.inner) g.kept.items (W.within g.inner) };
}

/// Removes the first bytes, so many.
fn remove_front(kept: &mut Vec<u8>, count: usize)
    requires { count ≤ length kept.old.items }
    ensures { kept.new.items ≡ drop count kept.old.items }
{
    if count == kept.len() {
        kept.clear();
    } else {
        kept.drain(..count);
    }
}

/// Adds bytes for which there is room.
fn append(kept: &mut Vec<u8>, bytes: &[u8])
    requires { vec_len kept.old + length bytes.now ≤ vec_capacity kept.old }
    ensures { kept.new.items ≡ kept.old.items ++ bytes.now }
{
    let Ok(()) = kept.extend_from_slice(bytes) else {
        unreachable!()
    };
}
