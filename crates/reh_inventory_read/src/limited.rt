// A reader whose lines have a limit.
ghost use Rattle.std.specs.Prelude.{◌≡◌};

use std::io;
use std::io::{ErrorKind, Read};

/// How many bytes a line of an inventory has at most, with its LF.
pub const MAX_LINE_BYTES: u64 = 1 << 28;

/// A reader that gives no more bytes once it has given more than `MAX_LINE_BYTES` of one line. So a file without an LF takes
/// no more memory than that.
#[derive(Drop)]
pub struct Limited<R> {
    inner: R,
    line_bytes: u64,
}

impl<R> Limited<R> {
    /// A reader at the beginning of a line.
    pub fn new(inner: R) -> Limited<R>
        ensures { result.inner ≡ inner }
    {
        Limited {
            inner,
            line_bytes: 0,
        }
    }

    /// The reader below.
    pub fn into_inner(self) -> R
        ensures { result ≡ self.inner }
    {
        self.inner
    }
}

impl<R: Read> Read for Limited<R> {
    ghost remaining = { λ s. R.remaining s.inner };

    fn read(&mut self, buf: &mut [u8]) -> io::Result<usize> {
        if self.line_bytes > MAX_LINE_BYTES {
            return Err(io::Error::from(ErrorKind::InvalidData));
        }
        let count = self.inner.read(buf)?;
        self.line_bytes = bytes_after(self.line_bytes, &buf[..count]);
        Ok(count)
    }
}

/// How many bytes of the line that isn't ended were given, after so many of it and then these.
fn bytes_after(line_bytes: u64, given: &[u8]) -> u64 {
    match given.iter().rev().position(|byte| *byte == b'\n') {
        Some(count) => count as u64,
        None => line_bytes.saturating_add(given.len() as u64),
    }
}
