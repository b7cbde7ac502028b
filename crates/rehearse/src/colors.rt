// Answers in colour, as they are written.
ghost use Rattle.std.specs.Prelude.{◌≡◌, ◌||◌, false, is_err, if◌then◌else◌, None, IfOk, length, ◌≤◌};
ghost use Rattle.rehearse.specs.Colors as model;

use reh_colors::colored;
use reh_script::{StreamFault, TextOut, write_all};
use std::alloc::Global;

/// A writer of answers that shows them in colour, if it is to; each write has to have whole lines.
#[derive(Drop)]
pub(crate) struct Colored<W: TextOut> {
    alloc: Global,
    inner: W,
    is_shown: bool,
}

impl<W: TextOut> Colored<W> {
    /// The writer over this one.
    pub(crate) fn new(alloc: Global, inner: W, is_shown: bool) -> Self
        ensures { result ≡ record { alloc = alloc; inner = inner; is_shown = is_shown } }
    {
        Colored {
            alloc,
            inner,
            is_shown,
        }
    }
}

/// Writes a text in colour. Where there is no memory for colours, it has none.
fn write_colored<W: TextOut>(alloc: Global, writer: &mut W, text: &[u8]) -> Result<(), StreamFault>
    requires { W.has_failed writer.old ≡ false }
    ensures { W.has_failed writer.new ≡ is_err result }
{
    match colored(alloc, text) {
        Ok(shown) => write_all(writer, &shown),
        Err(_) => write_all(writer, text),
    }
}

/// Without colours it writes what the writer below it writes. With them no clause tells what is written.
impl<W: TextOut> TextOut for Colored<W> {
    ghost contents = { λ s. model.unless_shown s.is_shown (W.contents s.inner) };

    ghost seen = { λ s. model.unless_shown s.is_shown (W.seen s.inner) };

    ghost has_failed = { λ s. W.has_failed s.inner };

    fn put(&mut self, bytes: &[u8]) -> Result<usize, StreamFault> {
        if bytes.is_empty() {
            return Ok(0);
        }
        if !self.is_shown {
            return self.inner.put(bytes);
        }
        write_colored(self.alloc, &mut self.inner, bytes)?;
        Ok(bytes.len())
    }

    fn flush(&mut self) -> Result<(), StreamFault> {
        self.inner.flush()
    }

    fn failed(&self) -> bool {
        self.inner.failed()
    }

    ghost within = { λ s. model.within_unless s.is_shown (W.seen s.inner) (W.contents s.inner) (W.within s.inner) };
}
