// What is shown to whoever types.
ghost use Rattle.std.specs.Prelude.{◌≡◌};

use crate::helps::say_help;
use reh_files::Looks;
use reh_script::{StreamFault, TextIn};
use std::io::IsTerminal;

/// A script on standard input. Before each line a prompt is shown on standard error, and help after a line that asks for it,
/// where both are terminals and more than faults is said.
#[derive(Drop)]
pub(crate) struct Typed<'a, R: TextIn> {
    rt: &'a HostRuntime,
    inner: R,
    is_prompted: bool,
    begins_line: bool,
}

impl<'a, R: TextIn> Typed<'a, R> {
    /// The script that this reader takes from standard input.
    pub(crate) fn new(rt: &'a HostRuntime, looks: Looks, inner: R) -> Self
        ensures { result.inner ≡ inner }
    {
        let is_prompted = !looks.is_quiet && rt.stdin().is_terminal() && rt.stderr().is_terminal();
        Typed {
            rt,
            inner,
            is_prompted,
            begins_line: true,
        }
    }

    /// Shows the prompt, where a line begins.
    fn prompt(&self) {
        if self.is_prompted && self.begins_line {
            let _ = eprint!(self.rt; "> ");
        }
    }

    /// Shows help, if what was taken is a line that asks for it.
    fn help(&self, taken: Result<usize, StreamFault>, buffer: &[u8]) {
        if !self.is_prompted || !self.begins_line || !ends_line(taken, buffer) {
            return;
        }
        if let Some(line) = buffer.get(..taken.unwrap_or(0)) {
            say_help(self.rt, line);
        }
    }

    /// Ends the line on which the prompt is.
    fn end_line(&self) {
        if self.is_prompted {
            let _ = eprintln!(self.rt; "");
        }
    }
}

impl<R: TextIn> TextIn for Typed<'_, R> {
    ghost remaining = { λ s. R.remaining s.inner };

    ghost has_failed = { λ s. R.has_failed s.inner };

    ghost calls = { λ s. R.calls s.inner };

    ghost before = { λ s. R.before s.inner };

    ghost at_end = { λ s. R.at_end s.inner };

    fn take(&mut self, buffer: &mut [u8]) -> Result<usize, StreamFault> {
        self.prompt();
        let taken = self.inner.take(buffer);
        if taken.unwrap_or(0) == 0 {
            self.end_line();
        }
        self.help(taken, buffer);
        self.begins_line = ends_line(taken, buffer);
        taken
    }
}

/// Says what is read from standard input, where that and standard error are terminals and more than faults is said: whoever
/// types the program's name alone would see nothing.
pub(crate) fn tell_input(rt: &HostRuntime, looks: Looks) {
    if !looks.is_quiet && rt.stdin().is_terminal() && rt.stderr().is_terminal() {
        let _ = eprintln!(rt;
            "reading a picture, a line with a single %, and a script; rehearse --help says more"
        );
    }
}

/// Whether what was taken ends a line.
fn ends_line(taken: Result<usize, StreamFault>, buffer: &[u8]) -> bool {
    match taken {
        Ok(count) if 0 < count => buffer.get(count - 1) == Some(&b'\n'),
        _ => false,
    }
}
