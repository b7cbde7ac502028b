// A file that is opened late.
ghost use Rattle.std.specs.Prelude.{◌≡◌, ◌||◌, false, is_err, is_some, length, None};
ghost use Rattle.std.specs.Io.{ReadsAtMost};
ghost use Rattle.std.specs.Option.{option_map_or};
ghost use Rattle.reh_lines.specs.Streams.{found_end};

use crate::faults::RunFault;
use crate::files::open_file;
use reh_lines::{FromRead, StreamFault, TextIn};
use std::fs::File;

/// A file that is opened at its first read, so that what is read before it is judged before it.
#[derive(Drop)]
pub struct LateFile<'a> {
    rt: &'a HostRuntime,
    path: &'a str,
    file: Option<FromRead<File>>,
    unopened: Option<RunFault>,
    calls: u64,
}

impl<'a> LateFile<'a> {
    /// The file of this path, of which no read was made yet.
    pub fn new(rt: &'a HostRuntime, path: &'a str) -> Self
        ensures fresh { result.file ≡ None }
        ensures closed { result.unopened ≡ None }
    {
        LateFile {
            rt,
            path,
            file: None,
            unopened: None,
            calls: 0,
        }
    }

    /// Why it could not be opened, if it could not.
    pub fn into_unopened(self) -> Option<RunFault>
        ensures { result ≡ self.entry.unopened }
    {
        self.unopened
    }

    /// Takes some bytes of the file, which is opened first where it isn't open yet. It fails where that can't be opened, or the
    /// read fails.
    fn take_opened(&mut self, buffer: &mut [u8]) -> Result<usize, StreamFault>
        ensures bound { ReadsAtMost result buffer.new }
        ensures failed { (is_some self.new.unopened || option_map_or (λ file. file.has_failed) self.new.file false)
            ≡ ((is_some self.old.unopened || option_map_or (λ file. file.has_failed) self.old.file false) || is_err result) }
        ensures end { option_map_or (λ file. file.at_end) self.new.file false ≡ found_end result (length buffer.new) }
        ensures counted { self.new.calls ≡ self.old.calls }
    {
        if let Some(file) = &mut self.file {
            return file.take(buffer);
        }
        match open_file(self.rt, self.path) {
            Ok(file) => {
                let mut file = FromRead::new(file);
                let taken = file.take(buffer);
                self.file = Some(file);
                taken
            }
            Err(fault) => {
                self.unopened = Some(fault);
                Err(StreamFault)
            }
        }
    }
}

impl TextIn for LateFile<'_> {
    ghost remaining = { λ _. None };

    ghost has_failed = { λ s. is_some s.unopened || option_map_or (λ file. file.has_failed) s.file false };

    ghost calls = { λ s. s.calls };

    ghost before = { λ _. None };

    ghost at_end = { λ s. option_map_or (λ file. file.at_end) s.file false };

    fn take(&mut self, buffer: &mut [u8]) -> Result<usize, StreamFault> {
        self.calls = self.calls.saturating_add(1);
        self.take_opened(buffer)
    }
}
