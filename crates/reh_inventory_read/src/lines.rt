// Reads an inventory line by line.
ghost use Rattle.std.specs.Prelude.{◌≡◌, ◌++◌, IfOk, IfSome, OnOk};
ghost use Rattle.std.specs.Io.BufRead.{DropsThrough, take_through};

use crate::faults::ReadFault;
use crate::limited::{Limited, MAX_LINE_BYTES};
use std::alloc::Global;
use std::io::{BufRead, BufReader, Read};

/// A reader that reads ahead, and gives no line that is too long.
pub type LineReader<R> = BufReader<Limited<R>>;

/// A reader of lines that reads ahead.
pub fn line_reader<R: Read + Drop>(alloc: Global, inner: R) -> Result<LineReader<R>, ReadFault>
    ensures { IfOk result (λ reader. ⟦<LineReader<R> as Read>⟧.remaining reader ≡ R.remaining inner) }
{
    let reader = BufReader::new(alloc, Limited::new(inner))?;
    Ok(reader)
}

/// Reads the rest of a line, of which some bytes may be there, with its LF; nothing at the end. A line that is too long is a
/// fault.
pub fn read_line<B: BufRead>(reader: &mut B, line: &mut Vec<u8>) -> Result<(), ReadFault>
    ensures line { OnOk result (IfSome (B.remaining reader.old)
        (λ bytes. line.new.items ≡ line.old.items ++ take_through 10 bytes)) }
    ensures rest { OnOk result (DropsThrough (B.remaining reader.old) (B.remaining reader.new) 10) }
{
    let read = reader.read_until(b'\n', line);
    if line.len() as u64 > MAX_LINE_BYTES {
        return Err(ReadFault::TooLong);
    }
    match read {
        Ok(_) => Ok(()),
        Err(error) => Err(ReadFault::from(error)),
    }
}
