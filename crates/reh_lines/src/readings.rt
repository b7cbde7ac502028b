// Reading a text to its end, or as far as it can matter.
ghost use Rattle.std.specs.Prelude.{◌≡◌, ◌+◌, ◌≤◌, false, true, length, IfOk, OnErr, MatchResult};
ghost use Rattle.reh_lines.specs.Readings.{Reads, ReadsOn, ReadsPast, IsQuietUntil, reads_past};

use crate::inputs::whole_lines;
use crate::streams::{StreamFault, TextIn};
use reh_types::MAX_SCRIPT_BYTES;
use std::alloc::{AllocError, Global};

/// What was read of a text, and whether a read failed after it.
#[derive(Drop)]
pub struct TextRead {
    pub bytes: Vec<u8>,
    pub failed: bool,
}

/// Reads all that there is, or until there are enough bytes or a read fails.
///
/// It takes at most as many reads as bytes are enough.
pub fn read_text<R: TextIn>(
    alloc: Global,
    reader: &mut R,
    enough: usize,
) -> Result<TextRead, AllocError>
    requires { R.has_failed reader.old ≡ false }
    ensures reads { IfOk result (λ text. Reads enough text.failed text.bytes.items
        (R.remaining reader.old) (R.remaining reader.new)) }
    ensures failed { MatchResult result
        (λ text. R.has_failed reader.new ≡ text.failed)
        (λ _. R.has_failed reader.new ≡ false) }
    ensures calls { R.calls reader.new ≤ R.calls reader.old + enough }
{
    let mut bytes = Vec::new(alloc);
    let mut block = [0u8; 8192];
    while bytes.len() < enough {
        let room = block.len().min(enough - bytes.len());
        let Ok(count) = reader.take(&mut block[..room]) else {
            return Ok(TextRead {
                bytes,
                failed: true,
            });
        };
        if count == 0 {
            return Ok(TextRead {
                bytes,
                failed: false,
            });
        }
        bytes.extend_from_slice(&block[..count])?;
    }
    Ok(TextRead {
        bytes,
        failed: false,
    })
}

/// What came of reading on in a script.
#[derive(Clone, Copy)]
pub enum Progress {
    /// More lines are complete, up to this place.
    Lines(usize),
    /// The script ends here.
    End,
    /// A read failed.
    Failed,
    /// The script has more bytes than a script can have.
    TooLong,
}

/// Reads on in a script until a line more is complete or no more can come. It reads no further than a script can go, but
/// for one byte after it.
pub fn read_on<R: TextIn>(reader: &mut R, script: &mut Vec<u8>) -> Result<Progress, AllocError>
    requires reads { R.has_failed reader.old ≡ false }
    requires few { length script.old.items ≤ MAX_SCRIPT_BYTES }
    ensures read { IfOk result (λ progress. ReadsOn progress script.old.items script.new.items
        (R.remaining reader.old) (R.remaining reader.new) (R.has_failed reader.new)) }
    ensures quiet { IsQuietUntil (R.remaining reader.old) (R.before reader.new) }
    ensures end { IfOk result (λ progress. progress ≡ Progress.End → R.at_end reader.new ≡ true) }
    ensures failed { OnErr result (R.has_failed reader.new ≡ false) }
    ensures few { length script.new.items ≤ MAX_SCRIPT_BYTES }
    ensures calls { MatchResult result
        (λ progress. R.calls reader.new + length script.old.items
        ≤ R.calls reader.old + length script.new.items + reads_past progress)
        (λ _. R.calls reader.new + length script.old.items
        ≤ R.calls reader.old + length script.new.items + 1) }
{
    let mut block = [0u8; 8192];
    while script.len() < MAX_SCRIPT_BYTES {
        let room = block.len().min(MAX_SCRIPT_BYTES - script.len());
        let Ok(count) = reader.take(&mut block[..room]) else {
            return Ok(Progress::Failed);
        };
        if count == 0 {
            return Ok(Progress::End);
        }
        let before = script.len();
        let ended = whole_lines(&block[..count]).len();
        script.extend_from_slice(&block[..count])?;
        if ended > 0 {
            return Ok(Progress::Lines(before + ended));
        }
    }
    Ok(read_past(reader))
}

/// Reads a byte after the longest script that there can be.
fn read_past<R: TextIn>(reader: &mut R) -> Progress
    requires { R.has_failed reader.old ≡ false }
    ensures past { ReadsPast result (R.remaining reader.old) (R.remaining reader.new) (R.has_failed reader.new) }
    ensures last { R.before reader.new ≡ R.remaining reader.old }
    ensures end { result ≡ Progress.End → R.at_end reader.new ≡ true }
    ensures calls { R.calls reader.new ≤ R.calls reader.old + 1 }
{
    let mut byte = [0u8];
    match reader.take(&mut byte) {
        Ok(0) => Progress::End,
        Ok(_) => Progress::TooLong,
        Err(StreamFault) => Progress::Failed,
    }
}
