// Reading an input up to its script.
ghost use Rattle.std.specs.Prelude.{◌≡◌, ◌⊎◌, ◌+◌, ◌-◌, ◌≤◌, ◌<◌, [], None, false, true, take, drop, length, IfSome, IfOk};
ghost use Rattle.std.specs.Prelude.{OnErr, MatchResult};
ghost use Rattle.reh_lines.specs.Heads.{is_percent as names_percent, IsHead, IsPicture, IsUntoldUntil, ReadsHead};
ghost use Rattle.reh_lines.specs.Heads.{last_read};
ghost use Rattle.reh_lines.specs.Readings.{IsQuiet};

use crate::streams::TextIn;
use reh_types::MAX_PICTURE_BYTES;
use std::alloc::AllocError;

/// An input that is so long and has no line `%` that ends has a picture of more than 8,388,608 bytes.
const MAX_HEAD: usize = MAX_PICTURE_BYTES + 4;

/// Where the picture of an input ends, and where the script begins after the line `%`.
#[derive(Clone, Copy)]
pub struct Percent {
    pub picture: usize,
    pub script: usize,
}

/// What came of reading an input up to its script.
#[derive(Clone, Copy)]
pub enum Head {
    /// Its line `%` has ended.
    Ended(Percent),
    /// The input has no script.
    Whole,
    /// The picture is too long.
    TooLong,
    /// A read failed.
    Failed,
}

/// Reads an input until its line `%` ends, or no more can matter.
pub fn read_head<R: TextIn>(reader: &mut R, input: &mut Vec<u8>) -> Result<Head, AllocError>
    requires reads { R.has_failed reader.old ≡ false }
    requires empty { input.old.items ≡ [] }
    ensures head { IfOk result (λ head. ReadsHead head input.new.items
        (R.remaining reader.old) (R.remaining reader.new) (R.has_failed reader.new)) }
    ensures failed { OnErr result (R.has_failed reader.new ≡ false) }
    ensures few { length input.new.items ≤ MAX_HEAD }
    ensures until { (reader.new ≡ reader.old) ⊎ IsUntoldUntil (R.remaining reader.old) (R.before reader.new) }
    ensures end { IfOk result (λ head. head ≡ Head.Whole → R.at_end reader.new ≡ true) }
    ensures calls { MatchResult result
        (λ head. R.calls reader.new ≤ R.calls reader.old + length input.new.items + last_read head)
        (λ _. R.calls reader.new ≤ R.calls reader.old + MAX_HEAD) }
{
    let mut block = [0u8; 8192];
    let mut line = 0;
    while input.len() < MAX_HEAD {
        let room = block.len().min(MAX_HEAD - input.len());
        let Ok(count) = reader.take(&mut block[..room]) else {
            return Ok(Head::Failed);
        };
        if count == 0 {
            return Ok(Head::Whole);
        }
        let from = input.len();
        input.extend_from_slice(&block[..count])?;
        if let Some(percent) = find_percent(input, &mut line, from) {
            return Ok(Head::Ended(percent));
        }
    }
    Ok(Head::TooLong)
}

/// The first line `%` that ends from a place on, which lies in the line that begins at `line`. Where there is none, the
/// last line begins there.
fn find_percent(input: &[u8], line: &mut usize, from: usize) -> Option<Percent>
    requires order { line.old ≤ from }
    requires within { from ≤ length input.now }
    requires picture { IsPicture (take line.old input.now) }
    requires quiet { IsQuiet (take (from - line.old) (drop line.old input.now)) }
    ensures found { IfSome result (λ p. IsHead (take p.script input.now) (take p.picture input.now)
        × (p.picture < p.script) × (from < p.script) × (p.script ≤ length input.now)) }
    ensures picture { result ≡ None → IsPicture (take line.new input.now) }
    ensures within { result ≡ None → line.new ≤ length input.now }
    ensures quiet { result ≡ None → IsQuiet (drop line.new input.now) }
{
    let mut at = from;
    while at < input.len() {
        let end = at;
        at += 1;
        if input[end] != b'\n' {
            continue;
        }
        if is_percent(&input[*line..end]) {
            return Some(Percent {
                picture: line.saturating_sub(1),
                script: at,
            });
        }
        *line = at;
    }
    None
}

/// Whether a line is `%`; it may end in a CR.
fn is_percent(line: &[u8]) -> bool
    ensures { result ≡ names_percent line.now }
{
    matches!(line, b"%" | b"%\r")
}
