// Texts in colour.
ghost use Rattle.std.specs.Prelude.{◌≡◌, ◌==◌, ◌<◌, ◌++◌, ◌∷◌, [], false, length, position, IfOk, IfSome, OnOk, MatchOption};
ghost use Rattle.std.specs.List.{list_any};
ghost use Rattle.reh_colors.specs.Shades as model;

use crate::shades::shade_of;
use std::alloc::{AllocError, Global};

/// The text with codes round the lines that have a colour.
///
/// Without the codes it is the text as before, if that has no code itself (`plain`).
pub fn colored(alloc: Global, text: &[u8]) -> Result<Vec<u8>, AllocError>
    ensures text { IfOk result (λ shown. shown.items ≡ model.colored text.now) }
    ensures plain { list_any model.is_escape text.now ≡ false
        → IfOk result (λ shown. model.without_codes shown.items ≡ text.now) }
{
    let mut shown = Vec::new(alloc);
    let mut rest = text;
    while let Some((line, more)) = cut_line(rest) {
        push_line(&mut shown, line)?;
        shown.push(b'\n')?;
        rest = more;
    }
    push_line(&mut shown, rest)?;
    Ok(shown)
}

/// The first line of a text and what follows its LF, if it has one.
fn cut_line(text: &[u8]) -> Option<(&[u8], &[u8])>
    ensures lines { MatchOption result (model.lines text.now ≡ text.now ∷ [])
        (λ cut. model.lines text.now ≡ cut.0.now ∷ model.lines cut.1.now) }
    ensures shorter { IfSome result (λ cut. length cut.1.now < length text.now) }
{
    let end = line_len(text)?;
    Some((&text[..end], &text[end + 1..]))
}

/// How many bytes stand before the first LF, if there is one.
fn line_len(text: &[u8]) -> Option<usize>
    ensures { result ≡ position (λ b. b == 10) text.now }
{
    text.iter().position(|byte| *byte == b'\n')
}

/// Adds a line, with codes if it has a colour.
fn push_line(shown: &mut Vec<u8>, line: &[u8]) -> Result<(), AllocError>
    ensures { OnOk result (shown.new.items ≡ shown.old.items ++ model.shown line.now) }
{
    match shade_of(line) {
        Some(shade) => {
            shown.extend_from_slice(shade.code().as_bytes())?;
            shown.extend_from_slice(line)?;
            shown.extend_from_slice(shade.end().as_bytes())
        }
        None => shown.extend_from_slice(line),
    }
}
