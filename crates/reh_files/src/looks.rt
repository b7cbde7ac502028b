// How the program shows what it says: in colour or not, and with more than faults on standard error or not.
ghost use Rattle.std.specs.Prelude.{◌≡◌, false, IfErr};
ghost use Rattle.reh_files.specs.Colors as model;

use crate::faults::RunFault;
use crate::files::write_out;
use reh_colors::{Color, Shade, colored};
use reh_words::{Prints, Style};
use std::env;
use std::env::VarError;
use std::io::IsTerminal;

/// How the program shows what it says.
#[derive(Clone, Copy)]
pub struct Looks {
    /// Standard error has nothing but faults.
    pub is_quiet: bool,
    /// Answers on standard output have colours.
    pub colors_answers: bool,
    /// Faults on standard error do.
    colors_faults: bool,
}

impl Looks {
    /// Of a program whose words weren't read.
    pub fn plain() -> Looks
        ensures { result ≡ record { is_quiet = false; colors_answers = false; colors_faults = false } }
    {
        Looks {
            is_quiet: false,
            colors_answers: false,
            colors_faults: false,
        }
    }

    /// As it is asked for.
    pub fn of(rt: &HostRuntime, style: Style) -> Looks
        ensures quiet { result.is_quiet ≡ style.quiet }
        ensures answers { model.MayShow style.color result.colors_answers }
        ensures faults { model.MayShow style.color result.colors_faults }
    {
        Looks {
            is_quiet: style.quiet,
            colors_answers: is_colored(rt, style.color, rt.stdout().is_terminal()),
            colors_faults: is_colored(rt, style.color, rt.stderr().is_terminal()),
        }
    }

    /// Whether what is printed of each line has colours. JSON has none.
    pub fn colors(self, prints: Prints) -> bool
        ensures { result ≡ model.has_colors self.colors_answers prints }
    {
        match prints {
            Prints::Answers | Prints::Changes => self.colors_answers,
            Prints::Json => false,
        }
    }
}

/// Whether colours are shown where it is a terminal or not. The environment is asked for a terminal alone.
fn is_colored(rt: &HostRuntime, color: Color, is_terminal: bool) -> bool
    ensures { model.MayShow color result }
{
    let is_unwanted = is_terminal && (is_set(rt, "NO_COLOR") || is_dumb(rt));
    color.is_shown(is_terminal, is_unwanted)
}

/// Whether a variable of the environment is set, and not empty. One that can't be read counts as set.
fn is_set(rt: &HostRuntime, name: &str) -> bool {
    match env::var(rt, name) {
        Ok(text) => !text.is_empty(),
        Err(VarError::NotPresent) => false,
        Err(_) => true,
    }
}

/// Whether the terminal is said to know no codes.
fn is_dumb(rt: &HostRuntime) -> bool {
    match env::var(rt, "TERM") {
        Ok(text) => text.as_bytes() == "dumb".as_bytes(),
        Err(_) => false,
    }
}

/// Writes an answer to standard output, in colour where that is shown. Where there is no memory for colours, it has none.
pub fn show_answer(rt: &HostRuntime, looks: Looks, answer: &[u8]) -> Result<(), RunFault>
    ensures { IfErr result (λ fault. fault ≡ RunFault.WriteFault) }
{
    if looks.colors_answers
        && let Ok(shown) = colored(rt.alloc(), answer)
    {
        return write_out(rt, &shown);
    }
    write_out(rt, answer)
}

/// Says a fault on standard error, in red where colours are shown.
pub fn say_fault(rt: &HostRuntime, looks: Looks, fault: &RunFault) {
    if looks.colors_faults {
        let (code, end) = (Shade::Red.code(), Shade::Red.end());
        let _ = eprintln!(rt; "{code}{fault}{end}");
    } else {
        let _ = eprintln!(rt; "{fault}");
    }
}
