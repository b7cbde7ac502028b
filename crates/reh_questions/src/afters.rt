// The picture of the state to which a script leads, for a question that is asked of that state.
ghost use Rattle.std.specs.Prelude.{◌≡◌, IfOk, string_bytes};
ghost use Rattle.reh_questions.specs.Afters.{TellsUnplayed, unaccepted_text};
ghost use Rattle.reh_questions.specs.Inputs as model;

use crate::inputs::{refused, unfit};
use crate::mistaken::explained;
use reh_after::{AfterFault, Unaccepted, picture_after};
use reh_files::{RunFault, read_picture, read_script};
use std::alloc::{AllocError, Global};

/// The text of the picture of the state to which the script in a file leads from the picture in another. For a question it
/// has to be known there of each bookie what it holds.
pub fn text_after(
    rt: &HostRuntime,
    picture: &str,
    script: &str,
    all_known: bool,
) -> Result<String, RunFault>
    ensures { IfOk result (λ text. model.IsAfterSome all_known (string_bytes text)) }
{
    let alloc = rt.alloc();
    let bytes = read_picture(rt, picture)?;
    let commands = read_script(rt, script)?;
    match picture_after(alloc, &bytes, &commands, all_known) {
        Ok(text) => Ok(text),
        Err(fault) => {
            let fault = unplayed(alloc, picture, script, fault);
            Err(explained(alloc, picture, &bytes, fault))
        }
    }
}

/// Why there is no state that can be asked of.
fn unplayed(alloc: Global, picture: &str, script: &str, fault: AfterFault) -> RunFault
    ensures { TellsUnplayed picture.now script.now fault result }
{
    match fault {
        AfterFault::Picture(located) => match refused(alloc, picture, located) {
            Ok(fault) => fault,
            Err(want) => RunFault::from(want),
        },
        AfterFault::TooLong => RunFault::TooLong,
        AfterFault::Unaccepted(first) => unfit(unaccepted_text(alloc, script, &first)),
        AfterFault::Doubt(doubt) => unfit(format!(in alloc;
            "{picture}: {doubt}: nothing is asked after {script}"
        )),
        AfterFault::Unheld(fault) => unfit(format!(in alloc;
            "{script}: no picture holds the state at the end: {fault}"
        )),
        AfterFault::NoMemory => RunFault::NoMemory,
    }
}

/// That a command of a script isn't accepted.
fn unaccepted_text(alloc: Global, script: &str, first: &Unaccepted) -> Result<String, AllocError>
    ensures { IfOk result (λ text. string_bytes text ≡ unaccepted_text script.now first.now) }
{
    let Unaccepted { line, answer } = first;
    format!(in alloc;
        "{script}:{line}: {answer}: nothing is asked, as each command has to be accepted first"
    )
}
