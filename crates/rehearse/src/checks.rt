// A picture, an inventory or a script that is checked, and nothing played.
ghost use Rattle.std.specs.Prelude.{◌≡◌, ◌≤◌, ◌++◌, IfOk, List, length, string_bytes, ℕ};
ghost use Rattle.reh_types.specs.declared.limits.TheConstants.{MAX_SCRIPT_BYTES};
ghost use Rattle.rehearse.specs.Checks as model;

use reh_check_json::{CheckedScript, picture_json, script_json};
use reh_cluster::State;
use reh_files::{
    INVENTORY_BEGINS, PICTURE_BYTES, RunFault, open_file, read_on, read_picture, read_script,
    write_out,
};
use reh_lint::{Linted, lint};
use reh_picture::{Counts, check_picture};
use reh_questions::{check_inventory, no_picture, state_in};
use reh_types::MAX_SCRIPT_BYTES;
use std::alloc::{AllocError, Global};

/// The status where lines of a script are faulty, as where a picture is refused.
const FAULTY: u8 = 3;

/// Checks the script in a file on the picture in another, says to standard output which lines are faulty and which name a
/// ledger that the picture doesn't have, and gives the status.
pub(crate) fn check_script(
    rt: &HostRuntime,
    picture: &str,
    path: &str,
    as_json: bool,
) -> Result<u8, RunFault>
    ensures { IfOk result model.IsChecked }
{
    let bytes = read_picture(rt, picture)?;
    let state = state_in(rt.alloc(), picture, &bytes)?;
    let status = check_lines(rt, &state, path, as_json)?;
    Ok(status)
}

/// The same, on the picture of this state.
fn check_lines(rt: &HostRuntime, state: &State, path: &str, as_json: bool) -> Result<u8, RunFault>
    ensures { IfOk result (λ status. (script : List ℕ) × (status ≡ model.check_status state.now.names script)) }
{
    let script = read_script(rt, path)?;
    let status = say_checked(rt, state, path, &script, as_json)?;
    Ok(status)
}

/// The same of this script, which stands in that file. One that is too long has no status, but what is found is said first.
fn say_checked(
    rt: &HostRuntime,
    state: &State,
    path: &str,
    script: &[u8],
    as_json: bool,
) -> Result<u8, RunFault>
    ensures status { IfOk result (λ status. status ≡ model.check_status state.now.names script.now) }
    ensures few { IfOk result (λ status. length script.now ≤ MAX_SCRIPT_BYTES) }
{
    let checked = checked_script(rt.alloc(), state, path, script, as_json)?;
    write_out(rt, checked.text.as_bytes())?;
    if script.len() > MAX_SCRIPT_BYTES {
        return Err(RunFault::TooLong);
    }
    Ok(status_by(checked.faulty))
}

/// The status, where so many lines are faulty.
fn status_by(faulty: usize) -> u8
    ensures { result ≡ model.status_by faulty }
{
    if faulty == 0 { 0 } else { FAULTY }
}

/// What is found in the script of a file, on a picture that shows this state, as text or as JSON.
fn checked_script(
    alloc: Global,
    state: &State,
    path: &str,
    script: &[u8],
    as_json: bool,
) -> Result<CheckedScript, AllocError>
    ensures { IfOk result (model.SaysOfScript as_json state.now path.now script.now) }
{
    if as_json {
        return script_json(alloc, &Counts::of(state), state, script);
    }
    let Linted {
        text,
        commands,
        faulty,
    } = lint(alloc, state, path, script)?;
    summed(text, commands, faulty)
}

/// What was found, with a last line that says how many commands there are, and how many lines are faulty.
fn summed(mut text: String, commands: usize, faulty: usize) -> Result<CheckedScript, AllocError>
    ensures text { IfOk result (λ checked. string_bytes checked.text
        ≡ string_bytes text ++ model.sum_text commands faulty) }
    ensures faulty { IfOk result (λ checked. checked.faulty ≡ faulty) }
{
    write!(text, "commands {commands} faulty {faulty}\n")?;
    Ok(CheckedScript { text, faulty })
}

/// Checks the picture or the inventory in a file, and says to standard output how much there is in it. It is an inventory
/// if it begins as one.
pub(crate) fn check_file(rt: &HostRuntime, path: &str, as_json: bool) -> Result<(), RunFault> {
    let begins = INVENTORY_BEGINS.as_bytes();
    let mut bytes = Vec::new(rt.alloc());
    let file = read_on(
        rt,
        path,
        open_file(rt, path)?,
        begins.len() as u64,
        &mut bytes,
    )?;
    let text = if bytes.as_slice() == begins {
        check_inventory(rt, path, file, bytes, as_json)?
    } else {
        read_on(rt, path, file, PICTURE_BYTES, &mut bytes)?;
        checked_picture(rt.alloc(), path, &bytes, as_json)?
    };
    write_out(rt, text.as_bytes())
}

/// How much there is in the picture of these bytes, as text or as JSON.
fn checked_picture(
    alloc: Global,
    path: &str,
    bytes: &[u8],
    as_json: bool,
) -> Result<String, RunFault>
    ensures { IfOk result (model.SaysOfPicture as_json bytes.now) }
{
    match check_picture(alloc, bytes) {
        Ok(state) => {
            let text = picture_said(alloc, &state, as_json)?;
            Ok(text)
        }
        Err(located) => Err(no_picture(alloc, path, bytes, located)),
    }
}

/// How much there is in a picture that shows this state.
fn picture_said(alloc: Global, state: &State, as_json: bool) -> Result<String, AllocError>
    ensures { IfOk result (λ text. string_bytes text ≡ model.picture_text as_json state.now) }
{
    let counts = Counts::of(state);
    if as_json {
        return picture_json(alloc, &counts);
    }
    format!(in alloc; "ok\n{counts}\n")
}
