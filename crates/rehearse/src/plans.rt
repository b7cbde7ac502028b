// What is to be done without some bookies, planned from the file of a picture.
ghost use Rattle.std.specs.Prelude.{◌≡◌, ℕ, nat_lt, IfOk};
ghost use Rattle.reh_types.specs.declared.limits.TheConstants.{MAX_BOOKIES};
ghost use Rattle.reh_types.specs.Sets as set;
ghost use Rattle.reh_plan.specs.Named.{AreNamed};
ghost use Rattle.rehearse.specs.Plans as model;

use crate::inventory_plans::{InventoryInput, plan_inventory, plans_said, write_files};
use reh_cluster::{Names, State};
use reh_files::{InputBytes, Looks, Progress, RunFault, Teller, read_input_file, write_out};
use reh_inventory_plan::{InventoryPlan, Tails, add_unclosed, racks_of, read_only_of, tails_of};
use reh_picture::list_picture;
use reh_plan::{
    PlanFault, Planned, Racks, find_bookies, first_unknown, plan, plan_json, plan_summary, runbook,
};
use reh_questions::{named_twice, state_in, text_after, unfit, unknown};
use reh_types::{BookieIx, BookieSet, LedgerId, MAX_BOOKIES};
use reh_words::PlanWords;
use std::alloc::Global;
use std::sync::Wait;
use std::thread;

/// What notes say of ledgers that a plan closes.
const CLOSED_EMPTY: &str =
    "closed with an empty last fragment, by what is told of the members that are left";

const CLOSED_SHORT: &str = "closed before an entry that some bookie holds";

/// What was planned: for a picture, with its ledgers that weren't closed before; or for the ledgers of an inventory.
#[derive(Drop)]
enum Plans {
    Picture(Planned, Vec<LedgerId>),
    Inventory(InventoryPlan),
}

/// Writes the plan to standard output, as a script or a runbook, or what it comes to, as text or JSON; and gives the status. Of
/// an inventory it writes what plans for its ledgers come to.
pub(crate) fn plan_file<R: thread::Threads + Wait + Sync + Copy + Send + 'static>(
    rt: &HostRuntime,
    threads: &R,
    looks: Looks,
    words: &PlanWords<'_>,
) -> Result<u8, RunFault>
    ensures { IfOk result (model.IsStatus words.now) }
{
    let teller = Teller::begin(rt, threads, looks, files_of(words));
    let planned = planned_by(rt, threads, words, &teller.progress);
    teller.end(threads);
    let planned = planned?;
    write_plans(rt, looks, words, &planned)
}

/// Writes what was planned, and gives the status.
fn write_plans(
    rt: &HostRuntime,
    looks: Looks,
    words: &PlanWords<'_>,
    planned: &Plans,
) -> Result<u8, RunFault>
    ensures { IfOk result (λ status. status ≡ model.status_of_plans planned.now) }
{
    match planned {
        Plans::Picture(planned, open) => {
            say_tails(rt, looks, open, planned)?;
            write_plan(rt, words, planned)
        }
        Plans::Inventory(plan) => write_inventory(rt, words, plan),
    }
}

/// Writes what plans for the ledgers of an inventory come to, and gives the status.
fn write_inventory(
    rt: &HostRuntime,
    words: &PlanWords<'_>,
    plan: &InventoryPlan,
) -> Result<u8, RunFault>
    ensures { IfOk result (λ status. status ≡ model.status_of_inventory plan.now) }
{
    if let Some(folder) = words.output {
        write_files(rt, folder, plan)?;
    }
    let text = plans_said(rt.alloc(), words, plan)?;
    write_out(rt, &text)?;
    Ok(plan.status())
}

/// How many files are read.
fn files_of(words: &PlanWords<'_>) -> usize {
    if words.after.is_some() { 2 } else { 1 }
}

/// What is asked for: the plan for a picture, or those for the ledgers of an inventory.
fn planned_by<R: thread::Threads + Sync>(
    rt: &HostRuntime,
    threads: &R,
    words: &PlanWords<'_>,
    progress: &Progress,
) -> Result<Plans, RunFault>
    ensures { IfOk result (model.ArePlanned words.now) }
{
    let alloc = rt.alloc();
    match input_bytes(rt, words, progress)? {
        InputBytes::Whole(bytes) => plan_picture(alloc, &bytes, words),
        InputBytes::Inventory(file) => {
            plans_of(threads, alloc, words, InventoryInput::File(file))
        }
        InputBytes::Stream(bytes) => {
            plans_of(threads, alloc, words, InventoryInput::Bytes(bytes))
        }
    }
}

/// The plans for the ledgers of an inventory.
fn plans_of<R: thread::Threads + Sync>(
    threads: &R,
    alloc: Global,
    words: &PlanWords<'_>,
    input: InventoryInput,
) -> Result<Plans, RunFault>
    ensures { IfOk result (model.ArePlanned words.now) }
{
    let plan = plan_inventory(threads, alloc, words, input)?;
    Ok(Plans::Inventory(plan))
}

/// The plan for the picture of these bytes, with its ledgers that weren't closed before.
fn plan_picture(alloc: Global, bytes: &[u8], words: &PlanWords<'_>) -> Result<Plans, RunFault>
    requires { model.IsPictureFor words.now bytes.now }
    ensures { IfOk result (model.ArePlanned words.now) }
{
    if words.output.is_some() || words.assume_held || words.assume_empty {
        return Err(no_inventory(alloc, words.picture));
    }
    let mut open = Vec::new(alloc);
    let planned = plan_of(alloc, bytes, words, &mut open)?;
    Ok(Plans::Picture(planned, open))
}

/// That a file is no inventory, though what is asked is for one.
fn no_inventory(alloc: Global, path: &str) -> RunFault {
    unfit(format!(in alloc;
        "{path} is no inventory: --output, --assume-held and --assume-empty are for one"
    ))
}

/// Says on standard error how many of these ledgers a plan closes so that entries may be missing, unless faults alone are to
/// be said.
fn say_tails(
    rt: &HostRuntime,
    looks: Looks,
    open: &[LedgerId],
    planned: &Planned,
) -> Result<(), RunFault> {
    if looks.is_quiet {
        return Ok(());
    }
    let Tails { empty, short } = tails_of(rt.alloc(), planned.plan.state(), open)?;
    say_closed(rt, CLOSED_EMPTY, &empty);
    say_closed(rt, CLOSED_SHORT, &short);
    Ok(())
}

/// Says how many ledgers these are, if there are any, and names the first.
fn say_closed(rt: &HostRuntime, what: &str, ledgers: &[LedgerId]) {
    if let Some(first) = ledgers.first() {
        let first = first.0;
        let count = ledgers.len();
        let _ = eprintln!(rt; "note: {what}: {count}, such as ledger {first}");
    }
}

/// Writes a plan as it is asked for, and gives the status.
fn write_plan(rt: &HostRuntime, words: &PlanWords<'_>, planned: &Planned) -> Result<u8, RunFault>
    ensures { IfOk result (λ status. status ≡ model.status_of planned.now) }
{
    let text = printed(rt.alloc(), planned, words)?;
    write_out(rt, &text)?;
    Ok(planned.summary.status())
}

/// What is printed of the plan.
fn printed(alloc: Global, planned: &Planned, words: &PlanWords<'_>) -> Result<Vec<u8>, RunFault>
    ensures { IfOk result (λ text.
        model.PrintsPlan words.now.as_json words.now.only_sums words.now.expects planned.now text.items) }
{
    if words.as_json {
        let text = plan_json(alloc, planned)?;
        return Ok(text.into_bytes());
    }
    if words.only_sums {
        let text = plan_summary(alloc, planned)?;
        return Ok(text.into_bytes());
    }
    if words.expects {
        return runbook(alloc, planned).map_err(|fault| unplanned(alloc, fault));
    }
    Ok(Vec::from_slice(alloc, planned.plan.text())?)
}

/// The bytes of the picture, or of the picture of the state to which a script leads from it; or an inventory.
fn input_bytes(
    rt: &HostRuntime,
    words: &PlanWords<'_>,
    progress: &Progress,
) -> Result<InputBytes, RunFault>
    ensures { IfOk result (model.IsInputFor words.now) }
{
    match words.after {
        None => {
            let input = read_input_file(rt, words.picture)?;
            progress.count();
            Ok(input)
        }
        Some(script) => {
            let text = text_after(rt, words.picture, script, false)?;
            progress.count();
            progress.count();
            Ok(InputBytes::Whole(text.into_bytes()))
        }
    }
}

/// The plan for the picture of these bytes; and to `open` it adds the picture's ledgers that aren't closed.
fn plan_of(
    alloc: Global,
    bytes: &[u8],
    words: &PlanWords<'_>,
    open: &mut Vec<LedgerId>,
) -> Result<Planned, RunFault>
    ensures { IfOk result (model.IsPlanFor bytes.now words.now) }
{
    let state = state_in(alloc, words.picture, bytes)?;
    add_unclosed(open, &state)?;
    match asked_of(alloc, bytes, state.names(), words) {
        Ok(asked) => plan_by(alloc, state, &asked),
        Err(fault) => Err(fault),
    }
}

/// Which bookies are lost, who may work, who is read-only, in which racks bookies stand, and whether writers change their
/// ensembles.
#[derive(Drop)]
struct Asked {
    lost: BookieSet,
    allowed: BookieSet,
    read_only: BookieSet,
    racks: Racks,
    writers_roll: bool,
}

/// What is asked of the picture of these bytes, whose bookies have these names.
fn asked_of(
    alloc: Global,
    bytes: &[u8],
    names: &Names,
    words: &PlanWords<'_>,
) -> Result<Asked, RunFault>
    ensures { IfOk result (model.IsAsked bytes.now names.now words.now) }
{
    let marks = list_picture(alloc, bytes)?.marks;
    let read_only = read_only_of(alloc, &marks)?;
    let racks = racks_of(alloc, &marks, words.min_racks)?;
    Ok(Asked {
        lost: bookies_of(alloc, words.picture, names, &words.lost)?,
        allowed: allowed_of(alloc, words.picture, names, &words.allowed)?,
        read_only,
        racks,
        writers_roll: words.writers_roll,
    })
}

/// The plan that is asked for.
fn plan_by(alloc: Global, state: State, asked: &Asked) -> Result<Planned, RunFault>
    ensures { IfOk result (model.IsPlan state asked.now) }
{
    let Asked {
        lost,
        allowed,
        read_only,
        racks,
        writers_roll,
    } = asked;
    match plan(alloc, state, lost, allowed, read_only, racks, *writers_roll) {
        Ok(planned) => Ok(planned),
        Err(fault) => Err(unplanned(alloc, fault)),
    }
}

/// The fault of a run that has no plan.
fn unplanned(alloc: Global, fault: PlanFault) -> RunFault
    ensures { model.TellsUnplanned fault result }
{
    match fault {
        PlanFault::NoMemory => RunFault::NoMemory,
        PlanFault::NoRoom | PlanFault::Unfinished => unfit(format!(in alloc; "{fault}")),
    }
}

/// The bookies of a picture that may work: those that these words name, or all, where there are no words.
fn allowed_of(
    alloc: Global,
    picture: &str,
    names: &Names,
    words: &[&str],
) -> Result<BookieSet, RunFault>
    ensures { IfOk result (model.AreAllowed names.now words.now) }
{
    match words {
        [] => Ok(all_bookies()),
        _ => bookies_of(alloc, picture, names, words),
    }
}

/// The bookies of a picture that these words name.
fn bookies_of(
    alloc: Global,
    picture: &str,
    names: &Names,
    words: &[&str],
) -> Result<BookieSet, RunFault>
    ensures { IfOk result (AreNamed names.now words.now) }
{
    if let Some(number) = first_unknown(names, words) {
        return Err(unknown(alloc, picture, names, words, number));
    }
    match find_bookies(names, words) {
        Ok(bookies) => Ok(bookies),
        Err(again) => Err(named_twice(alloc, words, again.word)),
    }
}

/// The set of all bookies that there can be.
fn all_bookies() -> BookieSet
    ensures { (b : ℕ) → set.contains result b ≡ nat_lt b MAX_BOOKIES }
{
    let mut set = BookieSet::new();
    for number in 0..MAX_BOOKIES as u8 {
        set.insert(BookieIx(number));
    }
    set
}
