// What plans for the ledgers of an inventory come to, from its file.
ghost use Rattle.std.specs.Prelude.{◌≡◌, map, IfOk, None, Option, Some};
ghost use Rattle.rehearse.specs.InventoryPlans as model;

use crate::outs::write_whole;
use reh_census_file::{MAX_NAMES, NameList};
use reh_cut::Assume;
use reh_files::{RunFault, unwritten};
use reh_inventory_plan::{
    Asked, InventoryPlan, Outcome, PlannedLedger, plan_lines, plans_json, plans_text,
};
use reh_inventory_read::names_in;
use reh_questions::{from_start, named_again, reader_of, uncounted_file, unfit, unknown_among};
use reh_words::PlanWords;
use std::alloc::{AllocError, Global};
use std::fs::File;
use std::{fs, thread};

/// An inventory's file, or its bytes, where they can be read only once.
#[derive(Drop)]
pub(crate) enum InventoryInput {
    File(File),
    Bytes(Vec<u8>),
}

/// What plans for the ledgers of an inventory come to.
pub(crate) fn plan_inventory<T: thread::Threads + Sync>(
    threads: &T,
    alloc: Global,
    words: &PlanWords<'_>,
    input: InventoryInput,
) -> Result<InventoryPlan, RunFault>
    ensures { IfOk result (model.ArePlans words.now) }
{
    if !words.only_sums && !words.as_json && words.output.is_none() {
        return Err(scriptless(alloc, words.picture));
    }
    let plan = match input {
        InventoryInput::File(file) => plan_of_file(threads, alloc, words, file),
        InventoryInput::Bytes(bytes) => plan_of_bytes(threads, alloc, words, &bytes),
    }?;
    if plan.is_whole {
        Ok(plan)
    } else {
        Err(cut_off(alloc, words.picture, plan.ledgers))
    }
}

/// The same of a file that is at its beginning. Its lines are read twice: first the names of all bookies.
fn plan_of_file<T: thread::Threads + Sync>(
    threads: &T,
    alloc: Global,
    words: &PlanWords<'_>,
    file: File,
) -> Result<InventoryPlan, RunFault>
    ensures { IfOk result (model.AreRead words.now) }
{
    let path = words.picture;
    let workers = words.crew.workers;
    let mut reader = reader_of(alloc, path, file)?;
    let names = match names_in(threads, alloc, workers, &mut reader) {
        Ok(names) => names,
        Err(fault) => return Err(uncounted_file(alloc, path, fault)),
    };
    let asked = asked_of(alloc, words, &names)?;
    let mut reader = from_start(alloc, path, reader)?;
    match plan_lines(threads, alloc, workers, &mut reader, asked) {
        Ok(plan) => Ok(plan),
        Err(fault) => Err(uncounted_file(alloc, path, fault)),
    }
}

/// The same of these bytes.
fn plan_of_bytes<T: thread::Threads + Sync>(
    threads: &T,
    alloc: Global,
    words: &PlanWords<'_>,
    bytes: &[u8],
) -> Result<InventoryPlan, RunFault>
    ensures { IfOk result (model.AreRead words.now) }
{
    let path = words.picture;
    let workers = words.crew.workers;
    let (mut first, mut again) = (bytes, bytes);
    let names = match names_in(threads, alloc, workers, &mut first) {
        Ok(names) => names,
        Err(fault) => return Err(uncounted_file(alloc, path, fault)),
    };
    let asked = asked_of(alloc, words, &names)?;
    match plan_lines(threads, alloc, workers, &mut again, asked) {
        Ok(plan) => Ok(plan),
        Err(fault) => Err(uncounted_file(alloc, path, fault)),
    }
}

/// What the words ask of an inventory whose bookies have these names.
fn asked_of(alloc: Global, words: &PlanWords<'_>, names: &NameList) -> Result<Asked, RunFault>
    ensures { IfOk result (model.IsAskedBy words.now) }
{
    Ok(Asked {
        lost: named(alloc, words.picture, names, &words.lost)?,
        allowed: named(alloc, words.picture, names, &words.allowed)?,
        min_racks: words.min_racks,
        assume: assumed(words),
        writers_roll: words.writers_roll,
        keeps_files: words.output.is_some(),
    })
}

/// What stands for what nobody tells.
fn assumed(words: &PlanWords<'_>) -> Assume
    ensures { result ≡ model.assume_by words.now.assume_held words.now.assume_empty }
{
    if words.assume_held {
        Assume::Held
    } else if words.assume_empty {
        Assume::Empty
    } else {
        Assume::Nothing
    }
}

/// The names that these words are, each of a bookie of an inventory, and none twice.
fn named(alloc: Global, path: &str, names: &NameList, words: &[&str]) -> Result<NameList, RunFault>
    ensures { IfOk result (λ list. list ≡ map (λ word. word.now) words.now) }
{
    let mut list = NameList::new(alloc);
    for word in words {
        if names.find(word.as_bytes()).is_none() {
            return Err(unnamed(alloc, path, names, word));
        }
        if list.len() >= MAX_NAMES || !list.add(word)? {
            return Err(named_again(alloc, word));
        }
    }
    Ok(list)
}

/// That no bookie of an inventory has that name, and what is near.
fn unnamed(alloc: Global, path: &str, names: &NameList, word: &str) -> RunFault {
    match texts_of(alloc, names) {
        Ok(known) => unknown_among(alloc, path, &known, word),
        Err(want) => RunFault::from(want),
    }
}

/// The texts of these names.
fn texts_of<'a>(alloc: Global, names: &'a NameList) -> Result<Vec<&'a str>, AllocError> {
    let mut texts = Vec::new(alloc);
    for number in 0..names.len() as u16 {
        if let Some(name) = names.name(number) {
            texts.push(name)?;
        }
    }
    Ok(texts)
}

/// That there is no one script of an inventory.
fn scriptless(alloc: Global, path: &str) -> RunFault {
    unfit(format!(in alloc;
        "{path} is an inventory: --summary says what plans for its ledgers come to, --output FOLDER writes them; cut --ledgers ID,.. makes a picture of some"
    ))
}

/// That the last line isn't there.
fn cut_off(alloc: Global, path: &str, ledgers: u64) -> RunFault {
    unfit(format!(in alloc;
        "inventory {path}: expected a last line, after the lines of {ledgers} ledgers: the file was cut"
    ))
}

/// What is printed of the plans: text, or JSON.
pub(crate) fn plans_said(
    alloc: Global,
    words: &PlanWords<'_>,
    plan: &InventoryPlan,
) -> Result<Vec<u8>, RunFault>
    ensures { IfOk result (λ text. text.items ≡ model.plans_printed words.now.as_json plan.now) }
{
    let text = if words.as_json {
        plans_json(alloc, plan)?
    } else {
        plans_text(alloc, plan)?
    };
    Ok(text.into_bytes())
}

/// Writes the picture of each ledger that has a plan, and its script, to files of a new folder.
pub(crate) fn write_files(
    rt: &HostRuntime,
    folder: &str,
    plan: &InventoryPlan,
) -> Result<(), RunFault> {
    if let Err(error) = fs::create_dir(rt, folder) {
        return Err(unwritten(rt.alloc(), folder, error));
    }
    for outcome in &plan.outcomes {
        if let Outcome::Planned(planned) = outcome {
            write_planned(rt, folder, planned)?;
        }
    }
    Ok(())
}

/// Writes the picture of a ledger that has a plan, and its script, if they are kept.
fn write_planned(rt: &HostRuntime, folder: &str, planned: &PlannedLedger) -> Result<(), RunFault> {
    let Some(files) = &planned.files else {
        return Ok(());
    };
    let id = planned.ledger;
    let picture = format!(in rt.alloc(); "{folder}/ledger-{id}.json")?;
    let script = format!(in rt.alloc(); "{folder}/ledger-{id}.script")?;
    write_whole(rt, picture.as_str(), files.picture.as_bytes())?;
    write_whole(rt, script.as_str(), &files.script)
}
