// Whether bookies may be stopped, judged from files.
ghost use Rattle.std.specs.Prelude.{◌≡◌, IfOk, option_copied, option_map, string_bytes};
ghost use Rattle.reh_stop.specs.Stops.{IsJudged};
ghost use Rattle.reh_questions.specs.Against.{SaysOf};
ghost use Rattle.reh_questions.specs.Endings.{EndsStop};
ghost use Rattle.reh_questions.specs.Inputs.{AreGathered, SaysStop};
ghost use Rattle.reh_questions.specs.Names.{TellsOf};

use crate::against::{WeighedBy, has_against, lacks_rack, notes_of, weigh, weigh_files};
use crate::inputs::{GatheredFiles, gather_files};
use crate::names::{ambiguous, named_again, nobody, unknown_rack, unknown_to_all};
use reh_files::{Looks, Progress, RunFault, Teller, show_answer};
use reh_inputs::{Cluster, Gathered};
use reh_stop::{Asked, Said, StopFault, Verdict, judge_stop, say_weighed, stop_of};
use reh_words::{Inputs, StopWords};
use std::alloc::Global;
use std::sync::Wait;
use std::thread;

/// Says to standard output whether the bookies may be stopped, and gives the status.
pub fn stop_over<R: thread::Threads + Wait + Sync + Copy + Send + 'static>(
    rt: &HostRuntime,
    threads: &R,
    looks: Looks,
    stop: &StopWords<'_>,
) -> Result<u8, RunFault>
    ensures { IfOk result (EndsStop stop.now) }
{
    let teller = Teller::begin(rt, threads, looks, stop.inputs.files.len());
    let said = said_of(rt, threads, stop, &teller.progress);
    teller.end(threads);
    let said = said?;
    let status = show_said(rt, looks, &said)?;
    Ok(status)
}

/// Shows what is said of the stop, and gives the status.
fn show_said(rt: &HostRuntime, looks: Looks, said: &Said) -> Result<u8, RunFault>
    ensures { IfOk result (λ status. status ≡ said.now.status) }
{
    show_answer(rt, looks, said.text.as_bytes())?;
    Ok(said.status)
}

/// What is said of the stop, by all files.
fn said_of<R: thread::Threads + Wait + Sync>(
    rt: &HostRuntime,
    threads: &R,
    stop: &StopWords<'_>,
    progress: &Progress,
) -> Result<Said, RunFault>
    ensures { IfOk result (λ said. SaysStop stop.now said) }
{
    let files = gather_files(rt, threads, &stop.inputs, progress)?;
    let asked = Asked {
        bookies: &stop.bookies,
        racks: &stop.racks,
        question: stop.question,
        as_json: stop.as_json,
    };
    let said = say(rt, &stop.inputs, files, &asked)?;
    Ok(said)
}

/// Whether the bookies may be stopped, by what the files show together.
fn judged(alloc: Global, gathered: &Gathered, asked: &Asked<'_, '_>) -> Result<Verdict, RunFault>
    ensures { IfOk result (IsJudged gathered.now asked.now) }
{
    match judge_stop(alloc, gathered, asked) {
        Ok(verdict) => Ok(verdict),
        Err(fault) => Err(fault_of(alloc, &gathered.cluster, fault)),
    }
}

/// The time, if there is one.
fn time_of(taken: &Option<String>) -> Option<&str>
    ensures { option_copied result ≡ option_map string_bytes taken.now }
{
    match taken {
        Some(time) => Some(time.as_str()),
        None => None,
    }
}

/// What is said of the stop, by what the files show together.
fn say(
    rt: &HostRuntime,
    inputs: &Inputs<'_>,
    files: GatheredFiles,
    asked: &Asked<'_, '_>,
) -> Result<Said, RunFault>
    requires { AreGathered inputs.now files }
    ensures { IfOk result (SaysOf files inputs.now.files.items inputs.now.strict asked.now) }
{
    let verdict = judged(rt.alloc(), &files.gathered, asked)?;
    let said = say_judged(rt, inputs, files, asked, &verdict)?;
    Ok(said)
}

/// What is said of the stop, which was judged so.
fn say_judged(
    rt: &HostRuntime,
    inputs: &Inputs<'_>,
    files: GatheredFiles,
    asked: &Asked<'_, '_>,
    verdict: &Verdict,
) -> Result<Said, RunFault>
    requires gathered { AreGathered inputs.now files }
    requires judged { IsJudged files.gathered asked.now verdict.now }
    ensures { IfOk result (SaysOf files inputs.now.files.items inputs.now.strict asked.now) }
{
    let alloc = rt.alloc();
    let judged = files.gathered.census.judged();
    let GatheredFiles {
        gathered,
        ids: kept,
        kinds,
        taken,
    } = files;
    let Gathered {
        cluster,
        bookies,
        ids,
        ledgers,
        ..
    } = gathered;
    let unracked = lacks_rack(asked.racks, bookies.as_slice());
    let about = stop_of(&cluster, &bookies, asked, verdict);
    let mut worst = weigh(alloc, &ids, ledgers, &about)?;
    let by = WeighedBy {
        names: cluster.names(),
        is_strict: inputs.strict,
        stop: about,
    };
    let is_any = has_against(verdict.answer());
    weigh_files(rt, &inputs.files, is_any, &kinds, &kept, &by, &mut worst)?;
    let notes = notes_of(alloc, judged, unracked, is_any, &inputs.files, &kinds)?;
    let time = time_of(&taken);
    let said = say_weighed(alloc, asked, verdict, &about, &worst, time, &notes)?;
    Ok(said)
}

/// The fault of a run that answers nothing.
fn fault_of(alloc: Global, cluster: &Cluster, fault: StopFault<'_>) -> RunFault
    ensures { TellsOf fault.entry result }
{
    match fault {
        StopFault::Nobody => nobody(alloc),
        StopFault::Ambiguous(word) => ambiguous(alloc, word),
        StopFault::UnknownBookie(name) => unknown_to_all(alloc, cluster.names(), name),
        StopFault::Twice(name) => named_again(alloc, name),
        StopFault::UnknownRack(name) => unknown_rack(alloc, cluster, name),
        StopFault::NoMemory => RunFault::NoMemory,
    }
}
