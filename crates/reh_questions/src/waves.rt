// Rounds of bookies that may be stopped together, and what the next losses cost, judged from files.
ghost use Rattle.std.specs.Prelude.{IfOk, OnOk};
ghost use Rattle.reh_questions.specs.Endings.{EndsRisk, EndsWaves};
ghost use Rattle.reh_questions.specs.Inputs.{AreGathered, SaysRisk, SaysWaves, TellsRounds};

use crate::inputs::{GatheredFiles, gather_files, unfit};
use crate::noted::{Noted, with_notes, write_noted};
use reh_files::{Looks, Progress, RunFault, Teller};
use reh_stop::{AskedRisk, AskedWaves, RoundFault, answer_risk, answer_waves};
use reh_words::{RiskWords, WaveWords};
use std::alloc::Global;
use std::sync::Wait;
use std::thread;

/// Says to standard output in which rounds the bookies may be stopped.
pub fn waves_over<R: thread::Threads + Wait + Sync + Copy + Send + 'static>(
    rt: &HostRuntime,
    threads: &R,
    looks: Looks,
    words: &WaveWords<'_>,
) -> Result<(), RunFault>
    ensures { OnOk result (EndsWaves words.now) }
{
    let teller = Teller::begin(rt, threads, looks, words.inputs.files.len());
    let noted = waves_of(rt, threads, words, &teller.progress);
    teller.end(threads);
    let noted = noted?;
    write_noted(rt, looks, &noted)?;
    Ok(())
}

/// What is said of rounds, by all files.
fn waves_of<R: thread::Threads + Wait + Sync>(
    rt: &HostRuntime,
    threads: &R,
    words: &WaveWords<'_>,
    progress: &Progress,
) -> Result<Noted, RunFault>
    ensures { IfOk result (λ noted. SaysWaves words.now noted) }
{
    let files = gather_files(rt, threads, &words.inputs, progress)?;
    let noted = waves_by(rt.alloc(), words, &files)?;
    Ok(noted)
}

/// What is said of rounds, by what these files show.
fn waves_by(alloc: Global, words: &WaveWords<'_>, files: &GatheredFiles) -> Result<Noted, RunFault>
    requires { AreGathered words.now.inputs files.now }
    ensures { IfOk result (SaysWaves words.now) }
{
    let asked = AskedWaves {
        question: words.question,
        by_rack: words.by_rack,
        as_json: words.as_json,
    };
    match answer_waves(alloc, &files.gathered, &asked) {
        Ok(text) => {
            let noted = with_notes(alloc, text, &words.inputs.files, &files.kinds)?;
            Ok(noted)
        }
        Err(fault) => Err(fault_of(alloc, fault)),
    }
}

/// Says to standard output what the loss of each bookie and each rack would cost.
pub fn risk_over<R: thread::Threads + Wait + Sync + Copy + Send + 'static>(
    rt: &HostRuntime,
    threads: &R,
    looks: Looks,
    words: &RiskWords<'_>,
) -> Result<(), RunFault>
    ensures { OnOk result (EndsRisk words.now) }
{
    let teller = Teller::begin(rt, threads, looks, words.inputs.files.len());
    let noted = risk_of(rt, threads, words, &teller.progress);
    teller.end(threads);
    let noted = noted?;
    write_noted(rt, looks, &noted)?;
    Ok(())
}

/// What is said of the next losses, by all files.
fn risk_of<R: thread::Threads + Wait + Sync>(
    rt: &HostRuntime,
    threads: &R,
    words: &RiskWords<'_>,
    progress: &Progress,
) -> Result<Noted, RunFault>
    ensures { IfOk result (λ noted. SaysRisk words.now noted) }
{
    let files = gather_files(rt, threads, &words.inputs, progress)?;
    let noted = risk_by(rt.alloc(), words, &files)?;
    Ok(noted)
}

/// What is said of the next losses, by what these files show.
fn risk_by(alloc: Global, words: &RiskWords<'_>, files: &GatheredFiles) -> Result<Noted, RunFault>
    requires { AreGathered words.now.inputs files.now }
    ensures { IfOk result (SaysRisk words.now) }
{
    let asked = AskedRisk {
        question: words.question,
        with_pairs: words.with_pairs,
        as_json: words.as_json,
    };
    match answer_risk(alloc, &files.gathered, &asked) {
        Ok(text) => {
            let noted = with_notes(alloc, text, &words.inputs.files, &files.kinds)?;
            Ok(noted)
        }
        Err(fault) => Err(fault_of(alloc, fault)),
    }
}

/// The fault of a run that answers nothing.
fn fault_of(alloc: Global, fault: RoundFault) -> RunFault
    ensures { TellsRounds fault result }
{
    match fault {
        RoundFault::Unprintable => {
            unfit(format!(in alloc; "a name has a byte that can't be printed"))
        }
        RoundFault::NoMemory => RunFault::NoMemory,
    }
}
