// Rehearses events on a picture of a cluster, from standard input or from files, by one operator or several; checks a
// picture, an inventory or a script; judges which bookies may be stopped, in which rounds, and what the next loss costs;
// counts a census; cuts a picture out of an inventory; plans what is to be done without some bookies; or prints help.
#![tactic(auto)]

ghost use Rattle.std.specs.Prelude.{◌≡◌, false, IfOk};
ghost use Rattle.std.specs.Process.{exit_status};
ghost use Rattle.rehearse.specs.Endings.{Answers, EndsTask, done_well, end_status};

mod checks;
mod colors;
mod cuts;
mod endings;
mod helps;
mod inventory_plans;
mod outs;
mod plans;
mod prompts;
mod runs;

use checks::{check_file, check_script};
use clap::Error;
use colors::Colored;
use cuts::cut_over;
use endings::{after_flush, of_drill, of_pipe, want_of_memory};
use helps::help_on;
use outs::run_out;
use plans::plan_file;
use prompts::{Typed, tell_input};
use reh_crew::{OpenGate, Plain};
use reh_drill::drill_over;
use reh_files::{
    LateFile, Looks, RunFault, open_file, read_picture, read_scripts, say_fault, status_of,
};
use reh_questions::{census_over, end_on, picture_of, risk_over, stop_over, waves_over};
use reh_script::{FromRead, Gathered, TextOut, ToWrite, pipe};
use reh_words::{Crew, DrillFiles, PlayWords, Prints, Request, Task, request_of};
use runs::{run_by, tell_unbegun};
use std::process::ExitCode;
use std::sync::Wait;
use std::thread::Threads;
use std::{env, io};

fn main(rt: HostRuntime) -> ExitCode {
    let words = match words(&rt) {
        Ok(words) => words,
        Err(fault) => return end(&rt, Looks::plain(), Err(fault)),
    };
    match request_of(rt.alloc(), &words) {
        Ok(Some(request)) => perform(&rt, &rt, request),
        Ok(None) => {
            let _ = eprintln!(rt; "nothing is asked");
            ExitCode::from(2)
        }
        Err(error) => show(&rt, &error),
    }
}

/// Does what is asked, and says why where it can't be done.
fn perform<R: Threads + Wait + Sync + Copy + Send + 'static>(
    rt: &HostRuntime,
    threads: &R,
    request: Request<'_>,
) -> ExitCode
    ensures { EndsTask request.entry.task (exit_status result) }
{
    let Request { task, style } = request;
    let looks = Looks::of(rt, style);
    let picture = picture_of(&task);
    let run = answer(rt, threads, looks, task);
    end(rt, looks, end_on(rt, picture, run))
}

/// Does what is asked, and gives the status.
fn answer<R: Threads + Wait + Sync + Copy + Send + 'static>(
    rt: &HostRuntime,
    threads: &R,
    looks: Looks,
    task: Task<'_>,
) -> Result<u8, RunFault>
    ensures { IfOk result (Answers task.entry) }
{
    match task {
        Task::Play(input) => well(play(rt, threads, looks, input)),
        Task::PlayOut(words) => well(run_out(rt, threads, looks, &words)),
        Task::Check {
            picture,
            script: None,
            as_json,
        } => well(check_file(rt, picture, as_json)),
        Task::Check {
            picture,
            script: Some(script),
            as_json,
        } => check_script(rt, picture, script, as_json),
        Task::Drill(files) => well(drill(rt, threads, looks, files)),
        Task::Stop(stop) => stop_over(rt, threads, looks, &stop),
        Task::Waves(words) => well(waves_over(rt, threads, looks, &words)),
        Task::Risk(words) => well(risk_over(rt, threads, looks, &words)),
        Task::Census(words) => well(census_over(rt, threads, looks, &words)),
        Task::Cut(words) => well(cut_over(rt, threads, looks, &words)),
        Task::Plan(words) => plan_file(rt, threads, looks, &words),
        Task::Help(topic) => well(help_on(rt, &topic)),
    }
}

/// The status 0, where a run has no fault.
fn well(run: Result<(), RunFault>) -> Result<u8, RunFault>
    ensures { result ≡ done_well run }
{
    match run {
        Ok(()) => Ok(0),
        Err(fault) => Err(fault),
    }
}

/// The words of the command line. A word that is no text names no file.
fn words(rt: &HostRuntime) -> Result<Vec<String>, RunFault> {
    let words = env::args(rt)?;
    Ok(words.collect(rt.alloc())?)
}

/// Ends with the status of a run, and says its fault, if it has one.
fn end(rt: &HostRuntime, looks: Looks, run: Result<u8, RunFault>) -> ExitCode
    ensures { exit_status result ≡ end_status run }
{
    match run {
        Ok(status) => ExitCode::from(status),
        Err(fault) => {
            say_fault(rt, looks, &fault);
            ExitCode::from(status_of(&fault))
        }
    }
}

/// Shows help, or what is wrong with the command line.
fn show(rt: &HostRuntime, error: &Error) -> ExitCode {
    if let Err(fault) = want_of_memory(error) {
        return end(rt, Looks::plain(), Err(fault));
    }
    if error.print(rt).is_err() {
        return end(rt, Looks::plain(), Err(RunFault::WriteFault));
    }
    if error.use_stderr() {
        ExitCode::from(2)
    } else {
        ExitCode::SUCCESS
    }
}

/// Plays a script on a picture, to standard output. What was answered before a fault is written too.
fn play<R: Threads + Wait + Sync>(
    rt: &HostRuntime,
    threads: &R,
    looks: Looks,
    input: PlayWords<'_>,
) -> Result<(), RunFault> {
    let gathered = Gathered::new(rt.alloc(), ToWrite::new(io::writer(rt)))?;
    let prints = match input {
        PlayWords::Pipe => Prints::Answers,
        PlayWords::Talk { prints, .. } | PlayWords::Files { prints, .. } => prints,
    };
    let mut writer = Colored::new(rt.alloc(), gathered, looks.colors(prints));
    let played = match input {
        PlayWords::Pipe => {
            tell_input(rt, looks);
            let mut reader = FromRead::new(rt.reader());
            pipe(rt.alloc(), &Plain, &mut reader, &mut writer).map_err(of_pipe)
        }
        PlayWords::Talk { picture, .. } => {
            talk(rt, threads, looks, picture, prints, &mut writer)
        }
        PlayWords::Files {
            picture,
            script,
            crew,
            ..
        } => run_files(rt, threads, picture, script, crew, prints, &mut writer),
    };
    let flushed = writer.flush();
    after_flush(played, flushed)
}

/// Plays standard input on a picture file: what a read brings is answered before the next. Whoever types sees a prompt.
fn talk<R: Threads + Wait + Sync, W: TextOut>(
    rt: &HostRuntime,
    threads: &R,
    looks: Looks,
    picture: &str,
    prints: Prints,
    writer: &mut W,
) -> Result<(), RunFault>
    requires { W.has_failed writer.old ≡ false }
{
    let file = match open_file(rt, picture) {
        Ok(file) => file,
        Err(fault) => return Err(tell_unbegun(prints, fault.without_reason(), writer)),
    };
    let mut picture = FromRead::new(file);
    let mut script = Typed::new(rt, looks, FromRead::new(rt.reader()));
    let crew = Crew { workers: 1 };
    run_by(
        threads,
        rt.alloc(),
        crew,
        prints,
        &mut picture,
        &mut script,
        writer,
    )
    .map_err(of_pipe)
}

/// Plays a script file on a picture file. The script is opened once the picture is accepted.
fn run_files<R: Threads + Wait + Sync, W: TextOut>(
    rt: &HostRuntime,
    threads: &R,
    picture: &str,
    script: &str,
    crew: Crew,
    prints: Prints,
    writer: &mut W,
) -> Result<(), RunFault>
    requires { W.has_failed writer.old ≡ false }
{
    let file = match open_file(rt, picture) {
        Ok(file) => file,
        Err(fault) => return Err(tell_unbegun(prints, fault.without_reason(), writer)),
    };
    let mut picture = FromRead::new(file);
    let mut script = LateFile::new(rt, script);
    let played = run_by(
        threads,
        rt.alloc(),
        crew,
        prints,
        &mut picture,
        &mut script,
        writer,
    );
    match script.into_unopened() {
        Some(fault) => Err(fault.without_reason()),
        None => played.map_err(of_pipe),
    }
}

/// Plays the scripts of a drill, to standard output. All of its files are read before anything is judged or played.
fn drill<R: Threads + Wait + Sync>(
    rt: &HostRuntime,
    threads: &R,
    looks: Looks,
    files: DrillFiles<'_>,
) -> Result<(), RunFault> {
    let picture = read_picture(rt, files.picture).map_err(RunFault::without_reason)?;
    let scripts = read_scripts(rt, &files.scripts).map_err(RunFault::without_reason)?;
    let gathered = Gathered::new(rt.alloc(), ToWrite::new(io::writer(rt)))?;
    let mut writer = Colored::new(rt.alloc(), gathered, looks.colors_answers);
    let drilled = drill_over(
        threads,
        rt.alloc(),
        &OpenGate,
        &picture,
        scripts,
        &mut writer,
    );
    let flushed = writer.flush();
    after_flush(drilled.map_err(of_drill), flushed)
}
