// What the arguments that are given ask for, and what they ask of a picture.
ghost use Rattle.std.specs.Prelude.{◌≡◌, codes, IfOk, IfSome};
ghost use Rattle.reh_words.specs.Asked as model;

use crate::questions::{asked_of_files, asked_prints, is_given, is_json, number_of, words_of};
use crate::tasks::{Crew, DrillFiles, PlanWords, PlayOut, PlayWords, Task};
use clap::ArgMatches;
use reh_crew::{MAX_OPERATORS, MAX_WORKERS};
use std::alloc::{AllocError, Global};

/// In how many racks the copies of an entry are to stand, unless the words say so: BookKeeper's default of
/// `minNumRacksPerWriteQuorum`.
const MIN_RACKS: u64 = 2;

/// What these matches ask for.
pub(crate) fn asked_task<'a>(
    alloc: Global,
    matches: &ArgMatches<'a>,
) -> Result<Option<Task<'a>>, AllocError>
    ensures { IfOk result (λ task. IfSome task (model.IsTask matches.now)) }
{
    let Some((name, given)) = matches.subcommand() else {
        return Ok(Some(Task::Play(PlayWords::Pipe)));
    };
    match asked_of_picture(alloc, name, given)? {
        Some(task) => Ok(Some(task)),
        None => asked_of_files(alloc, name, given),
    }
}

/// What these matches of a command ask of a picture, if it is one that does. The parser asks for a picture and a script, and
/// lets no other number of scripts or workers through.
fn asked_of_picture<'a>(
    alloc: Global,
    command: &str,
    given: &ArgMatches<'a>,
) -> Result<Option<Task<'a>>, AllocError>
    ensures { IfOk result (λ task. IfSome task (model.IsAskedOfPicture command.now given.now)) }
{
    match command {
        "check" => Ok(asked_check(given)),
        "talk" => Ok(asked_talk(given)),
        "run" => Ok(asked_run(given)),
        "drill" => asked_drill(alloc, given),
        "plan" => asked_plan(alloc, given),
        _ => Ok(None),
    }
}

/// What these matches of `check` ask for.
fn asked_check<'a>(given: &ArgMatches<'a>) -> Option<Task<'a>>
    ensures { IfSome result (model.IsCheck given.now) }
{
    let picture = given.get_str("PICTURE")?;
    let script = given.get_str("SCRIPT");
    let as_json = is_json(given);
    Some(Task::Check {
        picture,
        script,
        as_json,
    })
}

/// What these matches of `talk` ask for.
fn asked_talk<'a>(given: &ArgMatches<'a>) -> Option<Task<'a>>
    ensures { IfSome result (model.IsTalk given.now) }
{
    let picture = given.get_str("PICTURE")?;
    let prints = asked_prints(given);
    Some(Task::Play(PlayWords::Talk { picture, prints }))
}

/// What these matches of `run` ask for.
fn asked_run<'a>(given: &ArgMatches<'a>) -> Option<Task<'a>>
    ensures { IfSome result (model.IsRun given.now) }
{
    let picture = given.get_str("PICTURE")?;
    let script = given.get_str("SCRIPT")?;
    let crew = asked_crew(given)?;
    let prints = asked_prints(given);
    match given.get_str("picture-out") {
        Some(out) => Some(Task::PlayOut(PlayOut {
            picture,
            script,
            crew,
            prints,
            out,
        })),
        None => Some(Task::Play(PlayWords::Files {
            picture,
            script,
            crew,
            prints,
        })),
    }
}

/// How many workers there are.
fn asked_crew(given: &ArgMatches<'_>) -> Option<Crew>
    ensures { IfSome result (model.IsCrew given.now) }
{
    let workers = number_of(given, "workers").unwrap_or(1) as usize;
    if 0 < workers && workers <= MAX_WORKERS {
        Some(Crew { workers })
    } else {
        None
    }
}

/// What these matches of `drill` ask for.
fn asked_drill<'a>(alloc: Global, given: &ArgMatches<'a>) -> Result<Option<Task<'a>>, AllocError>
    ensures { IfOk result (λ task. IfSome task (model.IsAskedOfPicture (codes "drill") given.now)) }
{
    let scripts = words_of(alloc, given, "SCRIPT")?;
    match given.get_str("PICTURE") {
        Some(picture) if !scripts.is_empty() && scripts.len() <= MAX_OPERATORS => {
            Ok(Some(Task::Drill(DrillFiles { picture, scripts })))
        }
        _ => Ok(None),
    }
}

/// What these matches of `plan` ask for.
fn asked_plan<'a>(alloc: Global, given: &ArgMatches<'a>) -> Result<Option<Task<'a>>, AllocError>
    ensures { IfOk result (λ task. IfSome task (model.IsAskedOfPicture (codes "plan") given.now)) }
{
    let lost = words_of(alloc, given, "lose")?;
    let allowed = words_of(alloc, given, "to")?;
    let (Some(picture), Some(crew)) = (given.get_str("PICTURE"), asked_crew(given)) else {
        return Ok(None);
    };
    Ok(Some(Task::Plan(PlanWords {
        picture,
        after: given.get_str("after"),
        lost,
        allowed,
        min_racks: number_of(given, "min-racks").unwrap_or(MIN_RACKS) as usize,
        writers_roll: is_given(given, "writers-roll"),
        only_sums: is_given(given, "summary"),
        as_json: is_json(given),
        expects: is_given(given, "expect"),
        assume_held: is_given(given, "assume-held"),
        assume_empty: is_given(given, "assume-empty"),
        crew,
        output: given.get_str("output"),
    })))
}
