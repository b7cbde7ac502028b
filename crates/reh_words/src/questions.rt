// What the arguments that are given ask of a cluster's files.
ghost use Rattle.std.specs.Prelude.{◌≡◌, codes, map, IfOk, IfSome};
ghost use Rattle.reh_words.specs.Asked as model;

use crate::tasks::{
    CensusWords, Crew, CutWords, Inputs, MAX_FILES, Prints, RiskWords, StopWords, Task, WaveWords,
};
use clap::ArgMatches;
use reh_census::{Keep, Question};
use reh_crew::MAX_WORKERS;
use std::alloc::{AllocError, Global};

/// What these matches of a command ask of files, if it is one that does.
pub(crate) fn asked_of_files<'a>(
    alloc: Global,
    command: &str,
    given: &ArgMatches<'a>,
) -> Result<Option<Task<'a>>, AllocError>
    ensures { IfOk result (λ task. IfSome task (model.IsAsked command.now given.now)) }
{
    match command {
        "ok-to-stop" => asked_stop(alloc, given),
        "waves" => asked_waves(alloc, given),
        "risk" => asked_risk(alloc, given),
        "census" => asked_census(alloc, given),
        "cut" => asked_cut(alloc, given),
        _ => Ok(None),
    }
}

/// What these matches of `ok-to-stop` ask for.
fn asked_stop<'a>(alloc: Global, given: &ArgMatches<'a>) -> Result<Option<Task<'a>>, AllocError>
    ensures { IfOk result (λ task. IfSome task (model.IsAsked (codes "ok-to-stop") given.now)) }
{
    Ok(Some(Task::Stop(StopWords {
        inputs: asked_inputs(alloc, given)?,
        bookies: words_of(alloc, given, "lose")?,
        racks: words_of(alloc, given, "lose-rack")?,
        question: asked_question(given),
        as_json: is_json(given),
    })))
}

/// What these matches of `waves` ask for.
fn asked_waves<'a>(alloc: Global, given: &ArgMatches<'a>) -> Result<Option<Task<'a>>, AllocError>
    ensures { IfOk result (λ task. IfSome task (model.IsAsked (codes "waves") given.now)) }
{
    Ok(Some(Task::Waves(WaveWords {
        inputs: asked_inputs(alloc, given)?,
        question: asked_question(given),
        by_rack: is_given(given, "racks"),
        as_json: is_json(given),
    })))
}

/// What these matches of `risk` ask for.
fn asked_risk<'a>(alloc: Global, given: &ArgMatches<'a>) -> Result<Option<Task<'a>>, AllocError>
    ensures { IfOk result (λ task. IfSome task (model.IsAsked (codes "risk") given.now)) }
{
    Ok(Some(Task::Risk(RiskWords {
        inputs: asked_inputs(alloc, given)?,
        question: asked_question(given),
        with_pairs: is_given(given, "pairs"),
        as_json: is_json(given),
    })))
}

/// What these matches of `census` ask for.
fn asked_census<'a>(alloc: Global, given: &ArgMatches<'a>) -> Result<Option<Task<'a>>, AllocError>
    ensures { IfOk result (λ task. IfSome task (model.IsAsked (codes "census") given.now)) }
{
    Ok(Some(Task::Census(CensusWords {
        inputs: asked_inputs(alloc, given)?,
        as_json: is_json(given),
    })))
}

/// What these matches of `cut` ask for. The parser lets no word for a ledger's id through but a number.
fn asked_cut<'a>(alloc: Global, given: &ArgMatches<'a>) -> Result<Option<Task<'a>>, AllocError>
    ensures { IfOk result (λ task. IfSome task (model.IsAsked (codes "cut") given.now)) }
{
    let ledgers = asked_ledgers(alloc, given)?;
    match (given.get_str("INVENTORY"), ledgers) {
        (Some(inventory), Some(ledgers)) => Ok(Some(Task::Cut(CutWords {
            inventory,
            ledgers,
            assume_held: is_given(given, "assume-held"),
            assume_empty: is_given(given, "assume-empty"),
            window: number_of(given, "window"),
        }))),
        _ => Ok(None),
    }
}

/// The ids of the ledgers that `cut` cuts, unless one is no number.
fn asked_ledgers(alloc: Global, given: &ArgMatches<'_>) -> Result<Option<Vec<u64>>, AllocError>
    ensures { IfOk result (λ ids. IfSome ids (λ ids. ids.items ≡ map model.id_of (model.words_of given.now (codes "ledgers")))) }
{
    let words = words_of(alloc, given, "ledgers")?;
    ids_of(alloc, &words)
}

/// The id that a word says, unless it is no number.
fn id_of(word: &str) -> Option<u64>
    ensures { IfSome result (λ id. id ≡ model.id_of word.now) }
{
    match word.parse::<u64>() {
        Ok(id) => Some(id),
        Err(_) => None,
    }
}

/// The ids that words say, unless one is no number.
fn ids_of(alloc: Global, words: &[&str]) -> Result<Option<Vec<u64>>, AllocError>
    ensures { IfOk result (λ ids. IfSome ids (λ ids. ids.items ≡ map model.id_of (map (λ word. word.now) words.now))) }
{
    let mut ids = Vec::new(alloc);
    for word in words {
        match id_of(word) {
            Some(id) => ids.push(id)?,
            None => return Ok(None),
        }
    }
    Ok(Some(ids))
}

/// The words of an argument.
pub(crate) fn words_of<'a>(
    alloc: Global,
    given: &ArgMatches<'a>,
    argument: &str,
) -> Result<Vec<&'a str>, AllocError>
    ensures { IfOk result (λ words. map (λ word. word.now) words.items ≡ model.words_of given.now argument.now) }
{
    match given.get_strs(argument) {
        Some(words) => words.to_vec(alloc),
        None => Ok(Vec::new(alloc)),
    }
}

/// What these matches ask to be printed of each line.
pub(crate) fn asked_prints(given: &ArgMatches<'_>) -> Prints
    ensures { model.IsPrints given.now result }
{
    match (is_given(given, "json"), is_given(given, "changes")) {
        (true, _) => Prints::Json,
        (false, true) => Prints::Changes,
        (false, false) => Prints::Answers,
    }
}

/// Whether a flag is given.
pub(crate) fn is_given(given: &ArgMatches<'_>, flag: &str) -> bool
    ensures { model.IsFlag given.now flag.now result }
{
    given.get_flag(flag)
}

/// The number that an argument says, if it says one.
pub(crate) fn number_of(given: &ArgMatches<'_>, argument: &str) -> Option<u64>
    ensures { model.IsNumber given.now argument.now result }
{
    given.get_one(argument)
}

/// Whether the answer is to be JSON.
pub(crate) fn is_json(given: &ArgMatches<'_>) -> bool
    ensures { result ≡ model.is_json given.now }
{
    match given.get_str("format") {
        Some(format) => format.as_bytes() == "json".as_bytes(),
        None => false,
    }
}

/// The files, and who reads them. The parser lets no other number of files or workers through; if it did, they would be
/// passed over.
fn asked_inputs<'a>(alloc: Global, given: &ArgMatches<'a>) -> Result<Inputs<'a>, AllocError>
    ensures { IfOk result (λ inputs. model.IsInputs given.now inputs) }
{
    let mut files = words_of(alloc, given, "FILE")?;
    files.truncate(MAX_FILES);
    let workers = number_of(given, "workers").unwrap_or(1);
    let workers = workers.max(1).min(MAX_WORKERS as u64) as usize;
    Ok(Inputs {
        files,
        after: given.get_str("after"),
        strict: is_given(given, "strict"),
        crew: Crew { workers },
    })
}

/// How many copies entries are to keep: the parser lets no word through but a number and `ack-1`.
fn asked_keep(given: &ArgMatches<'_>) -> Keep
    ensures { model.IsKeep given.now result }
{
    let under_ack = is_given(given, "allow-under-ack");
    let copies = number_of(given, "keep");
    match (under_ack, given.get_str("keep"), copies) {
        (true, _, _) => Keep::Copies(1),
        (false, None, _) => Keep::AckQuorum,
        (false, Some(_), Some(copies)) => Keep::Copies(copies),
        (false, Some(_), None) => Keep::AckLessOne,
    }
}

/// What a stop may break.
fn asked_question(given: &ArgMatches<'_>) -> Question
    ensures { model.IsQuestion given.now result }
{
    Question {
        keep: asked_keep(given),
        ensemble: number_of(given, "ensemble"),
        min_racks: number_of(given, "min-racks"),
        allow_blocked_recovery: is_given(given, "allow-blocked-recovery"),
        allow_blocked_writers: is_given(given, "allow-blocked-writers"),
        for_good: is_given(given, "for-good"),
    }
}
