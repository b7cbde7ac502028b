// Whether bookies may be stopped.
ghost use Rattle.std.specs.Prelude.{◌≡◌, ℕ, List, map, option_copied, string_bytes, IfErr, IfOk, OnOk};
ghost use Rattle.reh_census.specs.Bookies.{bookies_of as census_bookies, is_flagged};
ghost use Rattle.reh_census.specs.Ledgers.{Ledger as LedgerValue};
ghost use Rattle.reh_against.specs.Weighed.{WeighsBy};
ghost use Rattle.reh_against.specs.Worst.{SaysAgainst};
ghost use Rattle.reh_inputs.specs.declared.together.Gathered.{Gathered as GatheredValue};
ghost use Rattle.reh_stop.specs.Stops as model;

use crate::named::{
    first_ambiguous, first_twice, first_unknown, first_unknown_rack, names_in, stopped_of,
};
use crate::verdicts::Verdict;
use reh_against::{Stop, Worst};
use reh_answer::{Against, Facts, facts_of, json_of, status_of, text_of};
use reh_census::{Bookies, Question};
use reh_inputs::{Cluster, Gathered};
use std::alloc::{AllocError, Global};

/// What is asked: may these bookies be stopped, and those of these racks; and whether the answer is to be JSON. A word that
/// is no bookie's name is a list of names with commas between them.
#[derive(Clone, Copy)]
pub struct Asked<'w, 'a> {
    pub bookies: &'w [&'a str],
    pub racks: &'w [&'a str],
    pub question: Question,
    pub as_json: bool,
}

/// What is said, and the exit status.
#[derive(Drop)]
pub struct Said {
    pub text: String,
    pub status: u8,
}

/// Why nothing is said.
#[derive(Clone, Copy)]
pub enum StopFault<'a> {
    /// No bookie and no rack is named.
    Nobody,
    /// The word is a bookie's name, and a list of bookies' names too.
    Ambiguous(&'a str),
    /// The name is no bookie's.
    UnknownBookie(&'a str),
    /// The bookie is named before, too.
    Twice(&'a str),
    /// The rack is no bookie's.
    UnknownRack(&'a str),
    /// Out of memory.
    NoMemory,
}

impl<'a> From<AllocError> for StopFault<'a> {
    ghost use Rattle.std.specs.Prelude.{◌≡◌};
    ghost use Rattle.reh_stop.specs.declared.stops.StopFault.TheVariants.{NoMemory};

    ghost from_gives = { λ _ fault. fault ≡ NoMemory };

    fn from(_want: AllocError) -> StopFault<'a> {
        StopFault::NoMemory
    }
}

/// The first fault of the names.
fn check_names<'a>(cluster: &Cluster, asked: &Asked<'_, 'a>) -> Result<(), StopFault<'a>>
    ensures named { OnOk result (model.AreNamed cluster.now asked.now) }
    ensures fault { IfErr result (λ fault. model.IsFaultOf cluster.now asked.now fault) }
{
    if let Some(word) = first_unknown(cluster.names(), asked.bookies) {
        return Err(StopFault::UnknownBookie(asked.bookies[word]));
    }
    if let Some(word) = first_twice(asked.bookies) {
        return Err(StopFault::Twice(asked.bookies[word]));
    }
    if let Some(word) = first_unknown_rack(cluster.shown(), asked.racks) {
        return Err(StopFault::UnknownRack(asked.racks[word]));
    }
    Ok(())
}

/// The facts as text, or as JSON, with further notes. The oldest input was taken then, if each tells its time.
fn text_by(
    alloc: Global,
    asked: &Asked<'_, '_>,
    facts: &Facts,
    names: &[String],
    against: &[Against],
    taken: Option<&str>,
    further: &[String],
) -> Result<String, AllocError>
    ensures { IfOk result (λ text. string_bytes text ≡ model.text_by asked.now facts.now (map string_bytes names.now)
        against.now (option_copied taken.entry) (map string_bytes further.now)) }
{
    if asked.as_json {
        let text = json_of(alloc, facts, names, against, taken, further)?;
        return Ok(text);
    }
    let text = text_of(
        alloc,
        facts,
        &asked.question,
        names,
        against,
        taken,
        further,
    )?;
    Ok(text)
}

/// Whether the bookies of these names may be stopped, by what inputs show together.
fn judge_named<'a>(
    alloc: Global,
    gathered: &Gathered,
    named: &Asked<'_, 'a>,
) -> Result<Verdict, StopFault<'a>>
    ensures named { OnOk result (model.AreNamed gathered.now.cluster named.now) }
    ensures stopped { IfOk result (λ verdict. verdict.stopped ≡ model.stopped_by gathered.now.cluster named.now) }
    ensures facts { IfOk result (λ verdict. verdict.facts ≡ model.facts_of gathered.now named.now verdict.stopped) }
    ensures ledgers { IfOk result (λ verdict. model.AreOfLedgers gathered.now named.now verdict.facts) }
    ensures fault { IfErr result (model.IsUnsaid gathered.now.cluster named.now) }
{
    check_names(&gathered.cluster, named)?;
    let Gathered {
        cluster,
        bookies,
        census,
        ..
    } = gathered;
    let stopped = stopped_of(alloc, cluster, named.bookies, named.racks)?;
    let facts = facts_of(alloc, census, bookies, &named.question, &stopped)?;
    Ok(Verdict { facts, stopped })
}

/// Whether some bookie or rack is named.
fn has_words(asked: &Asked<'_, '_>) -> bool
    ensures { result ≡ model.has_words asked.now }
{
    0 < asked.bookies.len() || 0 < asked.racks.len()
}

/// Whether the bookies that the words name may be stopped, by what inputs show together: the facts alone.
pub fn judge_stop<'a>(
    alloc: Global,
    gathered: &Gathered,
    asked: &Asked<'_, 'a>,
) -> Result<Verdict, StopFault<'a>>
    ensures judged { IfOk result (model.IsJudged gathered.now asked.now) }
    ensures fault { IfErr result (model.IsRefused gathered.now asked.now) }
{
    if !has_words(asked) {
        return Err(StopFault::Nobody);
    }
    let names = gathered.cluster.names();
    if let Some(word) = first_ambiguous(alloc, names, asked.bookies)? {
        return Err(StopFault::Ambiguous(word));
    }
    let bookies = names_in(alloc, names, asked.bookies)?;
    let named = Asked {
        bookies: &bookies,
        ..*asked
    };
    judge_named(alloc, gathered, &named)
}

/// What a verdict is about, with the names of the bookies.
pub fn stop_of<'v>(
    cluster: &'v Cluster,
    bookies: &'v Bookies,
    asked: &'v Asked<'_, '_>,
    verdict: &'v Verdict,
) -> Stop<'v>
    ensures names { map string_bytes result.names.now ≡ cluster.now.names }
    ensures bookies { result.bookies.now ≡ bookies.now }
    ensures stopped { result.stopped.now ≡ verdict.now.stopped }
    ensures question { result.question.now ≡ asked.now.question }
    ensures answer { result.answer.now ≡ verdict.now.facts.answer }
{
    Stop {
        names: cluster.names().as_slice(),
        bookies,
        stopped: &verdict.stopped,
        question: &asked.question,
        answer: &verdict.facts.answer,
    }
}

/// What is said of a stop, against which these ledgers speak, with further notes. The bookies have these names, and the
/// oldest input was taken then, if each tells its time.
fn say_stop(
    alloc: Global,
    asked: &Asked<'_, '_>,
    verdict: &Verdict,
    names: &[String],
    against: &[Against],
    taken: Option<&str>,
    further: &[String],
) -> Result<Said, AllocError>
    ensures { IfOk result (λ said. (g : GatheredValue) (ids : List ℕ) (ledgers : List (List LedgerValue))
        → map string_bytes names.now ≡ g.cluster.names → model.IsJudged g asked.now verdict.now
        → SaysAgainst g.cluster.names ids ledgers (census_bookies g.bookies) asked.now.question
        (is_flagged verdict.now.stopped) verdict.now.facts.answer against.now
        → model.IsAnsweredBy ids ledgers (option_copied taken.entry) (map string_bytes further.now) g asked.now said) }
{
    let Verdict { facts, .. } = verdict;
    let text = text_by(alloc, asked, facts, names, against, taken, further)?;
    Ok(Said {
        text,
        status: status_of(&facts.answer),
    })
}

/// What is said of a stop, against which the worst of the ledgers that were weighed speak, with further notes. The oldest
/// input was taken then, if each tells its time.
pub fn say_weighed(
    alloc: Global,
    asked: &Asked<'_, '_>,
    verdict: &Verdict,
    stop: &Stop<'_>,
    worst: &Worst,
    taken: Option<&str>,
    further: &[String],
) -> Result<Said, AllocError>
    ensures { IfOk result (λ said. (g : GatheredValue) (ids : List ℕ) (ledgers : List (List LedgerValue))
        → model.IsJudged g asked.now verdict.now → model.IsAbout g asked.now verdict.now stop.now
        → WeighsBy stop.now ids ledgers worst.now
        → model.IsAnsweredBy ids ledgers (option_copied taken.entry) (map string_bytes further.now) g asked.now said) }
{
    let against = worst.say(alloc, stop)?;
    let said = say_stop(alloc, asked, verdict, stop.names, &against, taken, further)?;
    Ok(said)
}
