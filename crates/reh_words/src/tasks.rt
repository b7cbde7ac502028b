// What the words of the command line ask for.
ghost use Rattle.std.specs.Prelude.{◌<◌, ◌≤◌, vec_len};
ghost use Rattle.reh_crew.specs.declared.threads.TheConstants.{MAX_WORKERS};
ghost use Rattle.reh_words.specs.declared.tasks.TheConstants.{MAX_FILES};

use reh_census::Question;
use reh_commands::Verb;
use reh_help::Topic;

/// What the program is asked to do.
#[derive(Drop)]
pub enum Task<'a> {
    /// Plays a script on a picture.
    Play(PlayWords<'a>),
    /// Plays a script on a picture, and writes a picture of the end.
    PlayOut(PlayOut<'a>),
    /// Checks the picture in a file, or a script on it, and prints what is found as text or as JSON.
    Check {
        picture: &'a str,
        script: Option<&'a str>,
        as_json: bool,
    },
    /// Plays scripts on a picture, each by an operator of its own.
    Drill(DrillFiles<'a>),
    /// Says whether bookies may be stopped.
    Stop(StopWords<'a>),
    /// Parts the bookies into rounds, each of which may be stopped.
    Waves(WaveWords<'a>),
    /// Says what the next losses cost.
    Risk(RiskWords<'a>),
    /// Prints the census of files.
    Census(CensusWords<'a>),
    /// Prints the picture of some ledgers of an inventory.
    Cut(CutWords<'a>),
    /// Plans what is to be done without some bookies of a picture or an inventory.
    Plan(PlanWords<'a>),
    /// Says what the commands of a script and its refusals mean.
    Help(HelpTopic<'a>),
}

/// What help is asked for.
#[derive(Clone, Copy)]
pub enum HelpTopic<'a> {
    /// On the commands of a script.
    Script,
    /// On all refusals.
    Refusals,
    /// On this one.
    Refusal(Topic),
    /// On this command of a script.
    Command(Verb),
    /// On this word, of which there is none.
    Unknown(&'a str),
}

/// Where the picture of a drill is, and its scripts, of which there are 1 to 8.
#[derive(Drop)]
pub struct DrillFiles<'a> {
    pub picture: &'a str,
    pub scripts: Vec<&'a str>,
    ghost some: { 0 < vec_len scripts },
    ghost few: { vec_len scripts ≤ 8 },
}

/// Where a picture and a script are.
#[derive(Clone, Copy)]
pub enum PlayWords<'a> {
    /// On standard input: a picture, a line `%` and a script.
    Pipe,
    /// The picture in a file, and the script on standard input; and what is printed of each line.
    Talk {
        picture: &'a str,
        prints: Prints,
    },
    /// Each in a file; who makes the surveys; and what is printed of each line.
    Files {
        picture: &'a str,
        script: &'a str,
        crew: Crew,
        prints: Prints,
    },
}

/// What is printed of each line.
#[derive(Clone, Copy)]
pub enum Prints {
    /// The answer.
    Answers,
    /// The answer, and what the line changed.
    Changes,
    /// An object of JSON with both; and a last one says how the run ended.
    Json,
}

/// Where a picture and a script are, each in a file; who makes the surveys; what is printed of each line; and the file for
/// the picture of the end.
#[derive(Clone, Copy)]
pub struct PlayOut<'a> {
    pub picture: &'a str,
    pub script: &'a str,
    pub crew: Crew,
    pub prints: Prints,
    pub out: &'a str,
}

/// How many workers make each survey of a run, from 1 to 8.
#[derive(Clone, Copy)]
pub struct Crew {
    pub workers: usize,
    ghost some: { 0 < workers },
    ghost few: { workers ≤ MAX_WORKERS },
}

/// How many files of one cluster are read at most.
pub const MAX_FILES: usize = 4096;

/// The files of a cluster, who reads them, and how: with `strict`, what is assumed counts as untold. `after` is the file of a
/// script that is played first, on the one picture.
#[derive(Drop)]
pub struct Inputs<'a> {
    pub files: Vec<&'a str>,
    pub after: Option<&'a str>,
    pub strict: bool,
    pub crew: Crew,
    ghost few: { vec_len files ≤ MAX_FILES },
}

/// What is asked: may these bookies be stopped, and those of these racks. A word that names no bookie is a list of names
/// with commas between them.
#[derive(Drop)]
pub struct StopWords<'a> {
    pub inputs: Inputs<'a>,
    pub bookies: Vec<&'a str>,
    pub racks: Vec<&'a str>,
    pub question: Question,
    pub as_json: bool,
}

/// What is asked: rounds of bookies, or of those of one rack each.
#[derive(Drop)]
pub struct WaveWords<'a> {
    pub inputs: Inputs<'a>,
    pub question: Question,
    pub by_rack: bool,
    pub as_json: bool,
}

/// What is asked: what the loss of each bookie and each rack costs, and of each two bookies.
#[derive(Drop)]
pub struct RiskWords<'a> {
    pub inputs: Inputs<'a>,
    pub question: Question,
    pub with_pairs: bool,
    pub as_json: bool,
}

/// What is asked: the census of files.
#[derive(Drop)]
pub struct CensusWords<'a> {
    pub inputs: Inputs<'a>,
    pub as_json: bool,
}

/// What is asked: the picture of the ledgers of these ids, of the inventory in a file, or of one window of each. What nobody
/// tells of a bookie's entries is assumed to be held, or not to be held, or, where neither is given, refused.
#[derive(Drop)]
pub struct CutWords<'a> {
    pub inventory: &'a str,
    pub ledgers: Vec<u64>,
    pub assume_held: bool,
    pub assume_empty: bool,
    /// The number of the windows, if not all entries are asked for.
    pub window: Option<u64>,
}

/// What is asked: a plan for a picture without these bookies, of which the allowed ones take the places, or any; or only
/// what it comes to. Of an inventory, what plans for its ledgers come to.
#[derive(Drop)]
pub struct PlanWords<'a> {
    pub picture: &'a str,
    /// The file of a script that is played first.
    pub after: Option<&'a str>,
    pub lost: Vec<&'a str>,
    pub allowed: Vec<&'a str>,
    /// In how many racks the copies of an entry are to stand.
    pub min_racks: usize,
    /// Whether writers put other bookies into their ensembles themselves, so that no ledger is fenced.
    pub writers_roll: bool,
    pub only_sums: bool,
    /// Whether only what it comes to is to be printed, as JSON.
    pub as_json: bool,
    /// Whether the script says what each command is expected to be answered.
    pub expects: bool,
    /// Of an inventory: whether what nobody tells of a bookie's entries is assumed to be held.
    pub assume_held: bool,
    /// Of an inventory: whether it is assumed not to be held.
    pub assume_empty: bool,
    /// Of an inventory: who plans for its ledgers.
    pub crew: Crew,
    /// Of an inventory: the folder for the pictures and scripts of its ledgers.
    pub output: Option<&'a str>,
}
