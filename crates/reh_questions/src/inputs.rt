// The files of a cluster, read by several workers, what they show together, and their census.
ghost use Rattle.std.specs.Prelude.{◌≡◌, ◌<◌, ◌++◌, ◌∷◌, [], true, All, Bool, List, vec_len, length, map, nat_eq, ℕ, Option, IsSome, IfOk, OnOk, string_bytes};
ghost use Rattle.std.specs.List.{flat_map, IsDistinct};
ghost use Rattle.std.specs.Option.{option_map};
ghost use Rattle.reh_inputs.specs.Gathered.{Gathers};
ghost use Rattle.reh_inputs.specs.Inputs.{IsRead};
ghost use Rattle.reh_inputs.specs.Named.{named_of as model_named, taken_of as model_taken};
ghost use Rattle.reh_questions.specs.Against.{cut_notes, is_cut, is_stream};
ghost use Rattle.reh_questions.specs.Endings.{EndsCensus};
ghost use Rattle.reh_questions.specs.Inputs as model;
ghost use Rattle.reh_questions.specs.Mistaken.{TellsNoInput};

use crate::afters::text_after;
use crate::inventories::{Source, count_bytes, count_inventory};
use crate::mistaken::headless;
use crate::names::misnamed;
use crate::noted::{Noted, with_notes, write_noted};
use reh_census_file::{CensusFault, NamedCensus, census_text};
use reh_census_json::census_json;
use reh_files::{InputBytes, Looks, Progress, RunFault, Teller, read_input_file};
use reh_inputs::{
    EmptyHolds, GatherFault, Gathered, Input, InputFault, check_ids, gather, ids_of, let_go,
    named_of, read_input, taken_of,
};
use reh_inventory_read::CountedInventory;
use reh_picture::{LocatedFault, PictureFault};
use reh_types::BookieIx;
use reh_words::{CensusWords, Inputs};
use std::alloc::{AllocError, Global};
use std::fs::File;
use std::sync::Wait;
use std::thread;

/// What files show together, what each of them is, the ids of its ledgers, and when the oldest was taken, if each tells its
/// time.
#[derive(Drop)]
pub(crate) struct GatheredFiles {
    pub(crate) gathered: Gathered,
    pub(crate) ids: Vec<Vec<u64>>,
    pub(crate) kinds: Vec<FileKind>,
    pub(crate) taken: Option<String>,
}

/// What the files show together.
pub(crate) fn gather_files<R: thread::Threads + Wait + Sync>(
    rt: &HostRuntime,
    threads: &R,
    inputs: &Inputs<'_>,
    progress: &Progress,
) -> Result<GatheredFiles, RunFault>
    ensures { IfOk result (model.AreGathered inputs.now) }
{
    let read = read_inputs(rt, threads, inputs, progress)?;
    let read = in_parts(rt.alloc(), read)?;
    let gathered = gather_read(threads, rt.alloc(), inputs, &read)?;
    let taken = copy_taken(rt.alloc(), &read.inputs)?;
    let Parted {
        inputs: shown,
        ids,
        kinds,
    } = read;
    let_go(threads, shown, inputs.crew.workers);
    Ok(GatheredFiles {
        gathered,
        ids,
        kinds,
        taken,
    })
}

/// What these inputs show together, once they are read, where no ledger stands in two of them.
fn gather_read<R: thread::Threads + Sync>(
    threads: &R,
    alloc: Global,
    inputs: &Inputs<'_>,
    read: &Parted,
) -> Result<Gathered, RunFault>
    ensures gathers { IfOk result (λ gathered. Gathers read.now.inputs.items inputs.now.strict gathered) }
    ensures apart { OnOk result (IsDistinct nat_eq (flat_map (λ ids. ids.items) read.now.ids.items)) }
{
    match gather(
        threads,
        alloc,
        &read.inputs,
        inputs.strict,
        inputs.crew.workers,
    ) {
        Ok(gathered) => {
            check_apart(alloc, inputs, read)?;
            Ok(gathered)
        }
        Err(fault) => Err(fault_of(alloc, inputs, &read.inputs, fault)),
    }
}

/// Checks that no ledger stands in two inputs.
fn check_apart(alloc: Global, inputs: &Inputs<'_>, read: &Parted) -> Result<(), RunFault>
    ensures { OnOk result (IsDistinct nat_eq (flat_map (λ ids. ids.items) read.now.ids.items)) }
{
    match check_ids(alloc, &read.ids) {
        Ok(()) => Ok(()),
        Err(fault) => Err(fault_of(alloc, inputs, &read.inputs, fault)),
    }
}

/// Says to standard output what the census of the files is.
pub fn census_over<R: thread::Threads + Wait + Sync + Copy + Send + 'static>(
    rt: &HostRuntime,
    threads: &R,
    looks: Looks,
    words: &CensusWords<'_>,
) -> Result<(), RunFault>
    ensures { OnOk result (EndsCensus words.now) }
{
    let teller = Teller::begin(rt, threads, looks, words.inputs.files.len());
    let noted = census_of(rt, threads, words, &teller.progress);
    teller.end(threads);
    let noted = noted?;
    write_noted(rt, looks, &noted)?;
    Ok(())
}

/// The census of the files, as text or as JSON.
fn census_of<R: thread::Threads + Wait + Sync>(
    rt: &HostRuntime,
    threads: &R,
    words: &CensusWords<'_>,
    progress: &Progress,
) -> Result<Noted, RunFault>
    ensures { IfOk result (λ noted. model.SaysCensus words.now noted) }
{
    let files = gather_files(rt, threads, &words.inputs, progress)?;
    let GatheredFiles {
        gathered,
        taken,
        ids: _,
        kinds,
    } = files;
    let noted = say_gathered(rt.alloc(), words, gathered, taken, &kinds)?;
    Ok(noted)
}

/// The census of what files of these kinds show, the oldest of which was taken then, if each tells its time.
fn say_gathered(
    alloc: Global,
    words: &CensusWords<'_>,
    gathered: Gathered,
    taken: Option<String>,
    kinds: &[FileKind],
) -> Result<Noted, AllocError>
    ensures said { IfOk result (λ noted. string_bytes noted.text
        ≡ model.census_by words.now.as_json (model_named gathered words.now.inputs.strict (option_map string_bytes taken))) }
    ensures notes { IfOk result (λ noted.
        map string_bytes noted.notes.items ≡ cut_notes words.now.inputs.files.items kinds.now) }
{
    let census = named_of(alloc, gathered, words.inputs.strict, taken)?;
    let text = say_census(alloc, &census, words.as_json)?;
    with_notes(alloc, text, &words.inputs.files, kinds)
}

/// The census as text, or as JSON.
fn say_census(alloc: Global, census: &NamedCensus, as_json: bool) -> Result<String, AllocError>
    ensures { IfOk result (λ text. string_bytes text ≡ model.census_by as_json census.now) }
{
    if as_json {
        let text = census_json(alloc, census)?;
        return Ok(text);
    }
    let text = census_text(alloc, census)?;
    Ok(text)
}

/// When the oldest of the inputs was taken, if each tells its time.
fn copy_taken(alloc: Global, read: &[Input]) -> Result<Option<String>, AllocError>
    ensures { IfOk result (λ taken. option_map string_bytes taken ≡ model_taken read.now) }
{
    match taken_of(read) {
        Some(time) => Ok(Some(String::from_str(alloc, time)?)),
        None => Ok(None),
    }
}

/// What a file is.
#[derive(Clone, Copy)]
pub(crate) enum FileKind {
    /// A picture or a census.
    Other,
    /// An inventory that can be read again.
    Inventory {
        /// Whether its last line isn't there.
        is_cut: bool,
    },
    /// An inventory that can be read only once, as from a pipe.
    Stream {
        /// Whether its last line isn't there.
        is_cut: bool,
    },
}

/// What a file shows, the ids of its ledgers, of which a census file tells none, and what it is.
#[derive(Drop)]
pub(crate) struct FileInput {
    input: Input,
    ids: Vec<u64>,
    kind: FileKind,
}

/// What files show, the ids of each one's ledgers, and what each is.
#[derive(Drop)]
pub(crate) struct Parted {
    inputs: Vec<Input>,
    ids: Vec<Vec<u64>>,
    kinds: Vec<FileKind>,
}

/// What these files show, the ids, and what they are, each in a list of its own.
fn in_parts(alloc: Global, read: Vec<FileInput>) -> Result<Parted, AllocError>
    ensures { IfOk result (model.IsParted read.items) }
{
    let mut inputs = Vec::new(alloc);
    let mut ids = Vec::new(alloc);
    let mut kinds = Vec::new(alloc);
    for file in read {
        inputs.push(file.input)?;
        ids.push(file.ids)?;
        kinds.push(file.kind)?;
    }
    Ok(Parted { inputs, ids, kinds })
}

/// What a file shows, once it is read.
type Slot = Option<Result<FileInput, RunFault>>;

/// What each file shows, in order; or of one picture, what the state shows to which a script leads from it.
fn read_inputs<R: thread::Threads + Wait + Sync>(
    rt: &HostRuntime,
    threads: &R,
    inputs: &Inputs<'_>,
    progress: &Progress,
) -> Result<Vec<FileInput>, RunFault>
    ensures each { IfOk result (λ read. length read.items ≡ vec_len inputs.now.files) }
    ensures read { IfOk result (λ read. All model.IsOfFile read.items) }
    ensures after { IfOk result (λ read. model.AreAfter inputs.now read.items) }
{
    match inputs.after {
        None => read_files(rt, threads, inputs, progress),
        Some(script) => read_end(rt, &inputs.files, script),
    }
}

/// What the state shows to which a script leads from the one picture among these files.
fn read_end(rt: &HostRuntime, files: &[&str], script: &str) -> Result<Vec<FileInput>, RunFault>
    ensures each { IfOk result (λ read. length read.items ≡ length files.now) }
    ensures read { IfOk result (λ read. All model.IsOfFile read.items) }
    ensures end { IfOk result (λ read. All model.IsOfEnd read.items) }
{
    let [picture] = files else {
        return Err(several_files(rt.alloc()));
    };
    let file = end_of(rt, picture, script)?;
    let read = only(rt.alloc(), file)?;
    Ok(read)
}

/// What one file shows, by itself.
fn only(alloc: Global, file: FileInput) -> Result<Vec<FileInput>, AllocError>
    ensures { IfOk result (λ read. read.items ≡ file ∷ []) }
{
    let mut read = Vec::new(alloc);
    read.push(file)?;
    Ok(read)
}

/// That a script can be played first on one picture alone, or out of memory.
fn several_files(alloc: Global) -> RunFault {
    misnamed(format!(in alloc; "--after plays a script on one picture: name one file"))
}

/// What the state shows to which a script leads from a picture.
fn end_of(rt: &HostRuntime, picture: &str, script: &str) -> Result<FileInput, RunFault>
    ensures of { IfOk result model.IsOfFile }
    ensures end { IfOk result model.IsOfEnd }
{
    let text = text_after(rt, picture, script, true)?;
    match read_input(rt.alloc(), text.as_bytes()) {
        Ok(input) => {
            let file = of_bytes(rt.alloc(), input)?;
            Ok(file)
        }
        Err(fault) => Err(unreadable(rt.alloc(), picture, fault)),
    }
}

/// What each file shows, in order, read by the workers; or the first fault, also in that order.
fn read_files<R: thread::Threads + Wait + Sync>(
    rt: &HostRuntime,
    threads: &R,
    inputs: &Inputs<'_>,
    progress: &Progress,
) -> Result<Vec<FileInput>, RunFault>
    ensures each { IfOk result (λ read. length read.items ≡ vec_len inputs.now.files) }
    ensures read { IfOk result (λ read. All model.IsOfFile read.items) }
{
    let files = inputs.files.as_slice();
    let mut slots = slots_of(rt.alloc(), files)?;
    let workers = inputs.crew.workers;
    let each = workers_for_each(workers, files.len());
    thread::for_each_mut(
        threads,
        &mut slots,
        workers,
        &|number, slot: &mut Slot|
            requires { number < length files.now }
            ensures { model.IsInSlot slot.exit.now }
        {
            *slot = Some(read_one(rt, threads, each, files[number], inputs.strict));
            progress.count();
        },
    );
    read_of(rt.alloc(), slots)
}

/// How many workers parse the lines of each file, where so many of them read files.
fn workers_for_each(workers: usize, files: usize) -> usize {
    if files == 0 || workers <= files {
        return 1;
    }
    workers / files
}

/// A slot for each file.
fn slots_of(alloc: Global, files: &[&str]) -> Result<Vec<Slot>, AllocError>
    ensures { IfOk result (λ slots. length slots.items ≡ length files.now) }
{
    let mut slots = Vec::new(alloc);
    for _path in files {
        slots.push(None)?;
    }
    Ok(slots)
}

/// What each file shows, all of which are read, or the first fault.
fn read_of(alloc: Global, slots: Vec<Slot>) -> Result<Vec<FileInput>, RunFault>
    requires { All model.IsInSlot slots.items }
    ensures each { IfOk result (λ read. length read.items ≡ length slots.items) }
    ensures read { IfOk result (λ read. All model.IsOfFile read.items) }
{
    let mut read = Vec::new(alloc);
    for slot in slots {
        let one = taken(slot)?;
        push_read(&mut read, one)?;
    }
    Ok(read)
}

/// What a file that was read shows.
fn taken(slot: Slot) -> Result<FileInput, RunFault>
    requires { model.IsInSlot slot }
    ensures { IfOk result model.IsOfFile }
{
    let Some(read) = slot else { unreachable!() };
    read
}

/// Adds what a file shows.
fn push_read(read: &mut Vec<FileInput>, one: FileInput) -> Result<(), AllocError>
    ensures { OnOk result (read.new.items ≡ read.old.items ++ one ∷ []) }
{
    read.push(one)?;
    Ok(())
}

/// What a file shows. The lines of an inventory are parsed by so many workers.
fn read_one<R: thread::Threads + Sync>(
    rt: &HostRuntime,
    threads: &R,
    workers: usize,
    path: &str,
    strict: bool,
) -> Result<FileInput, RunFault>
    ensures { IfOk result model.IsOfFile }
{
    let alloc = rt.alloc();
    let source = Source {
        alloc,
        path,
        workers,
    };
    match read_input_file(rt, path)? {
        InputBytes::Whole(bytes) => read_whole(alloc, path, &bytes),
        InputBytes::Inventory(file) => read_inventory(threads, source, file, strict),
        InputBytes::Stream(bytes) => read_stream(threads, source, &bytes, strict),
    }
}

/// What the file of an inventory shows.
fn read_inventory<R: thread::Threads + Sync>(
    threads: &R,
    source: Source<'_>,
    file: File,
    strict: bool,
) -> Result<FileInput, RunFault>
    ensures { IfOk result model.IsOfFile }
{
    let counted = count_inventory(threads, source, file, strict)?;
    let is_cut = counted.is_cut;
    Ok(of_inventory(counted, FileKind::Inventory { is_cut }))
}

/// What the bytes of an inventory show.
fn read_stream<R: thread::Threads + Sync>(
    threads: &R,
    source: Source<'_>,
    bytes: &[u8],
    strict: bool,
) -> Result<FileInput, RunFault>
    ensures { IfOk result model.IsOfFile }
{
    let counted = count_bytes(threads, source, bytes, strict)?;
    let is_cut = counted.is_cut;
    Ok(of_inventory(counted, FileKind::Stream { is_cut }))
}

/// What the bytes of a picture or of a census show.
fn read_whole(alloc: Global, path: &str, bytes: &[u8]) -> Result<FileInput, RunFault>
    ensures { IfOk result model.IsOfFile }
{
    match read_input(alloc, bytes) {
        Ok(input) => {
            let file = of_bytes(alloc, input)?;
            Ok(file)
        }
        Err(fault) => Err(no_input(alloc, path, bytes, fault)),
    }
}

/// The fault of a run whose file is no input: of an inventory without its first line, that this isn't there.
fn no_input(alloc: Global, path: &str, bytes: &[u8], fault: InputFault) -> RunFault
    ensures { TellsNoInput path.now bytes.now fault result }
{
    if let InputFault::Picture(_) = &fault
        && let Some(headless) = headless(alloc, path, bytes)
    {
        return headless;
    }
    unreadable(alloc, path, fault)
}

/// What an inventory shows.
fn of_inventory(counted: CountedInventory, kind: FileKind) -> FileInput
    requires kind { model.is_inventory kind ≡ true }
    requires cut { is_cut kind ≡ counted.is_cut }
    ensures { (strict : Bool) (left : Option (List ℕ)) → model.IsCountedOf strict left counted
        → (is_stream kind ≡ true → IsSome left) → model.IsOfFile result }
{
    FileInput {
        input: Input::Census(counted.census),
        ids: counted.ids,
        kind,
    }
}

/// What the bytes of a picture or of a census show.
fn of_bytes(alloc: Global, input: Input) -> Result<FileInput, AllocError>
    ensures input { IfOk result (λ file. file.input ≡ input) }
    ensures of { IfOk result (λ file. (bytes : List ℕ) → IsRead bytes input → model.IsOfBytes file) }
{
    let ids = ids_of(alloc, &input)?;
    Ok(FileInput {
        input,
        ids,
        kind: FileKind::Other,
    })
}

/// The fault of a run whose file is no input.
fn unreadable(alloc: Global, path: &str, fault: InputFault) -> RunFault
    ensures { model.TellsUnreadable path.now fault result }
{
    match fault {
        InputFault::Picture(located) => match refused(alloc, path, located) {
            Ok(fault) => fault,
            Err(want) => RunFault::from(want),
        },
        InputFault::Census(fault) => refused_census(alloc, path, fault),
    }
}

/// The fault of a run that can't read this census.
fn refused_census(alloc: Global, path: &str, fault: CensusFault) -> RunFault
    ensures { model.TellsCensus path.now fault result }
{
    match fault {
        CensusFault::NoMemory => RunFault::NoMemory,
        fault => faulty_census(alloc, path, fault),
    }
}

/// That a census has this fault.
fn faulty_census(alloc: Global, path: &str, fault: CensusFault) -> RunFault
    ensures { model.IsUnfit (model.census_text path.now fault) result }
{
    unfit(format!(in alloc; "census {path}: {fault}"))
}

/// The fault of a run that can't read this picture.
pub(crate) fn refused(
    alloc: Global,
    path: &str,
    located: LocatedFault,
) -> Result<RunFault, AllocError>
    ensures { IfOk result (model.TellsRefused path.now located) }
{
    match &located.fault {
        PictureFault::NoMemory => Ok(RunFault::NoMemory),
        _ => Ok(RunFault::Refused(Some(format!(in alloc; "{path}")?), located)),
    }
}

/// The fault of a run whose inputs can't be judged together.
fn fault_of(alloc: Global, inputs: &Inputs<'_>, read: &[Input], fault: GatherFault) -> RunFault
    ensures { model.TellsOf inputs.now read.now fault result }
{
    let files = inputs.files.as_slice();
    match fault {
        GatherFault::Differs { input, bookie } => {
            differs(alloc, path_of(files, input), name_of(read, input, bookie))
        }
        GatherFault::TooManyBookies { input, .. } => too_many_bookies(alloc, path_of(files, input)),
        GatherFault::HoldsThoughEmpty { input, held } => {
            let name = name_of(read, input, held.bookie);
            holds_though_empty(alloc, path_of(files, input), name, held)
        }
        GatherFault::Twice { input, ledger } => listed_twice(alloc, path_of(files, input), ledger),
        GatherFault::Unfit { input, ledger } => uncounted(alloc, path_of(files, input), ledger),
        GatherFault::OtherStrict { input } => {
            other_strict(alloc, path_of(files, input), inputs.strict)
        }
        GatherFault::TooMany => too_many(alloc),
        GatherFault::NoMemory => RunFault::NoMemory,
    }
}

/// That an input shows a bookie otherwise than one before it.
fn differs(alloc: Global, path: &str, name: &str) -> RunFault
    ensures { model.IsUnfit (model.differs_text path.now name.now) result }
{
    unfit(format!(in alloc; "{path} shows bookie '{name}' otherwise than a file before it"))
}

/// That an empty bookie is said to hold entries.
fn holds_though_empty(alloc: Global, path: &str, name: &str, held: EmptyHolds) -> RunFault
    ensures { model.IsUnfit (model.empty_text path.now name.now held.ledger) result }
{
    let ledger = held.ledger;
    unfit(format!(in alloc;
        "{path} shows bookie '{name}' as empty, but says that it holds entries of ledger {ledger}: leave out one of the two"
    ))
}

/// That a census was made with `--strict`, and is to be one without, or the other way round.
fn other_strict(alloc: Global, path: &str, is_strict: bool) -> RunFault
    ensures { model.IsUnfit (model.strict_text path.now is_strict) result }
{
    if is_strict {
        return unfit(format!(in alloc;
            "{path} is a census without --strict, and --strict is given"
        ));
    }
    unfit(format!(in alloc; "{path} is a census with --strict, and --strict isn't given"))
}

/// That there are too many bookies.
fn too_many_bookies(alloc: Global, path: &str) -> RunFault
    ensures { model.IsUnfit (model.bookies_text path.now) result }
{
    unfit(format!(in alloc; "with {path} there are more than 4096 bookies"))
}

/// That a ledger stands in two inputs.
fn listed_twice(alloc: Global, path: &str, ledger: u64) -> RunFault
    ensures { model.IsUnfit (model.twice_text path.now ledger) result }
{
    unfit(format!(in alloc; "ledger {ledger} of {path} is in a file before it, too"))
}

/// That a ledger can't be counted.
fn uncounted(alloc: Global, path: &str, ledger: u64) -> RunFault
    ensures { model.IsUnfit (model.uncounted_text path.now ledger) result }
{
    unfit(format!(in alloc; "ledger {ledger} of {path} can't be counted"))
}

/// That there is more than a census counts.
pub(crate) fn too_many(alloc: Global) -> RunFault
    ensures { model.IsUnfit model.too_many_text result }
{
    unfit(format!(in alloc; "there are more entries, ledgers or fragments than can be counted"))
}

/// The fault with this text.
pub fn unfit(text: Result<String, AllocError>) -> RunFault
    ensures { model.TellsText text result }
{
    match text {
        Ok(text) => RunFault::Unfit(text),
        Err(want) => RunFault::from(want),
    }
}

/// The path of an input.
fn path_of<'a>(files: &[&'a str], input: usize) -> &'a str
    ensures { result.now ≡ model.path_of files.now input }
{
    match files.get(input) {
        Some(path) => *path,
        None => "",
    }
}

/// The name of a bookie of an input.
fn name_of(read: &[Input], input: usize, bookie: usize) -> &str
    ensures { result.now ≡ model.name_of read.now input bookie }
{
    let name = match read.get(input) {
        Some(Input::Picture(listed)) => listed.listing.names.name(BookieIx((bookie % 64) as u8)),
        Some(Input::Census(census)) => census.names().name((bookie % 4096) as u16),
        None => None,
    };
    match name {
        Some(name) => name,
        None => "",
    }
}
