// What a picture shows of one bookie and one entry, by the line of the entry's ledger.
ghost use Rattle.std.specs.Prelude.{◌≡◌, ◌≤◌, option_copied};
ghost use Rattle.std.specs.List.{list_any};
ghost use Rattle.reh_census.specs.Ledgers.{is_within};
ghost use Rattle.reh_cut.specs.Said as model;
ghost use Rattle.reh_inventory_census.specs.Shown as line;
ghost use Rattle.reh_model.specs.Striping as stripe;
ghost use Rattle.reh_types.specs.declared.limits.TheConstants.{MAX_ENSEMBLE_SIZE};

use reh_census::Range;
use reh_inventory::{Content, Entries, Sizes};
use reh_types::MAX_ENSEMBLE_SIZE;

/// What stands for what nobody says of an entry that is written to a bookie.
#[derive(Clone, Copy)]
pub enum Assume {
    /// Nothing: a ledger with such an entry has no picture.
    Nothing,
    /// That the bookie holds it, unless the line says that nothing is told of the bookie.
    Held,
    /// That the bookie doesn't hold it.
    Empty,
}

/// What is assumed: by the operator, and by the inventory's first line of members without a content.
#[derive(Clone, Copy)]
pub(crate) struct Rules {
    pub(crate) assume: Assume,
    pub(crate) assumes_striped: bool,
}

/// How a fragment writes entries to a bookie.
#[derive(Clone, Copy)]
pub(crate) struct Striping {
    pub(crate) sizes: Sizes,
    /// Where the fragment stops, if that is known.
    pub(crate) stop: Option<u64>,
    /// The bookie's index in the ensemble, if it is a member.
    pub(crate) index: Option<usize>,
}

/// Whether the sizes keep the protocol's order of the quorums, and a picture can have them.
fn are_sizes(sizes: Sizes) -> bool
    ensures { result ≡ model.are_sizes sizes }
{
    let Sizes {
        ensemble,
        write_quorum,
        ack_quorum,
    } = sizes;
    1 <= ack_quorum
        && ack_quorum <= write_quorum
        && write_quorum <= ensemble
        && ensemble <= MAX_ENSEMBLE_SIZE
}

/// Whether the entry is striped onto the member of this index: whether that is in the entry's write set.
fn is_striped(entry: u64, index: u64, size: u64, quorum: u64) -> bool
    requires some { 1 ≤ quorum }
    requires within { quorum ≤ size }
    requires small { size ≤ MAX_ENSEMBLE_SIZE }
    ensures { result ≡ stripe.is_striped entry index size quorum }
{
    index < size && (index + size - entry % size) % size < quorum
}

/// Whether the fragment writes the entry to the bookie.
pub(crate) fn is_written(striping: &Striping, entry: u64) -> bool
    ensures { result ≡ model.is_written striping.now entry }
{
    let Striping { sizes, stop, index } = *striping;
    if !are_sizes(sizes) {
        return false;
    }
    let is_onto = match index {
        Some(index) => is_striped(entry, index as u64, sizes.ensemble, sizes.write_quorum),
        None => false,
    };
    is_onto && stop.is_none_or(|stop| entry < stop)
}

/// Whether one of the ranges has the entry.
pub(crate) fn has(ranges: &[Range], entry: u64) -> bool
    ensures { result ≡ list_any (is_within entry) ranges.now }
{
    for range in ranges {
        if range.first <= entry && entry <= range.last {
            return true;
        }
    }
    false
}

/// Whether the content speaks of the entry.
fn speaks_of(content: &Content, entry: u64) -> bool
    ensures { result ≡ line.speaks_of entry content.now.told }
{
    match &content.told {
        Some(ranges) => has(ranges.as_slice(), entry),
        None => true,
    }
}

/// What the content says of the entry, in a fragment that stops or has no stop.
fn content_says(is_strict: bool, stops: bool, content: &Content, entry: u64) -> Option<bool>
    ensures { result ≡ line.content_says is_strict stops entry content.now }
{
    if !speaks_of(content, entry) || (content.is_assumed && (is_strict || !stops)) {
        return None;
    }
    match &content.entries {
        Entries::Holds(ranges) => Some(has(ranges.as_slice(), entry)),
        Entries::Lacks(ranges) => {
            if stops {
                Some(!has(ranges.as_slice(), entry))
            } else {
                None
            }
        }
    }
}

/// What the line says of an entry that is written to the bookie.
fn said_of(
    assumes: bool,
    is_strict: bool,
    stops: bool,
    content: Option<&Content>,
    entry: u64,
) -> Option<bool>
    ensures { result ≡ model.said_by assumes is_strict stops (option_copied content.entry) entry }
{
    match content {
        Some(content) => content_says(is_strict, stops, content, entry),
        None => {
            if assumes && !is_strict && stops {
                Some(true)
            } else {
                None
            }
        }
    }
}

/// Whether the content lists the entry as held.
fn has_entry(content: &Content, entry: u64) -> bool
    ensures { result ≡ model.has_entry entry content.now.entries }
{
    match &content.entries {
        Entries::Holds(ranges) => has(ranges.as_slice(), entry),
        Entries::Lacks(_) => false,
    }
}

/// Whether the line says that nothing is told of the bookie, as of a replica that a task names missing.
fn is_doubted(content: Option<&Content>) -> bool
    ensures { result ≡ model.is_doubted (option_copied content.entry) }
{
    match content {
        Some(
            Content {
                told: Some(ranges),
                ..
            },
        ) => ranges.as_slice().is_empty(),
        _ => false,
    }
}

/// What stands for what nobody says of the bookie, if anything does.
fn stands_for(assume: Assume, content: Option<&Content>) -> Option<bool>
    ensures { result ≡ model.stands_for assume (option_copied content.entry) }
{
    match assume {
        Assume::Nothing => None,
        Assume::Held => Some(!is_doubted(content)),
        Assume::Empty => Some(false),
    }
}

/// Whether the picture shows that the bookie holds the entry; none where nobody says it, and nothing stands for that.
pub(crate) fn shown(
    rules: Rules,
    striping: &Striping,
    content: Option<&Content>,
    entry: u64,
) -> Option<bool>
    ensures { result ≡ model.shown rules striping.now (option_copied content.entry) entry }
{
    if !is_written(striping, entry) {
        return Some(match content {
            Some(content) => has_entry(content, entry),
            None => false,
        });
    }
    let said = said_of(
        rules.assumes_striped,
        false,
        striping.stop.is_some(),
        content,
        entry,
    );
    match said {
        Some(holds) => Some(holds),
        None => stands_for(rules.assume, content),
    }
}

/// Whether what is shown of the entry rests on no assumption.
pub(crate) fn is_sure(striping: &Striping, content: Option<&Content>, entry: u64) -> bool
    ensures { result ≡ model.is_sure striping.now (option_copied content.entry) entry }
{
    if is_written(striping, entry) {
        return said_of(false, true, striping.stop.is_some(), content, entry).is_some();
    }
    match content {
        Some(content) => !(content.is_assumed && has_entry(content, entry)),
        None => true,
    }
}
