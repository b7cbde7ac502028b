// Whether a picture shows ledgers of an inventory as their lines do.
ghost use Rattle.std.specs.Prelude.{◌≡◌, ◌-◌, ◌<◌, true, length, option_copied, slice_get, unwrap_or};
ghost use Rattle.std.specs.List.{list_all, list_any, range_with_len};
ghost use Rattle.reh_cut.specs.Cuts as model;
ghost use Rattle.reh_cut.specs.Ranges.{AreInOrder};

use crate::ranges::{are_around, are_in_order};
use crate::said::{Assume, Rules, Striping, is_sure, shown};
use reh_cluster::{Ledger, Names};
use reh_inventory::{Bookie, Content, Entries, Fragment, Head, LedgerLine, LedgerState, Name};
use reh_inventory_census::{end_of, end_told, last_first, stop_of};
use reh_meta::Fragment as PictureFragment;
use reh_picture::{BookieMarks, Holding, Listing};
use reh_types::{BookieIx, ENTRY_END, LedgerId, LedgerState as PictureState};

// Bookies

/// The bookie of that name in the first line.
pub fn bookie_in<'a>(head: &'a Head, name: &str) -> Option<&'a Bookie>
    ensures { option_copied result ≡ model.bookie_in head.now name.now }
{
    for bookie in head.bookies.as_slice() {
        if bookie.name.as_str() == name {
            return Some(bookie);
        }
    }
    None
}

/// What is assumed of a bookie.
pub(crate) fn rules_for(head: &Head, assume: Assume, name: &str) -> Rules
    ensures { result ≡ model.rules_for head.now assume name.now }
{
    let is_empty = match bookie_in(head, name) {
        Some(bookie) => bookie.is_empty,
        None => false,
    };
    if is_empty {
        Rules {
            assume: Assume::Empty,
            assumes_striped: false,
        }
    } else {
        Rules {
            assume,
            assumes_striped: head.assumes_striped,
        }
    }
}

/// Whether a content says that its bookie holds entries.
fn says_held(content: &Content) -> bool
    ensures { result ≡ model.says_held content.now.entries }
{
    match &content.entries {
        Entries::Holds(ranges) => !ranges.as_slice().is_empty(),
        Entries::Lacks(_) => true,
    }
}

/// Whether a content says that its bookie holds entries, though that came back without its disk.
fn holds_though_empty(head: &Head, content: &Content) -> bool
    ensures { result ≡ model.holds_though_empty head.now content.now }
{
    match bookie_in(head, content.bookie.as_str()) {
        Some(bookie) => bookie.is_empty && says_held(content),
        None => false,
    }
}

/// Whether a content of the line does.
pub(crate) fn refills(head: &Head, line: &LedgerLine) -> bool
    ensures { result ≡ model.refills head.now line.now }
{
    for content in line.contents.as_slice() {
        if holds_though_empty(head, content) {
            return true;
        }
    }
    false
}

/// Whether the picture's bookie, registered or not, has the marks of the first line's.
fn shows_bookie(bookie: Option<&Bookie>, is_up: bool, marks: &BookieMarks) -> bool
    ensures { result ≡ model.shows_bookie (option_copied bookie.entry) is_up marks.now }
{
    let Some(bookie) = bookie else {
        return !is_up && !marks.is_read_only() && !marks.is_empty() && marks.rack().is_none();
    };
    let rack = bookie.rack.as_ref().map(|rack| rack.as_str());
    bookie.is_up == is_up
        && bookie.is_read_only == marks.is_read_only()
        && bookie.is_empty == marks.is_empty()
        && rack == marks.rack()
}

/// Whether that holds of the bookie of this number.
fn shows_bookie_at(head: &Head, listing: &Listing, marks: &[BookieMarks], number: usize) -> bool
    ensures { result ≡ model.shows_bookie_at head.now listing.now.names listing.now.lost_at.items marks.now number }
{
    let Listing { names, lost_at, .. } = listing;
    if number >= names.len() {
        return false;
    }
    let Some(name) = names.name(BookieIx(number as u8)) else {
        return false;
    };
    let Some(lost) = lost_at.get(number) else {
        return false;
    };
    match marks.get(number) {
        Some(mark) => shows_bookie(bookie_in(head, name), lost.is_none(), mark),
        None => false,
    }
}

/// Whether it holds of all bookies.
#[tactic(auto, using(crate::proofs::RangeLaws::next_passes))]
pub(crate) fn shows_bookies(head: &Head, listing: &Listing, marks: &[BookieMarks]) -> bool
    ensures { result ≡ model.shows_bookies head.now listing.now.names listing.now.lost_at.items marks.now }
{
    for number in 0..listing.names.len() {
        if !shows_bookie_at(head, listing, marks, number) {
            return false;
        }
    }
    true
}

// Metadata

/// Whether a ledger stands where the line says.
fn is_same_state(state: LedgerState, other: PictureState) -> bool
    ensures { result ≡ model.is_same_state state other }
{
    match (state, other) {
        (LedgerState::Open, PictureState::Open)
        | (LedgerState::InRecovery, PictureState::InRecovery) => true,
        (LedgerState::Closed { end }, PictureState::Closed { end: other }) => other as u64 == end,
        _ => false,
    }
}

/// Whether the member of this index is the bookie of this index.
fn is_same_member(names: &Names, members: &[Name], bookies: &[BookieIx], index: usize) -> bool
    ensures { result ≡ model.is_same_member names.now members.now bookies.now index }
{
    let Some(member) = members.get(index) else {
        return false;
    };
    let Some(bookie) = bookies.get(index) else {
        return false;
    };
    match names.find(member.as_str().as_bytes()) {
        Some(found) => found == *bookie,
        None => false,
    }
}

/// Whether so many members, from the first on, are these bookies.
#[tactic(auto, using(crate::proofs::RangeLaws::next_passes))]
fn begin_with(names: &Names, members: &[Name], bookies: &[BookieIx], count: usize) -> bool
    ensures { result
        ≡ list_all (model.is_same_member names.now members.now bookies.now) (range_with_len 0 count) }
{
    for index in 0..count {
        if !is_same_member(names, members, bookies, index) {
            return false;
        }
    }
    true
}

/// Whether the members are these bookies, in order.
fn are_same_members(names: &Names, members: &[Name], bookies: &[BookieIx]) -> bool
    ensures { result ≡ model.are_same_members names.now members.now bookies.now }
{
    bookies.len() == members.len() && begin_with(names, members, bookies, members.len())
}

/// Whether both fragments begin with the same entry, and have the same members.
fn is_same_fragment(names: &Names, fragment: &Fragment, other: &PictureFragment) -> bool
    ensures { result ≡ model.is_same_fragment names.now fragment.now other.now }
{
    other.first as u64 == fragment.first
        && are_same_members(names, fragment.ensemble.as_slice(), &other.ensemble)
}

/// Whether the fragments of this index are the same.
fn is_same_fragment_at(
    names: &Names,
    fragments: &[Fragment],
    others: &[PictureFragment],
    index: usize,
) -> bool
    ensures { result ≡ model.is_same_fragment_at names.now fragments.now others.now index }
{
    let Some(fragment) = fragments.get(index) else {
        return false;
    };
    match others.get(index) {
        Some(other) => is_same_fragment(names, fragment, other),
        None => false,
    }
}

/// Whether so many fragments, from the first on, are the same.
#[tactic(auto, using(crate::proofs::RangeLaws::next_passes))]
fn begin_alike(
    names: &Names,
    fragments: &[Fragment],
    others: &[PictureFragment],
    count: usize,
) -> bool
    ensures { result
        ≡ list_all (model.is_same_fragment_at names.now fragments.now others.now) (range_with_len 0 count) }
{
    for index in 0..count {
        if !is_same_fragment_at(names, fragments, others, index) {
            return false;
        }
    }
    true
}

/// Whether the fragments are the same, in order.
fn are_same_fragments(names: &Names, fragments: &[Fragment], others: &[PictureFragment]) -> bool
    ensures { result ≡ model.are_same_fragments names.now fragments.now others.now }
{
    others.len() == fragments.len() && begin_alike(names, fragments, others, fragments.len())
}

/// Whether the picture's ledger has the line's metadata.
fn has_metadata(names: &Names, line: &LedgerLine, ledger: &Ledger) -> bool
    ensures { result ≡ model.has_metadata names.now line.now ledger.now }
{
    let metadata = ledger.metadata();
    ledger.id().0 == line.id
        && metadata.size() as u64 == line.sizes.ensemble
        && metadata.write_quorum() as u64 == line.sizes.write_quorum
        && metadata.ack_quorum() as u64 == line.sizes.ack_quorum
        && is_same_state(line.state, metadata.state())
        && metadata.version() == line.version.unwrap_or(0)
        && are_same_fragments(names, line.fragments.as_slice(), metadata.fragments())
}

// Entries

/// What the line tells of the bookie.
pub(crate) fn content_of<'a>(line: &'a LedgerLine, name: &str) -> Option<&'a Content>
    ensures { option_copied result ≡ model.content_of line.now name.now }
{
    for content in line.contents.as_slice() {
        if content.bookie.as_str() == name {
            return Some(content);
        }
    }
    None
}

/// One past the last entry that the picture may show.
pub(crate) fn bound_of(line: &LedgerLine) -> u64
    ensures { result ≡ model.bound_of line.now }
{
    let end = end_of(line.state).unwrap_or(last_first(line));
    end.max(end_told(line.contents.as_slice()))
}

/// The first entry of the fragment of this number, and one past its last.
pub(crate) fn entries_of(line: &LedgerLine, fragment: usize) -> (u64, u64)
    requires { fragment < length line.now.fragments }
    ensures { range_with_len result.0 (result.1 - result.0) ≡ model.entries_of line.now fragment }
{
    let fragments = line.fragments.as_slice();
    let end = match fragments.get(fragment + 1) {
        Some(next) => next.first,
        None => bound_of(line),
    };
    (fragments[fragment].first, end)
}

/// The index of the bookie of this name in an ensemble.
fn index_in(ensemble: &[Name], name: &str) -> Option<usize>
    ensures { result ≡ model.index_in ensemble.now name.now }
{
    for (index, member) in ensemble.iter().enumerate() {
        if name == member.as_str() {
            return Some(index);
        }
    }
    None
}

/// How the fragment of this number writes entries to the bookie of this name.
pub(crate) fn striping_of(line: &LedgerLine, fragment: usize, name: &str) -> Striping
    requires { fragment < length line.now.fragments }
    ensures { result ≡ model.striping_of line.now fragment name.now }
{
    let members = line.fragments.as_slice()[fragment].ensemble.as_slice();
    Striping {
        sizes: line.sizes,
        stop: stop_of(line, fragment),
        index: index_in(members, name),
    }
}

/// What the picture lists of a bookie and a ledger.
fn holding_of(holdings: &[Holding], bookie: BookieIx, ledger: u64) -> Option<&Holding>
    ensures { option_copied result ≡ model.holding_of holdings.now bookie ledger }
{
    for holding in holdings {
        if holding.bookie() == bookie && holding.ledger() == LedgerId(ledger) {
            return Some(holding);
        }
    }
    None
}

/// Whether each of the ranges ends below the bound.
fn are_below(ranges: &[(u32, u32)], bound: u64) -> bool
    ensures { result ≡ list_all (model.is_below bound) ranges.now }
{
    for range in ranges {
        if range.1 as u64 >= bound {
            return false;
        }
    }
    true
}

/// Whether the ranges that are listed are in order.
fn is_in_order(holding: Option<&Holding>) -> bool
    ensures { result ≡ true → AreInOrder (model.ranges_in (option_copied holding.entry)) }
{
    match holding {
        Some(holding) => are_in_order(holding.ranges()),
        None => false,
    }
}

/// Whether the entry is listed.
fn is_held(holding: Option<&Holding>, in_order: bool, entry: u64) -> bool
    requires { in_order ≡ true → AreInOrder (model.ranges_in (option_copied holding)) }
    ensures { result ≡ model.is_held (option_copied holding.entry) entry }
{
    match holding {
        Some(holding) => are_around(holding.ranges(), in_order, entry),
        None => false,
    }
}

/// Whether what is listed is marked as an assumption.
fn is_marked(holding: Option<&Holding>) -> bool
    ensures { result ≡ model.is_marked (option_copied holding.entry) }
{
    match holding {
        Some(holding) => holding.is_assumed(),
        None => false,
    }
}

/// Whether the picture shows of the entry what it is to show.
fn shows_entry(
    rules: Rules,
    striping: &Striping,
    content: Option<&Content>,
    holding: Option<&Holding>,
    in_order: bool,
    entry: u64,
) -> bool
    requires { in_order ≡ true → AreInOrder (model.ranges_in (option_copied holding)) }
    ensures { result
        ≡ model.shows_entry rules striping.now (option_copied content.entry) (option_copied holding.entry) entry }
{
    let is_shown = match shown(rules, striping, content, entry) {
        Some(holds) => is_held(holding, in_order, entry) == holds,
        None => false,
    };
    is_shown && (is_marked(holding) || is_sure(striping, content, entry))
}

/// Whether it does so of the entries from the first one up to the end.
fn show_entries(
    rules: Rules,
    striping: &Striping,
    content: Option<&Content>,
    holding: Option<&Holding>,
    first: u64,
    end: u64,
) -> bool
    ensures { result ≡ list_all
        (model.shows_entry rules striping.now (option_copied content.entry) (option_copied holding.entry))
        (range_with_len first (end - first)) }
{
    let in_order = is_in_order(holding);
    for entry in first..end {
        if !shows_entry(rules, striping, content, holding, in_order, entry) {
            return false;
        }
    }
    true
}

/// Whether it does so of the entries of the fragment of this number.
fn shows_fragment(
    rules: Rules,
    line: &LedgerLine,
    name: &str,
    holding: Option<&Holding>,
    fragment: usize,
) -> bool
    requires { fragment < length line.now.fragments }
    ensures { result ≡ model.shows_fragment rules line.now name.now (option_copied holding.entry) fragment }
{
    let striping = striping_of(line, fragment, name);
    let content = content_of(line, name);
    let (first, end) = entries_of(line, fragment);
    show_entries(rules, &striping, content, holding, first, end)
}

/// Whether it does so of the entries of all fragments.
#[tactic(auto, using(crate::proofs::RangeLaws::next_passes))]
fn show_fragments(rules: Rules, line: &LedgerLine, name: &str, holding: Option<&Holding>) -> bool
    ensures { result ≡ model.show_fragments rules line.now name.now (option_copied holding.entry) }
{
    for fragment in 0..line.fragments.as_slice().len() {
        if !shows_fragment(rules, line, name, holding, fragment) {
            return false;
        }
    }
    true
}

/// Whether an ensemble of the ledger has the bookie as a member.
fn is_member(line: &LedgerLine, name: &str) -> bool
    ensures { result ≡ model.is_member line.now name.now }
{
    for fragment in line.fragments.as_slice() {
        if index_in(fragment.ensemble.as_slice(), name).is_some() {
            return true;
        }
    }
    false
}

/// Whether the line names the bookie: as a member, or in a content.
pub fn names_bookie(line: &LedgerLine, name: &str) -> bool
    ensures { result ≡ model.names_bookie line.now name.now }
{
    is_member(line, name) || content_of(line, name).is_some()
}

/// Whether nothing is listed past the bound.
fn ends_below(bound: u64, holding: Option<&Holding>) -> bool
    ensures { result ≡ model.ends_below bound (option_copied holding.entry) }
{
    match holding {
        Some(holding) => are_below(holding.ranges(), bound),
        None => true,
    }
}

/// Whether the picture shows of the bookie of that name what it is to show.
fn shows_content(rules: Rules, line: &LedgerLine, name: &str, holding: Option<&Holding>) -> bool
    ensures { result ≡ model.shows_content rules line.now name.now (option_copied holding.entry) }
{
    if !names_bookie(line, name) {
        return holding.is_none();
    }
    holding.is_some()
        && ends_below(bound_of(line), holding)
        && show_fragments(rules, line, name, holding)
}

/// Whether it does so of the bookie of this number.
fn shows_content_at(
    head: &Head,
    assume: Assume,
    line: &LedgerLine,
    names: &Names,
    holdings: &[Holding],
    number: usize,
) -> bool
    ensures { result ≡ model.shows_content_at head.now assume line.now names.now holdings.now number }
{
    if number >= names.len() {
        return false;
    }
    let bookie = BookieIx(number as u8);
    match names.name(bookie) {
        Some(name) => shows_content(
            rules_for(head, assume, name),
            line,
            name,
            holding_of(holdings, bookie, line.id),
        ),
        None => false,
    }
}

// Ledgers

/// Whether a content speaks of all entries, as somebody told it.
fn tells_all(content: &Content) -> bool
    ensures { result ≡ model.tells_all content.now }
{
    content.told.is_none() && !content.is_assumed && matches!(&content.entries, Entries::Holds(_))
}

/// Whether the line tells of the bookie of this name what it holds, of all entries.
fn is_told_of(line: &LedgerLine, name: &Name) -> bool
    ensures { result ≡ model.is_told_of line.now name.now }
{
    match content_of(line, name.as_str()) {
        Some(content) => tells_all(content),
        None => false,
    }
}

/// Whether something is assumed of the member, or the line tells of it.
fn is_known(head: &Head, assume: Assume, line: &LedgerLine, name: &Name) -> bool
    ensures { result ≡ model.is_known head.now assume line.now name.now }
{
    match rules_for(head, assume, name.as_str()).assume {
        Assume::Held | Assume::Empty => true,
        Assume::Nothing => is_told_of(line, name),
    }
}

/// The members of the last fragment.
fn last_members(line: &LedgerLine) -> &[Name]
    ensures { result.now ≡ model.last_members line.now }
{
    match line.fragments.as_slice().last() {
        Some(fragment) => fragment.ensemble.as_slice(),
        None => &[],
    }
}

/// Whether that holds of each of these members.
fn are_known(head: &Head, assume: Assume, line: &LedgerLine, members: &[Name]) -> bool
    ensures { result ≡ list_all (model.is_known head.now assume line.now) members.now }
{
    for member in members {
        if !is_known(head, assume, line, member) {
            return false;
        }
    }
    true
}

/// Whether the entries of a ledger that isn't closed are known, or something is assumed.
fn knows_tail(head: &Head, assume: Assume, line: &LedgerLine) -> bool
    ensures { result ≡ model.knows_tail head.now assume line.now }
{
    end_of(line.state).is_some() || are_known(head, assume, line, last_members(line))
}

/// The first of these members of which nothing is known.
fn first_unknown_of<'a>(
    head: &Head,
    assume: Assume,
    line: &LedgerLine,
    members: &'a [Name],
) -> Option<&'a Name>
    ensures { option_copied result ≡ model.first_unknown_of head.now assume line.now members.now }
{
    for member in members {
        if !is_known(head, assume, line, member) {
            return Some(member);
        }
    }
    None
}

/// The first member of the last fragment of a ledger that isn't closed of which nothing is known.
pub(crate) fn first_unknown<'a>(
    head: &Head,
    assume: Assume,
    line: &'a LedgerLine,
) -> Option<&'a Name>
    ensures { option_copied result ≡ model.first_unknown head.now assume line.now }
{
    if end_of(line.state).is_some() {
        return None;
    }
    first_unknown_of(head, assume, line, last_members(line))
}

/// Whether each bookie of which the line tells is in the picture.
fn has_bookies(names: &Names, contents: &[Content]) -> bool
    ensures { result ≡ model.has_bookies names.now contents.now }
{
    for content in contents {
        if names.find(content.bookie.as_str().as_bytes()).is_none() {
            return false;
        }
    }
    true
}

/// Whether the picture shows what it is to show of these bookies and the ledger.
#[tactic(auto, using(crate::proofs::RangeLaws::next_passes))]
fn show_contents(
    head: &Head,
    assume: Assume,
    line: &LedgerLine,
    names: &Names,
    holdings: &[Holding],
) -> bool
    ensures { result ≡ model.show_contents head.now assume line.now names.now holdings.now }
{
    for number in 0..names.len() {
        if !shows_content_at(head, assume, line, names, holdings, number) {
            return false;
        }
    }
    true
}

/// Whether the picture shows the ledger as its line does.
fn shows_ledger(
    head: &Head,
    assume: Assume,
    listing: &Listing,
    line: &LedgerLine,
    ledger: &Ledger,
) -> bool
    ensures { result ≡ model.shows_ledger head.now assume listing.now.names listing.now.holdings.items line.now ledger.now }
{
    has_metadata(&listing.names, line, ledger)
        && bound_of(line) <= ENTRY_END
        && knows_tail(head, assume, line)
        && has_bookies(&listing.names, line.contents.as_slice())
        && show_contents(head, assume, line, &listing.names, &listing.holdings)
}

/// Whether it shows the ledger of this index.
fn shows_ledger_at(
    head: &Head,
    assume: Assume,
    listing: &Listing,
    lines: &[LedgerLine],
    index: usize,
) -> bool
    ensures { result ≡ model.shows_ledger_at head.now assume listing.now.names listing.now.holdings.items
        lines.now listing.now.ledgers.items index }
{
    let Some(line) = lines.get(index) else {
        return false;
    };
    match listing.ledgers.get(index) {
        Some(ledger) => shows_ledger(head, assume, listing, line, ledger),
        None => false,
    }
}

/// Whether it shows so many of these ledgers, from the first on.
#[tactic(auto, using(crate::proofs::RangeLaws::next_passes))]
fn begins_with(
    head: &Head,
    assume: Assume,
    listing: &Listing,
    lines: &[LedgerLine],
    count: usize,
) -> bool
    ensures { result ≡ list_all
        (model.shows_ledger_at head.now assume listing.now.names listing.now.holdings.items lines.now listing.now.ledgers.items)
        (range_with_len 0 count) }
{
    for index in 0..count {
        if !shows_ledger_at(head, assume, listing, lines, index) {
            return false;
        }
    }
    true
}

/// Whether it shows these ledgers, and no others.
pub(crate) fn shows_ledgers(
    head: &Head,
    assume: Assume,
    listing: &Listing,
    lines: &[LedgerLine],
) -> bool
    ensures { result ≡ model.shows_ledgers head.now assume listing.now.names listing.now.holdings.items
        lines.now listing.now.ledgers.items }
{
    listing.ledgers.len() == lines.len() && begins_with(head, assume, listing, lines, lines.len())
}
