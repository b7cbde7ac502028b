// The picture that is written, as JSON. No contract says what it is: it is read back, and compared with the lines.
use crate::checks::{bookie_in, content_of, entries_of, names_bookie, rules_for, striping_of};
use crate::faults::CutFault;
use crate::said::{Assume, Rules, Striping, is_sure, shown};
use json::Writer;
use reh_answer::{add_number, add_text};
use reh_census_file::NameList;
use reh_inventory::{Bookie, Content, Fragment, Head, LedgerLine, LedgerState, Name, Sizes};
use reh_types::ENTRIES_IN_WORD;
use std::alloc::{AllocError, Global};

/// The number of the format without a delay for lost bookies, and of the one with it.
const FORMATS: (u64, u64) = (1, 2);

/// A picture, as text, and how many words the entries take that its bookies hold.
#[derive(Drop)]
pub(crate) struct Written {
    pub(crate) text: String,
    pub(crate) words: u64,
}

/// The picture of these ledgers, with bookies of these names.
pub(crate) fn picture_text(
    alloc: Global,
    head: &Head,
    assume: Assume,
    names: &NameList,
    lines: &[LedgerLine],
) -> Result<Written, CutFault> {
    let mut json = Writer::new(Vec::new(alloc));
    let words = add_picture(&mut json, alloc, head, assume, names, lines)?;
    let words = words.saturating_mul(names.len() as u64);
    match String::from_utf8(json.into_inner()) {
        Ok(text) => Ok(Written { text, words }),
        Err(_) => Err(CutFault::Differs),
    }
}

/// Adds the picture, and says how many words each bookie takes. The members of this object, and of each below it, are in the
/// order of their names.
fn add_picture(
    json: &mut Writer<Global>,
    alloc: Global,
    head: &Head,
    assume: Assume,
    names: &NameList,
    lines: &[LedgerLine],
) -> Result<u64, CutFault> {
    json.begin_object()?;
    add_bookies(json, head, names)?;
    let words = add_contents(json, alloc, head, assume, names, lines)?;
    add_times_and_ledgers(json, head, lines)?;
    Ok(words)
}

/// Adds the format, the times and the ledgers, and ends the picture.
fn add_times_and_ledgers(
    json: &mut Writer<Global>,
    head: &Head,
    lines: &[LedgerLine],
) -> Result<(), AllocError> {
    let format = if head.delay == 0 {
        FORMATS.0
    } else {
        FORMATS.1
    };
    add_number(json, "format", format)?;
    add_number(json, "grace", head.grace)?;
    add_ledgers(json, lines)?;
    if head.delay != 0 {
        add_number(json, "lostDelayTicks", head.delay)?;
    }
    json.end_object()
}

/// Adds the bookies of these names.
fn add_bookies(json: &mut Writer<Global>, head: &Head, names: &NameList) -> Result<(), AllocError> {
    json.key("bookies")?;
    json.begin_array()?;
    for number in 0..names.len() {
        if let Some(name) = names.name(number as u16) {
            add_bookie(json, name, bookie_in(head, name))?;
        }
    }
    json.end_array()
}

/// Adds a bookie, with its marks; one that the first line doesn't have isn't registered.
fn add_bookie(
    json: &mut Writer<Global>,
    name: &str,
    bookie: Option<&Bookie>,
) -> Result<(), AllocError> {
    json.begin_object()?;
    match bookie {
        Some(bookie) => add_marks(json, bookie)?,
        None => {
            add_text(json, "name", name)?;
            add_flag(json, "up", false)?;
        }
    }
    json.end_object()
}

/// Adds the name and the marks of a bookie.
fn add_marks(json: &mut Writer<Global>, bookie: &Bookie) -> Result<(), AllocError> {
    add_flag(json, "empty", bookie.is_empty)?;
    add_text(json, "name", bookie.name.as_str())?;
    if let Some(rack) = &bookie.rack {
        add_text(json, "rack", rack.as_str())?;
    }
    add_flag(json, "readOnly", bookie.is_read_only)?;
    add_flag(json, "up", bookie.is_up)
}

/// Adds under a name whether something is so.
fn add_flag(json: &mut Writer<Global>, name: &str, is: bool) -> Result<(), AllocError> {
    json.key(name)?;
    json.boolean(is)
}

/// Adds the ledgers of these lines.
fn add_ledgers(json: &mut Writer<Global>, lines: &[LedgerLine]) -> Result<(), AllocError> {
    json.key("ledgers")?;
    json.begin_array()?;
    for line in lines {
        add_ledger(json, line)?;
    }
    json.end_array()
}

/// Adds a ledger. Where its version isn't told, it is 0.
fn add_ledger(json: &mut Writer<Global>, line: &LedgerLine) -> Result<(), AllocError> {
    json.begin_object()?;
    add_sizes(json, line.sizes)?;
    add_fragments(json, line.fragments.as_slice())?;
    add_number(json, "id", line.id)?;
    add_state(json, line.state)?;
    add_number(json, "version", line.version.unwrap_or(0))?;
    add_number(json, "writeQuorumSize", line.sizes.write_quorum)?;
    json.end_object()
}

/// Adds the size of the ack quorum and of the ensemble.
fn add_sizes(json: &mut Writer<Global>, sizes: Sizes) -> Result<(), AllocError> {
    add_number(json, "ackQuorumSize", sizes.ack_quorum)?;
    add_number(json, "ensembleSize", sizes.ensemble)
}

/// Adds the last entry and the state.
fn add_state(json: &mut Writer<Global>, state: LedgerState) -> Result<(), AllocError> {
    let (word, last) = match state {
        LedgerState::Open => ("OPEN", -1),
        LedgerState::InRecovery => ("IN_RECOVERY", -1),
        LedgerState::Closed { end } => ("CLOSED", i64::try_from(end).map_or(-1, |end| end - 1)),
    };
    json.key("lastEntryId")?;
    json.i64(last)?;
    add_text(json, "state", word)
}

/// Adds the fragments.
fn add_fragments(json: &mut Writer<Global>, fragments: &[Fragment]) -> Result<(), AllocError> {
    json.key("fragments")?;
    json.begin_array()?;
    for fragment in fragments {
        add_fragment(json, fragment)?;
    }
    json.end_array()
}

/// Adds a fragment.
fn add_fragment(json: &mut Writer<Global>, fragment: &Fragment) -> Result<(), AllocError> {
    json.begin_object()?;
    add_members(json, fragment.ensemble.as_slice())?;
    add_number(json, "firstEntry", fragment.first)?;
    json.end_object()
}

/// Adds the members of an ensemble.
fn add_members(json: &mut Writer<Global>, members: &[Name]) -> Result<(), AllocError> {
    json.key("ensemble")?;
    json.begin_array()?;
    for member in members {
        json.string(member.as_str())?;
    }
    json.end_array()
}

/// Adds what bookies of these names hold of these ledgers, and says how many words of them each bookie takes.
fn add_contents(
    json: &mut Writer<Global>,
    alloc: Global,
    head: &Head,
    assume: Assume,
    names: &NameList,
    lines: &[LedgerLine],
) -> Result<u64, CutFault> {
    json.key("contents")?;
    json.begin_array()?;
    let mut words: u64 = 0;
    for line in lines {
        let end = add_contents_of(json, alloc, head, assume, names, line)?;
        words = words.saturating_add(end.div_ceil(ENTRIES_IN_WORD));
    }
    json.end_array()?;
    Ok(words)
}

/// Adds what they hold of a ledger: each member of an ensemble, and each bookie of which the line tells. Says where the entries
/// end that are held.
fn add_contents_of(
    json: &mut Writer<Global>,
    alloc: Global,
    head: &Head,
    assume: Assume,
    names: &NameList,
    line: &LedgerLine,
) -> Result<u64, CutFault> {
    let mut end = 0;
    for number in 0..names.len() {
        if let Some(name) = names.name(number as u16) {
            if names_bookie(line, name) {
                let rules = rules_for(head, assume, name);
                let holding = gather(alloc, rules, line, name)?;
                add_content(json, line.id, name, &holding)?;
                end = holding.end().max(end);
            }
        }
    }
    Ok(end)
}

/// Looks through what a bookie holds of a ledger.
fn gather(
    alloc: Global,
    rules: Rules,
    line: &LedgerLine,
    name: &str,
) -> Result<Gathered, CutFault> {
    let mut holding = Gathered {
        ranges: Vec::new(alloc),
        is_assumed: false,
    };
    for fragment in 0..line.fragments.as_slice().len() {
        let striping = striping_of(line, fragment, name);
        let (first, end) = entries_of(line, fragment);
        let content = content_of(line, name);
        if !holding.add(rules, &striping, content, first, end)? {
            return Err(CutFault::Untold(line.id, Name::new(alloc, name)?));
        }
    }
    Ok(holding)
}

/// Adds what was gathered of a bookie and a ledger.
fn add_content(
    json: &mut Writer<Global>,
    ledger: u64,
    name: &str,
    holding: &Gathered,
) -> Result<(), AllocError> {
    json.begin_object()?;
    add_flag(json, "assumed", holding.is_assumed)?;
    add_text(json, "bookie", name)?;
    json.key("entries")?;
    json.begin_array()?;
    add_ranges(json, &holding.ranges)?;
    json.end_array()?;
    add_number(json, "ledger", ledger)?;
    json.end_object()
}

/// What a bookie holds of a ledger, as far as that was looked through.
#[derive(Drop)]
struct Gathered {
    ranges: Vec<(u64, u64)>,
    is_assumed: bool,
}

impl Gathered {
    /// Adds those from the first entry up to the end that the bookie holds, and says whether each is known or assumed.
    fn add(
        &mut self,
        rules: Rules,
        striping: &Striping,
        content: Option<&Content>,
        first: u64,
        end: u64,
    ) -> Result<bool, AllocError> {
        for entry in first..end {
            match shown(rules, striping, content, entry) {
                Some(true) => self.push(entry)?,
                Some(false) => {}
                None => return Ok(false),
            }
            self.is_assumed = self.is_assumed || !is_sure(striping, content, entry);
        }
        Ok(true)
    }

    /// One past the last entry that the bookie holds, 0 where it holds none.
    fn end(&self) -> u64 {
        match self.ranges.last() {
            Some(range) => range.1.saturating_add(1),
            None => 0,
        }
    }

    /// Adds an entry.
    fn push(&mut self, entry: u64) -> Result<(), AllocError> {
        match self.ranges.last_mut() {
            Some(range) if range.1.saturating_add(1) == entry => range.1 = entry,
            _ => self.ranges.push((entry, entry))?,
        }
        Ok(())
    }
}

/// Adds ranges of entries.
fn add_ranges(json: &mut Writer<Global>, ranges: &[(u64, u64)]) -> Result<(), AllocError> {
    for range in ranges {
        json.begin_array()?;
        json.u64(range.0)?;
        json.u64(range.1)?;
        json.end_array()?;
    }
    Ok(())
}
