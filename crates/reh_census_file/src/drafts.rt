// What the lines of a census have told so far.
ghost use Rattle.std.specs.Prelude.{◌≡◌, ◌<◌, ◌≤◌, ◌+◌, ◌^◌, length, Ok, IfOk, OnErr, OnOk};
ghost use Rattle.std.specs.Option.{option_map};
ghost use Rattle.reh_census.specs.Counting.{ensembles_in, entries_in, tails_in};
ghost use Rattle.reh_census.specs.Tails.{IsTail};
ghost use Rattle.reh_census_file.specs.Drafts as spec;
ghost use Rattle.reh_census_file.specs.LineReading.{seen};
ghost use Rattle.reh_census_file.specs.Reading.{Gives, words_after};

use crate::checks;
use crate::faults::{Expected, LineFault, Part};
use crate::lines::{self, BookieLine};
use crate::lists::{MAX_NAMES, NameList};
use crate::words::MAX_COUNT;
use reh_census::{Bookie, Counted, CountedEnsemble, CountedTail, Judged};
use std::alloc::{AllocError, Global};
use std::marker::Model;

/// What the lines so far have told. Contracts see it without the sums.
#[derive(Drop)]
pub(crate) struct Draft {
    pub names: NameList,
    pub racks: NameList,
    pub bookies: Vec<Bookie>,
    pub judged: Option<Judged>,
    pub entries: Vec<Counted>,
    pub tails: Vec<CountedTail>,
    pub ensembles: Vec<CountedEnsemble>,
    pub entry_count: u64,
    pub tail_count: u64,
    pub ensemble_count: u64,
}

impl Model for Draft {
    ghost use Rattle.reh_census_file.specs.Drafts.{Draft as DraftValue};
    ghost use Rattle.reh_census_file.specs.DraftsInside.{draft_in, IsDraftIn};

    ghost Value = { DraftValue };

    ghost view = { draft_in };

    ghost invariant = { IsDraftIn };
}

/// The number of a rack, if there is one; its name is added as the last, if it isn't there.
fn rack_for(racks: &mut NameList, rack: Option<&str>) -> Result<Option<u16>, AllocError>
    requires { length racks.old < MAX_NAMES }
    ensures number { IfOk result
        (λ number. number ≡ option_map (spec.rack_number racks.old) (option_map (λ name. name.now) rack.entry)) }
    ensures added { OnOk result (racks.new ≡ spec.racks_with racks.old (option_map (λ name. name.now) rack.entry)) }
    ensures err { OnErr result (racks.new ≡ racks.old) }
    ensures few { length racks.new ≤ length racks.old + 1 }
{
    match rack {
        Some(name) => {
            let number = racks.number_for(name)?;
            Ok(Some(number))
        }
        None => Ok(None),
    }
}

impl Draft {
    /// What no lines tell.
    pub fn new(alloc: Global) -> Draft
        ensures { result ≡ spec.no_lines }
    {
        Draft {
            names: NameList::new(alloc),
            racks: NameList::new(alloc),
            bookies: Vec::new(alloc),
            judged: None,
            entries: Vec::new(alloc),
            tails: Vec::new(alloc),
            ensembles: Vec::new(alloc),
            entry_count: 0,
            tail_count: 0,
            ensemble_count: 0,
        }
    }

    /// Which lines have come.
    pub fn part(&self) -> Part
        ensures { result ≡ spec.part_of self.now }
    {
        if self.judged.is_none() {
            return Part::Bookies;
        }
        if !self.ensembles.is_empty() {
            return Part::Ensembles;
        }
        if !self.tails.is_empty() {
            return Part::Tails;
        }
        Part::Entries
    }

    /// Adds a bookie.
    #[tactic(auto, unfolding(crate::specs::Drafts::add_bookie))]
    fn add_bookie(&mut self, line: &BookieLine) -> Result<(), LineFault>
        ensures { Gives (λ _. self.new) result (spec.add_bookie self.old (seen line.now)) }
    {
        if self.names.len() >= MAX_NAMES {
            return Err(LineFault::At(Expected::FewBookies));
        }
        if !checks::is_later_name(&self.names, line.name) {
            return Err(LineFault::At(Expected::LaterBookie));
        }
        if !self.names.add(line.name)? {
            return Err(LineFault::At(Expected::LaterBookie));
        }
        let rack = rack_for(&mut self.racks, line.rack)?;
        self.bookies.push(Bookie {
            is_registered: line.is_registered,
            is_read_only: line.is_read_only,
            is_empty: line.is_empty,
            rack,
        })?;
        Ok(())
    }

    /// Adds what was judged.
    #[tactic(auto, unfolding(crate::specs::Drafts::add_judged))]
    fn add_judged(&mut self, judged: Judged) -> Result<(), LineFault>
        ensures { Gives (λ _. self.new) result (spec.add_judged self.old judged) }
    {
        match judged.unread.checked_add(judged.missing) {
            Some(not_judged) if not_judged <= MAX_COUNT => {
                self.judged = Some(judged);
                Ok(())
            }
            _ => Err(LineFault::At(Expected::FewNotJudged)),
        }
    }

    /// Whether entries of this class, and so many, may come next.
    #[tactic(auto, unfolding(crate::specs::Drafts::add_entries))]
    fn check_entries(&self, counted: &Counted) -> Result<(), LineFault>
        ensures told { Gives (λ _. spec.with_entries self.now counted.now) result (spec.add_entries self.now counted.now) }
        ensures few { OnOk result (entries_in self.now.entries + counted.now.count ≤ 2 ^ 63) }
    {
        if !checks::are_quorums(&counted.class) {
            return Err(LineFault::At(Expected::Quorums));
        }
        if !checks::are_copies(&self.bookies, &counted.class) {
            return Err(LineFault::At(Expected::Copies));
        }
        if !checks::are_later_entries(&self.entries, counted) {
            return Err(LineFault::At(Expected::LaterEntries));
        }
        if counted.count > MAX_COUNT - self.entry_count {
            return Err(LineFault::At(Expected::SmallerCounts));
        }
        Ok(())
    }

    /// Adds entries.
    fn add_entries(&mut self, counted: Counted) -> Result<(), LineFault>
        ensures { Gives (λ _. self.new) result (spec.add_entries self.old counted) }
    {
        self.check_entries(&counted)?;
        let count = counted.count;
        self.entries.push(counted)?;
        self.entry_count += count;
        Ok(())
    }

    /// Whether this tail, and so many ledgers, may come next.
    #[tactic(auto, unfolding(crate::specs::Drafts::add_tail))]
    fn check_tail(&self, counted: &CountedTail) -> Result<(), LineFault>
        requires { length counted.now.tail.ensemble ≡ counted.now.tail.size }
        ensures told { Gives (λ _. spec.with_tail self.now counted.now) result (spec.add_tail self.now counted.now) }
        ensures few { OnOk result (tails_in self.now.tails + counted.now.count ≤ 2 ^ 63) }
        ensures well_formed { OnOk result (IsTail counted.now.tail) }
    {
        if !checks::are_sizes(&counted.tail) {
            return Err(LineFault::At(Expected::Sizes));
        }
        if !checks::is_later_tail(&self.tails, counted) {
            return Err(LineFault::At(Expected::LaterTail));
        }
        if counted.count > MAX_COUNT - self.tail_count {
            return Err(LineFault::At(Expected::SmallerCounts));
        }
        Ok(())
    }

    /// Adds ledgers of a tail.
    fn add_tail(&mut self, counted: CountedTail) -> Result<(), LineFault>
        requires { length counted.tail.ensemble ≡ counted.tail.size }
        ensures { Gives (λ _. self.new) result (spec.add_tail self.old counted) }
    {
        self.check_tail(&counted)?;
        let count = counted.count;
        self.tails.push(counted)?;
        self.tail_count += count;
        Ok(())
    }

    /// Whether this ensemble, and so many fragments, may come next.
    #[tactic(auto, unfolding(crate::specs::Drafts::add_ensemble))]
    fn check_ensemble(&self, counted: &CountedEnsemble) -> Result<(), LineFault>
        ensures told { Gives (λ _. spec.with_ensemble self.now counted.now) result (spec.add_ensemble self.now counted.now) }
        ensures few { OnOk result (ensembles_in self.now.ensembles + counted.now.count ≤ 2 ^ 63) }
    {
        if !checks::are_members(counted.members.as_slice()) {
            return Err(LineFault::At(Expected::Members));
        }
        if !checks::is_later_ensemble(&self.ensembles, counted) {
            return Err(LineFault::At(Expected::LaterEnsemble));
        }
        if counted.count > MAX_COUNT - self.ensemble_count {
            return Err(LineFault::At(Expected::SmallerCounts));
        }
        Ok(())
    }

    /// Adds fragments of an ensemble.
    fn add_ensemble(&mut self, counted: CountedEnsemble) -> Result<(), LineFault>
        ensures { Gives (λ _. self.new) result (spec.add_ensemble self.old counted) }
    {
        self.check_ensemble(&counted)?;
        let count = counted.count;
        self.ensembles.push(counted)?;
        self.ensemble_count += count;
        Ok(())
    }

    /// Takes the line of a bookie.
    #[tactic(auto, unfolding(crate::specs::Drafts::bookie_step))]
    fn take_bookie(&mut self, rest: &[u8]) -> Result<(), LineFault>
        ensures { Gives (λ _. self.new) result (spec.bookie_step self.old (words_after rest.now)) }
    {
        if self.judged.is_some() {
            return Err(LineFault::At(Expected::Line(self.part())));
        }
        let line = lines::bookie_line_at(rest)?;
        self.add_bookie(&line)
    }

    /// Takes the line of what was judged.
    #[tactic(auto, unfolding(crate::specs::Drafts::judged_step))]
    fn take_judged(&mut self, rest: &[u8]) -> Result<(), LineFault>
        ensures { Gives (λ _. self.new) result (spec.judged_step self.old (words_after rest.now)) }
    {
        if self.judged.is_some() {
            return Err(LineFault::At(Expected::Line(self.part())));
        }
        let judged = lines::judged_at(rest)?;
        self.add_judged(judged)
    }

    /// Takes a line of entries.
    #[tactic(auto, unfolding(crate::specs::Drafts::entries_step))]
    fn take_entries(&mut self, alloc: Global, rest: &[u8]) -> Result<(), LineFault>
        ensures { Gives (λ _. self.new) result (spec.entries_step self.old (words_after rest.now)) }
    {
        let part = self.part();
        if !matches!(part, Part::Entries) {
            return Err(LineFault::At(Expected::Line(part)));
        }
        let counted = lines::entries_at(alloc, &self.names, rest)?;
        self.add_entries(counted)
    }

    /// Takes the line of a tail.
    #[tactic(auto, unfolding(crate::specs::Drafts::tail_step))]
    fn take_tail(&mut self, alloc: Global, rest: &[u8]) -> Result<(), LineFault>
        ensures { Gives (λ _. self.new) result (spec.tail_step self.old (words_after rest.now)) }
    {
        if self.judged.is_none() || !self.ensembles.is_empty() {
            return Err(LineFault::At(Expected::Line(self.part())));
        }
        let counted = lines::tail_at(alloc, &self.names, rest)?;
        self.add_tail(counted)
    }

    /// Takes the line of an ensemble.
    #[tactic(auto, unfolding(crate::specs::Drafts::ensemble_step))]
    fn take_ensemble(&mut self, alloc: Global, rest: &[u8]) -> Result<(), LineFault>
        ensures { Gives (λ _. self.new) result (spec.ensemble_step self.old (words_after rest.now)) }
    {
        if self.judged.is_none() {
            return Err(LineFault::At(Expected::Line(self.part())));
        }
        let counted = lines::ensemble_at(alloc, &self.names, rest)?;
        self.add_ensemble(counted)
    }

    /// Takes a line that begins with this word. What an error leaves isn't told.
    #[tactic(auto, unfolding(crate::specs::Drafts::step))]
    pub fn take(&mut self, alloc: Global, first: &[u8], rest: &[u8]) -> Result<(), LineFault>
        ensures { Gives (λ _. self.new) result (spec.step self.old first.now (words_after rest.now)) }
    {
        if first == b"bookie".as_slice() {
            return self.take_bookie(rest);
        }
        if first == b"ledgers".as_slice() {
            return self.take_judged(rest);
        }
        if first == b"entries".as_slice() {
            return self.take_entries(alloc, rest);
        }
        if first == b"tail".as_slice() {
            return self.take_tail(alloc, rest);
        }
        if first == b"ensemble".as_slice() {
            return self.take_ensemble(alloc, rest);
        }
        Err(LineFault::At(Expected::Line(self.part())))
    }
}
