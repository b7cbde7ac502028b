// An inventory as a whole, line after line.
ghost use Rattle.std.specs.Prelude.{◌≡◌, ◌≢◌, ◌<◌, ◌^◌, Ok, Err, length, option_map, IfErr, IfOk, OnErr, OnOk};
ghost use Rattle.std.specs.Result.{result_err};
ghost use Rattle.reh_inventory.specs.Inventories as model;

use crate::heads::Head;
use crate::ledgers::LedgerLine;
use crate::lines::{Line, read_line};
use indexmap::IndexSet;
use reh_inventory_fields::{Fault, LineFault};
use std::alloc::{AllocError, AllocFailed, Global};
use std::fmt;
use std::marker::Model;
use thiserror::Error;

/// Why a line can't be the next one of an inventory.
#[derive(Clone, Copy, Error)]
pub enum InventoryFault {
    /// The line by itself has this fault.
    Line(LineFault),
    /// It isn't a first line, and none came before.
    NoHead,
    /// It is a first line, and one came before.
    SecondHead,
    /// It follows the last line.
    AfterEnd,
    /// A line before it has this ledger, too.
    Twice(u64),
    /// It is a last line, and so many lines of ledgers came before.
    OtherCount(u64),
    /// There is no memory to read the line.
    NoMemory,
}

impl fmt::Display for InventoryFault {
    ghost use Rattle.std.specs.Prelude.{Some};
    ghost use Rattle.reh_inventory.specs.Inventories.{fault_text};

    ghost output = { λ fault. Some (fault_text fault) };

    fn fmt<W: fmt::Write>(&self, f: &mut fmt::Formatter<W>) -> fmt::Result {
        match self {
            InventoryFault::Line(fault) => fmt::Display::fmt(fault, f),
            InventoryFault::NoHead => {
                f.write_str("expected a first line, with the field inventory")
            },
            InventoryFault::SecondHead => {
                f.write_str("expected no second line with the field inventory")
            },
            InventoryFault::AfterEnd => f.write_str("expected no line after the last one"),
            InventoryFault::Twice(id) => {
                write!(
                    f,
                    "id: expected another ledger than {id}, which a line before has"
                )
            }
            InventoryFault::OtherCount(ledgers) => {
                write!(
                    f,
                    "ledgers: expected {ledgers}, the number of lines of ledgers"
                )
            }
            InventoryFault::NoMemory => f.write_str("expected more memory"),
        }
    }
}

/// Its text.
impl fmt::Debug for InventoryFault {
    fn fmt<W: fmt::Write>(&self, f: &mut fmt::Formatter<W>) -> fmt::Result {
        fmt::Display::fmt(self, f)
    }
}

impl From<AllocError> for InventoryFault {
    ghost use Rattle.std.specs.Prelude.{◌≡◌};
    ghost use Rattle.reh_inventory.specs.declared.inventories.InventoryFault.TheVariants.{NoMemory};

    ghost from_gives = { λ _ fault. fault ≡ NoMemory };

    fn from(_want: AllocError) -> InventoryFault {
        InventoryFault::NoMemory
    }
}

impl<T: Drop> From<AllocFailed<T>> for InventoryFault {
    ghost use Rattle.std.specs.Prelude.{◌≡◌};
    ghost use Rattle.reh_inventory.specs.declared.inventories.InventoryFault.TheVariants.{NoMemory};

    ghost from_gives = { λ _ fault. fault ≡ NoMemory };

    fn from(want: AllocFailed<T>) -> InventoryFault {
        InventoryFault::from(AllocError::from(want))
    }
}

/// What lines of an inventory say so far: the first line, the ids of the ledgers, how many of them could not be read, and
/// whether the last line came.
#[derive(Drop)]
pub struct Inventory {
    head: Option<Head>,
    ids: IndexSet<u64>,
    unread: u64,
    is_whole: bool,
}

impl Model for Inventory {
    ghost use Rattle.std.specs.Prelude.{◌≤◌, length};
    ghost use Rattle.reh_inventory.specs.Inventories as model;

    ghost Value = { model.Inventory };

    ghost view = { λ inventory. record {
      head = inventory.head;
      ids = inventory.ids.keys;
      unread = inventory.unread;
      is_whole = inventory.is_whole;
    } };

    ghost invariant = { λ inventory. inventory.unread ≤ length inventory.ids.keys };
}

/// A fault of a line by itself, or that there is no memory to read it.
fn line_fault(located: LineFault) -> InventoryFault
    ensures memory { located.fault ≡ Fault.NoMemory → result ≡ InventoryFault.NoMemory }
    ensures line { located.fault ≢ Fault.NoMemory → result ≡ InventoryFault.Line located }
{
    match located.fault {
        Fault::NoMemory => InventoryFault::NoMemory,
        _ => InventoryFault::Line(located),
    }
}

impl Inventory {
    /// An inventory of which no line came.
    pub fn new(alloc: Global) -> Inventory
        ensures { result ≡ model.no_lines }
    {
        Inventory {
            head: None,
            ids: IndexSet::new(alloc),
            unread: 0,
            is_whole: false,
        }
    }

    /// An inventory of which the first line came, and no other.
    pub fn of_head(alloc: Global, head: Head) -> Inventory
        ensures { model.added model.no_lines (Line.Head head) ≡ Ok result }
    {
        Inventory {
            head: Some(head),
            ids: IndexSet::new(alloc),
            unread: 0,
            is_whole: false,
        }
    }

    /// The first line, if it came.
    pub fn head(&self) -> Option<&Head>
        ensures { option_map (λ head. head.now) result ≡ self.now.head }
    {
        self.head.as_ref()
    }

    /// The ids of the ledgers, in the order of their lines.
    pub fn ids(&self) -> &[u64]
        ensures { result.now ≡ self.now.ids }
    {
        self.ids.as_slice()
    }

    /// How many lines of ledgers came, with those of ledgers that could not be read.
    pub fn ledgers(&self) -> u64
        ensures count { result ≡ length self.now.ids }
        ensures few { length self.now.ids < 2 ^ 63 }
    {
        self.ids.len() as u64
    }

    /// How many ledgers could not be read.
    pub fn unread(&self) -> u64
        ensures { result ≡ self.now.unread }
    {
        self.unread
    }

    /// Whether the last line came: without it the file was cut.
    pub fn is_whole(&self) -> bool
        ensures { result ≡ self.now.is_whole }
    {
        self.is_whole
    }

    /// The fault of a further ledger of this id, if it has one.
    fn check_ledger(&self, id: u64) -> Result<(), InventoryFault>
        ensures { result_err result ≡ model.ledger_fault self.now id }
    {
        if self.head.is_none() {
            return Err(InventoryFault::NoHead);
        }
        if self.ids.contains(&id) {
            return Err(InventoryFault::Twice(id));
        }
        Ok(())
    }

    /// The fault of a last line that tells this number of lines of ledgers, if it has one.
    fn check_end(&self, told: u64, ledgers: u64) -> Result<(), InventoryFault>
        requires { ledgers ≡ length self.now.ids }
        ensures { result_err result ≡ model.end_fault self.now told }
    {
        if self.head.is_none() {
            return Err(InventoryFault::NoHead);
        }
        if told != ledgers {
            return Err(InventoryFault::OtherCount(ledgers));
        }
        Ok(())
    }

    /// The fault of a line as the next one, if it has one.
    fn check(&self, line: &Line) -> Result<(), InventoryFault>
        ensures fault { result_err result ≡ model.order_fault self.now line.now }
        ensures few { length self.now.ids < 2 ^ 63 }
    {
        let ledgers = self.ledgers();
        if self.is_whole {
            return Err(InventoryFault::AfterEnd);
        }
        match line {
            Line::Head(_) if self.head.is_some() => Err(InventoryFault::SecondHead),
            Line::Head(_) => Ok(()),
            Line::Ledger(ledger) => self.check_ledger(ledger.id),
            Line::Unread(id) => self.check_ledger(*id),
            Line::End(told) => self.check_end(*told, ledgers),
        }
    }

    /// Adds a line that was read, and hands a ledger back that it has. After an `Err` nothing has changed.
    pub fn add_line(&mut self, line: Line) -> Result<Option<LedgerLine>, InventoryFault>
        ensures added { OnOk result (model.added self.old line ≡ Ok self.new) }
        ensures ledger { IfOk result (λ ledger. ledger ≡ model.ledger_of line) }
        ensures fault { IfErr result (λ fault. fault ≢ InventoryFault.NoMemory
            → model.added self.old line ≡ Err fault) }
        ensures err { OnErr result (self.new ≡ self.old) }
    {
        self.check(&line)?;
        match line {
            Line::Head(head) => {
                self.head = Some(head);
                Ok(None)
            }
            Line::Ledger(ledger) => {
                self.ids.insert(ledger.id)?;
                Ok(Some(ledger))
            }
            Line::Unread(id) => {
                self.ids.insert(id)?;
                self.unread += 1;
                Ok(None)
            }
            Line::End(_) => {
                self.is_whole = true;
                Ok(None)
            }
        }
    }

    /// Adds a line with the ledger of this id: what an inventory says of a ledger is its id alone. After an `Err` nothing has
    /// changed.
    pub fn add_ledger(&mut self, id: u64) -> Result<(), InventoryFault>
        ensures added { OnOk result (model.added_ledger self.old id ≡ Ok self.new) }
        ensures fault { IfErr result (λ fault. fault ≢ InventoryFault.NoMemory
            → model.added_ledger self.old id ≡ Err fault) }
        ensures err { OnErr result (self.new ≡ self.old) }
    {
        if self.is_whole {
            return Err(InventoryFault::AfterEnd);
        }
        self.check_ledger(id)?;
        self.ids.insert(id)?;
        Ok(())
    }

    /// Adds the next line, and hands a ledger back that it has. After an `Err` nothing has changed.
    ///
    /// `NoMemory` comes only where a growth was refused, and may then stand in place of any other answer.
    pub fn add(&mut self, alloc: Global, bytes: &[u8]) -> Result<Option<LedgerLine>, InventoryFault>
        ensures added { OnOk result (model.added_bytes self.old bytes.now ≡ Ok self.new) }
        ensures ledger { IfOk result (λ ledger. ledger ≡ model.ledger_in bytes.now) }
        ensures fault { IfErr result (λ fault. fault ≢ InventoryFault.NoMemory
            → model.added_bytes self.old bytes.now ≡ Err (model.without_column fault)) }
        ensures err { OnErr result (self.new ≡ self.old) }
    {
        match read_line(alloc, bytes) {
            Ok(line) => self.add_line(line),
            Err(fault) => Err(line_fault(fault)),
        }
    }
}
