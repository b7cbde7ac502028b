// The lines of an inventory.
ghost use Rattle.std.specs.Prelude.{◌≡◌, ◌≢◌, Ok, Err, MatchResult, IfOk, IfErr};
ghost use Rattle.std.specs.Result.{result_err};
ghost use Rattle.serde_json.specs.View.{view};
ghost use Rattle.reh_inventory_fields.specs.Faults.{FailsAt};
ghost use Rattle.reh_inventory_fields.specs.Members.{number_of};
ghost use Rattle.reh_inventory.specs.Lines as model;

use crate::heads::{Head, read_head};
use crate::ledgers::{LedgerLine, read_ledger};
use reh_inventory_fields::members::{MAX_NUMBER, flag, flag_if_there, has, number_within};
use reh_inventory_fields::{Fault, Field, LineFault, Place};
use serde_json::Value;
use std::alloc::Global;

/// What a line of an inventory says.
#[derive(Drop)]
pub enum Line {
    /// The first line.
    Head(Head),
    /// A ledger.
    Ledger(LedgerLine),
    /// The id of a ledger that could not be read.
    Unread(u64),
    /// The last line, with the number of the ledgers' lines.
    End(u64),
}

/// What a line says, or its first fault with its place.
///
/// `NoMemory` comes only where a growth was refused, and may then stand in place of any other answer.
pub fn read_line(alloc: Global, bytes: &[u8]) -> Result<Line, LineFault>
    ensures { MatchResult result (λ line. model.located_line_of bytes.now ≡ Ok line)
        (λ located. located.fault ≢ Fault.NoMemory
        → model.located_line_of bytes.now ≡ Err (located.fault, located.place)) }
{
    let value = read_json(alloc, bytes)?;
    read_value(alloc, &value)
}

/// The JSON value of a line's bytes.
fn read_json(alloc: Global, bytes: &[u8]) -> Result<Value, LineFault>
    ensures ok { IfOk result (λ v. model.json_in bytes.now ≡ Ok (view v)) }
    ensures err { IfErr result (λ located. located.fault ≢ Fault.NoMemory
        → model.json_in bytes.now ≡ Err (located.fault, located.place)) }
{
    Ok(Value::from_slice(alloc, bytes)?)
}

/// What a JSON value says.
fn read_value(alloc: Global, line: &Value) -> Result<Line, LineFault>
    ensures fault { FailsAt result (model.line_fault (view line.now)) }
    ensures line { IfOk result (λ read. read ≡ model.line_in (view line.now)) }
{
    if !line.is_object() {
        return Err(LineFault::new(Fault::WrongKind(Field::Line), Place::Line));
    }
    if has(line, Field::Inventory) {
        let head = read_head(alloc, line)?;
        return Ok(Line::Head(head));
    }
    if has(line, Field::End) {
        let ledgers = read_end(line)?;
        return Ok(Line::End(ledgers));
    }
    read_ledger_line(alloc, line)
}

/// The number of the ledgers' lines that the last line names.
fn read_end(line: &Value) -> Result<u64, Fault>
    ensures fault { result_err result ≡ model.end_fault (view line.now) }
    ensures ledgers { IfOk result
        (λ ledgers. number_of (view line.now) Field.Ledgers ≡ ledgers) }
{
    if !flag(line, Field::End)? {
        return Err(Fault::Limit(Field::End));
    }
    number_within(line, Field::Ledgers, 0, MAX_NUMBER)
}

/// The line of a ledger, which may be one that could not be read.
fn read_ledger_line(alloc: Global, line: &Value) -> Result<Line, LineFault>
    ensures fault { FailsAt result (model.ledger_line_fault (view line.now)) }
    ensures line { IfOk result (λ read. read ≡ model.ledger_line_in (view line.now)) }
{
    if flag_if_there(line, Field::Unread)? {
        let id = number_within(line, Field::Id, 0, MAX_NUMBER)?;
        return Ok(Line::Unread(id));
    }
    let ledger = read_ledger(alloc, line)?;
    Ok(Line::Ledger(ledger))
}
