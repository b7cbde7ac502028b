// How much there is in an inventory, and the object that says it.
ghost use Rattle.std.specs.Prelude.{◌≡◌, OnOk, IfOk, count_by, option_map, string_bytes};
ghost use Rattle.json.specs.Tree.{json_tokens};
ghost use Rattle.reh_answer.specs.Objects.{Adds, IsLineOf};
ghost use Rattle.reh_check_json.specs.Inventories as model;

use json::Writer;
use reh_answer::{add_number, add_text, text_in};
use reh_inventory::{Bookie, Head, Inventory};
use std::alloc::{AllocError, Global};
use std::fmt;

/// How many bookies and ledgers an inventory has, of those lines that came. Its text has a line for each.
#[derive(Clone, Copy, PartialEq, Eq, Debug)]
pub struct InventoryCounts {
    /// All bookies.
    pub bookies: usize,
    /// Those that are registered.
    pub up: usize,
    /// All ledgers.
    pub ledgers: u64,
    /// Those that could not be read.
    pub unread: u64,
}

impl InventoryCounts {
    /// The counts of an inventory.
    pub fn of(inventory: &Inventory) -> InventoryCounts
        ensures { result ≡ model.counts_of inventory.now }
    {
        let bookies = bookies_of(inventory.head());
        InventoryCounts {
            bookies: bookies.len(),
            up: count_up(bookies),
            ledgers: inventory.ledgers(),
            unread: inventory.unread(),
        }
    }
}

impl fmt::Display for InventoryCounts {
    ghost use Rattle.std.specs.Prelude.{Some};
    ghost use Rattle.reh_check_json.specs.Inventories.{counts_text};

    ghost output = { λ counts. Some (counts_text counts) };

    fn fmt<W: fmt::Write>(&self, f: &mut fmt::Formatter<W>) -> fmt::Result {
        write!(
            f,
            "bookies {} up {}\nledgers {} unread {}",
            self.bookies, self.up, self.ledgers, self.unread
        )
    }
}

/// The bookies of the first line, if it came.
fn bookies_of<'a>(head: Option<&'a Head>) -> &'a [Bookie]
    ensures { result.now ≡ model.bookies_of (option_map (λ head. head.now) head.entry) }
{
    match head {
        Some(head) => head.bookies.as_slice(),
        None => &[],
    }
}

/// How many bookies are registered.
fn count_up(bookies: &[Bookie]) -> usize
    ensures { result ≡ count_by (λ b. b.is_up) bookies.now }
{
    bookies.iter().filter(|bookie| bookie.is_up).count()
}

/// Adds the object.
fn add_all(json: &mut Writer<Global>, counts: &InventoryCounts) -> Result<(), AllocError>
    ensures { OnOk result (Adds (json_tokens (model.inventory_value counts.now)) json.old json.new) }
{
    json.begin_object()?;
    add_text(json, "input", "inventory")?;
    add_number(json, "bookies", counts.bookies as u64)?;
    add_number(json, "up", counts.up as u64)?;
    add_number(json, "ledgers", counts.ledgers)?;
    add_number(json, "unread", counts.unread)?;
    json.end_object()
}

/// How much there is in an inventory, as JSON: one object, on one line.
pub fn inventory_json(alloc: Global, counts: &InventoryCounts) -> Result<String, AllocError>
    ensures text { IfOk result (λ text. string_bytes text ≡ model.inventory_text counts.now) }
    ensures reads_back { IfOk result (λ text. IsLineOf (model.inventory_value counts.now) (string_bytes text)) }
{
    let mut json = Writer::new(Vec::new(alloc));
    add_all(&mut json, counts)?;
    let mut text = text_in(json)?;
    text.push_str("\n")?;
    Ok(text)
}
