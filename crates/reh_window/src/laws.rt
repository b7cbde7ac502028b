// Laws: what a window says of its entries is what the ledger says of them.
ghost use Rattle.std.specs.Prelude.{◌≡◌, ◌<◌, ◌≤◌, ◌-◌, ◌%◌, ℕ, Bool, List, true, false};
ghost use Rattle.std.specs.List.{list_any};
ghost use Rattle.reh_census.specs.declared.ledgers.Range.{Range};
ghost use Rattle.reh_census.specs.Ledgers.{is_within};
ghost use Rattle.reh_inventory.specs.declared.contents.Content.{Content};
ghost use Rattle.reh_inventory.specs.declared.ledgers.Fragment.{Fragment};
ghost use Rattle.reh_inventory.specs.declared.ledgers.LedgerLine.{LedgerLine};
ghost use Rattle.reh_inventory_census.specs.Shown.{content_says};
ghost use Rattle.reh_model.specs.Striping.{is_striped};
ghost use Rattle.reh_window.specs.declared.spans.Span.{Span};
ghost use Rattle.reh_window.specs.Members.{are_rising, begin_after, ensemble_at};
ghost use Rattle.reh_window.specs.Windows as model;

/// An entry of a window, counted from the window's start on, is striped onto the same indexes of an ensemble: its number has
/// the same rest by the ensemble size (`rest`), and the same indexes carry it (`carried`).
pub fn a_window_stripes_entries_as_the_ledger()
    ensures rest { (line : LedgerLine) (window entry : ℕ)
        → (model.span_of window line).start ≤ entry
        → (entry - (model.span_of window line).start) % line.sizes.ensemble
        ≡ entry % line.sizes.ensemble }
    ensures carried { (line : LedgerLine) (window entry index quorum : ℕ)
        → (model.span_of window line).start ≤ entry
        → is_striped (entry - (model.span_of window line).start) index line.sizes.ensemble quorum
        ≡ is_striped entry index line.sizes.ensemble quorum }
{}

/// What a window's content says of an entry is what the ledger's content says of it (`says`), and its ranges have the entry
/// where the ledger's have it (`lists`).
pub fn a_window_says_the_same()
    ensures says { (span : Span) (strict stops : Bool) (content : Content) (entry : ℕ)
        → span.start ≤ entry → entry < span.stop
        → content_says strict stops (entry - span.start) (model.content_in span content)
        ≡ content_says strict stops entry content }
    ensures lists { (span : Span) (ranges : List Range) (entry : ℕ)
        → span.start ≤ entry → entry < span.stop
        → list_any (is_within (entry - span.start)) (model.ranges_in span ranges)
        ≡ list_any (is_within entry) ranges }
{}

/// The fragment of an entry has the same members in a window, where fragments rise, the first of them from the entry or an
/// earlier one on.
pub fn a_window_has_the_same_members()
    ensures { (span : Span) (fragments : List Fragment) (entry : ℕ)
        → are_rising fragments ≡ true → begin_after entry fragments ≡ false
        → span.start ≤ entry → entry < span.stop
        → ensemble_at (entry - span.start) (model.fragments_in span fragments)
        ≡ ensemble_at entry fragments }
{}
