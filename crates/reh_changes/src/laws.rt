// What holds of what is printed of every change.
ghost use Rattle.std.specs.Prelude.{◌≡◌, ◌≢◌, ℕ, ◌/◌, ◌==◌, Bool, ◌&&◌, ◌↔◌, List, [], Some, All};
ghost use Rattle.reh_types.specs.declared.moves.Event.{Event};
ghost use Rattle.reh_model.specs.Cluster.{Cluster};
ghost use Rattle.reh_model.specs.Metadata.{Metadata};
ghost use Rattle.reh_model.specs.Places.{Change, IsDelta};
ghost use Rattle.reh_model.specs.Session.{replay};
ghost use Rattle.reh_changes.specs.Changes.{all_lines, lines_of, metadata_lines};
ghost use Rattle.reh_changes.specs.Ranges.{is_in_one, ranges_in, AreApart};
ghost use Rattle.reh_changes.specs.Told.{AreOfOneLedger, HaveSameLedgers, TellsEntries};

/// An entry is in one of the ranges exactly if it is one of the word's and passes the test, and between two ranges there
/// is an entry that is in neither: so each is as long as it can be.
pub fn ranges_are_exact()
    ensures entries { (number : ℕ) (test : ℕ → Bool) (e : ℕ)
        → is_in_one (ranges_in number test) e ≡ ((e / 64 == number) && test e) }
    ensures apart { (number : ℕ) (test : ℕ → Bool) → AreApart (ranges_in number test) }
{}

/// Where the ledgers of two states are the same, but for what events change, each change of the record that leads from one
/// to the other has a line: so nothing is printed exactly if the states are the same. Nothing is printed of a ledger's
/// metadata exactly if it is the same.
pub fn changes_are_told()
    ensures each { (s t : Cluster) (changes : List Change) → HaveSameLedgers s t → IsDelta s t changes
        → All (λ change. lines_of s change ≢ []) changes }
    ensures none { (s t : Cluster) (changes : List Change) → HaveSameLedgers s t → IsDelta s t changes
        → (all_lines s changes ≡ [] ↔ s ≡ t) }
    ensures entries { (s t : Cluster) (changes : List Change) → IsDelta s t changes → All (TellsEntries s t) changes }
    ensures metadata { (names : List (List ℕ)) (id : ℕ) (was now : Metadata) → AreOfOneLedger was now
        → (metadata_lines names id was now ≡ [] ↔ was ≡ now) }
{}

/// Events keep ledgers the same, but for what they change: where events that are accepted in their places lead from one
/// state to another, and so their undos back.
pub fn events_keep_ledgers()
    ensures on { (s t : Cluster) (events : List Event) → replay s events ≡ Some t → HaveSameLedgers s t }
    ensures back { (s t : Cluster) (events : List Event) → replay s events ≡ Some t → HaveSameLedgers t s }
{}
