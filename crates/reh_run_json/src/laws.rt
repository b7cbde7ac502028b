// What holds of what is written of every change.
ghost use Rattle.std.specs.Prelude.{◌≡◌, ◌≢◌, ◌↔◌, ℕ, List, [], All, flat_map};
ghost use Rattle.reh_model.specs.Cluster.{Cluster};
ghost use Rattle.reh_model.specs.Metadata.{Metadata};
ghost use Rattle.reh_model.specs.Places.{Change, IsDelta};
ghost use Rattle.reh_changes.specs.Told.{AreOfOneLedger, HaveSameLedgers};
ghost use Rattle.reh_run_json.specs.Changes.{change_objects, metadata_changes};

/// Where the ledgers of two states are the same, but for what events change, each change of the record that leads from one
/// to the other has an object: so there is none exactly if the states are the same. There is none of a ledger's metadata
/// exactly if it is the same.
pub fn changes_have_objects()
    ensures each { (s t : Cluster) (changes : List Change) → HaveSameLedgers s t → IsDelta s t changes
        → All (λ change. change_objects s change ≢ []) changes }
    ensures none { (s t : Cluster) (changes : List Change) → HaveSameLedgers s t → IsDelta s t changes
        → (flat_map (change_objects s) changes ≡ [] ↔ s ≡ t) }
    ensures metadata { (names : List (List ℕ)) (id : ℕ) (was now : Metadata) → AreOfOneLedger was now
        → (metadata_changes names id was now ≡ [] ↔ was ≡ now) }
{}
