// What holds of the auditor's finds in every cluster.
ghost use Rattle.std.specs.Prelude.{◌≡◌, ℕ};
ghost use Rattle.std.specs.Option.{ForSome};
ghost use Rattle.reh_model.specs.Cluster.{Cluster, ledger_at};
ghost use Rattle.reh_model.specs.Audit.{long_lost_members, missing_members};
ghost use Rattle.reh_model.specs.WellFormed.{IsWellFormed};

/// Where the delay for lost bookies is 0, the long-lost members of a ledger are the missing ones, so an audit publishes
/// every loss at once.
pub fn without_delay_the_missing_are_long_lost()
    ensures { (s : Cluster) → IsWellFormed s → s.delay ≡ 0 → (l : ℕ)
        → ForSome (ledger_at s l) (λ g. long_lost_members s g ≡ missing_members s g) }
{}
