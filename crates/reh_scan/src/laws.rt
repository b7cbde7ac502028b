// What holds of every survey.
ghost use Rattle.std.specs.Prelude.{◌≡◌, map, Some};
ghost use Rattle.reh_model.specs.Cluster.{Cluster};
ghost use Rattle.reh_model.specs.Survey.{line_at, survey};
ghost use Rattle.reh_model.specs.WellFormed.{IsWellFormed};
ghost use Rattle.reh_scan.specs.Surveys.{places};

/// A survey is the list of the lines of all places, in picture order: of each ledger's fragments, by their numbers.
pub fn surveys_list_places()
    ensures { (s : Cluster) → IsWellFormed s → map Some (survey s) ≡ map (λ p. line_at s p.0 p.1) (places s) }
{}
