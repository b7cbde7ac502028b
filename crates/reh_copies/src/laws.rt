// What holds of the state that a rehearsal reads of a picture, and of what a question about the same picture counts.
ghost use Rattle.std.specs.Prelude.{◌≡◌, ℕ, Bool, true, false, All, List, [], ◌∷◌, ◌++◌, Some, count_by, length, slice_get, sum_by};
ghost use Rattle.std.specs.List.{Contains};
ghost use Rattle.reh_census.specs.Counting.{IsCensus, count_in};
ghost use Rattle.reh_census.specs.Ledgers.{Ledger as Counted};
ghost use Rattle.reh_census_file.specs.Values.{NamedCensus};
ghost use Rattle.reh_types.specs.declared.moves.Event.TheVariants.{Lose, Join};
ghost use Rattle.reh_model.specs.Metadata.{Fragment, stop_of, writes};
ghost use Rattle.reh_model.specs.Cluster.{Cluster, Ledger, is_readable, is_source, is_up};
ghost use Rattle.reh_model.specs.Step.{after};
ghost use Rattle.reh_model.specs.Survey.{lost_of, survey};
ghost use Rattle.reh_picture.specs.declared.listings.Listed.{Listed};
ghost use Rattle.reh_picture.specs.Counts.{is_closed};
ghost use Rattle.reh_inputs.specs.declared.inputs.Input.{Input};
ghost use Rattle.reh_inputs.specs.declared.inputs.Input.TheVariants.{Picture, Census};
ghost use Rattle.reh_inputs.specs.declared.ledgers.Reading.TheVariants as reading;
ghost use Rattle.reh_inputs.specs.declared.together.Gathered.{Gathered};
ghost use Rattle.reh_inputs.specs.Gathered.{Gathers, holders_of, is_held, ledgers_of, reading_of};
ghost use Rattle.reh_copies.specs.Alone.{IsRead, NoneAssumed, NoneEmpty, class_alone, has_no_copy, lost_in, without_copy};
ghost use Rattle.reh_copies.specs.Numbered.{CountedBy, ledgers_counted};

/// In a picture that marks no bookie as empty, an entry of one of its ledgers can be read exactly where a copy of it is
/// known: of a closed ledger, where what is assumed counts as told (`closed`); and of any ledger of which nothing is
/// assumed, also with `--strict` (`told`).
pub fn an_entry_can_be_read_where_a_copy_is_known()
    ensures closed { (bytes : List ℕ) (s : Cluster) (l : Listed) → IsRead bytes s l → NoneEmpty l
        → (g : Ledger) (f : ℕ) (fragment : Fragment) (entry : ℕ) → Contains s.parts.ledgers g
        → is_closed g.metadata.state ≡ true → slice_get g.metadata.fragments f ≡ Some fragment
        → is_readable s g fragment entry ≡ is_held (class_alone reading.All l g f entry) }
    ensures told { (bytes : List ℕ) (s : Cluster) (l : Listed) → IsRead bytes s l → NoneEmpty l
        → (strict : Bool) (g : Ledger) (f : ℕ) (fragment : Fragment) (entry : ℕ) → Contains s.parts.ledgers g
        → NoneAssumed l g.id → slice_get g.metadata.fragments f ≡ Some fragment
        → is_readable s g fragment entry ≡ is_held (class_alone (reading_of strict) l g f entry) }
{}

/// And as many copies of it are known as registered members of its write set hold it, in the same two cases.
pub fn as_many_copies_are_known_as_members_hold_the_entry()
    ensures closed { (bytes : List ℕ) (s : Cluster) (l : Listed) → IsRead bytes s l → NoneEmpty l
        → (g : Ledger) (f : ℕ) (fragment : Fragment) (entry : ℕ) → Contains s.parts.ledgers g
        → is_closed g.metadata.state ≡ true → slice_get g.metadata.fragments f ≡ Some fragment
        → length (class_alone reading.All l g f entry).known
        ≡ count_by (is_source s g.id entry) (writes g.metadata fragment entry) }
    ensures told { (bytes : List ℕ) (s : Cluster) (l : Listed) → IsRead bytes s l → NoneEmpty l
        → (strict : Bool) (g : Ledger) (f : ℕ) (fragment : Fragment) (entry : ℕ) → Contains s.parts.ledgers g
        → NoneAssumed l g.id → slice_get g.metadata.fragments f ≡ Some fragment
        → length (class_alone (reading_of strict) l g f entry).known
        ≡ count_by (is_source s g.id entry) (writes g.metadata fragment entry) }
{}

/// So the entries that a survey calls lost are as many as those with no known copy: in a fragment of a closed ledger of
/// the picture (`closed`); in one with a stop, of a ledger of which nothing is assumed (`told`); and in all fragments of
/// a picture whose ledgers are closed, by the census that the answer goes by (`picture`).
pub fn a_survey_counts_those_without_a_known_copy()
    ensures closed { (bytes : List ℕ) (s : Cluster) (l : Listed) → IsRead bytes s l → NoneEmpty l
        → (g : Ledger) (f : ℕ) (fragment : Fragment) → Contains s.parts.ledgers g
        → is_closed g.metadata.state ≡ true → slice_get g.metadata.fragments f ≡ Some fragment
        → lost_of s g f fragment ≡ Some (without_copy reading.All l g f) }
    ensures told { (bytes : List ℕ) (s : Cluster) (l : Listed) → IsRead bytes s l → NoneEmpty l
        → (strict : Bool) (g : Ledger) (f : ℕ) (fragment : Fragment) (stop : ℕ) → Contains s.parts.ledgers g
        → NoneAssumed l g.id → slice_get g.metadata.fragments f ≡ Some fragment → stop_of g.metadata f ≡ Some stop
        → lost_of s g f fragment ≡ Some (without_copy (reading_of strict) l g f) }
    ensures picture { (bytes : List ℕ) (s : Cluster) (l : Listed) → IsRead bytes s l → NoneEmpty l
        → All (λ g. is_closed g.metadata.state ≡ true) s.parts.ledgers
        → (gathered : Gathered) → Gathers (Picture l ∷ []) false gathered
        → sum_by lost_in (survey s) ≡ count_in gathered.census.entries has_no_copy }
{}

/// Whoever counted the ledgers, all are judged: where each census file among the inputs is the census of some ledgers on
/// the bookies that it names, the census of all inputs is that of the pictures' ledgers and of these, with the numbers that
/// their bookies have among all.
pub fn what_census_files_counted_is_counted()
    ensures { (inputs : List Input) (strict : Bool) (gathered : Gathered) → Gathers inputs strict gathered
        → (ledgers : NamedCensus → List Counted) → ((c : NamedCensus) → Contains inputs (Census c) → CountedBy c (ledgers c))
        → IsCensus gathered.census (holders_of inputs) (ledgers_of (reading_of strict) inputs ++ ledgers_counted ledgers inputs) }
{}

/// A bookie that is lost and joins again leaves the state as it was: whatever could be read can be read.
pub fn a_bookie_that_joins_again_leaves_all_as_it_was()
    ensures { (s : Cluster) (b : ℕ) → is_up s b ≡ true → after (after s (Lose b)) (Join b) ≡ s }
{}
