// What holds of every session, whatever cluster it opened on.
ghost use Rattle.std.specs.Prelude.{◌≡◌, ℕ, List, [], ◌∷◌, None, Some, IsSome};
ghost use Rattle.reh_types.specs.declared.contents.Content.{Content};
ghost use Rattle.reh_types.specs.declared.moves.Event.{Event};
ghost use Rattle.reh_types.specs.declared.moves.Move.TheVariants.{Do, Undo};
ghost use Rattle.reh_types.specs.declared.moves.Reply.TheVariants.{Done};
ghost use Rattle.reh_types.specs.declared.names.Aim.{Aim};
ghost use Rattle.reh_model.specs.Cluster.{Cluster, stop_at, stripe_at};
ghost use Rattle.reh_model.specs.Places.{Change, IsDelta};
ghost use Rattle.reh_model.specs.Scan.{aim_refusal, scan, post_refusal, copy_of};
ghost use Rattle.reh_model.specs.Step.{refusal_of, after};
ghost use Rattle.reh_model.specs.Session.{Session, state_of, reply_to, moved_session};

/// An accepted event can be undone, and its undo restores the state and the surviving events; the one event that is
/// undone then is that event.
pub fn undo_restores()
    ensures can_undo { (m : Session) (event : Event) → reply_to m (Do event) ≡ Done
        → reply_to (moved_session m (Do event)) Undo ≡ Done }
    ensures events { (m : Session) (event : Event)
        → moved_session (moved_session m (Do event)) Undo ≡ record m { undone = event ∷ [] } }
    ensures state { (m : Session) (event : Event)
        → state_of (moved_session (moved_session m (Do event)) Undo) ≡ state_of m }
{}

/// Two clusters have one difference: any two records that are it are equal.
pub fn records_are_unique()
    ensures { (s t : Cluster) (cs ds : List Change) → IsDelta s t cs → IsDelta s t ds → cs ≡ ds }
{}

/// An accepted event moves no stop of a fragment that has one, and changes nothing of the entries that such a fragment
/// stripes onto an index: what a swap promised is promised of the same entries later.
pub fn stripes_stay()
    ensures stops { (s : Cluster) (event : Event) → refusal_of s event ≡ None → (l f : ℕ) →
        IsSome (stop_at s l f) → stop_at (after s event) l f ≡ stop_at s l f }
    ensures stripes { (s : Cluster) (event : Event) → refusal_of s event ≡ None → (l f i : ℕ) →
        IsSome (stop_at s l f) → stripe_at (after s event) l f i ≡ stripe_at s l f i }
{}

/// The copy that an accepted post stands for is accepted, too. What a scan finds for an aim that is not refused is
/// posted in that state as its copy would be made: with the same refusal, or with none.
pub fn posts_are_copies()
    ensures accepted { (s : Cluster) (content : Content) → post_refusal s content ≡ None
        → refusal_of s (copy_of content) ≡ None }
    ensures scanned { (s : Cluster) (aim : Aim) (content : Content) → aim_refusal s aim ≡ None
        → scan s aim ≡ Some content → post_refusal s content ≡ refusal_of s (copy_of content) }
{}
