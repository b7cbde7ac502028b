// What holds of every desk that closes.
ghost use Rattle.std.specs.Prelude.{◌≡◌, ◌<◌, ℕ, List, length, slice_index_or};
ghost use Rattle.reh_types.specs.declared.calls.Line.{Line};
ghost use Rattle.reh_types.specs.declared.names.Aim.{Aim};
ghost use Rattle.reh_model.specs.Session.{Session};
ghost use Rattle.reh_desk.specs.Desks.{DeskView, AreNew, IsClosed, IsHistory, own_lines};
ghost use Rattle.reh_desk.specs.Seats.{SeatView};
ghost use Rattle.reh_crew.specs.Balance.{issues, ends};
ghost use Rattle.reh_crew.specs.Gained.{AreGroups, Gained, share_of};

/// At a desk that closes each ticket was ended: of each seat the tape has as many spends and discards as tickets that
/// were issued.
pub fn closed_desks_balance()
    ensures { (opening : Session) (tape : List Line) (session : Session) → IsHistory opening tape session
        → (k : ℕ) → issues (own_lines k tape) ≡ ends (own_lines k tape) }
{}

/// At a desk whose new seats were driven, and that closed with them, no group is open: each seat's lines of the tape are
/// groups for all aims of its share, in order.
pub fn driven_groups_are_whole()
    ensures { (desk : DeskView) (before after : List SeatView) (session : Session) (tape : List Line) (aims : List Aim)
        → AreNew (length after) before
        → ((k : ℕ) (d : SeatView) → k < length before
        → Gained (share_of (length before) k aims) (slice_index_or before k d) (slice_index_or after k d))
        → IsClosed desk after session tape
        → (k : ℕ) → k < length after → AreGroups (share_of (length after) k aims) (own_lines k tape) }
{}
