// What holds of every book, whatever session it opened on.
ghost use Rattle.std.specs.Prelude.{◌≡◌, ◌⊎◌, ℕ, ◌+◌, ◌<◌, List, [], ◌++◌, map, All, AllPairs};
ghost use Rattle.std.specs.List.{Contains};
ghost use Rattle.std.specs.List.Sorted.{IsPermutation};
ghost use Rattle.reh_types.specs.declared.calls.Call.{Call};
ghost use Rattle.reh_types.specs.declared.calls.Call.TheVariants.{Ask, Checkout, Spend, Discard};
ghost use Rattle.reh_types.specs.declared.calls.Line.{Line};
ghost use Rattle.reh_types.specs.declared.contents.Content.{Content};
ghost use Rattle.reh_types.specs.declared.moves.Move.{Move};
ghost use Rattle.reh_types.specs.declared.moves.Reply.{Reply};
ghost use Rattle.reh_types.specs.declared.moves.Reply.TheVariants.{Done, Refused};
ghost use Rattle.reh_types.specs.declared.names.Aim.{Aim};
ghost use Rattle.reh_types.specs.declared.refusals.Refusal.TheVariants.{NotOut, TapeFull, NoMemory};
ghost use Rattle.reh_model.specs.Striping.{range};
ghost use Rattle.reh_model.specs.Session.{Session};
ghost use Rattle.reh_model.specs.Book.{Book, new_book, answer_to, Answers, Legal, issued_on, issue_of};
ghost use Rattle.reh_desk.specs.Tickets.{issued_tickets, ended_tickets};

/// No ticket is issued twice: along each tape from a new book the tickets are numbered from 1 on, up to the book's last
/// one, each once. Those that are out were each issued on the tape to their seat, for their aim, and no two of them
/// have the same number.
pub fn tickets_differ()
    ensures numbers { (m : Session) (tape : List Line) (b : Book) → Legal (new_book m) tape b
        → issued_on tape ≡ range 1 (b.last_ticket + 1) }
    ensures out { (m : Session) (tape : List Line) (b : Book) → Legal (new_book m) tape b
        → All (λ ticket. Contains tape (issue_of ticket)) b.out }
    ensures rising { (m : Session) (tape : List Line) (b : Book) → Legal (new_book m) tape b
        → AllPairs (λ earlier later. earlier.number < later.number) b.out }
{}

/// Each ticket that is issued along a tape from a new book is spent or discarded there, by its own seat, for its own
/// aim, or is still out. Where none is out at the end, as at the end of each closed desk's tape, each is spent or
/// discarded. Nothing else is, and none is twice: the tickets issued have the numbers of `tickets_differ`, 1, 2, 3 and
/// so on, each once.
pub fn tickets_end()
    ensures each { (m : Session) (tape : List Line) (b : Book) → Legal (new_book m) tape b
        → IsPermutation (issued_tickets tape) (ended_tickets tape ++ b.out) }
    ensures none_out { (m : Session) (tape : List Line) (b : Book) → Legal (new_book m) tape b
        → b.out ≡ [] → IsPermutation (issued_tickets tape) (ended_tickets tape) }
    ensures numbers { (m : Session) (tape : List Line) (b : Book) → Legal (new_book m) tape b
        → map (λ ticket. ticket.number) (issued_tickets tape) ≡ issued_on tape }
{}

/// 'Out of memory' stands in place of a spend's answer only where the post would be done, never in place of a discard's
/// answer, and never in place of a full tape. Where a call is refused for it, for a full tape or for a ticket that is
/// not out, the book stays as it was.
pub fn where_memory_is_wanted()
    ensures spends { (b c : Book) (seat number : ℕ) (content : Content)
        → Answers b seat (Spend number content) (Refused NoMemory) c
        → answer_to b seat (Spend number content) ≡ Done }
    ensures discards { (b c : Book) (seat number : ℕ) (aim : Aim)
        → Answers b seat (Discard number aim) (Refused NoMemory) c → ⊥ }
    ensures full_for_a_move { (b c : Book) (seat : ℕ) (move : Move) (reply : Reply)
        → answer_to b seat (Ask move) ≡ Refused TapeFull
        → Answers b seat (Ask move) reply c → reply ≡ Refused TapeFull }
    ensures full_for_a_checkout { (b c : Book) (seat : ℕ) (aim : Aim) (reply : Reply)
        → answer_to b seat (Checkout aim) ≡ Refused TapeFull
        → Answers b seat (Checkout aim) reply c → reply ≡ Refused TapeFull }
    ensures unchanged { (b c : Book) (seat : ℕ) (call : Call)
        → Answers b seat call (Refused NoMemory) c
        ⊎ (Answers b seat call (Refused NotOut) c ⊎ Answers b seat call (Refused TapeFull) c)
        → c ≡ b }
{}
