// Laws: of what is known and unknown, of rules, censuses and answers.
ghost use Rattle.std.specs.Prelude.{not, ◌-◌, ◌≡◌, ◌≤◌, ℕ, ◌+◌, min, Bool, ◌&&◌, ◌||◌, ◌==◌, nat_le, nat_lt, List, ◌++◌, true, length, count_by, false};
ghost use Rattle.std.specs.List.{Contains, list_all, list_any};
ghost use Rattle.reh_census.specs.declared.censuses.Tail.{Tail};
ghost use Rattle.reh_census.specs.declared.classes.Class.{Class};
ghost use Rattle.reh_census.specs.declared.ledgers.Fragment.{Fragment};
ghost use Rattle.reh_census.specs.declared.questions.Keep.{Keep};
ghost use Rattle.reh_census.specs.declared.questions.Question.{Question};
ghost use Rattle.reh_census.specs.Answers.{IsAllZero, answer_by, answer_on, is_yes, numbers_on};
ghost use Rattle.reh_census.specs.Bookies.{Bookies, is_holder_left, is_up};
ghost use Rattle.reh_census.specs.Copies.{EachOnce, IsPart, Rising, best, completion, in_order, is_in, left, worst};
ghost use Rattle.reh_census.specs.Counting.{Census, IsCensus, IsEntry, census_sum, counting_in, counting_of, tail_of};
ghost use Rattle.reh_census.specs.declared.answers.Numbers.{Numbers};
ghost use Rattle.reh_census.specs.Ledgers.{Ledger, class_of};
ghost use Rattle.reh_census.specs.Order.{IsInOrder};
ghost use Rattle.reh_census.specs.Rules.{breaks_kept, breaks_readable, copies_to_keep};
ghost use Rattle.reh_census.specs.Tails as tails;

/// A completion has the known copies, and those of the untold that hold one (`between`); and whatever has all known
/// copies, and else untold ones alone, has the bookies of a completion (`each`).
pub fn completions_are_between()
    ensures between { (class : Class) (holds : ℕ → Bool) (b : ℕ)
        → is_in (completion class holds) b
        ≡ (is_in class.known b || (is_in class.untold b && holds b)) }
    ensures each { (class : Class) (copies : ℕ → Bool)
        → ((b : ℕ) → is_in class.known b ≡ true → copies b ≡ true)
        → ((b : ℕ) → copies b ≡ true → (is_in class.known b || is_in class.untold b) ≡ true)
        → (b : ℕ) → is_in (completion class copies) b ≡ copies b }
{}

/// What can be read is what keeps one copy: the first rule is the second with 1 to keep, and breaks wherever the first
/// does.
pub fn readable_is_one_copy_kept()
    ensures one { (stopped : ℕ → Bool) (copies : List ℕ)
        → breaks_readable stopped copies ≡ breaks_kept 1 stopped copies }
    ensures kept { (keep : Keep) (ack_quorum : ℕ) (stopped : ℕ → Bool) (copies : List ℕ)
        → breaks_readable stopped copies ≡ true
        → breaks_kept (copies_to_keep keep ack_quorum) stopped copies ≡ true }
{}

/// A rule is broken whatever the completion exactly where the best one breaks it, in which all of the untold hold the
/// entry that aren't stopped. By what is known and untold that is: of the known copies some is stopped, and of the known
/// and the untold too few are left; for reading, some copy is known, and all of the known and the untold are stopped.
pub fn every_completion_breaks_a_no()
    ensures every { (keep : ℕ) (stopped holds : ℕ → Bool) (class : Class)
        → breaks_kept keep stopped (best stopped class) ≡ true
        → breaks_kept keep stopped (completion class holds) ≡ true }
    ensures only { (keep : ℕ) (stopped : ℕ → Bool) (class : Class)
        → ((holds : ℕ → Bool) → breaks_kept keep stopped (completion class holds) ≡ true)
        → breaks_kept keep stopped (best stopped class) ≡ true }
    ensures kept { (keep : ℕ) (stopped : ℕ → Bool) (class : Class)
        → breaks_kept keep stopped (best stopped class)
        ≡ (nat_lt 0 (count_by stopped class.known)
        && nat_lt (left stopped class.known + left stopped class.untold) keep) }
    ensures readable { (stopped : ℕ → Bool) (class : Class)
        → breaks_readable stopped (best stopped class)
        ≡ (nat_lt 0 (length class.known) && (list_all stopped class.known && list_all stopped class.untold)) }
{}

/// A rule is broken by some completion exactly where the worst one breaks it, in which just the stopped of the untold
/// hold the entry. By what is known and untold that is: of the known copies fewer are left than are to be kept, or than
/// the known and the stopped untold; for reading, all known copies are stopped, and some copy is known, or some untold
/// bookie is stopped.
pub fn some_completion_breaks_an_unknown()
    ensures some { (keep : ℕ) (stopped holds : ℕ → Bool) (class : Class)
        → breaks_kept keep stopped (completion class holds) ≡ true
        → breaks_kept keep stopped (worst stopped class) ≡ true }
    ensures kept { (keep : ℕ) (stopped : ℕ → Bool) (class : Class)
        → breaks_kept keep stopped (worst stopped class)
        ≡ nat_lt (left stopped class.known) (min (length class.known + count_by stopped class.untold) keep) }
    ensures readable { (stopped : ℕ → Bool) (class : Class)
        → breaks_readable stopped (worst stopped class)
        ≡ (list_all stopped class.known && nat_lt 0 (length class.known + count_by stopped class.untold)) }
{}

/// What a part of the bookies breaks, all of them break.
pub fn each_rule_is_monotone()
    ensures every { (keep : ℕ) (part whole : ℕ → Bool) (class : Class) → IsPart part whole
        → breaks_kept keep part (best part class) ≡ true → breaks_kept keep whole (best whole class) ≡ true }
    ensures some { (keep : ℕ) (part whole : ℕ → Bool) (class : Class) → IsPart part whole
        → breaks_kept keep part (worst part class) ≡ true → breaks_kept keep whole (worst whole class) ≡ true }
    ensures recoverable { (bookies : Bookies) (question : Question) (part whole : ℕ → Bool) (tail : Tail) → IsPart part whole
        → tails.breaks_recoverable bookies question part tail ≡ true
        → tails.breaks_recoverable bookies question whole tail ≡ true }
    ensures writable { (bookies : Bookies) (question : Question) (part whole : ℕ → Bool) (tail : Tail) → IsPart part whole
        → tails.breaks_writable bookies question part tail ≡ true
        → tails.breaks_writable bookies question whole tail ≡ true }
    ensures new_ledgers { (bookies : Bookies) (question : Question) (part whole : ℕ → Bool) → IsPart part whole
        → tails.breaks_new_ledgers bookies question part ≡ true
        → tails.breaks_new_ledgers bookies question whole ≡ true }
    ensures replaceable { (bookies : Bookies) (question : Question) (part whole : ℕ → Bool) (members : List ℕ)
        → IsPart part whole
        → tails.breaks_replaceable bookies question part members ≡ true
        → tails.breaks_replaceable bookies question whole members ≡ true }
    ensures disks { (bookies : Bookies) (question : Question) (part whole : ℕ → Bool) (class : Class) → IsPart part whole
        → tails.needs_disk bookies question part class ≡ true
        → tails.needs_disk bookies question whole class ≡ true }
{}

/// Where more bookies are stopped, no entry has more copies.
pub fn losses_never_raise_copies()
    ensures { (part whole : ℕ → Bool) (copies : List ℕ) → IsPart part whole → left whole copies ≤ left part copies }
{}

/// Of an entry that at least its ack quorum's members have acknowledged, whether these are up or not, as many copies are
/// on members that are left as these are more than the members that needn't have it.
pub fn acknowledged_entries_keep_copies()
    ensures { (bookies : Bookies) (stopped holds : ℕ → Bool) (tail : Tail) (entry : ℕ)
        → length (tails.members tail entry) ≡ tail.write_quorum
        → tail.ack_quorum ≤ tail.write_quorum
        → tail.ack_quorum ≤ count_by holds (tails.members tail entry)
        → count_by (is_holder_left bookies stopped) (tails.members tail entry)
        ≤ count_by (λ b. holds b && is_holder_left bookies stopped b) (tails.members tail entry)
        + (tail.write_quorum - tail.ack_quorum) }
{}

/// An entry of a ledger that isn't closed, which at least its ack quorum's members have acknowledged, though nothing is told
/// of it: where the stop doesn't break the ledger's recovery, and that may not wait, one of these members holds it and is
/// left, if the copy of one of them is at stake (`left`). So one of them is up, if one is up now, or if the disk of one would
/// go for good (`up`).
pub fn acknowledged_entries_stay_readable()
    ensures left { (bookies : Bookies) (question : Question) (stopped holds : ℕ → Bool) (tail : Tail) (entry : ℕ)
        → 1 ≤ tail.size
        → length (tails.members tail entry) ≡ tail.write_quorum
        → tail.ack_quorum ≤ count_by holds (tails.members tail entry)
        → tails.may_wait question ≡ false
        → tails.breaks_recoverable bookies question stopped tail ≡ false
        → list_any (λ b. holds b && tails.is_at_stake bookies question stopped b) (tails.members tail entry) ≡ true
        → list_any (λ b. holds b && is_holder_left bookies stopped b) (tails.members tail entry) ≡ true }
    ensures up { (bookies : Bookies) (question : Question) (stopped holds : ℕ → Bool) (tail : Tail) (entry : ℕ)
        → 1 ≤ tail.size
        → length (tails.members tail entry) ≡ tail.write_quorum
        → tail.ack_quorum ≤ count_by holds (tails.members tail entry)
        → tails.may_wait question ≡ false
        → tails.breaks_recoverable bookies question stopped tail ≡ false
        → list_any (λ b. holds b && (bookies.is_registered b || tails.takes_disk bookies question stopped b))
        (tails.members tail entry) ≡ true
        → list_any (λ b. holds b && is_up bookies stopped b) (tails.members tail entry) ≡ true }
{}

/// A yes is where no rule is broken, and nothing is unknown.
pub fn yes_is_nothing_broken()
    ensures yes { (numbers : Numbers) → is_yes (answer_by numbers) ≡ true → IsAllZero numbers }
    ensures zero { (numbers : Numbers) → IsAllZero numbers → is_yes (answer_by numbers) ≡ true }
{}

/// Of the bookies of a yes any may stay up: by a census, and by ledgers.
pub fn a_part_of_a_yes_is_a_yes()
    ensures census { (census : Census) (bookies : Bookies) (question : Question) (not_judged : ℕ) (part whole : ℕ → Bool)
        → IsPart part whole
        → is_yes (answer_on (counting_in census) bookies question not_judged whole) ≡ true
        → is_yes (answer_on (counting_in census) bookies question not_judged part) ≡ true }
    ensures ledgers { (holders : List ℕ) (ledgers : List Ledger) (bookies : Bookies) (question : Question) (not_judged : ℕ)
        (part whole : ℕ → Bool)
        → IsPart part whole
        → is_yes (answer_on (counting_of holders ledgers) bookies question not_judged whole) ≡ true
        → is_yes (answer_on (counting_of holders ledgers) bookies question not_judged part) ≡ true }
{}

/// Censuses add up.
pub fn censuses_add_up()
    ensures { (census other : Census) (holders : List ℕ) (ledgers others : List Ledger)
        → IsCensus census holders ledgers
        → IsCensus other holders others
        → IsCensus (census_sum census other) holders (ledgers ++ others) }
{}

/// What is said of a census is what is said of the ledgers that it counts, for every set of bookies.
pub fn a_census_gives_the_answer_of_its_ledgers()
    ensures numbers { (census : Census) (holders : List ℕ) (ledgers : List Ledger) (bookies : Bookies) (question : Question)
        (not_judged : ℕ) (stopped : ℕ → Bool)
        → IsCensus census holders ledgers
        → numbers_on (counting_in census) bookies question not_judged stopped
        ≡ numbers_on (counting_of holders ledgers) bookies question not_judged stopped }
    ensures answer { (census : Census) (holders : List ℕ) (ledgers : List Ledger) (bookies : Bookies) (question : Question)
        (not_judged : ℕ) (stopped : ℕ → Bool)
        → IsCensus census holders ledgers
        → answer_on (counting_in census) bookies question not_judged stopped
        ≡ answer_on (counting_of holders ledgers) bookies question not_judged stopped }
{}

/// A yes spares each entry of the ledgers, whatever the untold bookies hold: one that has a copy keeps one, and each keeps as
/// many as are to be kept, or all that it has; and where the disk of a bookie that is down goes for good, each keeps as many
/// as are to be kept.
pub fn a_yes_spares_each_entry()
    ensures readable { (holders : List ℕ) (ledgers : List Ledger) (bookies : Bookies) (question : Question) (not_judged : ℕ)
        (stopped holds : ℕ → Bool) (g : Ledger) (fragment : Fragment) (entry : ℕ)
        → is_yes (answer_on (counting_of holders ledgers) bookies question not_judged stopped) ≡ true
        → IsEntry ledgers g fragment entry
        → let copies = completion (class_of holders g fragment entry) holds in
        1 ≤ length copies → 1 ≤ left stopped copies }
    ensures kept { (holders : List ℕ) (ledgers : List Ledger) (bookies : Bookies) (question : Question) (not_judged : ℕ)
        (stopped holds : ℕ → Bool) (g : Ledger) (fragment : Fragment) (entry : ℕ)
        → is_yes (answer_on (counting_of holders ledgers) bookies question not_judged stopped) ≡ true
        → IsEntry ledgers g fragment entry
        → let copies = completion (class_of holders g fragment entry) holds in
        min (length copies) (copies_to_keep question.keep g.ack_quorum) ≤ left stopped copies }
    ensures disks { (holders : List ℕ) (ledgers : List Ledger) (bookies : Bookies) (question : Question) (not_judged : ℕ)
        (stopped holds : ℕ → Bool) (g : Ledger) (fragment : Fragment) (entry : ℕ)
        → is_yes (answer_on (counting_of holders ledgers) bookies question not_judged stopped) ≡ true
        → IsEntry ledgers g fragment entry
        → list_any (tails.takes_disk bookies question stopped) bookies.names ≡ true
        → copies_to_keep question.keep g.ack_quorum
        ≤ left stopped (completion (class_of holders g fragment entry) holds) }
{}

/// A yes spares each ledger: one that isn't closed can be recovered, and its writer goes on, as far as that is so now; and
/// each fragment's places find as many other bookies as now. New ledgers find an ensemble, and no ledger was left out.
pub fn a_yes_spares_each_ledger()
    ensures recoverable { (holders : List ℕ) (ledgers : List Ledger) (bookies : Bookies) (question : Question)
        (not_judged : ℕ) (stopped : ℕ → Bool) (g : Ledger) (tail : Tail)
        → is_yes (answer_on (counting_of holders ledgers) bookies question not_judged stopped) ≡ true
        → Contains ledgers g → Contains (tail_of g) tail
        → tails.breaks_recoverable bookies question stopped tail ≡ false }
    ensures writable { (holders : List ℕ) (ledgers : List Ledger) (bookies : Bookies) (question : Question)
        (not_judged : ℕ) (stopped : ℕ → Bool) (g : Ledger) (tail : Tail)
        → is_yes (answer_on (counting_of holders ledgers) bookies question not_judged stopped) ≡ true
        → Contains ledgers g → Contains (tail_of g) tail
        → tails.breaks_writable bookies question stopped tail ≡ false }
    ensures replaceable { (holders : List ℕ) (ledgers : List Ledger) (bookies : Bookies) (question : Question)
        (not_judged : ℕ) (stopped : ℕ → Bool) (g : Ledger) (fragment : Fragment)
        → is_yes (answer_on (counting_of holders ledgers) bookies question not_judged stopped) ≡ true
        → Contains ledgers g → Contains g.fragments fragment → EachOnce fragment.ensemble
        → tails.breaks_replaceable bookies question stopped fragment.ensemble ≡ false }
    ensures new_ledgers { (holders : List ℕ) (ledgers : List Ledger) (bookies : Bookies) (question : Question)
        (not_judged : ℕ) (stopped : ℕ → Bool)
        → is_yes (answer_on (counting_of holders ledgers) bookies question not_judged stopped) ≡ true
        → tails.breaks_new_ledgers bookies question stopped ≡ false }
    ensures judged { (holders : List ℕ) (ledgers : List Ledger) (bookies : Bookies) (question : Question)
        (not_judged : ℕ) (stopped : ℕ → Bool)
        → is_yes (answer_on (counting_of holders ledgers) bookies question not_judged stopped) ≡ true
        → not_judged ≡ 0 }
{}

/// The members of an ensemble in order are its members, and their places find as many other bookies.
pub fn an_ensemble_in_order_is_the_same()
    ensures rising { (names : List ℕ) → Rising (in_order names) }
    ensures same { (names : List ℕ) (b : ℕ) → is_in (in_order names) b ≡ is_in names b }
    ensures replaceable { (bookies : Bookies) (question : Question) (stopped : ℕ → Bool) (ensemble : List ℕ)
        → EachOnce ensemble
        → tails.breaks_replaceable bookies question stopped (in_order ensemble)
        ≡ tails.breaks_replaceable bookies question stopped ensemble }
{}

/// Of the same ledgers there is one census in order, if the same is said of what was judged: its text is the same, whoever
/// counts them.
pub fn a_census_in_order_is_the_only_one()
    ensures { (census other : Census) (holders : List ℕ) (ledgers : List Ledger)
        → IsCensus census holders ledgers → IsInOrder census
        → IsCensus other holders ledgers → IsInOrder other
        → census.judged ≡ other.judged → census ≡ other }
{}
