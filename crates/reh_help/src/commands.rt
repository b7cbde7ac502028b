// What the commands of a script do.
use reh_commands::Verb;

/// What happens by a command.
pub(crate) fn effect(verb: Verb) -> &'static str {
    match verb {
        Verb::Lose => "the bookie's registration is lost",
        Verb::Join => "the bookie is registered again, with what it holds",
        Verb::Audit =>
            "the auditor names each ledger's missing members in its task, once their delay is over",
        Verb::Acquire => "the worker locks the ledger's task",
        Verb::Release => "the worker gives the lock back",
        Verb::Finish => "the ledger's task and its lock end",
        Verb::Expire => "the worker's session ends, and its locks go",
        Verb::Grace =>
            "the open ledger's writer is granted the picture's grace: the lock gets a due tick",
        Verb::Tick => "the clock goes on by N ticks",
        Verb::Roll => "the writer replaces a member of the last ensemble, from its next entry on",
        Verb::Fence => "after the due tick: the ledger is IN_RECOVERY",
        Verb::Seal =>
            "recovery: readable entries are copied to their registered members, and the ledger is CLOSED before the first that can't be read",
        Verb::Copy =>
            "the worker's bookie copies each entry that the fragment stripes onto that index",
        Verb::Swap =>
            "the worker's bookie takes that place in the ensemble; the metadata goes to its next version",
        Verb::Disable => "AutoRecovery is disabled: no audit, no new lock",
        Verb::Enable => "AutoRecovery is enabled again",
        Verb::Undo => "the newest event is undone",
        Verb::Redo => "the event that was undone last is made again",
        Verb::Clock => "the clock is told",
        Verb::Checkout => "the worker scans a place; the finding goes into the hand",
        Verb::Spend => "the oldest finding is posted as a copy, if it still holds",
        Verb::Discard => "the oldest finding is given back",
        Verb::Report => "the whole state is told",
        Verb::Survey => "of each fragment the members down are told, and the entries lost",
    }
}
