// What help says of each command after its words: uses to try, and the statuses that it may end with.

/// What stands after a command's words in help: a note, uses that can be tried in the folder of the documents, and the
/// statuses. Each command may end with those that aren't given here.
macro_rules! after {
    ($note:literal, uses: [$($use:literal),+], zero: $zero:literal, words: $words:literal, read: $read:literal, write: $write:literal, more: [$($more:literal),*]) => {
        concat!(
            $note,
            "Examples:\n",
            $("  rehearse ", $use, "\n",)+
            "\nExit status:\n",
            "  0  ", $zero, "\n",
            "  2  ", $words, "\n",
            "  3  what a file holds is refused\n",
            "  4  ", $read, "\n",
            "  5  ", $write, "\n",
            "  6  there is no memory\n",
            $("  ", $more, "\n",)*
        )
    };
}

/// Of the program itself.
pub(crate) const PROGRAM: &str = after!(
    "Without a command, standard input holds a picture, a line with a single %, and a script.
A picture is JSON: the bookies, the ledgers' metadata, and which entries each bookie holds.
A script has a command a line. For example:

  lose b2:3181
  audit
  acquire b4:3181 7
  copy b4:3181 7 0 1 0
  swap b4:3181 7 0 1 0
  undo
  report

",
    uses: ["< examples/lose-tick-and-undo", "< examples/rolling-restart"],
    zero: "all lines are answered, even if refused",
    words: "the words of the command line are wrong",
    read: "a file can't be read, or a script is longer than 1 MiB",
    write: "an answer can't be written",
    more: []
);

/// Of `run`.
pub(crate) const RUN: &str = after!(
    "Where a picture is refused or can't be read, check says where and why.

",
    uses: [
        "run --changes examples/cluster.json examples/maintenance.script",
        "run --workers 2 examples/cluster.json examples/outage.script"
    ],
    zero: "all lines are answered, even if refused",
    words: "the words of the command line are wrong",
    read: "a file can't be read, or a script is longer than 1 MiB",
    write: "an answer or the picture of the end can't be written",
    more: ["7  a worker can't be started"]
);

/// Of `talk`.
pub(crate) const TALK: &str = after!(
    "Where a picture is refused or can't be read, check says where and why.

",
    uses: [
        "talk examples/cluster.json",
        "talk examples/cluster.json < examples/outage.script"
    ],
    zero: "all lines are answered, even if refused",
    words: "the words of the command line are wrong",
    read: "a file can't be read, or a script is longer than 1 MiB",
    write: "an answer can't be written",
    more: []
);

/// Of `check`.
pub(crate) const CHECK: &str = after!(
    "",
    uses: [
        "check examples/cluster.json",
        "check examples/cluster.json examples/maintenance.script"
    ],
    zero: "the picture or the inventory is accepted, and no line of the script is faulty",
    words: "the words of the command line are wrong",
    read: "a file can't be read, or a script is longer than 1 MiB",
    write: "an answer can't be written",
    more: []
);

/// Of `drill`.
pub(crate) const DRILL: &str = after!(
    "Where a picture is refused or can't be read, check says where and why.

",
    uses: [
        "drill examples/cluster.json examples/restarts-1.script examples/restarts-2.script",
        "drill examples/cluster.json examples/decommission.script"
    ],
    zero: "all lines are answered, even if refused",
    words: "the words of the command line are wrong",
    read: "a file can't be read, or a script is longer than 1 MiB",
    write: "an answer can't be written",
    more: ["7  an operator can't be started, or the drill's tape can't be closed"]
);

/// Of `ok-to-stop`.
pub(crate) const STOP: &str = after!(
    "A FILE shows a cluster: rehearse-inventory makes it. Bookies go by their names there.

How an answer reads:

  judged ..             how much was counted, and how much of it is assumed or unknown
  copies, now, without  how many entries have 0, 1, 2 .. known copies, now and without the bookies
  rules ..              for how many entries or ledgers each rule would be broken
  ledger 7: ..          ledgers that speak against it, the worst first
  ok-to-stop: ..        yes; no, and why; or unknown, where it depends on what no file tells

",
    uses: [
        "ok-to-stop --lose b2:3181 examples/cluster.json",
        "ok-to-stop --lose-rack r1 --for-good examples/racks.json"
    ],
    zero: "the answer is yes",
    words: "the words of the command line are wrong, or name a bookie or rack that is unknown, or one twice",
    read: "a file can't be read, or a script is longer than 1 MiB",
    write: "an answer can't be written",
    more: ["8  the answer is no", "9  the answer is unknown"]
);

/// Of `waves`.
pub(crate) const WAVES: &str = after!(
    "A FILE shows a cluster: rehearse-inventory makes it.

",
    uses: ["waves examples/racks.json", "waves --racks examples/racks.json"],
    zero: "the answer is printed",
    words: "the words of the command line are wrong",
    read: "a file can't be read, or a script is longer than 1 MiB",
    write: "an answer can't be written",
    more: []
);

/// Of `risk`.
pub(crate) const RISK: &str = after!(
    "A FILE shows a cluster: rehearse-inventory makes it.

",
    uses: ["risk examples/cluster.json", "risk --pairs examples/racks.json"],
    zero: "the answer is printed",
    words: "the words of the command line are wrong",
    read: "a file can't be read, or a script is longer than 1 MiB",
    write: "an answer can't be written",
    more: []
);

/// Of `census`.
pub(crate) const CENSUS: &str = after!(
    "A FILE shows a cluster: rehearse-inventory makes it.

",
    uses: [
        "census examples/cluster.json",
        "census --format json examples/cluster.json"
    ],
    zero: "the answer is printed",
    words: "the words of the command line are wrong",
    read: "a file can't be read, or a script is longer than 1 MiB",
    write: "an answer can't be written",
    more: []
);

/// Of `cut`.
pub(crate) const CUT: &str = after!(
    "A picture has at most 64 bookies and 512 ledgers, and entries up to 65535.
Of a larger ledger --window cuts a part.

",
    uses: [
        "cut --ledgers 7 examples/cluster.jsonl",
        "cut --ledgers 7,9 --assume-held examples/cluster.jsonl"
    ],
    zero: "the picture is printed",
    words: "the words of the command line are wrong",
    read: "a file can't be read",
    write: "an answer can't be written",
    more: []
);

/// Of `plan`.
pub(crate) const PLAN: &str = after!(
    "",
    uses: [
        "plan --lose b2:3181 examples/cluster.json",
        "plan --lose b2:3181 --to b4:3181,b5:3181 examples/cluster.json"
    ],
    zero: "nothing is left to do, no known entry is lost, and of an inventory no ledger is unread",
    words: "the words of the command line are wrong, or name a bookie or rack that is unknown, or one twice",
    read: "a file can't be read, or a script is longer than 1 MiB",
    write: "an answer can't be written",
    more: ["8  something is left to do, a known entry is lost, or a ledger of an inventory is unread"]
);

/// Of `help`.
pub(crate) const HELP: &str = "Examples:
  rehearse help script
  rehearse help 26

Exit status:
  0  the answer is printed
  2  the words of the command line are wrong
  5  an answer can't be written
  6  there is no memory";
