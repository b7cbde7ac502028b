// The commands of the command line and their arguments, as tables, and the parser that is made of them.
use crate::helps;
use crate::tasks::MAX_FILES;
use clap::{Arg, ArgAction, Command, value_parser};
use reh_crew::{MAX_OPERATORS, MAX_WORKERS};
use reh_types::MAX_ENSEMBLE_SIZE;
use std::alloc::{AllocError, Global};

/// A command: its name, what it does, what stands after its words in help, its own arguments, and what else it asks for.
struct CommandRow {
    name: &'static str,
    about: &'static str,
    after: &'static str,
    args: &'static [ArgRow],
    asks: Asks,
}

/// What a command asks for, besides its own arguments.
#[derive(Clone, Copy)]
enum Asks {
    Nothing,
    /// The files of a cluster.
    Files,
    /// What a stop may break, and the files of a cluster.
    Question,
}

/// An argument: the name by which it is read back, what it takes, and what help says of it.
#[derive(Clone, Copy)]
struct ArgRow {
    name: &'static str,
    takes: Takes,
    help: &'static str,
}

/// What an argument takes. Files and words stand for themselves; before anything else the argument's name is written.
#[derive(Clone, Copy)]
enum Takes {
    /// A file or a word, which may be left out.
    Word,
    /// A file, which has to be given.
    File,
    /// From one file to so many.
    Files(usize),
    /// No value.
    Nothing,
    /// No value; it goes not with the argument of this name.
    NothingWithout(&'static str),
    /// A value of this name.
    Value(&'static str),
    /// A value of this name, at each use, which may begin with a hyphen.
    Values(&'static str),
    /// One of these words, under this name.
    OneOf(&'static str, &'static [&'static str]),
    /// The same; it goes not with the argument of the last name.
    OneOfWithout(&'static str, &'static [&'static str], &'static str),
    /// A number under this name.
    AnyNumber(&'static str),
    /// A number under this name, from 1 to the greatest.
    Number(&'static str, i64),
    /// Values of this name, with commas between them.
    List(&'static str),
    /// The same, at each use, which may begin with a hyphen.
    Lists(&'static str),
    /// Numbers under this name, with commas between them, at each use; they have to be given.
    Ids(&'static str),
}

/// The command `run`.
static RUN: CommandRow = CommandRow {
    name: "run",
    about: "Plays a script on a picture, each in a file",
    after: helps::RUN,
    args: &[
        PICTURE,
        ArgRow {
            name: "SCRIPT",
            takes: Takes::File,
            help: "A file with the script",
        },
        ArgRow {
            name: "workers",
            takes: Takes::Number("N", MAX_WORKERS as i64),
            help: "How many workers make each survey, 1 to 8; by default 1",
        },
        CHANGES,
        JSON,
        ArgRow {
            name: "picture-out",
            takes: Takes::Value("FILE"),
            help: "A file for the picture of the state at the end",
        },
    ],
    asks: Asks::Nothing,
};

/// The command `talk`.
static TALK: CommandRow = CommandRow {
    name: "talk",
    about: "Plays what is typed on a picture: each line is answered before more is read",
    after: helps::TALK,
    args: &[PICTURE, CHANGES, JSON],
    asks: Asks::Nothing,
};

/// The command `check`.
static CHECK: CommandRow = CommandRow {
    name: "check",
    about: "Says how much a picture or an inventory shows, or where it is wrong",
    after: helps::CHECK,
    args: &[
        FORMAT,
        PICTURE,
        ArgRow {
            name: "SCRIPT",
            takes: Takes::Word,
            help: "A file with a script: which of its lines are faulty, and what is near; nothing is played",
        },
    ],
    asks: Asks::Nothing,
};

/// The command `drill`.
static DRILL: CommandRow = CommandRow {
    name: "drill",
    about: "Plays scripts on a picture, each by an operator with a thread of its own",
    after: helps::DRILL,
    args: &[
        PICTURE,
        ArgRow {
            name: "SCRIPT",
            takes: Takes::Files(MAX_OPERATORS),
            help: "Files with the scripts of the operators, 1 to 8",
        },
    ],
    asks: Asks::Nothing,
};

/// The command `ok-to-stop`.
static STOP: CommandRow = CommandRow {
    name: "ok-to-stop",
    about: "Says whether bookies may be stopped, and what that leaves with too few copies",
    after: helps::STOP,
    args: &[
        ArgRow {
            name: "lose",
            takes: Takes::Values("BOOKIE"),
            help: "The bookies to stop, with commas between them",
        },
        ArgRow {
            name: "lose-rack",
            takes: Takes::Lists("RACK"),
            help: "The racks whose bookies are to stop, with commas between them",
        },
    ],
    asks: Asks::Question,
};

/// The command `waves`.
static WAVES: CommandRow = CommandRow {
    name: "waves",
    about: "Parts the bookies into rounds, each of which may be stopped together",
    after: helps::WAVES,
    args: &[ArgRow {
        name: "racks",
        takes: Takes::Nothing,
        help: "Each round is of one rack",
    }],
    asks: Asks::Question,
};

/// The command `risk`.
static RISK: CommandRow = CommandRow {
    name: "risk",
    about: "Says what the loss of each bookie and each rack would cost, the worst first",
    after: helps::RISK,
    args: &[ArgRow {
        name: "pairs",
        takes: Takes::Nothing,
        help: "Each two bookies, too",
    }],
    asks: Asks::Question,
};

/// The command `census`.
static CENSUS: CommandRow = CommandRow {
    name: "census",
    about: "Prints the census of files, which as text is read in their place",
    after: helps::CENSUS,
    args: &[],
    asks: Asks::Files,
};

/// The command `cut`.
static CUT: CommandRow = CommandRow {
    name: "cut",
    about: "Prints the picture of some ledgers of an inventory, for a rehearsal",
    after: helps::CUT,
    args: &[
        ArgRow {
            name: "ledgers",
            takes: Takes::Ids("ID"),
            help: "The ids of the ledgers, with commas between them",
        },
        ArgRow {
            name: "assume-held",
            takes: Takes::Nothing,
            help: "What nobody tells of a member's entries is assumed to be held",
        },
        ArgRow {
            name: "assume-empty",
            takes: Takes::NothingWithout("assume-held"),
            help: "What nobody tells of a member's entries is assumed not to be held",
        },
        ArgRow {
            name: "window",
            takes: Takes::AnyNumber("K"),
            help: "Of each ledger only window K, from 0 on, of at most 65536 entries",
        },
        ArgRow {
            name: "INVENTORY",
            takes: Takes::File,
            help: "A file with the inventory",
        },
    ],
    asks: Asks::Nothing,
};

/// The command `plan`.
static PLAN: CommandRow = CommandRow {
    name: "plan",
    about: "Plays AutoRecovery without some bookies, and prints the script",
    after: helps::PLAN,
    args: &[
        ArgRow {
            name: "lose",
            takes: Takes::List("BOOKIE"),
            help: "The bookies to lose, with commas between them",
        },
        ArgRow {
            name: "to",
            takes: Takes::List("BOOKIE"),
            help: "The bookies that may take their places; by default all",
        },
        ArgRow {
            name: "min-racks",
            takes: Takes::Number("RACKS", MAX_ENSEMBLE_SIZE as i64),
            help: "In how many racks each entry's copies are to be; by default 2",
        },
        ArgRow {
            name: "writers-roll",
            takes: Takes::Nothing,
            help: "As if each writer were writing: it changes its ensemble, and isn't fenced off",
        },
        AFTER,
        ArgRow {
            name: "expect",
            takes: Takes::Nothing,
            help: "As a runbook, with the expected answers",
        },
        ArgRow {
            name: "summary",
            takes: Takes::NothingWithout("expect"),
            help: "Only what the plan comes to",
        },
        ArgRow {
            name: "format",
            takes: Takes::OneOfWithout("FORMAT", FORMATS, "expect"),
            help: "json prints what the plan comes to, as one object",
        },
        ArgRow {
            name: "assume-held",
            takes: Takes::Nothing,
            help: "Of an inventory: what nobody tells of a member's entries is assumed to be held",
        },
        ArgRow {
            name: "assume-empty",
            takes: Takes::NothingWithout("assume-held"),
            help: "Of an inventory: what nobody tells of a member's entries is assumed not to be held",
        },
        ArgRow {
            name: "workers",
            takes: Takes::Number("N", MAX_WORKERS as i64),
            help: "Of an inventory: how many workers plan, 1 to 8; by default 1",
        },
        ArgRow {
            name: "output",
            takes: Takes::Value("FOLDER"),
            help: "Of an inventory: a new folder for each ledger's picture and script",
        },
        ArgRow {
            name: "PICTURE",
            takes: Takes::File,
            help: "A file with the picture, or with --summary an inventory",
        },
    ],
    asks: Asks::Nothing,
};

/// The command `help`.
static HELP: CommandRow = CommandRow {
    name: "help",
    about: "Says what a command, a line of a script or a refusal means",
    after: helps::HELP,
    args: &[ArgRow {
        name: "TOPIC",
        takes: Takes::Word,
        help: "A command, or one of a script; script, refusals, or the number or the name of a refusal",
    }],
    asks: Asks::Nothing,
};

/// The file of a picture.
const PICTURE: ArgRow = ArgRow {
    name: "PICTURE",
    takes: Takes::File,
    help: "A file with the picture, as rehearse cut prints it",
};

/// Whether what a line changed is printed.
const CHANGES: ArgRow = ArgRow {
    name: "changes",
    takes: Takes::Nothing,
    help: "After each answer what it changed: what was there -> what is there",
};

/// Whether what is printed of each line is JSON.
const JSON: ArgRow = ArgRow {
    name: "json",
    takes: Takes::Nothing,
    help: "An object of JSON for each line with its answer and what it changed, and one for the end",
};

/// The script that is played first.
const AFTER: ArgRow = ArgRow {
    name: "after",
    takes: Takes::Value("SCRIPT"),
    help: "A script that is played first, on the one picture; each command has to be accepted",
};

/// How an answer is printed.
const FORMAT: ArgRow = ArgRow {
    name: "format",
    takes: Takes::OneOf("FORMAT", FORMATS),
    help: "How the answer is printed; by default text",
};

/// What a stop may break.
static QUESTION: [ArgRow; 7] = [
    ArgRow {
        name: "keep",
        takes: Takes::OneOfWithout("COPIES", KEEPS, "allow-under-ack"),
        help: "How many copies each entry is to keep, or ack-1; by default its ledger's ack quorum",
    },
    ArgRow {
        name: "allow-under-ack",
        takes: Takes::Nothing,
        help: "The same as --keep 1",
    },
    ArgRow {
        name: "allow-blocked-recovery",
        takes: Takes::Nothing,
        help: "Ledgers that aren't closed need only keep as many members as copies",
    },
    ArgRow {
        name: "allow-blocked-writers",
        takes: Takes::Nothing,
        help: "Writers may find no ensemble",
    },
    ArgRow {
        name: "ensemble",
        takes: Takes::Number("SIZE", 64),
        help: "New ledgers of this ensemble size are to find bookies, too",
    },
    ArgRow {
        name: "min-racks",
        takes: Takes::Number("RACKS", 4096),
        help: "The bookies that can be written to are to stand in so many racks",
    },
    ArgRow {
        name: "for-good",
        takes: Takes::Nothing,
        help: "The bookies don't come back",
    },
];

/// What `--keep` may be: one less than the ack quorum, or so many copies.
const KEEPS: &[&str] = &[
    "ack-1", "1", "2", "3", "4", "5", "6", "7", "8", "9", "10", "11", "12", "13", "14", "15", "16",
    "17", "18", "19", "20", "21", "22", "23", "24", "25", "26", "27", "28", "29", "30", "31", "32",
    "33", "34", "35", "36", "37", "38", "39", "40", "41", "42", "43", "44", "45", "46", "47", "48",
    "49", "50", "51", "52", "53", "54", "55", "56", "57", "58", "59", "60", "61", "62", "63", "64",
];

/// The files of a cluster, how they are read, and the form of the answer.
static INPUTS: [ArgRow; 5] = [
    FORMAT,
    AFTER,
    ArgRow {
        name: "strict",
        takes: Takes::Nothing,
        help: "What the files assume of bookies counts as untold",
    },
    ArgRow {
        name: "workers",
        takes: Takes::Number("N", MAX_WORKERS as i64),
        help: "How many workers read files, 1 to 8; by default 1",
    },
    ArgRow {
        name: "FILE",
        takes: Takes::Files(MAX_FILES),
        help: "Files with pictures or inventories of one cluster, or with censuses of them, judged as one",
    },
];

/// How an answer is printed.
const FORMATS: &[&str] = &["text", "json"];

/// The program's commands, as help lists them.
pub(crate) fn subcommands<'a>(alloc: Global) -> Result<Vec<Command<'a>>, AllocError> {
    let mut commands = Vec::new(alloc);
    add_plays(alloc, &mut commands)?;
    add_questions(alloc, &mut commands)?;
    Ok(commands)
}

/// Adds the commands for scripts.
fn add_plays<'a>(alloc: Global, commands: &mut Vec<Command<'a>>) -> Result<(), AllocError> {
    add_command(alloc, commands, &RUN)?;
    add_command(alloc, commands, &TALK)?;
    add_command(alloc, commands, &CHECK)?;
    add_command(alloc, commands, &DRILL)
}

/// Adds the commands for what may be stopped, and the others.
fn add_questions<'a>(alloc: Global, commands: &mut Vec<Command<'a>>) -> Result<(), AllocError> {
    add_command(alloc, commands, &STOP)?;
    add_command(alloc, commands, &WAVES)?;
    add_command(alloc, commands, &RISK)?;
    add_command(alloc, commands, &CENSUS)?;
    add_command(alloc, commands, &CUT)?;
    add_command(alloc, commands, &PLAN)?;
    add_command(alloc, commands, &HELP)
}

/// Adds the command of this row.
fn add_command<'a>(
    alloc: Global,
    commands: &mut Vec<Command<'a>>,
    row: &CommandRow,
) -> Result<(), AllocError> {
    let command = subcommand_of(alloc, row)?;
    commands.push(command)?;
    Ok(())
}

/// The command of this row.
fn subcommand_of<'a>(alloc: Global, row: &CommandRow) -> Result<Command<'a>, AllocError> {
    let args = args_of(alloc, row)?;
    bare(alloc, row).args(args)
}

/// The command of this row, without arguments.
fn bare<'a>(alloc: Global, row: &CommandRow) -> Command<'a> {
    Command::new(alloc, row.name)
        .about(row.about)
        .after_help(row.after)
}

/// The arguments of a command: its own, and for what else it asks.
fn args_of<'a>(alloc: Global, row: &CommandRow) -> Result<Vec<Arg<'a>>, AllocError> {
    let mut args = Vec::new(alloc);
    add_args(alloc, &mut args, row.args)?;
    add_asked(alloc, &mut args, row.asks)?;
    Ok(args)
}

/// Adds the arguments for what a command asks for besides its own.
fn add_asked<'a>(alloc: Global, args: &mut Vec<Arg<'a>>, asks: Asks) -> Result<(), AllocError> {
    match asks {
        Asks::Nothing => Ok(()),
        Asks::Files => add_args(alloc, args, &INPUTS),
        Asks::Question => {
            add_args(alloc, args, &QUESTION)?;
            add_args(alloc, args, &INPUTS)
        }
    }
}

/// Adds the arguments of these rows.
fn add_args<'a>(alloc: Global, args: &mut Vec<Arg<'a>>, rows: &[ArgRow]) -> Result<(), AllocError> {
    for row in rows {
        let arg = arg_of(alloc, row)?;
        args.push(arg)?;
    }
    Ok(())
}

/// The argument of this row.
fn arg_of<'a>(alloc: Global, row: &ArgRow) -> Result<Arg<'a>, AllocError> {
    let arg = taking(alloc, row.name, row.takes).help(row.help);
    match row.takes {
        Takes::NothingWithout(other) | Takes::OneOfWithout(_, _, other) => {
            arg.conflicts_with(other)
        }
        _ => Ok(arg),
    }
}

/// An argument of this name that takes this.
fn taking<'a>(alloc: Global, name: &'a str, takes: Takes) -> Arg<'a> {
    match takes {
        Takes::Word => Arg::new(alloc, name),
        Takes::File => file_arg(alloc, name),
        Takes::Files(most) => file_arg(alloc, name).num_args(1..=most),
        Takes::Nothing | Takes::NothingWithout(_) => flag_arg(alloc, name),
        Takes::Value(value) => value_arg(alloc, name, value),
        Takes::Values(value) => repeated(value_arg(alloc, name, value)),
        Takes::OneOf(value, words) | Takes::OneOfWithout(value, words, _) => {
            value_arg(alloc, name, value).value_parser(words)
        }
        Takes::AnyNumber(value) => any_number_arg(alloc, name, value),
        Takes::Number(value, greatest) => number_arg(alloc, name, value, greatest),
        Takes::List(value) => list_arg(alloc, name, value),
        Takes::Lists(value) => repeated(list_arg(alloc, name, value)),
        Takes::Ids(value) => numbers_arg(alloc, name, value),
    }
}

/// An argument that has to be given, and names a file.
fn file_arg<'a>(alloc: Global, name: &'a str) -> Arg<'a> {
    Arg::new(alloc, name).required(true)
}

/// An argument without a value.
fn flag_arg<'a>(alloc: Global, name: &'a str) -> Arg<'a> {
    Arg::new(alloc, name).long(name).action(ArgAction::SetTrue)
}

/// An argument with a value of that name.
fn value_arg<'a>(alloc: Global, name: &'a str, value: &'a str) -> Arg<'a> {
    Arg::new(alloc, name).long(name).value_name(value)
}

/// The argument with a value at each use, which may begin with a hyphen.
fn repeated<'a>(arg: Arg<'a>) -> Arg<'a> {
    arg.action(ArgAction::Append).allow_hyphen_values(true)
}

/// An argument with values of that name, with commas between them.
fn list_arg<'a>(alloc: Global, name: &'a str, value: &'a str) -> Arg<'a> {
    value_arg(alloc, name, value).value_delimiter(',')
}

/// An argument for a number from 1 to the greatest.
fn number_arg<'a>(alloc: Global, name: &'a str, value: &'a str, greatest: i64) -> Arg<'a> {
    value_arg(alloc, name, value).value_parser(value_parser!(u64).range(1..=greatest))
}

/// An argument for any number.
fn any_number_arg<'a>(alloc: Global, name: &'a str, value: &'a str) -> Arg<'a> {
    value_arg(alloc, name, value).value_parser(value_parser!(u64))
}

/// An argument for numbers, with commas between them, which has to be given, and may be used again.
fn numbers_arg<'a>(alloc: Global, name: &'a str, value: &'a str) -> Arg<'a> {
    any_number_arg(alloc, name, value)
        .value_delimiter(',')
        .action(ArgAction::Append)
        .required(true)
}
