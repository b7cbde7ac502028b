// The limits of a rehearsal, each written here alone; the definitions that contracts cite take them from here too.

/// How many bookies a picture may have; their numbers are below it.
pub const MAX_BOOKIES: usize = 64;

/// The longest name of a bookie (BookKeeper's bookie id), in bytes.
pub const MAX_NAME_BYTES: usize = 300;

/// How many ledgers a picture may have.
pub const MAX_LEDGERS: usize = 512;

/// The greatest id of a ledger.
pub const MAX_LEDGER_ID: u64 = 1_000_000_000_000;

/// The greatest version of a ledger's metadata (BookKeeper's `LongVersion`).
pub const MAX_VERSION: u64 = 1_000_000_000_000;

/// The greatest ensemble size of a ledger, in bookies.
pub const MAX_ENSEMBLE_SIZE: u64 = 16;

/// How many fragments a ledger may have (the ensembles of BookKeeper's `LedgerMetadata`).
pub const MAX_FRAGMENTS: usize = 256;

/// The greatest id of an entry, and so of a ledger's last entry.
pub const MAX_ENTRY_ID: u64 = 65_535;

/// One past the greatest id of an entry.
pub const ENTRY_END: u64 = MAX_ENTRY_ID + 1;

/// How many entries one word of a bookie's contents stands for.
pub const ENTRIES_IN_WORD: u64 = 64;

/// How many words all bookies together may take for what they hold.
pub const MAX_WORDS: u64 = 4_194_304;

/// The longest grace of an open ledger, in ticks (BookKeeper's `openLedgerRereplicationGracePeriod`).
pub const MAX_GRACE: u64 = 1_000_000;

/// The longest delay for lost bookies, in ticks (BookKeeper's `lostBookieRecoveryDelay`).
pub const MAX_DELAY: u64 = 1_000_000;

/// How many ticks one event may let pass.
pub const MAX_TICKS: u64 = 1_000_000;

/// Where the clock ends, in ticks.
pub const CLOCK_END: u64 = 1_000_000_000;

/// How many events of a session may survive.
pub const MAX_EVENTS: usize = 100_000;

/// How many lines a book's tape may have, with one for each ticket that is out.
pub const MAX_LINES: usize = 200_000;

/// How many findings a player's hand may hold.
pub const MAX_HAND: usize = 8;

/// The longest picture, in bytes.
pub const MAX_PICTURE_BYTES: usize = 8_388_608;

/// The longest line of a script, in bytes.
pub const MAX_LINE_BYTES: usize = 1_024;

/// The longest script, in bytes.
pub const MAX_SCRIPT_BYTES: usize = 1_048_576;
