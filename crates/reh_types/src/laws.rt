// What holds of the limits, whatever cites them.
ghost use Rattle.std.specs.Prelude.{◌≡◌};
ghost use Rattle.reh_types.specs.declared.limits.TheConstants.{
  CLOCK_END,
  ENTRIES_IN_WORD,
  ENTRY_END,
  MAX_BOOKIES,
  MAX_DELAY,
  MAX_ENSEMBLE_SIZE,
  MAX_ENTRY_ID,
  MAX_EVENTS,
  MAX_FRAGMENTS,
  MAX_GRACE,
  MAX_HAND,
  MAX_LEDGER_ID,
  MAX_LEDGERS,
  MAX_LINE_BYTES,
  MAX_LINES,
  MAX_NAME_BYTES,
  MAX_PICTURE_BYTES,
  MAX_SCRIPT_BYTES,
  MAX_TICKS,
  MAX_VERSION,
  MAX_WORDS,
};

/// The number of each limit. All else cites a limit by its name, and would be proved of another number, too.
pub fn limits_are()
    ensures bookies { MAX_BOOKIES ≡ 64 }
    ensures name_bytes { MAX_NAME_BYTES ≡ 300 }
    ensures ledgers { MAX_LEDGERS ≡ 512 }
    ensures ledger_id { MAX_LEDGER_ID ≡ 1000000000000 }
    ensures version { MAX_VERSION ≡ 1000000000000 }
    ensures ensemble_size { MAX_ENSEMBLE_SIZE ≡ 16 }
    ensures fragments { MAX_FRAGMENTS ≡ 256 }
    ensures entry_id { MAX_ENTRY_ID ≡ 65535 }
    ensures entry_end { ENTRY_END ≡ 65536 }
    ensures entries_in_word { ENTRIES_IN_WORD ≡ 64 }
    ensures words { MAX_WORDS ≡ 4194304 }
    ensures grace { MAX_GRACE ≡ 1000000 }
    ensures delay { MAX_DELAY ≡ 1000000 }
    ensures ticks { MAX_TICKS ≡ 1000000 }
    ensures clock_end { CLOCK_END ≡ 1000000000 }
    ensures events { MAX_EVENTS ≡ 100000 }
    ensures lines { MAX_LINES ≡ 200000 }
    ensures hand { MAX_HAND ≡ 8 }
    ensures picture_bytes { MAX_PICTURE_BYTES ≡ 8388608 }
    ensures line_bytes { MAX_LINE_BYTES ≡ 1024 }
    ensures script_bytes { MAX_SCRIPT_BYTES ≡ 1048576 }
{}
