// What becomes of lines whose ledger isn't there.
ghost use Rattle.std.specs.Prelude.{◌≡◌, true, is_some};
ghost use Rattle.reh_model.specs.Cluster.{Cluster};
ghost use Rattle.reh_commands.specs.declared.commands.Command.{Command};
ghost use Rattle.reh_lint.specs.Ledgers.{IsReached, missing_ledger, refusal_at};

/// A play refuses each command that names a ledger which isn't in its picture, whatever was played before.
pub fn missing_ledgers_are_refused()
    ensures { (s t : Cluster) (command : Command) → IsReached s t
        → is_some (missing_ledger s command) ≡ true → is_some (refusal_at t command) ≡ true }
{}
