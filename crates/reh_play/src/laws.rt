// What the end of a play tells, at any counter and whatever is printed of its lines.
ghost use Rattle.std.specs.Prelude.{◌≡◌, ◌⊎◌, ℕ, Bool, true, false, List, Option, Some, Result, Ok, Err};
ghost use Rattle.reh_lines.specs.Lines.{is_script, lines_of};
ghost use Rattle.reh_play.specs.declared.faults.PlayFault.{PlayFault};
ghost use Rattle.reh_play.specs.declared.faults.PlayFault.TheVariants.{ReadFault, TooLong, WriteFault, NoMemory};
ghost use Rattle.reh_play.specs.Players.{Player, setting_by};
ghost use Rattle.reh_play.specs.Plays.{AnswersAll, BreaksOff, Plays, is_write_fault};

use crate::printers::Printer;
use reh_desk::Counter;

/// A play ends well only where no read failed (`unfailed`). Of a reader that tells its bytes, each line of all that was to
/// come was taken and answered then, and that is no longer than a script can be (`whole`).
pub fn plays_that_end_well_are_whole<C: Counter, P: Printer<C>>()
    ensures unfailed { (names : List (List ℕ)) (failed : Bool) (left_old left_new : Option (List ℕ))
        (x z : Player C) (old new : Option (List ℕ))
        → Plays (setting_by C.goes C.scene P.prints names) (Ok tt) failed left_old left_new x z old new
        → failed ≡ false }
    ensures whole { (names : List (List ℕ)) (failed : Bool) (script : List ℕ) (left_new : Option (List ℕ))
        (x z : Player C) (old new : Option (List ℕ))
        → Plays (setting_by C.goes C.scene P.prints names) (Ok tt) failed (Some script) left_new x z old new
        → (is_script script ≡ true)
        × AnswersAll (setting_by C.goes C.scene P.prints names) (lines_of script) x z old new }
{}

/// A play ends with a read fault only where a read failed (`read`), and for its length only where the script is too long
/// (`long`). Between two lines it breaks off without memory, where no call of its writer failed, or for a write fault,
/// where one did: `lost` says whether one did, as `write` of `play` has it (`between`).
pub fn faults_of_plays_have_causes<C: Counter, P: Printer<C>>()
    ensures read { (names : List (List ℕ)) (failed : Bool) (left_old left_new : Option (List ℕ))
        (x z : Player C) (old new : Option (List ℕ))
        → Plays (setting_by C.goes C.scene P.prints names) (Err ReadFault) failed left_old left_new x z old new
        → failed ≡ true }
    ensures long { (names : List (List ℕ)) (script : List ℕ) (left_new : Option (List ℕ))
        (x z : Player C) (old new : Option (List ℕ))
        → Plays (setting_by C.goes C.scene P.prints names) (Err TooLong) false (Some script) left_new x z old new
        → is_script script ≡ false }
    ensures between { (names lines : List (List ℕ)) (failed lost : Bool) (result : Result (Unit {0}) PlayFault)
        (x z : Player C) (old new : Option (List ℕ))
        → BreaksOff (setting_by C.goes C.scene P.prints names) failed lines result x z old new
        → lost ≡ is_write_fault result
        → ((result ≡ Err NoMemory) × (lost ≡ false)) ⊎ ((result ≡ Err WriteFault) × (lost ≡ true)) }
{}
