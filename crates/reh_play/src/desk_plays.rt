// Plays by a seat of a desk.
ghost use Rattle.std.specs.Prelude.{◌≡◌, false};
ghost use Rattle.reh_play.specs.DeskPlays.{PlaysAtDesk};
ghost use Rattle.reh_play.specs.Plays.{is_write_fault};

use crate::faults::PlayFault;
use crate::hand::Hand;
use crate::players::Tools;
use crate::plays::answer_script;
use crate::printers::AnswersAlone;
use reh_cluster::Names;
use reh_crew::Plain;
use reh_desk::{AtDesk, Desk, Seat};
use reh_lines::TextOut;
use std::alloc::Global;
use std::sync::Wait;

/// Answers the lines of a script in order, by a seat of a desk, with the bookies of these names.
///
/// It is a `play` of a script in memory, at a counter that shows no state. Other seats may call between any two of its
/// calls; each call may have to wait for one of theirs.
pub fn play_at_desk<R: Wait, W: TextOut>(
    rt: &R,
    alloc: Global,
    desk: &Desk,
    seat: &mut Seat,
    names: &Names,
    script: &[u8],
    writer: &mut W,
) -> Result<(), PlayFault>
    requires { W.has_failed writer.old ≡ false }
    ensures played { PlaysAtDesk names.now script.now result seat.old seat.new
        (W.contents writer.old) (W.contents writer.new) }
    ensures write { W.has_failed writer.new ≡ is_write_fault result }
{
    let hand = Hand::new(alloc)?;
    // A desk shows no state, so no survey is made.
    let printer = AnswersAlone;
    let tools = Tools {
        alloc,
        names,
        surveyor: &Plain,
        printer: &printer,
    };
    let mut counter = AtDesk { desk, rt };
    answer_script(&tools, &mut counter, seat, hand, script, writer)
}
