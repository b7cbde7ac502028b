// One operator: a seat and its script, and what comes of them.
ghost use Rattle.std.specs.Prelude.{◌≡◌, [], Some, None, is_some, List, ℕ};
ghost use Rattle.reh_play.specs.Plays.{is_write_fault};
ghost use Rattle.reh_drill.specs.Drills.{fault_in_memory, IsOutcome};

use reh_cluster::Names;
use reh_crew::Gate;
use reh_desk::{Desk, Seat};
use reh_lines::{StreamFault, TextOut};
use reh_play::{PlayFault, play_at_desk};
use std::alloc::{AllocError, Global};
use std::sync::Wait;

/// What an operator printed, in memory, and why it could not grow, if it couldn't.
#[derive(Drop)]
pub(crate) struct Transcript {
    text: Vec<u8>,
    want: Option<AllocError>,
}

impl TextOut for Transcript {
    ghost use Rattle.reh_lines.specs.Streams.{grows_not};

    ghost contents = { λ t. Some t.text.items };

    ghost seen = { λ t. Some t.text.items };

    ghost has_failed = { λ t. is_some t.want };

    fn put(&mut self, bytes: &[u8]) -> Result<usize, StreamFault> {
        if bytes.is_empty() {
            return Ok(0);
        }
        match self.text.extend_from_slice(bytes) {
            Ok(()) => Ok(bytes.len()),
            Err(want) => {
                self.want = Some(want);
                Err(StreamFault)
            }
        }
    }

    fn flush(&mut self) -> Result<(), StreamFault> {
        Ok(())
    }

    fn failed(&self) -> bool {
        self.want.is_some()
    }

    ghost within = { λ t. grows_not (Some t.text.items) };
}

/// The seat after a play, what was printed, and why the play ended early, if it did.
#[derive(Drop)]
pub struct Outcome {
    pub seat: Seat,
    pub transcript: Vec<u8>,
    pub fault: Option<PlayFault>,
}

/// Passes the gate as the worker of that number, and plays a script by a seat of a desk.
pub(crate) fn operate<R: Wait, G: Gate>(
    rt: &R,
    alloc: Global,
    gate: &G,
    desk: &Desk,
    names: &Names,
    seat: Seat,
    script: Vec<u8>,
    worker: usize,
) -> Outcome
    ensures { IsOutcome names.now seat script.items result }
{
    gate.pass(worker);
    let mut seat = seat;
    let mut transcript = Transcript {
        text: Vec::new(alloc),
        want: None,
    };
    let played = play_at_desk(rt, alloc, desk, &mut seat, names, &script, &mut transcript);
    let Transcript { text, want } = transcript;
    Outcome {
        seat,
        transcript: text,
        fault: ended_for(played, want),
    }
}

/// Why a play ended early, if it did, and whether memory ran out for its transcript.
fn ended_for(played: Result<(), PlayFault>, want: Option<AllocError>) -> Option<PlayFault>
    requires { is_some want ≡ is_write_fault played }
    ensures { result ≡ fault_in_memory played }
{
    match (played, want) {
        (Ok(()), _) => None,
        (Err(_), Some(want)) => Some(PlayFault::from(want)),
        (Err(fault), None) => Some(fault),
    }
}
