// What is printed of a line.
ghost use Rattle.std.specs.Prelude.{ℕ, List, Result, OnOk, string_bytes};
ghost use Rattle.reh_commands.specs.declared.commands.Command.{Command};
ghost use Rattle.reh_commands.specs.declared.commands.LineFault.{LineFault};
ghost use Rattle.reh_play.specs.declared.answers.LineAnswer.{LineAnswer};
ghost use Rattle.reh_play.specs.Players.{answers_alone};
ghost use Rattle.reh_play.specs.Turns.{PrintsLine};

use crate::answers::{LineAnswer, push_answer};
use reh_cluster::Names;
use reh_desk::Counter;
use std::alloc::AllocError;

/// Prints the lines that a player answers.
pub trait Printer<C: Counter> {
    /// What may be printed of the line of a number, with the bookies of these names: it asks for this, has this answer,
    /// and led from one counter to another.
    ghost prints: { List (List ℕ) → C → ℕ → Result Command LineFault → LineAnswer → C → List ℕ → Type 0 };

    /// Adds to a text what is printed of a line that has this answer, where the counter is as the line left it.
    fn print(
        &self,
        text: &mut String,
        names: &Names,
        counter: &C,
        number: usize,
        line: &[u8],
        answer: &LineAnswer,
    ) -> Result<(), AllocError>
        ensures { OnOk result (PrintsLine C.goes C.scene prints names.now counter.now number line.now answer.now
            (string_bytes text.old) (string_bytes text.new)) };
}

/// Prints answers alone.
#[derive(Clone, Copy)]
pub struct AnswersAlone;

impl<C: Counter> Printer<C> for AnswersAlone {
    ghost prints = { answers_alone C.scene };

    fn print(
        &self,
        text: &mut String,
        names: &Names,
        counter: &C,
        number: usize,
        _line: &[u8],
        answer: &LineAnswer,
    ) -> Result<(), AllocError> {
        push_answer(text, names, counter, number, answer)
    }
}
