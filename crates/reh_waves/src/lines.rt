// The lines of waves.
ghost use Rattle.std.specs.Prelude.{◌≡◌, ◌+◌, ◌++◌, OnOk, IfOk, length, string_bytes};
ghost use Rattle.reh_waves.specs.Orders as orders;
ghost use Rattle.reh_waves.specs.Texts as texts;

use crate::reasons::push_reason;
use crate::waves::{Alone, Round, Waves};
use std::alloc::{AllocError, Global};

/// The name of this number, or an empty one where no name has it.
pub(crate) fn name_of(names: &[String], number: u16) -> &str
    ensures { result.now ≡ orders.name_at names.now number }
{
    match names.get(number as usize) {
        Some(name) => name.as_str(),
        None => "",
    }
}

/// Adds names, with a space before each.
fn push_spaced(text: &mut String, names: &[String], bookies: &[u16]) -> Result<(), AllocError>
    ensures { OnOk result (string_bytes text.new ≡ string_bytes text.old ++ texts.spaced names.now bookies.now) }
{
    for bookie in bookies {
        write!(text, " {}", name_of(names, *bookie))?;
    }
    Ok(())
}

/// Adds the line of the wave of this number.
fn push_round(
    text: &mut String,
    names: &[String],
    number: usize,
    round: &Round,
) -> Result<(), AllocError>
    ensures { OnOk result (string_bytes text.new ≡ string_bytes text.old ++ texts.round_text names.now number round.now) }
{
    write!(text, "wave {number}:")?;
    push_spaced(text, names, &round.bookies)?;
    text.push_str("\n")
}

/// Adds the lines of the waves.
fn push_rounds(text: &mut String, names: &[String], rounds: &[Round]) -> Result<(), AllocError>
    ensures { OnOk result (string_bytes text.new ≡ string_bytes text.old ++ texts.rounds_text names.now 1 rounds.now) }
{
    for number in 0..rounds.len() {
        push_round(text, names, number + 1, &rounds[number])?;
    }
    Ok(())
}

/// Adds the line of a bookie that can't be stopped.
fn push_alone(text: &mut String, names: &[String], alone: &Alone) -> Result<(), AllocError>
    ensures { OnOk result (string_bytes text.new ≡ string_bytes text.old ++ texts.alone_text names.now alone.now) }
{
    write!(text, "alone {}: ", name_of(names, alone.bookie))?;
    push_reason(text, alone.answer)?;
    text.push_str("\n")
}

/// Adds the lines of the bookies that can't be stopped.
fn push_all_alone(text: &mut String, names: &[String], alone: &[Alone]) -> Result<(), AllocError>
    ensures { OnOk result (string_bytes text.new ≡ string_bytes text.old ++ texts.all_alone_text names.now alone.now) }
{
    for one in alone {
        push_alone(text, names, one)?;
    }
    Ok(())
}

/// Adds the note, where there are more waves than one.
fn push_note(text: &mut String, count: usize) -> Result<(), AllocError>
    ensures { OnOk result (string_bytes text.new ≡ string_bytes text.old ++ texts.note_text count) }
{
    if count <= 1 {
        return Ok(());
    }
    text.push_str(
        "note: only the first wave is judged by what is known now: take a new input and ask again before each further one, and keep AutoRecovery disabled meanwhile\n",
    )
}

/// The lines of the waves, where bookies have these names.
pub fn waves_text(alloc: Global, names: &[String], waves: &Waves) -> Result<String, AllocError>
    ensures { IfOk result (λ text. string_bytes text ≡ texts.waves_text names.now waves.now) }
{
    let mut text = String::new(alloc);
    push_rounds(&mut text, names, &waves.rounds)?;
    push_all_alone(&mut text, names, &waves.alone)?;
    push_note(&mut text, waves.rounds.len())?;
    Ok(text)
}
