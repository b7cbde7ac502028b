// Runs as a stream of JSON.
ghost use Rattle.std.specs.Prelude.{◌≡◌, ◌⊎◌, ◌+◌, ◌≤◌, false, true, is_err, OnOk, OnErr, IfOk, option_map, string_bytes};
ghost use Rattle.std.specs.Io.KnownBytes.{Appends, IsAtEnd};
ghost use Rattle.std.specs.Option.{option_copied};
ghost use Rattle.reh_commands.specs.Answers.{asked};
ghost use Rattle.reh_lines.specs.Streams.{Grows};
ghost use Rattle.reh_script.specs.AsJson as json;
ghost use Rattle.reh_script.specs.AsJson.{command_in, lines_as_json, IsTold, RunsAsJson, WritesPart};
ghost use Rattle.reh_script.specs.Pipes.{loses_output};
ghost use Rattle.reh_script.specs.Printed.{PrintsInTime};

use crate::changes::line_changes;
use crate::faults::PipeFault;
use crate::printed::run_printing;
use reh_cluster::Names;
use reh_commands::{command_text, parse_line};
use reh_crew::Surveyor;
use reh_desk::Book;
use reh_lines::{StreamFault, TextIn, TextOut, write_all};
use reh_play::{LineAnswer, PlayFault, Printer};
use reh_run_json::push_line;
use reh_types::{MAX_PICTURE_BYTES, MAX_SCRIPT_BYTES};
use std::alloc::{AllocError, Global};

/// Prints an object of each line that has an answer: its command, the answer, and what it changed.
#[derive(Clone, Copy)]
pub struct AsJson {
    pub alloc: Global,
}

impl Printer<Book> for AsJson {
    ghost use Rattle.reh_script.specs.AsJson.{lines_as_json};

    ghost prints = { lines_as_json };

    fn print(
        &self,
        text: &mut String,
        names: &Names,
        counter: &Book,
        number: usize,
        line: &[u8],
        answer: &LineAnswer,
    ) -> Result<(), AllocError> {
        let command = command_of(self.alloc, names, line)?;
        let changes = line_changes(names, counter, line, answer);
        push_line(
            self.alloc,
            text,
            counter.session().state(),
            number,
            command.as_deref(),
            answer,
            changes,
        )
    }
}

/// The line of the command that a line asks for, as a plan or an operator would write it, if it asks for one.
fn command_of(alloc: Global, names: &Names, line: &[u8]) -> Result<Option<String>, AllocError>
    ensures { IfOk result (λ command. option_map string_bytes command ≡ command_in names.now (asked names.now line.now)) }
{
    match parse_line(names, line) {
        Some(Ok(command)) => command_text(alloc, names, &command),
        Some(Err(_)) | None => Ok(None),
    }
}

/// A `run` as a stream of JSON: an object of each line that has an answer, each on a line of its own, and a last one that
/// says how the run ended, also where the picture is refused. After a failed write it is not there.
pub fn run_as_json<V: Surveyor, P: TextIn, R: TextIn, W: TextOut>(
    alloc: Global,
    surveyor: &V,
    picture: &mut P,
    script: &mut R,
    writer: &mut W,
) -> Result<(), PipeFault>
    requires surveys { V.surveys surveyor.now }
    requires picture { P.has_failed picture.old ≡ false }
    requires script { R.has_failed script.old ≡ false }
    requires writes { W.has_failed writer.old ≡ false }
    ensures runs { RunsAsJson result (script.new ≡ script.old)
        (P.has_failed picture.new) (P.remaining picture.old) (P.remaining picture.new)
        (R.has_failed script.new) (R.remaining script.old) (R.remaining script.new)
        (W.contents writer.old) (W.contents writer.new) }
    ensures prompt { (script.new ≡ script.old) ⊎ PrintsInTime lines_as_json
        (P.has_failed picture.new) (P.remaining picture.old) (P.remaining picture.new)
        (R.remaining script.old) (R.before script.new) (W.contents writer.old) (W.seen writer.new) }
    ensures ended { OnOk result (IsAtEnd (R.remaining script.new)) }
    ensures finished { OnOk result (R.at_end script.new ≡ true) }
    ensures seen { OnOk result (W.seen writer.new ≡ W.contents writer.new) }
    ensures whole { loses_output result ≡ false → W.seen writer.new ≡ W.contents writer.new }
    ensures write { W.has_failed writer.new ≡ loses_output result }
    ensures picture_calls { P.calls picture.new ≤ P.calls picture.old + (MAX_PICTURE_BYTES + 1) }
    ensures script_calls { R.calls script.new ≤ R.calls script.old + (MAX_SCRIPT_BYTES + 1) }
{
    let printer = AsJson { alloc };
    let end = run_printing(alloc, surveyor, &printer, picture, script, writer);
    tell_end(end, writer)
}

/// Writes the last object of a stream of JSON, which says how the play ended, and hands it on. Where this fails the play
/// ends with a write fault.
pub fn tell_end<W: TextOut>(end: Result<(), PipeFault>, writer: &mut W) -> Result<(), PipeFault>
    requires { W.has_failed writer.old ≡ loses_output end }
    ensures told { IsTold (json.end_text end) end result (W.contents writer.old) (W.contents writer.new) }
    ensures grows { Grows (W.seen writer.old) (W.seen writer.new) }
    ensures seen { OnOk result (W.seen writer.new ≡ W.contents writer.new) }
    ensures whole { loses_output result ≡ false → W.seen writer.new ≡ W.contents writer.new }
    ensures write { W.has_failed writer.new ≡ loses_output result }
{
    let Some(text) = end_text(&end) else {
        return end;
    };
    match write_end(text, writer) {
        Ok(()) => end,
        Err(StreamFault) => Err(PipeFault::Play(PlayFault::WriteFault)),
    }
}

/// Writes some bytes, and hands them on.
fn write_end<W: TextOut>(bytes: &[u8], writer: &mut W) -> Result<(), StreamFault>
    requires { W.has_failed writer.old ≡ false }
    ensures ok { OnOk result (Appends (W.contents writer.old) (W.contents writer.new) bytes.now) }
    ensures part { OnErr result (WritesPart (W.contents writer.old) (W.contents writer.new) bytes.now) }
    ensures grows { Grows (W.seen writer.old) (W.seen writer.new) }
    ensures seen { OnOk result (W.seen writer.new ≡ W.contents writer.new) }
    ensures failed { W.has_failed writer.new ≡ is_err result }
{
    write_all(writer, bytes)?;
    writer.flush()
}

/// The last object, which says how a play ended. After a failed write there is none.
fn end_text(end: &Result<(), PipeFault>) -> Option<&'static [u8]>
    ensures { option_copied result ≡ json.end_text end.now }
{
    match end {
        Ok(()) => Some(b"{\"end\":\"ok\"}\n"),
        Err(PipeFault::Picture(_)) => Some(b"{\"end\":\"picture refused\"}\n"),
        Err(PipeFault::Play(PlayFault::ReadFault)) => Some(b"{\"end\":\"read fault\"}\n"),
        Err(PipeFault::Play(PlayFault::TooLong)) => Some(b"{\"end\":\"script too long\"}\n"),
        Err(PipeFault::Play(PlayFault::WriteFault)) => None,
        Err(PipeFault::Play(PlayFault::NoMemory)) => Some(b"{\"end\":\"no memory\"}\n"),
        Err(PipeFault::Play(PlayFault::NoThread)) => Some(b"{\"end\":\"no thread\"}\n"),
    }
}
