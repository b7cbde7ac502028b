// The colour of a line.
ghost use Rattle.std.specs.Prelude.{◌≡◌, ◌==◌, position};
ghost use Rattle.std.specs.List.{after_first};
ghost use Rattle.reh_colors.specs.Shades as model;

/// A colour: what is refused, or answered no, is red; a yes is green; and yellow is for what is unknown.
#[derive(Clone, Copy)]
pub enum Shade {
    Red,
    Green,
    Yellow,
}

impl Shade {
    /// What is written before a text of this colour.
    pub fn code(self) -> &'static str
        ensures { result.now ≡ model.code_of self }
    {
        match self {
            Shade::Red => "\x1b[31m",
            Shade::Green => "\x1b[32m",
            Shade::Yellow => "\x1b[33m",
        }
    }

    /// What is written after it.
    pub fn end(self) -> &'static str
        ensures { result.now ≡ model.end_code }
    {
        "\x1b[0m"
    }
}

/// The colour of a line, without its LF: of an answer of a script that refuses, and of the verdict of `ok-to-stop`. Other
/// lines have none.
pub fn shade_of(line: &[u8]) -> Option<Shade>
    ensures { result ≡ model.shade_of line.now }
{
    if line.starts_with(b"line ") && is_refused(answer_of(line)) {
        return Some(Shade::Red);
    }
    verdict_shade(line)
}

/// What stands after a line's first colon.
fn answer_of(line: &[u8]) -> &[u8]
    ensures { result.now ≡ after_first (λ b. b == 58) line.now }
{
    match first_colon(line) {
        Some(colon) => &line[colon + 1..],
        None => &line[line.len()..],
    }
}

/// Where the first colon stands, if there is one.
fn first_colon(line: &[u8]) -> Option<usize>
    ensures { result ≡ position (λ b. b == 58) line.now }
{
    line.iter().position(|byte| *byte == b':')
}

/// Whether an answer refuses: a command, or the line itself.
fn is_refused(answer: &[u8]) -> bool
    ensures { result ≡ model.is_refused answer.now }
{
    answer.starts_with(b" refused ") || is_fault(answer)
}

/// Whether it is what is answered to a faulty line.
fn is_fault(answer: &[u8]) -> bool
    ensures { result ≡ model.is_fault answer.now }
{
    answer == " too long".as_bytes()
        || answer == " unknown command".as_bytes()
        || answer == " bad words".as_bytes()
        || answer == " unknown name".as_bytes()
}

/// The colour of a line that has a verdict.
fn verdict_shade(line: &[u8]) -> Option<Shade>
    ensures { result ≡ model.verdict_shade line.now }
{
    if line.starts_with(b"ok-to-stop: yes") {
        return Some(Shade::Green);
    }
    if line.starts_with(b"ok-to-stop: no") {
        return Some(Shade::Red);
    }
    if line.starts_with(b"ok-to-stop: unknown") {
        return Some(Shade::Yellow);
    }
    None
}
