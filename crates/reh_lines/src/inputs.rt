// The input: a picture, a line `%` and a script.
ghost use Rattle.std.specs.Prelude.{◌≡◌, ◌==◌, ◌<◌, ◌≤◌, ◌∷◌, length, take, position};
ghost use Rattle.std.specs.Prelude.{option_map};
ghost use Rattle.reh_lines.specs.Lines.{lines_of, cut_of, ended, after_end as follows_end};
ghost use Rattle.reh_lines.specs.Lines.{after_percent as follows_percent};

/// The first line of a text, without its LF, and what follows.
pub fn first_line(text: &[u8]) -> (&[u8], &[u8])
    requires { 0 < length text.now }
    ensures lines { lines_of text.now ≡ result.0.now ∷ lines_of result.1.now }
    ensures shorter { length result.1.now < length text.now }
{
    match first_lf(text) {
        Some(end) => (&text[..end], &text[end + 1..]),
        None => (text, &text[text.len()..]),
    }
}

/// Where the first line ends.
fn first_lf(text: &[u8]) -> Option<usize>
    ensures { result ≡ position (λ b. b == 10) text.now }
{
    text.iter().position(|b| *b == b'\n')
}

/// The first bytes of a text, so many.
pub fn front(text: &[u8], count: usize) -> &[u8]
    requires { count ≤ length text.now }
    ensures { result.now ≡ take count text.now }
{
    &text[..count]
}

/// The picture and the script of an input.
pub fn split_input(input: &[u8]) -> (&[u8], &[u8])
    ensures picture { result.0.now ≡ (cut_of input.now).picture }
    ensures script { result.1.now ≡ (cut_of input.now).script }
{
    if let Some(script) = after_percent(input) {
        return (&input[..0], script);
    }
    for (i, b) in input.iter().enumerate() {
        if *b == b'\n'
            && let Some(script) = after_percent(&input[i + 1..])
        {
            return (&input[..i], script);
        }
    }
    (input, &input[input.len()..])
}

/// A text up to its last LF.
pub fn whole_lines(text: &[u8]) -> &[u8]
    ensures { result.now ≡ ended text.now }
{
    let mut end = text.len();
    while end > 0 {
        if text[end - 1] == b'\n' {
            return &text[..end];
        }
        end -= 1;
    }
    &text[..0]
}

/// What follows the line `%`, if the text begins with it.
fn after_percent(text: &[u8]) -> Option<&[u8]>
    ensures { option_map (λ rest. rest.now) result ≡ follows_percent text.now }
{
    match text {
        [b'%', ..] => after_end(&text[1..]),
        _ => None,
    }
}

/// What follows the end of a line, if the text begins with one.
fn after_end(text: &[u8]) -> Option<&[u8]>
    ensures { option_map (λ rest. rest.now) result ≡ follows_end text.now }
{
    match text {
        [] => Some(text),
        [b'\n', ..] => Some(&text[1..]),
        [b'\r'] => Some(&text[1..]),
        [b'\r', b'\n', ..] => Some(&text[2..]),
        _ => None,
    }
}
