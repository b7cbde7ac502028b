// The words of a line, and what those after a verb name.
ghost use Rattle.std.specs.Prelude.{◌≡◌, ◌≤◌, ◌∷◌, ◌++◌, [], length, map, MatchOption, OnOk, not, position};
ghost use Rattle.std.specs.Prelude.{false, slice_get, string_bytes};
ghost use Rattle.std.specs.List.{list_all, position_or_len};
ghost use Rattle.std.specs.Option.{option_map_or};
ghost use Rattle.reh_commands.specs.Printed as printed;
ghost use Rattle.reh_commands.specs.Script as script;
ghost use Rattle.reh_commands.specs.Texts.{behind_spaces};

use crate::commands::LineFault;
use crate::texts::push_name;
use reh_cluster::Names;
use reh_types::BookieIx;
use std::alloc::AllocError;
use std::fmt;

/// The first number with more digits than a word may have.
const NUMBER_END: u64 = 10_000_000_000_000;

/// What a word after a verb stands for.
#[derive(Clone, Copy)]
pub enum Role {
    /// A bookie.
    Bookie,
    /// A worker, which goes by its bookie's name.
    Worker,
    /// A ledger's id.
    Ledger,
    /// A fragment of the ledger, counted from 0.
    Fragment,
    /// An index of the fragment's ensemble.
    Index,
    /// The version of the ledger's metadata.
    Version,
    /// How many ticks the clock goes on.
    Ticks,
}

/// What a word has to be.
#[derive(Clone, Copy)]
pub enum Kind {
    /// A bookie's name.
    Name,
    /// A number of 1 to 13 decimal digits.
    Number,
}

impl Role {
    /// What a word of this role has to be.
    fn kind(self) -> Kind
        ensures { result ≡ script.kind_of self }
    {
        match self {
            Role::Bookie | Role::Worker => Kind::Name,
            Role::Ledger | Role::Fragment | Role::Index | Role::Version | Role::Ticks =>
                Kind::Number,
        }
    }
}

/// The role as it is written in help.
impl fmt::Display for Role {
    ghost use Rattle.std.specs.Prelude.{Some};
    ghost use Rattle.reh_commands.specs.Usage.{role_text};

    ghost output = { λ role. Some (role_text role) };

    fn fmt<W: fmt::Write>(&self, f: &mut fmt::Formatter<W>) -> fmt::Result {
        f.write_str(match self {
            Role::Bookie => "BOOKIE",
            Role::Worker => "WORKER",
            Role::Ledger => "LEDGER",
            Role::Fragment => "FRAGMENT",
            Role::Index => "INDEX",
            Role::Version => "VERSION",
            Role::Ticks => "N",
        })
    }
}

/// What the words after a verb name: at most one bookie, and at most four numbers in their order. Others are 0.
#[derive(Clone, Copy)]
pub struct Arguments {
    pub bookie: BookieIx,
    pub first: u64,
    pub second: u64,
    pub third: u64,
    pub fourth: u64,
}

impl Arguments {
    /// Nothing is named.
    pub(crate) fn none() -> Arguments
        ensures { result ≡ script.no_arguments }
    {
        Arguments {
            bookie: BookieIx(0),
            first: 0,
            second: 0,
            third: 0,
            fourth: 0,
        }
    }

    /// The same with a bookie before the others.
    pub(crate) fn with_bookie(self, bookie: BookieIx) -> Arguments
        ensures { result ≡ script.with_bookie bookie self }
    {
        Arguments { bookie, ..self }
    }

    /// The same with a number before the others.
    pub(crate) fn with_number(self, number: u64) -> Arguments
        ensures { result ≡ script.with_number number self }
    {
        Arguments {
            bookie: self.bookie,
            first: number,
            second: self.first,
            third: self.second,
            fourth: self.third,
        }
    }

    /// The same without the first of the numbers.
    fn without_number(&self) -> Arguments
        ensures { result ≡ printed.without_number self.now }
    {
        Arguments {
            bookie: self.bookie,
            first: self.second,
            second: self.third,
            third: self.fourth,
            fourth: 0,
        }
    }
}

/// What the words of a text name, if they are what these roles want.
pub(crate) fn read_words(names: &Names, roles: &[Role], text: &[u8]) -> Result<Arguments, LineFault>
    ensures { result ≡ script.arguments_of names.now (map script.kind_of roles.now) (script.words_of text.now) }
{
    let next = next_word(text);
    let [role, roles @ ..] = roles else {
        return match next {
            Some(_) => Err(LineFault::BadWords),
            None => Ok(Arguments::none()),
        };
    };
    let Some((word, rest)) = next else {
        return Err(LineFault::BadWords);
    };
    match role.kind() {
        Kind::Number => {
            let Some(number) = parse_number(word) else {
                return Err(LineFault::BadWords);
            };
            Ok(read_words(names, roles, rest)?.with_number(number))
        }
        Kind::Name => {
            let others = read_words(names, roles, rest)?;
            let Some(bookie) = names.find(word) else {
                return Err(LineFault::UnknownName);
            };
            Ok(others.with_bookie(bookie))
        }
    }
}

/// Whether words of these roles can name what the arguments do: the bookie has a name that can be a word, and the
/// numbers have at most 13 digits.
pub(crate) fn can_name(names: &Names, roles: &[Role], a: &Arguments) -> bool
    ensures { result ≡ printed.can_name names.now (map script.kind_of roles.now) a.now }
{
    let [role, roles @ ..] = roles else {
        return true;
    };
    match role.kind() {
        Kind::Name => has_word(names, a.bookie) && can_name(names, roles, a),
        Kind::Number => a.first < NUMBER_END && can_name(names, roles, &a.without_number()),
    }
}

/// Whether the bookie has a name, and that can be a word.
fn has_word(names: &Names, bookie: BookieIx) -> bool
    ensures { result ≡ option_map_or printed.is_word (slice_get names.now bookie) false }
{
    match names.name(bookie) {
        Some(name) => is_word(name.as_bytes()),
        None => false,
    }
}

/// Whether a text can be a word: it isn't empty, and has no space, tab or line end.
fn is_word(text: &[u8]) -> bool
    ensures { result ≡ printed.is_word text.now }
{
    !text.is_empty() && are_letters(text)
}

/// Whether no byte is a space's or below it.
fn are_letters(text: &[u8]) -> bool
    ensures { result ≡ list_all printed.is_letter text.now }
{
    text.iter().all(|byte| *byte > b' ')
}

/// Adds the words of these roles that name what the arguments do, each after a space.
pub(crate) fn push_words(
    text: &mut String,
    names: &Names,
    roles: &[Role],
    a: &Arguments,
) -> Result<(), AllocError>
    ensures { OnOk result (string_bytes text.new ≡ string_bytes text.old
        ++ behind_spaces (printed.words_for names.now (map script.kind_of roles.now) a.now)) }
{
    let [role, roles @ ..] = roles else {
        return Ok(());
    };
    match role.kind() {
        Kind::Name => {
            push_name(text, names, a.bookie)?;
            push_words(text, names, roles, a)
        }
        Kind::Number => {
            write!(text, " {}", a.first)?;
            push_words(text, names, roles, &a.without_number())
        }
    }
}

/// The first word of a text, if there is one, and what follows it.
pub(crate) fn next_word(text: &[u8]) -> Option<(&[u8], &[u8])>
    ensures { MatchOption result (script.words_of text.now ≡ [])
        (λ found. script.words_of text.now ≡ found.0.now ∷ script.words_of found.1.now) }
{
    let text = &text[blanks(text)..];
    if text.is_empty() {
        return None;
    }
    let end = word_len(text);
    Some((&text[..end], &text[end..]))
}

/// How many bytes stand before the first word.
fn blanks(text: &[u8]) -> usize
    ensures count { result ≡ position_or_len (λ b. not (script.is_blank b)) text.now }
    ensures within { result ≤ length text.now }
{
    match first_letter(text) {
        Some(start) => start,
        None => text.len(),
    }
}

/// Where the first word begins, if there is one.
fn first_letter(text: &[u8]) -> Option<usize>
    ensures { result ≡ position (λ b. not (script.is_blank b)) text.now }
{
    text.iter().position(|b| !is_blank(*b))
}

/// How many bytes stand before the first space or tab.
fn word_len(text: &[u8]) -> usize
    ensures count { result ≡ position_or_len script.is_blank text.now }
    ensures within { result ≤ length text.now }
{
    match first_blank(text) {
        Some(end) => end,
        None => text.len(),
    }
}

/// Where the first space or tab stands, if there is one.
fn first_blank(text: &[u8]) -> Option<usize>
    ensures { result ≡ position script.is_blank text.now }
{
    text.iter().position(|b| is_blank(*b))
}

/// Whether the byte parts words.
fn is_blank(byte: u8) -> bool
    ensures { result ≡ script.is_blank byte }
{
    byte == b' ' || byte == b'\t'
}

/// The value of 1 to 13 decimal digits.
fn parse_number(word: &[u8]) -> Option<u64>
    ensures { result ≡ script.number_of word.now }
{
    if word.is_empty() || word.len() > 13 {
        return None;
    }
    let mut value = 0u64;
    for digit in word {
        if !digit.is_ascii_digit() {
            return None;
        }
        value = value * 10 + u64::from(*digit - b'0');
    }
    Some(value)
}
