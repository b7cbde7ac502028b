// Numbers of things.
ghost use Rattle.std.specs.Prelude.{◌≡◌};
ghost use Rattle.reh_answer.specs.Texts as texts;

use std::fmt;

/// What is counted.
#[derive(Clone, Copy)]
pub enum Noun {
    Entry,
    Ledger,
    OpenLedger,
    Fragment,
}

/// The word for one, or for more.
fn noun_word(noun: Noun, one: bool) -> &'static str
    ensures { result.now ≡ texts.noun_word noun one }
{
    match (noun, one) {
        (Noun::Entry, true) => "entry",
        (Noun::Entry, false) => "entries",
        (Noun::Ledger, true) => "ledger",
        (Noun::Ledger, false) => "ledgers",
        (Noun::OpenLedger, true) => "open ledger",
        (Noun::OpenLedger, false) => "open ledgers",
        (Noun::Fragment, true) => "fragment",
        (Noun::Fragment, false) => "fragments",
    }
}

/// Whose, of so many.
pub(crate) fn whose(number: u64) -> &'static str
    ensures { result.now ≡ texts.whose number }
{
    if number == 1 { "its" } else { "their" }
}

/// What so many do that have something.
pub(crate) fn has(number: u64) -> &'static str
    ensures { result.now ≡ texts.has number }
{
    if number == 1 { "has" } else { "have" }
}

/// What so many were.
pub(crate) fn were(number: u64) -> &'static str
    ensures { result.now ≡ texts.were number }
{
    if number == 1 { "was" } else { "were" }
}

/// So many of a kind.
#[derive(Clone, Copy)]
pub(crate) struct Amount {
    pub number: u64,
    pub noun: Noun,
}

impl fmt::Display for Amount {
    ghost use Rattle.std.specs.Prelude.{Some};

    ghost output = { λ amount. Some (texts.amount amount.number amount.noun) };

    fn fmt<W: fmt::Write>(&self, f: &mut fmt::Formatter<W>) -> fmt::Result {
        let word = noun_word(self.noun, self.number == 1);
        write!(f, "{} {word}", self.number)
    }
}
