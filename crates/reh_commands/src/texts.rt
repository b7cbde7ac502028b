// The texts of replies, and of bookies by name.
ghost use Rattle.std.specs.Prelude.{◌≡◌, ◌++◌, IfOk, OnOk, string_bytes};
ghost use Rattle.std.specs.Prelude.{codes};
ghost use Rattle.reh_commands.specs.Texts as texts;

use reh_cluster::Names;
use reh_types::{BookieIx, Refusal, Reply};
use std::alloc::{AllocError, Global};
use std::fmt;

/// A reply, as it is printed after its line's number. A lock's owner goes by the name that these names have for it.
pub fn reply_text(alloc: Global, names: &Names, reply: &Reply) -> Result<String, AllocError>
    ensures { IfOk result (λ text. string_bytes text ≡ texts.reply_text names.now reply.now) }
{
    let reply = Named { names, reply };
    format!(in alloc; "{reply}")
}

/// A reply with the names of the bookies, by which it is printed.
#[derive(Drop)]
pub struct Named<'a> {
    pub names: &'a Names,
    pub reply: &'a Reply,
}

impl fmt::Display for Named<'_> {
    ghost use Rattle.std.specs.Prelude.{Some};

    ghost output = { λ n. Some (texts.reply_text n.names.now n.reply.now) };

    fn fmt<W: fmt::Write>(&self, f: &mut fmt::Formatter<W>) -> fmt::Result {
        match self.reply {
            Reply::Refused(Refusal::Locked(owner)) => match self.names.name(*owner) {
                Some(name) => write!(f, "refused 7 Locked {name}"),
                None => write!(f, "refused 7 Locked {}", owner.0),
            },
            reply => reply.fmt(f),
        }
    }
}

/// Adds a space and the bookie's name, or its number where the names have none for it.
pub fn push_name(text: &mut String, names: &Names, bookie: BookieIx) -> Result<(), AllocError>
    ensures { OnOk result (string_bytes text.new ≡ string_bytes text.old
        ++ (codes " " ++ texts.name_of names.now bookie)) }
{
    match names.name(bookie) {
        Some(name) => write!(text, " {name}"),
        None => write!(text, " {}", bookie.0),
    }
}
