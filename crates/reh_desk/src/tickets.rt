// Tickets, what is found with them, and what is left of one that a book doesn't know.
ghost use Rattle.std.specs.Prelude.{◌≡◌, IfOk, IfErr};
ghost use Rattle.reh_desk.specs.Unspent.{number_of, aim_of};

use reh_scan::{Job, look};
use reh_types::{Aim, BoxedContent, Content};
use std::alloc::{AllocError, Global};
use std::marker::{Model, PhantomData};

/// Takes no bytes, and keeps what has it on its thread: a pointer is neither `Send` nor `Sync`.
#[derive(Clone, Copy)]
struct OneThread(PhantomData<*const u8>);

/// Leave to scan the fragment of an aim, as it stood when a book issued the ticket. It can be neither dropped nor
/// copied, and stays on its thread: it goes to `scan`, or is given back by `discard`.
///
/// Contracts see its number, and what a scan with it finds.
#[must_use]
pub struct Ticket {
    number: u32,
    job: Job,
    here: OneThread,
}

impl Model for Ticket {
    ghost use Rattle.reh_desk.specs.Numbered.{Numbered};

    ghost Value = { Numbered };

    ghost view = { λ t. record { number = t.number; content = t.job } };
}

/// What a scan found. It can be neither dropped nor copied, and stays on its thread: it goes to `spend`, or is given
/// back by `discard`.
///
/// It holds its content twice, one for the tape's line and one for the list of its seat, so that a spend needs no
/// memory for them.
#[must_use]
pub struct Finding {
    number: u32,
    content: BoxedContent,
    copy: BoxedContent,
    here: OneThread,
}

impl Model for Finding {
    ghost use Rattle.std.specs.Prelude.{◌≡◌};
    ghost use Rattle.reh_desk.specs.Numbered.{Numbered};

    ghost Value = { Numbered };

    ghost view = { λ f. record { number = f.number; content = f.content } };

    ghost invariant = { λ f. f.copy ≡ f.content };
}

/// A ticket that was not scanned, or what was found with one.
#[must_use]
pub enum Unspent {
    Unscanned(Ticket),
    Scanned(Finding),
}

/// What a book gives back that was discarded there, and isn't out. It is taken back, to go elsewhere, or forfeited.
#[must_use]
pub struct Stray {
    unspent: Unspent,
}

impl Model for Stray {
    ghost use Rattle.reh_desk.specs.declared.tickets.Unspent.{Unspent};

    ghost Value = { Unspent };

    ghost view = { λ s. s.unspent };
}

impl Ticket {
    /// The ticket of that number, for a job.
    pub(crate) fn new(number: u32, job: Job) -> Ticket
        ensures { result ≡ record { number = number; content = job } }
    {
        let here = OneThread(PhantomData);
        Ticket { number, job, here }
    }

    /// The ticket's number.
    pub fn number(&self) -> u32
        ensures { result ≡ self.now.number }
    {
        self.number
    }

    /// The aim that it was issued for.
    pub fn aim(&self) -> Aim
        ensures { result ≡ self.now.content.aim }
    {
        self.job.aim()
    }

    /// The end of a ticket that is out no more.
    fn end(self) {
        let Ticket {
            number: _,
            job: _,
            here: _,
        } = self;
    }
}

impl Finding {
    /// The number of the ticket.
    pub fn number(&self) -> u32
        ensures { result ≡ self.now.number }
    {
        self.number
    }

    /// The aim of the ticket.
    pub fn aim(&self) -> Aim
        ensures { result ≡ self.now.content.aim }
    {
        self.content.as_content().aim
    }

    /// What was found.
    pub fn content(&self) -> &Content
        ensures { result.now ≡ self.now.content }
    {
        self.content.as_content()
    }

    /// The content, once for the tape's line and once for the seat's list.
    pub(crate) fn into_contents(self) -> (BoxedContent, BoxedContent)
        ensures { (result.0 ≡ self.content) × (result.1 ≡ self.content) }
    {
        let Finding {
            number: _,
            content,
            copy,
            here: _,
        } = self;
        (content, copy)
    }
}

impl Unspent {
    /// The number of the ticket.
    pub fn number(&self) -> u32
        ensures { result ≡ number_of self.now }
    {
        match self {
            Unspent::Unscanned(ticket) => ticket.number(),
            Unspent::Scanned(finding) => finding.number(),
        }
    }

    /// The aim of the ticket.
    pub fn aim(&self) -> Aim
        ensures { result ≡ aim_of self.now }
    {
        match self {
            Unspent::Unscanned(ticket) => ticket.aim(),
            Unspent::Scanned(finding) => finding.aim(),
        }
    }

    /// The end of what is out no more.
    pub(crate) fn end(self) {
        match self {
            Unspent::Unscanned(ticket) => ticket.end(),
            Unspent::Scanned(finding) => {
                let _contents = finding.into_contents();
            }
        }
    }
}

impl Stray {
    pub(crate) fn new(unspent: Unspent) -> Stray
        ensures { result ≡ unspent }
    {
        Stray { unspent }
    }

    /// What was discarded, to be spent or discarded elsewhere.
    pub fn back(self) -> Unspent
        ensures { result ≡ self }
    {
        let Stray { unspent } = self;
        unspent
    }

    /// Gives it up. Where its ticket is out, it stays out.
    pub fn forfeit(self) {
        self.back().end();
    }
}

/// Scans the fragment of a ticket: what is found is what a scan of its aim finds in the state in which the ticket was
/// issued, whatever became of the rehearsal since. Where there is no memory, the ticket is handed back.
pub fn scan(alloc: Global, ticket: Ticket) -> Result<Finding, (Ticket, AllocError)>
    ensures ok { IfOk result (λ finding. (finding.number ≡ ticket.number) × (finding.content ≡ ticket.content)) }
    ensures err { IfErr result (λ e. e.0 ≡ ticket) }
{
    let (content, copy) = match look_twice(alloc, &ticket.job) {
        Ok(contents) => contents,
        Err(want) => return Err((ticket, want)),
    };
    let Ticket {
        number,
        job: _,
        here,
    } = ticket;
    Ok(Finding {
        number,
        content,
        copy,
        here,
    })
}

/// What a look at a job finds, twice.
fn look_twice(alloc: Global, job: &Job) -> Result<(BoxedContent, BoxedContent), AllocError>
    ensures { IfOk result (λ contents. (contents.0 ≡ job.now) × (contents.1 ≡ job.now)) }
{
    let content = BoxedContent::of(alloc, look(alloc, job)?)?;
    let copy = content.clone_in()?;
    Ok((content, copy))
}
