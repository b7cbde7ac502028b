// What a worker finds when it scans a fragment.
ghost use Rattle.std.specs.Prelude.{◌≡◌, ◌↔◌, IfOk, IsTrue};

use crate::names::{Aim, BookieIx};
use std::alloc::{AllocError, Global};
use std::marker::Model;
use std::sync::Arc;

/// The members of an ensemble, by their indexes; contracts see the list.
#[derive(Drop)]
pub struct Members {
    items: Vec<BookieIx>,
}

impl Model for Members {
    ghost use Rattle.std.specs.Prelude.{List, ℕ};

    ghost Value = { List ℕ };

    ghost view = { λ m. m.items.items };
}

impl Members {
    /// These members.
    pub fn of(items: Vec<BookieIx>) -> Members
        ensures { result ≡ items.items }
    {
        Members { items }
    }

    /// The members, as a slice.
    pub fn as_slice(&self) -> &[BookieIx]
        ensures { result.now ≡ self.now }
    {
        &self.items
    }

    /// A copy.
    pub fn clone_in(&self) -> Result<Members, AllocError>
        ensures { IfOk result (λ copy. copy ≡ self.now) }
    {
        let items = self.items.clone()?;
        Ok(Members { items })
    }

    /// Whether both are the same members.
    pub fn same(&self, other: &Members) -> bool
        ensures { IsTrue result ↔ (self.now ≡ other.now) }
    {
        self.items.as_slice() == other.items.as_slice()
    }
}

/// For each entry that a fragment stripes onto an index, rising, a bookie from which it can be copied, or none;
/// contracts see the list.
#[derive(Drop)]
pub struct Sources {
    items: Vec<Option<BookieIx>>,
}

impl Model for Sources {
    ghost use Rattle.std.specs.Prelude.{List, ℕ, Option};

    ghost Value = { List (Option ℕ) };

    ghost view = { λ s. s.items.items };
}

impl Sources {
    /// These sources.
    pub fn of(items: Vec<Option<BookieIx>>) -> Sources
        ensures { result ≡ items.items }
    {
        Sources { items }
    }

    /// The sources, as a slice.
    pub fn as_slice(&self) -> &[Option<BookieIx>]
        ensures { result.now ≡ self.now }
    {
        &self.items
    }

    /// A copy.
    pub fn clone_in(&self) -> Result<Sources, AllocError>
        ensures { IfOk result (λ copy. copy ≡ self.now) }
    {
        let items = self.items.clone()?;
        Ok(Sources { items })
    }

    /// Whether both are the same sources.
    pub fn same(&self, other: &Sources) -> bool
        ensures { IsTrue result ↔ (self.now ≡ other.now) }
    {
        self.items.as_slice() == other.items.as_slice()
    }
}

/// What a worker found when it scanned the fragment of its aim: the metadata's version and the fragment as they were
/// read, and a source, or none, for each striped entry.
#[derive(Drop)]
pub struct Content {
    pub aim: Aim,
    pub version: u64,
    /// The fragment's first entry.
    pub first: u32,
    /// The first entry past the fragment.
    pub stop: u32,
    pub ensemble: Members,
    pub sources: Sources,
}

impl Content {
    /// A copy.
    pub fn clone_in(&self) -> Result<Content, AllocError>
        ensures { IfOk result (λ copy. copy ≡ self.now) }
    {
        Ok(Content {
            aim: self.aim,
            version: self.version,
            first: self.first,
            stop: self.stop,
            ensemble: self.ensemble.clone_in()?,
            sources: self.sources.clone_in()?,
        })
    }

    /// Whether both are the same content.
    pub fn same(&self, other: &Content) -> bool
        ensures { IsTrue result ↔ (self.now ≡ other.now) }
    {
        self.aim == other.aim
            && self.version == other.version
            && self.first == other.first
            && self.stop == other.stop
            && self.ensemble.same(&other.ensemble)
            && self.sources.same(&other.sources)
    }
}

/// A content behind a pointer, by which moves, calls and the lines of a tape are small; contracts see the content.
///
/// Copies share the content, which nobody changes.
#[derive(Drop)]
pub struct BoxedContent {
    content: Arc<Content>,
}

impl Model for BoxedContent {
    ghost use Rattle.reh_types.specs.declared.contents.Content.{Content};

    ghost Value = { Content };

    ghost view = { λ b. b.content.value };
}

impl BoxedContent {
    /// This content.
    pub fn of(alloc: Global, content: Content) -> Result<BoxedContent, AllocError>
        ensures { IfOk result (λ boxed. boxed ≡ content) }
    {
        let content = Arc::new(alloc, content)?;
        Ok(BoxedContent { content })
    }

    /// The content.
    pub fn as_content(&self) -> &Content
        ensures { result.now ≡ self.now }
    {
        &self.content
    }

    /// A copy, which shares the content and takes no memory. It fails only where there are 2^63 copies.
    pub fn clone_in(&self) -> Result<BoxedContent, AllocError>
        ensures { IfOk result (λ copy. copy ≡ self.now) }
    {
        let content = self.content.clone()?;
        Ok(BoxedContent { content })
    }

    /// Whether both are the same content.
    pub fn same(&self, other: &BoxedContent) -> bool
        ensures { IsTrue result ↔ (self.now ≡ other.now) }
    {
        self.content.same(&other.content)
    }
}
