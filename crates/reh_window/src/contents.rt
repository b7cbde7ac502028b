// What is told of a window's entries, each counted from its first one on.
ghost use Rattle.std.specs.Prelude.{◌≡◌, map, IfOk};
ghost use Rattle.std.specs.Option.{option_map};
ghost use Rattle.reh_window.specs.Windows as model;

use crate::spans::Span;
use reh_census::{Range, Ranges};
use reh_inventory::{Content, ContentList, Entries};
use reh_inventory_fields::Name;
use std::alloc::{AllocError, Global};

/// The part of a range that has entries of the span, if it has some.
fn range_in(span: Span, range: Range) -> Option<Range>
    ensures { result ≡ model.range_in span range }
{
    if range.first < span.stop && span.start <= range.last {
        let last = range.last.min(span.stop - 1);
        Some(Range {
            first: range.first.saturating_sub(span.start),
            last: last.saturating_sub(span.start),
        })
    } else {
        None
    }
}

/// The parts of ranges that have entries of the span.
fn ranges_in(alloc: Global, span: Span, ranges: &[Range]) -> Result<Ranges, AllocError>
    ensures { IfOk result (λ parts. parts ≡ model.ranges_in span ranges.now) }
{
    let mut parts = Vec::new(alloc);
    for range in ranges {
        if let Some(part) = range_in(span, *range) {
            parts.push(part)?;
        }
    }
    Ok(Ranges::of(parts))
}

/// What a bookie is said to hold of the span's entries.
fn entries_in(alloc: Global, span: Span, entries: &Entries) -> Result<Entries, AllocError>
    ensures { IfOk result (λ part. part ≡ model.entries_in span entries.now) }
{
    match entries {
        Entries::Holds(ranges) => Ok(Entries::Holds(ranges_in(alloc, span, ranges.as_slice())?)),
        Entries::Lacks(ranges) => Ok(Entries::Lacks(ranges_in(alloc, span, ranges.as_slice())?)),
    }
}

/// The entries of the span of which a content speaks, if it says of which.
fn told_in(alloc: Global, span: Span, told: &Option<Ranges>) -> Result<Option<Ranges>, AllocError>
    ensures { IfOk result (λ part. part ≡ option_map (model.ranges_in span) told.now) }
{
    match told {
        Some(ranges) => Ok(Some(ranges_in(alloc, span, ranges.as_slice())?)),
        None => Ok(None),
    }
}

/// What a content tells of the span's entries.
fn content_in(alloc: Global, span: Span, content: &Content) -> Result<Content, AllocError>
    ensures { IfOk result (λ part. part ≡ model.content_in span content.now) }
{
    let bookie = Name::new(alloc, content.bookie.as_str())?;
    let entries = entries_in(alloc, span, &content.entries)?;
    let told = told_in(alloc, span, &content.told)?;
    Ok(Content {
        bookie,
        entries,
        told,
        is_assumed: content.is_assumed,
    })
}

/// What contents tell of the span's entries.
pub(crate) fn contents_in(
    alloc: Global,
    span: Span,
    contents: &[Content],
) -> Result<ContentList, AllocError>
    ensures { IfOk result (λ parts. parts ≡ map (model.content_in span) contents.now) }
{
    let mut parts = Vec::new(alloc);
    for content in contents {
        parts.push(content_in(alloc, span, content)?)?;
    }
    Ok(ContentList::of(parts))
}
