// The fragments of a window, each counted from the window's first entry on.
ghost use Rattle.std.specs.Prelude.{◌≡◌, option_copied, IfOk};
ghost use Rattle.reh_window.specs.Windows as model;

use crate::spans::Span;
use reh_inventory::{Fragment, FragmentList};
use reh_inventory_fields::{Ensemble, Name};
use std::alloc::{AllocError, Global};

/// Whether a fragment has entries of the span, where this one is the next.
fn has_some(span: Span, fragment: &Fragment, next: Option<&Fragment>) -> bool
    ensures { result ≡ model.has_some span fragment.now (option_copied next.entry) }
{
    let goes_on = match next {
        Some(next) => span.start < next.first,
        None => true,
    };
    fragment.first < span.stop && goes_on
}

/// A copy of the members of an ensemble.
fn copy_of(alloc: Global, ensemble: &[Name]) -> Result<Ensemble, AllocError>
    ensures { IfOk result (λ copy. copy ≡ ensemble.now) }
{
    let mut members = Vec::new(alloc);
    for member in ensemble {
        members.push(Name::new(alloc, member.as_str())?)?;
    }
    Ok(Ensemble::of(members))
}

/// The fragment, from the span's first entry on.
fn fragment_in(alloc: Global, span: Span, fragment: &Fragment) -> Result<Fragment, AllocError>
    ensures { IfOk result (λ part. part ≡ model.fragment_in span fragment.now) }
{
    let ensemble = copy_of(alloc, fragment.ensemble.as_slice())?;
    Ok(Fragment {
        first: fragment.first.saturating_sub(span.start),
        ensemble,
    })
}

/// Those fragments that have entries of the span.
pub(crate) fn fragments_in(
    alloc: Global,
    span: Span,
    fragments: &[Fragment],
) -> Result<FragmentList, AllocError>
    ensures { IfOk result (λ parts. parts ≡ model.fragments_in span fragments.now) }
{
    let mut parts = Vec::new(alloc);
    for (number, fragment) in fragments.iter().enumerate() {
        if has_some(span, fragment, fragments.get(number + 1)) {
            parts.push(fragment_in(alloc, span, fragment)?)?;
        }
    }
    Ok(FragmentList::of(parts))
}
