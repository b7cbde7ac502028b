// Laws of texts.
ghost use Rattle.std.specs.Prelude.{◌≡◌};
ghost use Rattle.reh_census_file.specs.Canonical.{IsCanonical};
ghost use Rattle.reh_census_file.specs.Texts.{text_of};
ghost use Rattle.reh_census_file.specs.Values.{NamedCensus};

/// Each canonical census has a text of its own, so that censuses are compared by comparing their texts.
pub fn texts_tell_censuses_apart()
    ensures { (one other : NamedCensus) → IsCanonical one → IsCanonical other
        → text_of one ≡ text_of other → one ≡ other }
{}
