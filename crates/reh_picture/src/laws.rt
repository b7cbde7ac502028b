// What holds of the formats' numbers, whatever cites them.
ghost use Rattle.std.specs.Prelude.{◌≡◌};
ghost use Rattle.reh_picture.specs.declared.pictures.TheConstants.{DELAY_FORMAT, FIRST_FORMAT};

/// The number of each format. All else cites a format by its name, and would be proved of another number, too.
pub fn formats_are()
    ensures first { FIRST_FORMAT ≡ 1 }
    ensures delay { DELAY_FORMAT ≡ 2 }
{}
