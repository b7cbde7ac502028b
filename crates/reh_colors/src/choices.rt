// Whether colours are shown.
ghost use Rattle.std.specs.Prelude.{◌≡◌};
ghost use Rattle.reh_colors.specs.Choices as model;

/// Where colours are shown.
#[derive(Clone, Copy)]
pub enum Color {
    /// On a terminal, unless the environment asks for none.
    Auto,
    /// In a pipe and a file, too.
    Always,
    /// Nowhere.
    Never,
}

impl Color {
    /// Whether colours are shown, where it is a terminal or not, and the environment asks for none or doesn't.
    pub fn is_shown(self, is_terminal: bool, is_unwanted: bool) -> bool
        ensures { result ≡ model.is_shown self is_terminal is_unwanted }
    {
        match self {
            Color::Auto => is_terminal && !is_unwanted,
            Color::Always => true,
            Color::Never => false,
        }
    }
}
