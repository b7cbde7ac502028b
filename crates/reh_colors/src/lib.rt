// Which lines of an answer a terminal shows in a colour.
#![tactic(auto)]

mod choices;
mod shades;
mod texts;

pub use choices::Color;
pub use shades::{Shade, shade_of};
pub use texts::colored;
