// Names that stand in JSON as they are.
ghost use Rattle.std.specs.Prelude.{◌≡◌, ◌≤◌, ◌<◌, All, false, true, string_bytes};
ghost use Rattle.reh_waves.specs.Json.{ArePrintable};

/// Whether each byte of the name is a printable one of ASCII.
fn is_printable(name: &str) -> bool
    ensures yes { result ≡ true → All (λ b. (32 ≤ b) × (b < 127)) name.now }
    ensures no { result ≡ false → All (λ b. (32 ≤ b) × (b < 127)) name.now → ⊥ }
{
    for byte in name.as_bytes() {
        if *byte < 32 || *byte >= 127 {
            return false;
        }
    }
    true
}

/// Whether each byte of each name is a printable one of ASCII.
pub fn are_printable(names: &[String]) -> bool
    ensures yes { result ≡ true → ArePrintable names.now }
    ensures no { result ≡ false → ArePrintable names.now → ⊥ }
{
    for name in names {
        if !is_printable(name.as_str()) {
            return false;
        }
    }
    true
}
