// The names of a picture's bookies, and the bookies that names stand for.
ghost use Rattle.std.specs.Prelude.{◌≡◌, ◌<◌, [], ◌∷◌, ◌++◌, length, IfOk, OnOk};
ghost use Rattle.std.specs.Char.{is_ascii_graphic};
ghost use Rattle.std.specs.List.{list_all};
ghost use Rattle.std.specs.Result.{result_err};
ghost use Rattle.serde_json.specs.View.{view};
ghost use Rattle.reh_types.specs.declared.limits.TheConstants.{MAX_BOOKIES};
ghost use Rattle.reh_fields.specs.Faults.{FailsWith};
ghost use Rattle.reh_fields.specs.Members.{text_of};
ghost use Rattle.reh_fields.specs.Names.{is_name as is_bookie_name, name_fault, new_name_fault, known_fault, bookie_in};

use crate::faults::{FaultName, PictureFault, Repeated};
use crate::fields::Field;
use crate::members::text;
use reh_cluster::Names;
use reh_types::{BookieIx, MAX_NAME_BYTES};
use serde_json::Value;
use std::alloc::Global;

/// Whether a bookie may have this name.
pub fn is_name(name: &[u8]) -> bool
    ensures { result ≡ is_bookie_name name.now }
{
    !name.is_empty() && name.len() <= MAX_NAME_BYTES && is_graphic(name)
}

/// Whether each byte is a graphic character of ASCII.
fn is_graphic(text: &[u8]) -> bool
    ensures { result ≡ list_all is_ascii_graphic text.now }
{
    text.iter().all(|b| b.is_ascii_graphic())
}

/// A bookie's name.
fn name_of(bookie: &Value) -> Result<&str, PictureFault>
    ensures fault { result_err result ≡ name_fault (view bookie.now) }
    ensures name { IfOk result (λ name. text_of (view bookie.now) Field.Name ≡ name.now) }
{
    if !bookie.is_object() {
        return Err(PictureFault::WrongKind(Field::Bookie));
    }
    let name = text(bookie, Field::Name)?;
    if !is_name(name.as_bytes()) {
        return Err(PictureFault::BadName);
    }
    Ok(name)
}

/// Adds one more bookie's name, which none before it has.
pub fn read_name(alloc: Global, names: &mut Names, bookie: &Value) -> Result<(), PictureFault>
    requires { length names.old < MAX_BOOKIES }
    ensures fault { FailsWith result (new_name_fault names.old (view bookie.now)) }
    ensures named { OnOk result
        (names.new ≡ names.old ++ text_of (view bookie.now) Field.Name ∷ []) }
{
    let name = name_of(bookie)?;
    if !names.add(name)? {
        let name = FaultName::new(alloc, name)?;
        return Err(PictureFault::Twice(Repeated::Bookie(name)));
    }
    Ok(())
}

/// The bookie of that name, which must be one of these.
pub fn known_bookie(alloc: Global, names: &Names, name: &str) -> Result<BookieIx, PictureFault>
    ensures fault { FailsWith result (known_fault names.now name.now) }
    ensures bookie { IfOk result (λ bookie. bookie ≡ bookie_in names.now name.now) }
{
    match names.find(name.as_bytes()) {
        Some(bookie) => Ok(bookie),
        None => Err(PictureFault::UnknownBookie(FaultName::new(alloc, name)?)),
    }
}
