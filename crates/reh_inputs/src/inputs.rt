// Inputs: pictures, and census files.
ghost use Rattle.std.specs.Prelude.{MatchResult};
ghost use Rattle.reh_inputs.specs.Inputs as model;

use reh_census_file::{CensusFault, NamedCensus, is_census, read_census};
use reh_picture::{Listed, LocatedFault, list_picture};
use std::alloc::Global;

/// What a file shows: a picture, or a census that was made of others.
#[derive(Drop)]
pub enum Input {
    Picture(Listed),
    Census(NamedCensus),
}

/// Why a file is no input: the fault of a picture, or that of a census.
#[derive(Drop)]
pub enum InputFault {
    Picture(LocatedFault),
    Census(CensusFault),
}

/// The input of these bytes: a census where they begin as one, else a picture.
pub fn read_input(alloc: Global, bytes: &[u8]) -> Result<Input, InputFault>
    ensures { MatchResult result (model.IsRead bytes.now) (model.IsFault bytes.now) }
{
    if is_census(bytes) {
        return match read_census(alloc, bytes) {
            Ok(census) => Ok(Input::Census(census)),
            Err(fault) => Err(InputFault::Census(fault)),
        };
    }
    match list_picture(alloc, bytes) {
        Ok(listed) => Ok(Input::Picture(listed)),
        Err(fault) => Err(InputFault::Picture(fault)),
    }
}
