// Surveyors, which all find the same.
ghost use Rattle.std.specs.Prelude.{◌≡◌, IfErr, IfOk};
ghost use Rattle.reh_model.specs.Survey as model;

use reh_cluster::State;
use reh_scan::survey_plain;
use reh_types::SurveyLine;
use std::alloc::{AllocError, Global};
use std::thread::SpawnError;

/// Why there is no survey.
#[derive(Clone, Copy)]
pub enum SurveyFault {
    /// There is no memory for its lines.
    NoMemory,
    /// There is no thread for it.
    NoThread,
}

impl From<AllocError> for SurveyFault {
    ghost use Rattle.std.specs.Prelude.{◌≡◌};
    ghost use Rattle.reh_crew.specs.declared.surveyors.SurveyFault.TheVariants.{NoMemory};

    ghost from_gives = { λ _ fault. fault ≡ NoMemory };

    fn from(_want: AllocError) -> SurveyFault {
        SurveyFault::NoMemory
    }
}

impl<F: Drop> From<SpawnError<F>> for SurveyFault {
    ghost use Rattle.std.specs.Prelude.{◌≡◌};
    ghost use Rattle.reh_crew.specs.declared.surveyors.SurveyFault.TheVariants.{NoThread};

    ghost from_gives = { λ _ fault. fault ≡ NoThread };

    fn from(_refused: SpawnError<F>) -> SurveyFault {
        SurveyFault::NoThread
    }
}

/// Surveys states.
pub trait Surveyor {
    /// That each list which it answers is the survey.
    ghost surveys: { Self → Type 0 };

    /// The lines of all fragments, in picture order.
    fn survey(&self, alloc: Global, state: &State) -> Result<Vec<SurveyLine>, SurveyFault>
        requires { surveys self.now }
        ensures { IfOk result (λ lines. lines.items ≡ model.survey state.now) };
}

/// Surveys one fragment after the other.
#[derive(Clone, Copy)]
pub struct Plain;

impl Surveyor for Plain {
    ghost surveys = { λ _. Unit {0} };

    fn survey(&self, alloc: Global, state: &State) -> Result<Vec<SurveyLine>, SurveyFault>
        ensures lines { IfOk result (λ lines. lines.items ≡ model.survey state.now) }
        ensures err { IfErr result (λ fault. fault ≡ SurveyFault.NoMemory) }
    {
        let lines = survey_plain(alloc, state)?;
        Ok(lines)
    }
}

/// Surveys by a call that does. A closure over `Threads` makes these a surveyor: their own survey starts threads, and no
/// method of a trait can.
#[derive(Drop)]
pub struct BySurvey<F> {
    pub call: F,
}

impl<F: Fn(Global, &State) -> Result<Vec<SurveyLine>, SurveyFault>> Surveyor for BySurvey<F> {
    ghost use Rattle.reh_crew.specs.Surveys.{FindsSurvey};

    ghost surveys = { λ by. F.IsAlwaysCallable by.call
        × ((alloc : _) (state : _) (found : _) → F.post by.call alloc state found
        → FindsSurvey state.now found) };

    fn survey(&self, alloc: Global, state: &State) -> Result<Vec<SurveyLine>, SurveyFault> {
        (self.call)(alloc, state)
    }
}
