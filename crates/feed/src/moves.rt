// What becomes of a state, and the stage that comes next.
ghost use Rattle.std.specs.Prelude.{◌≡◌};
ghost use Rattle.feed.specs.Machine.{blank_of, says, refuses_with, index_stage, samples_stage};

use crate::{Fed, Field, Said, Stage, State};
use refusals::Refusal;
use search::Settings;

// Nothing is known: zeros.
pub fn blank(stage: Stage) -> State
    ensures { result ≡ blank_of stage }
{
    State {
        stage,
        settings: Settings {
            level: 0,
            threshold: 0.0,
            second: 0.0,
            distance: 0,
        },
        windows: 0,
        done: 0,
        indices: [0; 64],
    }
}

// Nothing is said.
pub fn silent(state: State) -> Fed
    ensures { result ≡ says Said.Nothing state }
{
    Fed {
        state,
        said: Said::Nothing,
    }
}

// A refusal, and all is over.
pub fn refuses(refusal: Refusal) -> Fed
    ensures { result ≡ refuses_with refusal }
{
    Fed {
        state: blank(Stage::Over),
        said: Said::Refused(refusal),
    }
}

// Where k of the indices came.
#[tactic(auto, unfolding(crate::specs::Machine::index_stage))]
pub fn index_stage(k: u32, windows: u32) -> Stage
    ensures { result ≡ index_stage k windows }
{
    if k < windows {
        Stage::Index
    } else {
        Stage::Number(Field::SampleCount)
    }
}

// Where k of the windows came.
#[tactic(auto, unfolding(crate::specs::Machine::samples_stage))]
pub fn samples_stage(k: u32, windows: u32) -> Stage
    ensures { result ≡ samples_stage k windows }
{
    if k < windows {
        Stage::Samples
    } else {
        Stage::End
    }
}
