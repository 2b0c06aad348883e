// What is done with the samples of a window: the window is told, and the next one wanted.
ghost use Rattle.std.specs.Prelude.{◌≡◌};
ghost use Rattle.feed.specs.Machine.{samples_fed};
ghost use Rattle.feed.specs.Inner.{settled};

use crate::moves::samples_stage;
use crate::{Fed, Said, Shot, State};
use refusals::Refusal;

#[tactic(auto, unfolding(crate::specs::Machine::samples_fed, crate::specs::Machine::provided))]
pub fn fed_samples(s: State) -> Result<Fed, Refusal>
    ensures { settled result ≡ samples_fed s }
{
    if s.done >= 64 {
        return Err(Refusal::Malformed);
    }
    let shot = Shot {
        window: s.done,
        settings: s.settings,
        index: s.indices[s.done as usize],
    };
    Ok(Fed {
        state: State {
            stage: samples_stage(s.done + 1, s.windows),
            done: s.done + 1,
            ..s
        },
        said: Said::Window(shot),
    })
}
