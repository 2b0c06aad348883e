// What becomes of a state with the part that came, and what is printed.
ghost use Rattle.std.specs.Prelude.{◌≡◌};
ghost use Rattle.program.specs.Printed.{taken_of, broken_off};

use crate::text::text_of;
use feed::State;
use feed::machine::{failed, feed};
use listing::Text;

#[derive(Clone, Copy, Debug, PartialEq)]
pub struct Step {
    pub state: State,
    pub text: Text,
}

#[tactic(auto, using(feed::proofs::Whole::whole), unfolding(crate::specs::Printed::taken_of))]
pub fn taken(slowly: bool, state: State, part: &[u8]) -> Step
    ensures { result ≡ taken_of state part.now }
{
    let fed = feed(state, part);
    Step {
        state: fed.state,
        text: text_of(slowly, fed.said, part),
    }
}

// The part could not be read.
#[tactic(auto, using(feed::proofs::Whole::whole_failed), unfolding(crate::specs::Printed::broken_off))]
pub fn broken_off(slowly: bool, state: State) -> Step
    ensures { result ≡ broken_off state }
{
    let fed = failed(state);
    Step {
        state: fed.state,
        text: text_of(slowly, fed.said, b""),
    }
}
