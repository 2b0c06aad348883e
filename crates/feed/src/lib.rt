// An input that comes in parts: which part is wanted next, what becomes of it, what is to be said.
// Whoever reads hands over, and says it in its own way; all else is here.
#![tactic(auto)]

mod head;
pub mod machine;
mod moves;
mod samples;

use refusals::Refusal;
use search::Settings;

// The numbers of 32 bits before the samples, in their order.
#[derive(Clone, Copy, Debug, PartialEq, Eq)]
pub enum Field {
    SettingsCount,
    Level,
    Threshold,
    Second,
    Distance,
    WindowCount,
    SampleCount,
}

// What the next part holds. The indices come between the window count and the sample count. Over: no part is wanted any more.
#[derive(Clone, Copy, Debug, PartialEq, Eq)]
pub enum Stage {
    Number(Field),
    Index,
    Samples,
    End,
    Over,
}

// What is known of an input so far: its settings, how many windows it announces, how many of their indices, then of their samples,
// came, and the indices.
#[derive(Clone, Copy, Debug, PartialEq)]
pub struct State {
    pub stage: Stage,
    pub settings: Settings,
    pub windows: u32,
    pub done: u32,
    pub indices: [u64; 64],
}

// A window whose samples are the part that came.
#[derive(Clone, Copy, Debug, PartialEq)]
pub struct Shot {
    pub window: u32,
    pub settings: Settings,
    pub index: u64,
}

// What is to be said: so many windows are announced, a window came, or a refusal that ends it all.
#[derive(Clone, Copy, Debug, PartialEq)]
pub enum Said {
    Nothing,
    Head(u32),
    Window(Shot),
    Refused(Refusal),
}

// What becomes of a state, and what is to be said.
#[derive(Clone, Copy, Debug, PartialEq)]
pub struct Fed {
    pub state: State,
    pub said: Said,
}
