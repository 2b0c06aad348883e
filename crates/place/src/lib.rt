// Where a reading lies in a window, and who read its bits.
#![tactic(auto)]

pub mod location;

ghost use Rattle.std.specs.Prelude.{◌≡◌, ◌*◌};
ghost use Rattle.annex10.specs.Length.{message_bytes};
ghost use Rattle.refusals.specs.Refusals.{told};
ghost use Rattle.place.specs.Step.{last_symbol, within, earlier_of, later_of};
ghost use Rattle.place.specs.All.{last_bit, listed, listed_at};

use annex10::MessageKind;
use refusals::Refusal;

// Who made bits of symbols: by real part, or by norm.
#[derive(Clone, Copy, Debug, PartialEq, Eq)]
pub enum Slicer {
    Coherent,
    Noncoherent,
}

// Bit offset, clock phase, symbol offset.
#[derive(Clone, Copy, Debug, PartialEq, Eq)]
pub struct Place {
    pub bit: usize,
    pub phase: usize,
    pub symbol: usize,
}

impl Place {
    // The greatest offsets and the greatest symbol start at which a message of 14 bytes ends within the window, and one of 7 bytes.
    pub const BIT_MAX: usize = 32;

    pub const SHORT_BIT_MAX: usize = 88;

    pub const PHASE_MAX: usize = 3;

    pub const SYMBOL_MAX: usize = 1;

    pub const START_MAX: usize = 64;

    pub const SHORT_START_MAX: usize = 176;

    // How many clock phases there are; how many places of one clock phase of a bit offset, and of one bit offset.
    pub const PHASES: usize = Place::PHASE_MAX + 1;

    pub const PER_PHASE: usize = Place::SYMBOL_MAX + 1;

    pub const PER_BIT: usize = Place::PHASES * Place::PER_PHASE;

    // How many places are searched, and the first and the last of them.
    pub const COUNT: usize = (Place::LAST.bit - Place::FIRST.bit + 1) * Place::PER_BIT;

    pub const FIRST: Place = Place {
        bit: 1,
        phase: 0,
        symbol: 0,
    };

    pub const LAST: Place = Place {
        bit: 31,
        phase: 3,
        symbol: 1,
    };

    // The same for short messages.
    pub const SHORT_COUNT: usize = (Place::SHORT_LAST.bit - Place::SHORT_FIRST.bit + 1)
        * Place::PER_BIT;

    pub const SHORT_FIRST: Place = Place::FIRST;

    pub const SHORT_LAST: Place = Place {
        bit: 87,
        phase: Place::LAST.phase,
        symbol: Place::LAST.symbol,
    };

    // The last bit offset that is searched.
    fn last_bit(kind: MessageKind) -> usize
        ensures { result ≡ last_bit kind }
    {
        match kind {
            MessageKind::Short => Place::SHORT_LAST.bit,
            MessageKind::Long => Place::LAST.bit,
        }
    }

    // How many places are searched.
    fn count(kind: MessageKind) -> usize
        ensures { result ≡ 8 * last_bit kind }
    {
        match kind {
            MessageKind::Short => Place::SHORT_COUNT,
            MessageKind::Long => Place::COUNT,
        }
    }

    // The last symbol that a message starts with.
    fn last_start(kind: MessageKind) -> usize
        ensures { result ≡ last_symbol (message_bytes kind) }
    {
        match kind {
            MessageKind::Short => Place::SHORT_START_MAX,
            MessageKind::Long => Place::START_MAX,
        }
    }

    // Number k of the places that are searched, counted from 0. Refused: 7 from 248 on, for short messages from 696 on.
    #[tactic(auto, unfolding(crate::specs::All::listed_at, crate::specs::All::place_at))]
    pub fn at(kind: MessageKind, k: usize) -> Result<Place, Refusal>
        ensures { told result ≡ listed_at (last_bit kind) k }
    {
        if k >= Place::count(kind) {
            return Err(Refusal::Place);
        }
        Ok(Place {
            bit: Place::FIRST.bit + k / Place::PER_BIT,
            phase: k / Place::PER_PHASE % Place::PHASES,
            symbol: k % Place::PER_PHASE,
        })
    }

    // One of those that are searched.
    #[tactic(auto, unfolding(crate::specs::All::listed))]
    pub fn is_listed(self, kind: MessageKind) -> bool
        ensures { result ≡ listed (last_bit kind) self }
    {
        Place::FIRST.bit <= self.bit
            && self.bit <= Place::last_bit(kind)
            && self.phase <= Place::LAST.phase
            && self.symbol <= Place::LAST.symbol
    }

    // A message ends within the window. The bit offset is tested before the start, so that the start cannot wrap.
    #[tactic(auto, unfolding(crate::specs::Step::within))]
    pub fn is_within(self, kind: MessageKind) -> bool
        ensures { result ≡ within (message_bytes kind) self }
    {
        let last = Place::last_start(kind);
        self.phase <= Place::PHASE_MAX
            && self.symbol <= Place::SYMBOL_MAX
            && self.bit <= last / 2
            && 2 * self.bit + self.symbol <= last
    }

    // One clock phase back.
    #[tactic(auto, unfolding(crate::specs::Step::earlier_of, crate::specs::Step::within))]
    pub fn earlier(self, kind: MessageKind) -> Result<Place, Refusal>
        ensures { told result ≡ earlier_of (message_bytes kind) self }
    {
        if !self.is_within(kind) {
            Err(Refusal::Place)
        } else if self.phase > 0 {
            Ok(Place {
                phase: self.phase - 1,
                ..self
            })
        } else if self.symbol > 0 {
            Ok(Place {
                phase: Place::PHASE_MAX,
                symbol: self.symbol - 1,
                ..self
            })
        } else if self.bit > 0 {
            Ok(Place {
                bit: self.bit - 1,
                phase: Place::PHASE_MAX,
                symbol: Place::SYMBOL_MAX,
            })
        } else {
            Err(Refusal::Place)
        }
    }

    // One clock phase on.
    #[tactic(auto, unfolding(crate::specs::Step::later_of, crate::specs::Step::within))]
    pub fn later(self, kind: MessageKind) -> Result<Place, Refusal>
        ensures { told result ≡ later_of (message_bytes kind) self }
    {
        if !self.is_within(kind) {
            Err(Refusal::Place)
        } else if self.phase < Place::PHASE_MAX {
            Ok(Place {
                phase: self.phase + 1,
                ..self
            })
        } else if 2 * self.bit + self.symbol == Place::last_start(kind) {
            Err(Refusal::Place)
        } else if self.symbol < Place::SYMBOL_MAX {
            Ok(Place {
                phase: 0,
                symbol: self.symbol + 1,
                ..self
            })
        } else {
            Ok(Place {
                bit: self.bit + 1,
                phase: 0,
                symbol: 0,
            })
        }
    }
}
