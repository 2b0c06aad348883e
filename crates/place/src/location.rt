// Where a message lies and how it was read there. Wherever a record is handed in that does not agree with the six trials, it is refused.
ghost use Rattle.std.specs.Prelude.{◌≡◌};
ghost use Rattle.annex10.specs.Length.{message_bytes};
ghost use Rattle.refusals.specs.Refusals.{told, told_number};
ghost use Rattle.place.specs.Agrees.{trial_of, agrees, last_trial, agrees_by, record_number, location_number, carried, earlier_location, later_location};

use crate::{Place, Slicer};
use annex10::{MessageKind, Repairs, lie_inside, repairs_of};
use refusals::Refusal;

// The place, the trial that passed there, 1 to 6, the slicer that it names and the positions that it repairs.
#[derive(Clone, Copy, Debug, PartialEq, Eq)]
pub struct Location {
    pub place: Place,
    pub trial: u8,
    pub slicer: Slicer,
    pub repairs: Repairs,
}

// The trial that looks for so many positions in a slicer's bits.
#[tactic(auto, using(crate::proofs::Agreeing::count_few))]
fn trial_of(slicer: Slicer, repairs: Repairs) -> u32
    ensures { result ≡ trial_of slicer repairs }
{
    let first = 1 + 2 * repairs_of(repairs);
    match slicer {
        Slicer::Coherent => first,
        Slicer::Noncoherent => first + 1,
    }
}

impl Location {
    // The last trial that is made for a message of 14 bytes, and for one of 7.
    pub const LAST_TRIAL: u8 = 6;

    pub const SHORT_LAST_TRIAL: u8 = 4;

    // Trial, slicer and number of positions agree: two equal positions are two.
    #[tactic(auto, unfolding(crate::specs::Agrees::agrees))]
    pub fn agrees(self) -> bool
        ensures { result ≡ agrees self }
    {
        u32::from(self.trial) == trial_of(self.slicer, self.repairs)
    }

    // The last trial that is made.
    fn last_trial(kind: MessageKind) -> u8
        ensures { result ≡ last_trial (message_bytes kind) }
    {
        match kind {
            MessageKind::Short => Location::SHORT_LAST_TRIAL,
            MessageKind::Long => Location::LAST_TRIAL,
        }
    }

    // And the trial is one of those that are made.
    fn agrees_by(self, kind: MessageKind) -> bool
        ensures { result ≡ agrees_by (last_trial (message_bytes kind)) self }
    {
        self.agrees() && self.trial <= Location::last_trial(kind)
    }

    // The record without its place: 7 comes before 8.
    #[tactic(auto, unfolding(crate::specs::Agrees::record_number))]
    fn check_record(self, kind: MessageKind) -> Result<(), Refusal>
        ensures { told_number result ≡ record_number (message_bytes kind) self }
    {
        if !self.agrees_by(kind) {
            Err(Refusal::Place)
        } else if !lie_inside(kind.bytes(), self.repairs) {
            Err(Refusal::Position)
        } else {
            Ok(())
        }
    }

    // What is refused of a location: 7 one that ends behind the window, or a record that does not agree; 8 a position outside the message.
    #[tactic(auto, unfolding(crate::specs::Agrees::location_number))]
    pub fn check(self, kind: MessageKind) -> Result<(), Refusal>
        ensures { told_number result ≡ location_number (message_bytes kind) self }
    {
        if !self.place.is_within(kind) {
            return Err(Refusal::Place);
        }
        self.check_record(kind)
    }

    // The same reading where a step leads to, unless the step or the record is refused.
    fn carried(
        self,
        step: Result<Place, Refusal>,
        checked: Result<(), Refusal>,
    ) -> Result<Location, Refusal>
        ensures { told result ≡ carried (told_number checked) self (told step) }
    {
        let place = step?;
        checked?;
        Ok(Location { place, ..self })
    }

    // One clock phase back.
    #[tactic(auto, unfolding(crate::specs::Agrees::earlier_location))]
    pub fn earlier(self, kind: MessageKind) -> Result<Location, Refusal>
        ensures { told result ≡ earlier_location (message_bytes kind) self }
    {
        self.carried(self.place.earlier(kind), self.check_record(kind))
    }

    // One clock phase on.
    #[tactic(auto, unfolding(crate::specs::Agrees::later_location))]
    pub fn later(self, kind: MessageKind) -> Result<Location, Refusal>
        ensures { told result ≡ later_location (message_bytes kind) self }
    {
        self.carried(self.place.later(kind), self.check_record(kind))
    }
}
