// From the answers of either kind, and the number that each is said by.
ghost use Rattle.std.specs.Prelude.{◌≡◌};
ghost use Rattle.annex10.specs.Length.{message_bytes};
ghost use Rattle.annex10.specs.declared.MessageKind.TheVariants.{Short, Long};
ghost use Rattle.search.specs.Short.{of_short};
ghost use Rattle.listing.specs.Lines.{said_number};
ghost use Rattle.listing.specs.Inner.{answer_of};

use crate::Entry;
use annex10::MessageKind;
use refusals::number_of;
use search::{Answer, ShortAnswer};

impl<'a> From<&'a Answer> for Entry<'a> {
    ghost from_gives = { λ answer entry. (entry.kind ≡ Long) × (answer_of entry ≡ answer.now) };

    fn from(answer: &'a Answer) -> Entry<'a> {
        Entry {
            kind: MessageKind::Long,
            number: answer.number,
            location: answer.location,
            message: &answer.message,
            cn0: answer.cn0,
            index: answer.index,
            fraction: answer.fraction,
            undecided: answer.undecided,
        }
    }
}

impl<'a> From<&'a ShortAnswer> for Entry<'a> {
    ghost from_gives = { λ answer entry. (entry.kind ≡ Short) × (answer_of entry ≡ of_short answer.now) };

    fn from(answer: &'a ShortAnswer) -> Entry<'a> {
        Entry {
            kind: MessageKind::Short,
            number: answer.number,
            location: answer.location,
            message: &answer.message,
            cn0: answer.cn0,
            index: answer.index,
            fraction: answer.fraction,
            undecided: answer.undecided,
        }
    }
}

impl Entry<'_> {
    // The number that the answer is said by: a message at a location that is refused is none.
    #[tactic(auto, unfolding(crate::specs::Lines::said_number))]
    pub(crate) fn said(&self) -> u32
        ensures { result ≡ said_number (message_bytes self.now.kind) (answer_of self.now) }
    {
        if self.number == 0 {
            number_of(self.location.check(self.kind))
        } else {
            self.number
        }
    }
}
