// Which settings and indices are taken.
ghost use Rattle.std.specs.Prelude.{◌≡◌};
ghost use Rattle.refusals.specs.Refusals.{told_number};
ghost use Rattle.search.specs.Answers.{settings_number, index_number};

use refusals::Refusal;
use search::Settings;

// A level above 2 is refused with 4, a threshold that is not finite with 5.
#[tactic(auto, using(math::proofs::Finite::finite_is), unfolding(search::specs::Answers::settings_number))]
pub fn check_settings(s: Settings) -> Result<(), Refusal>
    ensures { told_number result ≡ settings_number s }
{
    if s.level > 2 {
        Err(Refusal::Level)
    } else if !s.threshold.is_finite() || !s.second.is_finite() {
        Err(Refusal::Threshold)
    } else {
        Ok(())
    }
}

// An index below 128 or above 2^63 is refused with 6.
#[tactic(auto, unfolding(search::specs::Answers::index_number))]
pub fn check_index(index: u64) -> Result<(), Refusal>
    ensures { told_number result ≡ index_number index }
{
    if (128..=1 << 63).contains(&index) {
        Ok(())
    } else {
        Err(Refusal::Index)
    }
}
