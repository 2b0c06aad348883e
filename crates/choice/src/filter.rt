// Which readings are dropped.
ghost use Rattle.std.specs.Prelude.{◌≡◌};
ghost use Rattle.refusals.specs.Refusals.{told};
ghost use Rattle.search.specs.Choice.{dropped};
ghost use Rattle.choice.specs.Filtered.{filtered_of};

use crate::settings::check_settings;
use annex10::{MessageKind, repairs_of};
use place::Slicer;
use refusals::Refusal;
use search::{Candidate, Settings};

// Only two repairs are dropped.
#[tactic(auto, unfolding(search::specs::Choice::dropped))]
fn is_dropped(s: Settings, differing: u32, c: Candidate) -> bool
    ensures { result ≡ dropped s differing c }
{
    repairs_of(c.location.repairs) == 2
        && (c.cn0 < s.threshold
            || (c.location.slicer == Slicer::Noncoherent
                && c.cn0 < s.second
                && s.distance <= differing))
}

// Whether a candidate is dropped, `differing` the bits in which the slicers differ at its place. Refused: 4, 5; its location with 7, 8.
#[tactic(auto, unfolding(crate::specs::Filtered::filtered_of))]
pub fn filter_out_decode_candidate(
    s: Settings,
    differing: u32,
    c: Candidate,
) -> Result<bool, Refusal>
    ensures { told result ≡ filtered_of s differing c }
{
    check_settings(s)?;
    c.location.check(MessageKind::Long)?;
    Ok(is_dropped(s, differing, c))
}
