// Whether the third of five values is a local maximum: of a plateau, the first is.
ghost use Rattle.std.specs.Prelude.{◌≡◌};
ghost use Rattle.refusals.specs.Refusals.{told};
ghost use Rattle.carrier.specs.Maxima.{maximum_of};

use refusals::Refusal;

#[tactic(auto, unfolding(crate::specs::Maxima::maximum_of, crate::specs::Maxima::earlier_as_great, crate::specs::Maxima::later_greater))]
pub fn check_local_maximum(values: &[f32]) -> Result<bool, Refusal>
    ensures { told result ≡ maximum_of values.now }
{
    // Each is read only when it is compared.
    match values {
        [first, second, third, fourth, fifth] => {
            Ok(!(*first >= *third || *second >= *third || *fourth > *third || *fifth > *third))
        }
        _ => Err(Refusal::Input),
    }
}
