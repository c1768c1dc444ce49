// The worked values of the documentation, each computed from the definitions by the proof of one call.
#![tactic(auto)]

ghost use Rattle.std.specs.Prelude.{◌≡◌, length};
ghost use Rattle.worked.specs.Values.{worked_values, WorkedValuesHold};

// How many worked values there are. That each of them holds is what its contract says.
pub fn worked_values_hold() -> usize
    ensures number { result ≡ length worked_values }
    ensures hold { WorkedValuesHold }
{
    10
}
