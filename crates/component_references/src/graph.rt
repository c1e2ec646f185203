ghost use Rattle.std.specs.Prelude.{◌≡◌, ◌<◌, length, slice_index};
ghost use Rattle.component_references.specs.NumberedCircles.{refs_of};

use xs_lists::Listed;

// The parts that a part refers to.
#[tactic(auto, using(crate::proofs::VisitLaws::refs_of_read))]
pub(crate) fn refs_at(refs: &[Listed<u32>], x: usize) -> &[u32]
    requires { x < length refs.now }
    ensures { result.now ≡ refs_of refs.now x }
{
    refs[x].as_slice()
}

// The number of a part in a list of them; 0 for a part that is not there.
pub(crate) fn number_at(numbers: &[u32], x: u32) -> u32
    ensures { result ≡ slice_index numbers.now x }
{
    if (x as usize) < numbers.len() {
        numbers[x as usize]
    } else {
        0
    }
}
