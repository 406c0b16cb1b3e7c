// Worked examples: logs with the labels, raisings and refusals that the logic's definitions give them.
#![tactic(auto)]

ghost use Rattle.std.specs.Prelude.{◌≡◌, ◌+◌, length};
ghost use Rattle.worked.specs.Examples.{labels, further_labels, raisings, offers, further_offers};
ghost use Rattle.worked.specs.Claims.{WorkedExamples, FurtherExamples, EndlessExamples};

// Every example of its tables comes out as they say; answers how many there are.
pub fn worked_examples() -> usize
    ensures count { result ≡ length labels + length raisings + length offers }
    ensures right { WorkedExamples }
{
    17
}

// Every further example comes out as its tables say; answers how many there are.
pub fn further_examples() -> usize
    ensures count { result ≡ length further_labels + length further_offers }
    ensures right { FurtherExamples }
{
    56
}

// On an endless trace every example holds or does not as it says.
pub(crate) fn endless_examples()
    ensures { EndlessExamples }
{}
