// Two texts, byte by byte.
ghost use Rattle.std.specs.Prelude.{◌≡◌, ◌==◌};
ghost use Rattle.std.specs.List.{zip, count_by, prefix_len};
ghost use Rattle.example_logs.specs.Comparing.{Compared};

// How many bytes the texts have alike, from their beginning on.
fn count_alike(ours: &[u8], theirs: &[u8]) -> usize
    ensures { result ≡ prefix_len (λ p. p.0 == p.1) (zip ours.now theirs.now) }
{
    ours.iter().zip(theirs).take_while(|(a, b)| a == b).count()
}

fn count_line_ends(text: &[u8]) -> usize
    ensures { result ≡ count_by (λ b. b == 10) text.now }
{
    text.iter().filter(|b| **b == b'\n').count()
}

// The line at which the texts first differ, counted from 1.
pub(crate) fn first_difference(ours: &[u8], theirs: &[u8]) -> Option<usize>
    ensures { Compared ours.now theirs.now result }
{
    if ours == theirs {
        return None;
    }
    let alike = count_alike(ours, theirs);
    Some(count_line_ends(&ours[..alike]) + 1)
}
