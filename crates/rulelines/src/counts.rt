ghost use Rattle.std.specs.Prelude.{◌≤◌};
ghost use Rattle.keys.specs.Keys.{count_text};
ghost use Rattle.fields.specs.Readers.{ReadsForm, GivenIf, ReadsValue};
ghost use Rattle.rulelines.specs.Counts.{count_kind};

use faults::line::LineFault;
use fields::lines::{Taken, read_line};
use fields::values::Fields;
use keys::CountKey;

// The number that a line of one key shows. `count_kind .. 0` stands for the kind of a count up to any limit: the form of a line
// does not depend on the limit.
fn number_of(line: &[u8], key: CountKey) -> Option<u64>
    ensures { ReadsForm (count_kind (count_text key) 0) (λ n. n) line.now result }
{
    let mut fields = Fields::of(line);
    let number = fields.number(key)?;
    fields.is_at_end().then_some(number)
}

// A number as a count from 1 to `most`.
fn count_of(number: u64, most: usize) -> Option<usize>
    ensures { GivenIf ((1 ≤ number) × (number ≤ most)) number result }
{
    let count = usize::try_from(number).ok()?;
    if count < 1 || count > most {
        return None;
    }
    Some(count)
}

// A line of one key and a count from 1 to `most`; `place` is the line's, for a refusal.
pub fn read_count(
    text: &[u8],
    place: usize,
    key: CountKey,
    most: usize,
) -> Result<Taken<usize>, LineFault>
    ensures { ReadsValue (count_kind (count_text key) most) (λ n. n) text.now place result }
{
    read_line(
        text,
        place,
        |line| number_of(line, key),
        |number| count_of(number, most),
    )
}
