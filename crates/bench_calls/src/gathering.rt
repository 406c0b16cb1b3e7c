// The states of a trace text in a record that reads each of them at once.
ghost use Rattle.std.specs.Prelude.{◌≡◌, []};
ghost use Rattle.textrecord.specs.Listed.{states_of};

use records::growing::Growing;
use records::readable::Readable;
use textrecord::text::TextRecord;

// Appends the states of a text to an empty record with room for all of them. Each line is read once.
pub(crate) fn gather<R: Growing>(text: &[u8], log: &mut R)
    requires empty { R.Readable.states log.old ≡ [] }
    requires room { R.Growing.room log.old ≡ 256 }
    ensures { R.Readable.states log.new ≡ states_of text.now }
{
    for state in TextRecord::new(text).states() {
        // Never refused: a text has at most 256 states.
        let _ = log.append(state);
    }
}
