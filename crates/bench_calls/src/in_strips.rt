ghost use Rattle.std.specs.Prelude.{◌≡◌, ◌≤◌, map, length};
ghost use Rattle.bench_calls.specs.Memory.{over};
ghost use Rattle.bench_calls.specs.Kinds.{MasksTold};

use crate::labelled::label_text;
use crate::outcome::Outcome;
use labels::LabelKind;
use strips::Strip;
use table::draft::MOST_FORMULAS;

// The most states that strips tell of.
const MOST_POINTS: usize = 64;

const MOST_STRIPS: usize = MOST_FORMULAS * MOST_POINTS;

// Writes the masks of labels over the beginning of the two memories.
fn put_masks(cells: &[Strip], weak: &mut [u64], strong: &mut [u64])
    requires { (length cells.now ≤ length weak.old) × (length cells.now ≤ length strong.old) }
    ensures weak { weak.new ≡ over (map (λ x. x.weak) cells.now) weak.old }
    ensures strong { strong.new ≡ over (map (λ x. x.strong) cells.now) strong.old }
{
    for (k, cell) in cells.iter().enumerate() {
        weak[k] = cell.weak();
        strong[k] = cell.strong();
    }
}

// Labels the states of the trace lines that follow a rules text in strips, and answers how many there are. The two masks of each
// label go to the beginning of the two memories. For a clock it labels them `again` times more.
#[unsafe(no_mangle)]
pub extern "C" fn bench_label_strips(
    text: &[u8],
    again: usize,
    weak: &mut [u64],
    strong: &mut [u64],
) -> Outcome
    ensures { MasksTold text.now weak.old strong.old result weak.new strong.new }
{
    let mut cells = [Strip::unknown(); MOST_STRIPS];
    let mut work = [Strip::unknown(); MOST_STRIPS];
    let room = weak.len().min(strong.len());
    match label_text(text, again, room, &mut cells, &mut work) {
        Ok(counts) => {
            put_masks(&cells[..counts.cells], weak, strong);
            Outcome::done(counts.states)
        }
        Err(refused) => refused,
    }
}
