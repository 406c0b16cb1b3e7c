// One trace line after another.
ghost use Rattle.std.specs.Prelude.{◌≡◌, ◌≤◌, [], length, IfOk};
ghost use Rattle.monitor.specs.Live.{table_of, states_of, room_of, ground_of};
ghost use Rattle.watch_lib.specs.Watched.{MonitorSteps, Advances, Traced};

use crate::lines::Line;
use crate::watcher::Watcher;
use records::growing::Growing;
use records::readable::Readable;
use std::alloc::{AllocError, Global};
use traces::states::read_state;

impl<R: Growing> Watcher<R> {
    // Appends the state of the text's first line, and answers the bytes of the line, or the line of output that tells why it
    // is not taken; `place` is the line's, for a refusal.
    fn take_line(&mut self, text: &[u8], place: usize) -> Result<usize, Line>
        ensures steps { MonitorSteps self.old.monitor text.now place result self.new.monitor }
        ensures bytes { IfOk result (λ used. Advances self.old.monitor text.now used self.new.monitor) }
        ensures table { table_of self.new.monitor ≡ table_of self.old.monitor }
        ensures room { room_of self.new.monitor ≡ room_of self.old.monitor }
    {
        let count = self.monitor.count();
        let line = read_state(text, count).map_err(|fault| Line::refused(fault, place))?;
        self.monitor
            .append(line.value)
            .map_err(|refusal| Line::refused(refusal, place))?;
        Ok(line.used)
    }

    // The lines of a text of trace lines, the first of which has the number `place`, after no state. That number is at most
    // 64 + 16 + 3, of a table's formulas and rules with their two counts before it; any small bound serves, so that no number
    // of a line wraps.
    pub(crate) fn follow(
        &mut self,
        heap: Global,
        text: &[u8],
        place: usize,
    ) -> Result<Vec<Line>, AllocError>
        requires fresh { states_of self.old.monitor ≡ [] }
        requires small { length text.now ≤ 32768 }
        requires place { place ≤ 100 }
        ensures { IfOk result (λ v. Traced (ground_of self.old.monitor) text.now place v.items) }
    {
        let mut lines = Vec::new(heap);
        let mut rest = text;
        while !rest.is_empty() {
            let at = place + self.monitor.count();
            match self.take_line(rest, at) {
                Ok(used) => {
                    rest = &rest[used..];
                    self.tell_point(self.monitor.count(), &mut lines)?;
                }
                Err(refused) => {
                    lines.push(refused)?;
                    return Ok(lines);
                }
            }
        }
        lines.push(self.end_line())?;
        Ok(lines)
    }
}
