// The law of a live monitor.
ghost use Rattle.monitor.specs.Live.{Own};
ghost use Rattle.monitor.specs.Promises.{Promises};

use crate::live::Monitor;
use records::growing::Growing;

impl<R: Growing> Monitor<R> {
    // What a monitor promises whose record is its own, now and after whatever calls follow. It does nothing: a caller learns the
    // law from its contract.
    pub fn judge(&self)
        ensures { Own self.now → Promises self.now }
    {}
}
