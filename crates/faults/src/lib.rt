// Why a text is refused: the faults of a line, those of the table that lines build, and the reader's fault, which carries
// either of them whole.
#![tactic(auto)]

pub mod fault;
pub mod layer;
pub mod line;
pub mod read;
pub mod table;
