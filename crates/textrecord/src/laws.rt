ghost use Rattle.textrecord.specs.Listed.{ListsLines, OneList};

// The states of a text are those of its leading lines that pass, and no other list is.
pub(crate) fn lists_lines()
    ensures lists { ListsLines }
    ensures one { OneList }
{}
