// The laws of the logic. Each function is there for its contract, which says the law.
ghost use Rattle.logic.specs.Laws.{StrongIsWeak, VerdictsStay, VerdictsAreSound, BindingIsFree, TracesBegin, LawfulByBeginnings, LawfulGoesOn};
ghost use Rattle.logic.specs.Tables.{TreesUnfold};

// What holds strongly holds weakly.
pub fn strong_is_weak()
    ensures { StrongIsWeak }
{}

// A verdict stays at every later truncation point of every lawful extension.
pub fn verdicts_stay()
    ensures { VerdictsStay }
{}

// A verdict is right on every lawful endless trace that begins with the kept states.
pub fn verdicts_are_sound()
    ensures { VerdictsAreSound }
{}

// A formula that is not loose does not depend on the binding.
pub fn binding_is_free()
    ensures { BindingIsFree }
{}

// A formula of an orderly table is its operator over its parts' trees.
pub fn trees_unfold()
    ensures { TreesUnfold }
{}

// Every endless trace begins with its first n states, whatever it is.
pub fn traces_begin()
    ensures { TracesBegin }
{}

// An endless trace is lawful exactly if all its beginnings are lawful records.
pub fn lawful_by_beginnings()
    ensures { LawfulByBeginnings }
{}

// Every lawful record goes on as a lawful endless trace, so there is one for a verdict to be right of.
pub fn lawful_goes_on()
    ensures { LawfulGoesOn }
{}
