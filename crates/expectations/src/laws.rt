// The laws of expectations. Each function is there for its contract, which says the law.
ghost use Rattle.expectations.specs.Laws.{StandingsMean, DecisionsLast, TalliesSum, HappensOnce, HasOneDate, NoticesInOrder, VerdictsStay, StandingsStay, DecisionsStay, NoticesStay, AnswersDiffer};
ghost use Rattle.expectations.specs.Counted.{ToldHappens, ToldAtOnePoint, TalliesTold, TalliesGrow};
ghost use Rattle.expectations.specs.Story.{SlotStory};

// A standing is exactly what is so.
pub fn standings_mean()
    ensures { StandingsMean }
{}

// What is decided at a point is decided so at every later one.
pub fn decisions_last()
    ensures { DecisionsLast }
{}

// A rule has raised as many expectations as are pending, fulfilled and violated.
pub fn tallies_sum()
    ensures { TalliesSum }
{}

// What happens at a point stands once among its notices, and nothing else stands there.
pub fn notices_happen_once()
    ensures { HappensOnce }
{}

// Nothing happens at two points.
pub fn notices_have_one_date()
    ensures { HasOneDate }
{}

// Notices stand by rule, then by raising state, a raising before its own decision.
pub fn notices_are_in_order()
    ensures { NoticesInOrder }
{}

// Labels read the same at earlier points when a state is added.
pub fn verdicts_stay()
    ensures { VerdictsStay }
{}

// Standings at earlier points stay when a state is added.
pub fn standings_stay()
    ensures { StandingsStay }
{}

// What is decided is decided so at every later point, also when a state is added.
pub fn decisions_stay()
    ensures { DecisionsStay }
{}

// Notices of earlier points stay when a state is added.
pub fn notices_stay()
    ensures { NoticesStay }
{}

// What is told at a point happens there.
pub fn told_happens()
    ensures { ToldHappens }
{}

// A notice is told at one point only, and at one place there.
pub fn told_at_one_point()
    ensures { ToldAtOnePoint }
{}

// A rule's tally counts the notices that were told of it.
pub fn tallies_told()
    ensures { TalliesTold }
{}

// Raised, fulfilled and violated do not fall when a state is added.
pub fn tallies_grow()
    ensures { TalliesGrow }
{}

// Numbers and words tell answers apart.
pub fn answers_differ()
    ensures { AnswersDiffer }
{}

// A story worked out by hand comes out so.
pub fn slot_story()
    ensures { SlotStory }
{}
