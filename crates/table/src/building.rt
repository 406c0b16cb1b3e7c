// Tables under construction: formulas and rules are added one by one, and refused where they break the order.
ghost use Rattle.std.specs.Prelude.{◌≡◌, ℕ, ◌<◌, ◌≤◌, Bool, true, false, List, [], ◌∷◌, ◌++◌, length, Decides, IsOk, ◌↔◌, slice_index_or};
ghost use Rattle.logic.specs.Tables.{InRange, EachPart, Orderly, loose_by, loose};
ghost use Rattle.table.specs.Tables.{number as number_of, formulas_of, rules_of, FormulaAdded, RuleAdded, Finished, Made, MakesTable};

use crate::defects::Defect;
use crate::draft::{Draft, MOST_FORMULAS, MOST_RULES};
use crate::finished::Table;
use logic::types::{Formula, MOST_KIND, Rule, SIGNALS};

impl Defect {
    // The number of the refusal, as output writes it; two defects share one, so that callers match on the cases.
    pub fn number(self) -> u8
        ensures { result ≡ number_of self }
    {
        match self {
            Defect::OutOfRange => 3,
            Defect::PartNotBelow | Defect::NoSuchFormula => 4,
            Defect::LooseRule => 5,
        }
    }
}

fn in_range(formula: Formula) -> bool
    ensures { Decides result (InRange formula) }
{
    match formula {
        Formula::Signal(b) => b < SIGNALS,
        Formula::Nominal(a) | Formula::At(a, _) => a > 0,
        Formula::Reference(kind) | Formula::Some(kind, _) => (1..=MOST_KIND).contains(&kind),
        _ => true,
    }
}

fn parts_below(formula: Formula, n: usize) -> bool
    ensures { Decides result (EachPart (λ g. g < n) formula) }
{
    let [first, second] = formula.parts();
    first.is_none_or(|part| part < n) && second.is_none_or(|part| part < n)
}

// Whether a formula is loose, from the flags of its parts.
fn is_loose(formula: Formula, flags: &[bool]) -> bool
    requires { EachPart (λ g. g < length flags.now) formula }
    ensures { result ≡ loose_by formula (λ g. slice_index_or flags.now g false) }
{
    match formula {
        Formula::Variable | Formula::Reference(_) => true,
        Formula::Bind(_) | Formula::Some(_, _) => false,
        _ => {
            let [first, second] = formula.parts();
            first.is_some_and(|part| flags[part]) || second.is_some_and(|part| flags[part])
        }
    }
}

impl Draft {
    // A table under construction, without formulas and rules.
    #[tactic(auto, using(crate::proofs::Orders::none_orderly, crate::proofs::Orders::none_ruled))]
    pub fn new() -> Draft
        ensures { (formulas_of result ≡ []) × (rules_of result ≡ []) }
    {
        Draft {
            formulas: [Formula::True; MOST_FORMULAS],
            loose: [false; MOST_FORMULAS],
            count: 0,
            rules: [Rule::default(); MOST_RULES],
            rule_count: 0,
        }
    }

    // Adds a formula and answers its number.
    pub fn add_formula(&mut self, formula: Formula) -> Result<usize, Defect>
        ensures { FormulaAdded self.old formula result self.new }
    {
        let k = self.count;
        if k >= MOST_FORMULAS || !in_range(formula) {
            return Err(Defect::OutOfRange);
        }
        if !parts_below(formula, k) {
            return Err(Defect::PartNotBelow);
        }
        self.loose[k] = is_loose(formula, &self.loose[..k]);
        self.formulas[k] = formula;
        self.count += 1;
        Ok(k)
    }

    // Adds a rule and answers its number.
    pub fn add_rule(&mut self, rule: Rule) -> Result<usize, Defect>
        ensures { RuleAdded self.old rule result self.new }
    {
        let k = self.rule_count;
        if k >= MOST_RULES {
            return Err(Defect::OutOfRange);
        }
        if rule.condition >= self.count || rule.content >= self.count {
            return Err(Defect::NoSuchFormula);
        }
        if self.loose[rule.condition] || self.loose[rule.content] {
            return Err(Defect::LooseRule);
        }
        self.rules[k] = rule;
        self.rule_count += 1;
        Ok(k)
    }

    // The table, if it has a formula and a rule.
    pub fn finish(&self) -> Result<Table, Defect>
        ensures { Finished self.now result }
    {
        if self.count == 0 || self.rule_count == 0 {
            return Err(Defect::OutOfRange);
        }
        Ok(Table { draft: *self })
    }
}

impl Table {
    // The table of these formulas and rules, in the order of their numbers, if they make one, and otherwise their first defect.
    pub fn of(formulas: &[Formula], rules: &[Rule]) -> Result<Table, Defect>
        ensures made { Made formulas.now rules.now result }
        ensures possible { IsOk result ↔ MakesTable formulas.now rules.now }
    {
        let mut draft = Draft::new();
        for formula in formulas {
            draft.add_formula(*formula)?;
        }
        for rule in rules {
            draft.add_rule(*rule)?;
        }
        draft.finish()
    }
}
