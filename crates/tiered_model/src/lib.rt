// The tiered store as a pure definition: its states, the laws of a run store that they keep, and its claimed cells.
#![tactic(auto)]

ghost use Rattle.tiered_model.specs.Laws.{FreshValid, TieredLawful, ClaimsStand, AnswersStand, PlacedStands};

pub fn fresh_stands<V: Copy>()
    ensures { FreshValid V }
{}

pub fn lawful_stands<V: Copy>()
    ensures { TieredLawful V }
{}

pub fn claims_stand<V: Copy>()
    ensures { ClaimsStand V }
{}

pub fn answers_stand<V: Copy>()
    ensures { AnswersStand V }
{}

pub fn placed_stands<V: Copy>()
    ensures { PlacedStands V }
{}
