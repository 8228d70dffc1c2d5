// The flat store as its states, and what is proved of them. The store over lent memory is the crate `flat`.
#![tactic(auto)]

ghost use Rattle.flat_model.specs.Places.{GroupsApart, FlatLawful, FreshValid};

// A store with no run is a state that can be.
pub fn fresh_is_valid<E: Copy>()
    ensures { FreshValid E }
{}

// Every law of a run store holds of the flat one.
pub fn flat_is_lawful<E: Copy>()
    ensures { FlatLawful E }
{}

// Two different groups of a state have no cell in common.
pub fn groups_are_apart<E: Copy>()
    ensures { GroupsApart E }
{}
