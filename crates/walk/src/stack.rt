// The places of the nodes that a walk has yet to visit: a node's children stand on its later siblings, so the one pushed last is the next.
ghost use Rattle.std.specs.Prelude.{◌≡◌, ◌+◌, ◌<◌, ◌≤◌, [], ◌∷◌, ◌++◌, length, MatchOption};
ghost use Rattle.walk.specs.Places.{run_places, lasts};

use bitmap::Slot;
use runs::index::NodeIndex;
use trunk::spot::Place;

// A path has at most 25 bits, and at each of them at most 31 siblings wait; at the last one there are 32 nodes: 31 * 25 + 1.
pub const PLACES: usize = 776;

#[derive(Drop)]
pub struct Stack {
    places: [Place; PLACES],
    top: u32,
    ghost room: { top ≤ 776 },
    ghost whole: { length places ≡ 776 },
}

impl Stack {
    pub(crate) fn new() -> Stack
        ensures { lasts result.places result.top ≡ [] }
    {
        let place = Place {
            run: NodeIndex { number: 0 },
            slot: Slot { number: 0 },
        };
        Stack {
            places: [place; PLACES],
            top: 0,
        }
    }

    pub(crate) fn push(&mut self, place: Place)
        requires { length (lasts self.old.places self.old.top) < 776 }
        ensures { lasts self.new.places self.new.top ≡ place ∷ lasts self.old.places self.old.top }
    {
        self.places[self.top as usize] = place;
        self.top += 1;
    }

    pub(crate) fn pop(&mut self) -> Option<Place>
        ensures { MatchOption result
            ((lasts self.old.places self.old.top ≡ []) × (self.new ≡ self.old))
            (λ p. lasts self.old.places self.old.top ≡ p ∷ lasts self.new.places self.new.top) }
    {
        if self.top == 0 {
            return None;
        }
        self.top -= 1;
        Some(self.places[self.top as usize])
    }

    // The places of a run of n nodes, by rising slot.
    pub(crate) fn push_run(&mut self, run: NodeIndex, n: u32)
        requires { length (lasts self.old.places self.old.top) + n ≤ 776 }
        ensures { lasts self.new.places self.new.top ≡ run_places run n ++ lasts self.old.places self.old.top }
    {
        for i in 0..n {
            self.push(Place {
                run,
                slot: Slot { number: i },
            });
        }
    }
}
