//! The automata of a program's sets, each built once and shared.

ghost use Rattle.std.specs.Prelude.{◌≡◌, IfOk};
ghost use Rattle.rx_utf8.specs.Automata.{IsReader, IsReverseReader};

use rx_sets::{CharacterSet, is_same};
use rx_utf8::{ReverseAutomaton, SetAutomaton};
use std::alloc::{AllocError, Global};
use std::cmp::Ordering;
use std::rc::Rc;

/// Orders two sets by their ranges. If they are shared, the ranges aren't compared.
fn order(set: &Rc<CharacterSet>, other: &Rc<CharacterSet>) -> Ordering {
    if Rc::ptr_eq(set, other) {
        Ordering::Equal
    } else {
        set.ranges().cmp(other.ranges())
    }
}

/// The automata built so far, in the order of their sets' ranges. The order isn't proved: without
/// it an automaton might be built twice.
#[derive(Drop)]
pub(crate) struct Automata {
    alloc: Global,
    made: Vec<Rc<SetAutomaton>>,
}

impl Automata {
    /// Returns this without automata.
    pub(crate) fn new(alloc: Global) -> Automata {
        Automata {
            alloc,
            made: Vec::new(alloc),
        }
    }

    /// Returns the automaton of a set.
    pub(crate) fn automaton(
        &mut self,
        set: &Rc<CharacterSet>,
    ) -> Result<Rc<SetAutomaton>, AllocError>
        ensures ranges { IfOk result (λ automaton. automaton.value.ranges ≡ set.now.value) }
        ensures reader { IfOk result (λ automaton. IsReader automaton.value) }
    {
        let found = self
            .made
            .binary_search_by(|automaton| order(automaton.set(), set));
        let place = match found {
            Ok(place) => {
                let automaton = &self.made[place];
                if is_same(automaton.ranges(), set.ranges()) {
                    return automaton.clone();
                }
                place
            }
            Err(place) => place,
        };
        let automaton = Rc::new(self.alloc, SetAutomaton::new(self.alloc, set.clone()?)?)?;
        let _ranges = automaton.ranges(); // for the proof: the automaton reads its set
        self.made.insert(place, automaton.clone()?)?;
        Ok(automaton)
    }
}

/// The reverse automata built so far, in the order of their sets' ranges, as above.
#[derive(Drop)]
pub(crate) struct ReverseAutomata {
    alloc: Global,
    made: Vec<Rc<ReverseAutomaton>>,
}

impl ReverseAutomata {
    /// Returns this without automata.
    pub(crate) fn new(alloc: Global) -> ReverseAutomata {
        ReverseAutomata {
            alloc,
            made: Vec::new(alloc),
        }
    }

    /// Returns the reverse automaton of the same set.
    pub(crate) fn automaton(
        &mut self,
        forward: &SetAutomaton,
    ) -> Result<Rc<ReverseAutomaton>, AllocError>
        ensures ranges { IfOk result (λ automaton. automaton.value.ranges ≡ forward.now.ranges) }
        ensures reader { IfOk result (λ automaton. IsReverseReader automaton.value) }
    {
        let found = self
            .made
            .binary_search_by(|automaton| order(automaton.set(), forward.set()));
        let place = match found {
            Ok(place) => {
                let automaton = &self.made[place];
                if is_same(automaton.ranges(), forward.ranges()) {
                    return automaton.clone();
                }
                place
            }
            Err(place) => place,
        };
        let automaton = Rc::new(self.alloc, forward.reversed(self.alloc)?)?;
        let _ranges = automaton.ranges(); // for the proof: the automaton reads its set
        self.made.insert(place, automaton.clone()?)?;
        Ok(automaton)
    }
}
