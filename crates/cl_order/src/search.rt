//! The search for the order: depth first, with the path from the form that it began with on a stack.
ghost use Rattle.std.specs.Prelude.{◌≡◌, ◌+◌, ◌<◌, ◌^◌, ◌≤◌, [], ◌∷◌, ◌++◌, length, drop, slice_set, Ok, Err, IfOk, OnOk};
ghost use Rattle.cl_types.specs.Fault.{IfRefused};
ghost use Rattle.cl_forms.specs.Order.{part_from, visit, ordered};
ghost use Rattle.cl_order.specs.Index.{IsIndex};
ghost use Rattle.cl_order.specs.Search.{places_on, IsSearch, answer, Begins, Steps, Visits};

use crate::index::Index;
use crate::naming::named;
use cl_forms::Form;
use cl_types::Fault;
use std::alloc::{AllocError, Global};

/// Whether a form is visited.
#[derive(Clone, Copy)]
pub(crate) enum State {
    New,
    OnPath,
    Done,
}

/// A form on the path, with the places that it names, of which so many are visited.
#[derive(Drop)]
pub(crate) struct Frame {
    place: u32,
    named: Vec<u32>,
    visited: usize,
}

/// The state of each form, the path, and the forms that are done, in their order.
#[derive(Drop)]
pub(crate) struct Search {
    states: Vec<State>,
    path: Vec<Frame>,
    done: Vec<u32>,
}

fn places(alloc: Global, path: &[Frame]) -> Result<Vec<u32>, AllocError>
    ensures { IfOk result (λ places. places.items ≡ places_on path.now) }
{
    path.iter().map(|frame| frame.place).collect(alloc)
}

impl Search {
    fn new(alloc: Global, forms: &[Form]) -> Result<Search, AllocError>
        ensures sound { IfOk result (IsSearch forms.now) }
        ensures path { IfOk result (λ search. search.path.items ≡ []) }
        ensures done { IfOk result (λ search. search.done.items ≡ []) }
    {
        Ok(Search {
            states: vec![in alloc; State::New; forms.len()]?,
            path: Vec::new(alloc),
            done: Vec::new(alloc),
        })
    }

    // How many forms stand on the path before a place.
    fn before(&self, place: u32) -> usize
        ensures within { result ≤ length self.now.path.items }
        ensures part { part_from place (places_on self.now.path.items) ≡ places_on (drop result self.now.path.items) }
    {
        for (i, frame) in self.path.iter().enumerate() {
            if frame.place == place {
                return i;
            }
        }
        self.path.len()
    }

    // The part of the path from a place on.
    fn cycle(&self, alloc: Global, place: u32) -> Result<Vec<u32>, AllocError>
        ensures { IfOk result (λ cycle. cycle.items ≡ part_from place (places_on self.now.path.items)) }
    {
        let before = self.before(place);
        places(alloc, &self.path[before..])
    }

    // Puts a new form at the path's end.
    fn push(&mut self, place: u32, named: Vec<u32>) -> Result<(), AllocError>
        requires { place < length self.old.states.items }
        ensures path { OnOk result (self.new.path.items ≡ self.old.path.items ++ record { place = place; named = named; visited = 0 } ∷ []) }
        ensures states { OnOk result (self.new.states.items ≡ slice_set self.old.states.items place State.OnPath) }
        ensures done { OnOk result (self.new.done.items ≡ self.old.done.items) }
    {
        self.states[place as usize] = State::OnPath;
        self.path.push(Frame {
            place,
            named,
            visited: 0,
        })?;
        Ok(())
    }

    // Begins the visit of a form: nothing is to do where it is done, and it closes a cycle where it is on the path.
    fn begin(
        &mut self,
        alloc: Global,
        forms: &[Form],
        index: &Index,
        place: u32,
    ) -> Result<(), Fault<Vec<u32>>>
        requires there { place < length forms.now }
        requires index { IsIndex forms.now index.now }
        requires sound { IsSearch forms.now self.old }
        ensures begun { OnOk result (Begins forms.now self.old place self.new) }
        ensures cycle { IfRefused result (λ cycle. answer forms.now self.old (place ∷ []) ≡ Err cycle.items) }
    {
        match self.states[place as usize] {
            State::Done => Ok(()),
            State::OnPath => Err(Fault::Refused(self.cycle(alloc, place)?)),
            State::New => {
                let named = named(alloc, forms, index, place)?;
                self.push(place, named)?;
                Ok(())
            }
        }
    }

    // Visits one more of the forms that the last of the path names; where none is left, it is done.
    fn step(&mut self, alloc: Global, forms: &[Form], index: &Index) -> Result<(), Fault<Vec<u32>>>
        requires some { 0 < length self.old.path.items }
        requires index { IsIndex forms.now index.now }
        requires sound { IsSearch forms.now self.old }
        ensures stepped { OnOk result (Steps forms.now self.old self.new) }
        ensures cycle { IfRefused result (λ cycle. answer forms.now self.old [] ≡ Err cycle.items) }
    {
        let Some(mut frame) = self.path.pop() else {
            return Ok(());
        };
        if frame.visited < frame.named.len() {
            let place = frame.named[frame.visited];
            frame.visited += 1;
            self.path.push(frame)?;
            self.begin(alloc, forms, index, place)
        } else {
            self.states[frame.place as usize] = State::Done;
            self.done.push(frame.place)?;
            Ok(())
        }
    }

    // Visits a form, and before it all that it leads to.
    fn visit(
        &mut self,
        alloc: Global,
        forms: &[Form],
        index: &Index,
        place: u32,
    ) -> Result<(), Fault<Vec<u32>>>
        requires there { place < length forms.now }
        requires index { IsIndex forms.now index.now }
        requires sound { IsSearch forms.now self.old }
        requires begun { self.old.path.items ≡ [] }
        ensures visited { OnOk result (Visits forms.now self.old place self.new) }
        ensures cycle { IfRefused result (λ cycle. visit (length forms.now + 1) forms.now [] place self.old.done.items ≡ Err cycle.items) }
    {
        match self.begin(alloc, forms, index, place) {
            Ok(()) => {}
            Err(fault) => return Err(fault),
        }
        'path: while !self.path.is_empty() {
            match self.step(alloc, forms, index) {
                Ok(()) => {}
                Err(fault) => return Err(fault),
            }
        }
        Ok(())
    }
}

/// The places of forms in their order; or those of the first cycle that is met.
pub(crate) fn in_order(
    alloc: Global,
    forms: &[Form],
    index: &Index,
) -> Result<Vec<u32>, Fault<Vec<u32>>>
    requires few { length forms.now < 2 ^ 32 }
    requires index { IsIndex forms.now index.now }
    ensures order { IfOk result (λ order. ordered forms.now ≡ Ok order.items) }
    ensures cycle { IfRefused result (λ cycle. ordered forms.now ≡ Err cycle.items) }
{
    let mut search = Search::new(alloc, forms)?;
    for place in 0..forms.len() {
        match search.visit(alloc, forms, index, place as u32) {
            Ok(()) => {}
            Err(fault) => return Err(fault),
        }
    }
    Ok(search.done)
}
