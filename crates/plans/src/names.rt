use crate::fault::{Reason, StepError};
use cases::call::Name;
use std::alloc::{AllocError, Global};

// What the names of one kind stand for: reports, baskets or chains. Each thing has the number of those of its kind that came
// to be before it.
#[derive(Drop)]
pub(crate) struct Names {
    things: Vec<Option<u16>>,
    made: u16,
}

impl Names {
    // No name is given.
    pub(crate) fn new(heap: Global) -> Result<Names, AllocError> {
        Ok(Names {
            things: vec![in heap; None; 1024]?,
            made: 0,
        })
    }

    // What a name stands for.
    pub(crate) fn find(&self, number: u16, name: Name) -> Result<u16, Reason> {
        self.things
            .get(usize::from(number))
            .copied()
            .flatten()
            .ok_or(Reason::Unknown(name))
    }

    // The same, and the name is free from now on.
    pub(crate) fn lose(&mut self, number: u16, name: Name) -> Result<u16, Reason> {
        let thing = self.find(number, name)?;
        if let Some(place) = self.things.get_mut(usize::from(number)) {
            *place = None;
        }
        Ok(thing)
    }

    // Gives a free name to the next thing.
    pub(crate) fn give(&mut self, number: u16, name: Name) -> Result<u16, Reason> {
        let made = self.made;
        let next = made.checked_add(1).ok_or(Reason::TooMany)?;
        match self.things.get_mut(usize::from(number)) {
            Some(place) if place.is_none() => *place = Some(made),
            _ => return Err(Reason::Taken(name)),
        }
        self.made = next;
        Ok(made)
    }

    // How many things came to be.
    pub(crate) fn made(&self) -> u16 {
        self.made
    }

    // The names that are given, in order, with what they stand for.
    pub(crate) fn given(&self, heap: Global) -> Result<Vec<(u16, u16)>, StepError> {
        let mut given = Vec::new(heap);
        for (number, thing) in self.things.iter().take(1024).enumerate() {
            if let Some(thing) = thing {
                given.push((number as u16, *thing))?;
            }
        }
        Ok(given)
    }
}
