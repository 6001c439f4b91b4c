//! For which constraint of a model each constraint of its ground problem was stated.
//!
//! Constraints are stated in passes over all of the model's, so it is told of each, in each pass,
//! how many constraints the problem had before. Others may be stated by the values of cells that
//! are known, so it is also told on which constraints these values rest. No promise rests on it: it
//! serves who looks for constraints to blame, and tries what it tells.
use std::alloc::{AllocError, Global};

/// Where a constraint of a model is stated.
#[derive(Clone, Copy)]
struct Place {
    /// How many constraints the problem had before.
    begin: usize,
    /// The index of the model's constraint.
    index: usize,
}

/// Where each constraint of a model was stated, in each pass, and on which constraints known cells
/// rest.
#[derive(Drop)]
pub struct Origins {
    places: Vec<Place>,
    next: usize,
    fixing: Vec<usize>,
}

impl Origins {
    /// Of no constraint yet.
    pub fn new(alloc: Global) -> Origins {
        Origins {
            places: Vec::new(alloc),
            next: 0,
            fixing: Vec::new(alloc),
        }
    }

    /// A pass over the model's constraints begins.
    pub(crate) fn begin(&mut self) {
        self.next = 0;
    }

    /// The next constraint of the pass is stated behind so many of the problem's.
    pub(crate) fn note(&mut self, begin: usize) -> Result<(), AllocError> {
        let index = self.next;
        self.places.push(Place { begin, index })?;
        self.next = index.saturating_add(1);
        Ok(())
    }

    /// The values of known cells rest on the constraints of these numbers in another problem, of
    /// which those origins tell.
    pub(crate) fn note_fixing(&mut self, of: &Origins, acted: &[u32]) -> Result<(), AllocError> {
        for con in acted {
            if let Some(index) = of.of(*con) {
                self.fixing.push(index)?;
            }
        }
        Ok(())
    }

    /// The index of the model's constraint for which the problem's constraint of this number was
    /// stated, or for which what it defines was made first; none where it asks for the size of a
    /// set, or gives a known cell its value. It costs a search by halves.
    pub fn of(&self, con: u32) -> Option<usize> {
        let before = self.places.partition_point(|p| p.begin <= con as usize);
        if before == 0 {
            return None;
        }
        let place = self.places.get(before - 1)?;
        Some(place.index)
    }

    /// The indexes of the model's constraints on which the values of known cells rest, each as
    /// often as it narrowed a box.
    pub fn fixing(&self) -> &[usize] {
        self.fixing.as_slice()
    }
}
