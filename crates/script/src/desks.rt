// The desks, each made or not.
use crate::holding::Holding;
use std::alloc::{AllocError, Global};

// The highest number of a desk.
pub(crate) const LAST_DESK: u32 = 7;

#[derive(Drop)]
pub(crate) struct Desks {
    slots: Vec<Option<Holding>>,
}

impl Desks {
    // No desk is made.
    pub(crate) fn new(alloc: Global) -> Result<Desks, AllocError> {
        Ok(Desks {
            slots: (0..=LAST_DESK).map(|_| None).collect(alloc)?,
        })
    }

    pub(crate) fn get(&self, number: u32) -> Option<&Holding> {
        self.slots.get(number as usize)?.as_ref()
    }

    pub(crate) fn get_mut(&mut self, number: u32) -> Option<&mut Holding> {
        self.slots.get_mut(number as usize)?.as_mut()
    }

    pub(crate) fn is_made(&self, number: u32) -> bool {
        self.get(number).is_some()
    }

    // The desk of this number is made, whatever it held.
    pub(crate) fn put(&mut self, number: u32, desk: Holding) {
        if let Some(slot) = self.slots.get_mut(number as usize) {
            *slot = Some(desk);
        }
    }
}
