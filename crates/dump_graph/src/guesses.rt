//! Guesses of the numbers of identifiers. Each guess is tried against the identifiers, so none needs to be right.
use crate::numbers::narrow;
use std::alloc::{AllocError, Global};

/// How many pages there can be: one for each upper half of an identifier.
const PAGES: usize = 65_536;

/// How many guesses a page has: one for each 16 of the identifiers with its upper half.
const PAGE: usize = 4096;

/// Where no page stands.
const NOWHERE: u32 = u32::MAX;

/// Guesses of the numbers of identifiers: where the page of each upper half begins, and the guesses of all pages.
#[derive(Drop)]
pub(crate) struct Guesses {
    pages: Vec<u32>,
    guesses: Vec<u32>,
}

impl Guesses {
    /// No guesses. It takes no memory.
    pub(crate) fn new(alloc: Global) -> Guesses {
        Guesses {
            pages: Vec::new(alloc),
            guesses: Vec::new(alloc),
        }
    }

    /// A guess of an identifier's number.
    #[inline(always)]
    pub(crate) fn guess(&self, id: u32) -> Option<usize> {
        let page = *self.pages.get((id >> 16) as usize)?;
        let number = *self
            .guesses
            .get(page as usize + (id % 65_536 / 16) as usize)?;
        Some(number as usize)
    }

    /// Where the page of an identifier begins, a new one where it has none, unless there were four guesses for each of so
    /// many identifiers.
    fn page(&mut self, id: u32, count: usize) -> Result<u32, AllocError> {
        let Some(page) = self.pages.get_mut((id >> 16) as usize) else {
            return Ok(NOWHERE);
        };
        let length = self.guesses.len();
        if *page == NOWHERE && length / 4 <= count {
            self.guesses.resize(length + PAGE, 0)?;
            *page = narrow(length)?;
        }
        Ok(*page)
    }

    /// Guesses for identifiers: mostly their places. They take at most 16 bytes for each, and those of some pages.
    pub(crate) fn of(alloc: Global, ids: &[u32]) -> Result<Guesses, AllocError> {
        let mut made = Guesses {
            pages: vec![in alloc; NOWHERE; PAGES]?,
            guesses: Vec::new(alloc),
        };
        for i in 0..ids.len() {
            let id = ids[i];
            let page = made.page(id, ids.len())?;
            if let Some(guess) = made
                .guesses
                .get_mut(page as usize + (id % 65_536 / 16) as usize)
            {
                *guess = narrow(i)?;
            }
        }
        Ok(made)
    }
}
