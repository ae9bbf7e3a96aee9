//! What all requests are read by.

use crate::media::MediaTypes;
use crate::routes::Routes;
use std::alloc::{AllocError, Global};

/// What all requests are read by: the routes of the store, and the media types that most values have.
#[derive(Drop)]
pub struct Tables {
    pub(crate) routes: Routes,
    pub(crate) types: MediaTypes,
}

impl Tables {
    /// Both, made once. The error is want of memory.
    pub fn new(alloc: Global) -> Result<Tables, AllocError> {
        Ok(Tables {
            routes: Routes::new(alloc)?,
            types: MediaTypes::new(alloc)?,
        })
    }

    /// Makes the media types anew. Values share those that were there when they came: so a thread that counts owners of what came before,
    /// as the one that follows does, seldom waits for one that counts those of what comes now. Where there is no memory, the earlier ones
    /// stay.
    pub fn renew(&mut self, alloc: Global) {
        if let Ok(types) = MediaTypes::new(alloc) {
            self.types = types;
        }
    }
}
