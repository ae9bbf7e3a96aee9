//! A folder in memory, whose copies have the same files.

use kept_folder::{FileFault, Folder};
use std::alloc::{AllocError, Global};
use std::io;
use std::io::Write;
use std::sync::{Mutex, Wait};

/// A file: its name, and its bytes.
#[derive(Drop)]
pub struct Page {
    name: String,
    bytes: Vec<u8>,
}

impl Page {
    /// Bytes under a name.
    fn new(alloc: Global, name: &str, bytes: &[u8]) -> Result<Page, AllocError> {
        Ok(Page {
            name: String::from_str(alloc, name)?,
            bytes: bytes.to_vec(alloc)?,
        })
    }
}

impl Write for Page {
    fn write(&mut self, buf: &[u8]) -> io::Result<usize> {
        match self.bytes.extend_from_slice(buf) {
            Ok(()) => Ok(buf.len()),
            Err(AllocError) => Err(io::Error::from(io::ErrorKind::OutOfMemory)),
        }
    }

    fn flush(&mut self) -> io::Result<()> {
        Ok(())
    }
}

/// Files, of different names.
#[derive(Drop)]
pub struct Pages {
    alloc: Global,
    pages: Vec<Page>,
}

impl Pages {
    /// No file.
    pub fn new(alloc: Global) -> Pages {
        Pages {
            alloc,
            pages: Vec::new(alloc),
        }
    }

    /// The same files once more.
    pub fn copy(&self) -> Result<Pages, AllocError> {
        let mut pages = Vec::new(self.alloc);
        for page in &self.pages {
            pages.push(Page::new(self.alloc, page.name.as_str(), &page.bytes)?)?;
        }
        Ok(Pages {
            alloc: self.alloc,
            pages,
        })
    }

    /// A copy of the bytes of a file, if there is one.
    pub fn get(&self, alloc: Global, name: &str) -> Result<Option<Vec<u8>>, AllocError> {
        for page in &self.pages {
            if page.name.as_str() == name {
                return Ok(Some(page.bytes.as_slice().to_vec(alloc)?));
            }
        }
        Ok(None)
    }

    /// The names of the files.
    fn names(&self, alloc: Global) -> Result<Vec<String>, AllocError> {
        let mut names = Vec::new(alloc);
        for page in &self.pages {
            names.push(String::from_str(alloc, page.name.as_str())?)?;
        }
        Ok(names)
    }

    /// Makes a file hold these bytes alone.
    pub fn set(&mut self, name: &str, bytes: &[u8]) -> Result<(), AllocError> {
        let new = Page::new(self.alloc, name, bytes)?;
        for page in &mut self.pages {
            if page.name.as_str() == name {
                *page = new;
                return Ok(());
            }
        }
        self.pages.push(new)?;
        Ok(())
    }
}

/// A folder whose copies have the same files.
#[derive_where(Clone, Copy)]
pub struct Shared<'a, R> {
    pub rt: &'a R,
    pub alloc: Global,
    pub pages: &'a Mutex<Pages>,
}

impl<R: Wait> Folder for Shared<'_, R> {
    type File = Page;

    ghost finds = { λ _ _ _. Unit {0} };

    ghost does = { λ _ _ _. Unit {0} };

    fn read(&self, alloc: Global, name: &str) -> Result<Option<Vec<u8>>, FileFault> {
        Ok(self.pages.lock(self.rt).get(alloc, name)?)
    }

    fn names(&self, alloc: Global) -> Result<Vec<String>, FileFault> {
        Ok(self.pages.lock(self.rt).names(alloc)?)
    }

    fn create(&mut self, name: &str) -> Result<Page, FileFault> {
        self.pages.lock(self.rt).set(name, &[])?;
        Ok(Page::new(self.alloc, name, &[])?)
    }

    fn force(&mut self, file: Page) -> Result<(), FileFault> {
        self.pages
            .lock(self.rt)
            .set(file.name.as_str(), &file.bytes)?;
        Ok(())
    }

    fn rename(&mut self, from: &str, to: &str) -> Result<(), FileFault> {
        let mut pages = self.pages.lock(self.rt);
        let Some(bytes) = pages.get(self.alloc, from)? else {
            return Err(FileFault::Refused);
        };
        pages.set(to, &bytes)?;
        Ok(())
    }

    fn force_names(&mut self) -> Result<(), FileFault> {
        Ok(())
    }
}
