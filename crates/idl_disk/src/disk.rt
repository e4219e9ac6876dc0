//! Files of the disk.

ghost use Rattle.idl_loader.specs.Holding.{Untold};

use crate::reading::read_file;
use idl_loader::{Loaded, Loader, PathLoader};
use idl_source::Name;
use std::fs;
use std::io::{self, ErrorKind};

/// The files of the disk, as names lead to them from the directory in which the program is run.
#[derive(Drop)]
pub struct Disk<'r> {
    runtime: &'r HostRuntime,
}

impl<'r> Disk<'r> {
    pub fn new(runtime: &'r HostRuntime) -> Disk<'r> {
        Disk { runtime }
    }

    // The bytes of the file at this path, as far as its limits allow. A pipe is waited for.
    fn read(&self, path: &str) -> io::Result<Vec<u8>> {
        let mut file = fs::open(self.runtime, path)?;
        read_file(self.runtime.alloc(), &mut file)
    }
}

impl<'r> Disk<'r> {
    // Whether what is at this path isn't a file: a pipe or a device may have its reader wait.
    fn is_no_file(&self, path: &[u8]) -> bool {
        let Ok(path) = str::from_utf8(path) else {
            return false;
        };
        match fs::metadata(self.runtime, path) {
            Ok(found) => !found.is_file(),
            Err(_) => false,
        }
    }

    // What comes of loading the file at this path.
    fn loaded(&self, path: &[u8]) -> Loaded {
        let Ok(path) = str::from_utf8(path) else {
            return Loaded::Missing;
        };
        match self.read(path) {
            Ok(bytes) => Loaded::Bytes(bytes),
            Err(error) => match error.kind() {
                ErrorKind::NotFound | ErrorKind::NotADirectory => Loaded::Missing,
                ErrorKind::OutOfMemory => Loaded::NoMemory,
                _ => Loaded::Failed,
            },
        }
    }
}

impl<'r> Loader for Disk<'r> {
    ghost told = { λ _ _. Untold };

    fn load(&mut self, name: &Name) -> Loaded {
        self.loaded(name.as_bytes())
    }
}

impl<'r> PathLoader for Disk<'r> {
    ghost told_of = { λ _ _. Untold };

    // No pipe is waited for, where paths stand in files.
    fn load_path(&mut self, path: &[u8]) -> Loaded {
        if self.is_no_file(path) {
            return Loaded::Failed;
        }
        self.loaded(path)
    }
}
