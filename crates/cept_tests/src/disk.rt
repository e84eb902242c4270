use std::alloc::Allocator;
use std::cell::Cell;
use std::fs::{Metadata, OpenFile, OpenOptions};
use std::io::{self, Read, Seek, SeekFrom, Write};
use std::rt::Files;

/// Files of which the first that is opened fails. Nothing else is done with them but that they are
/// read.
#[derive(Drop)]
pub struct Disk {
    pub opens: Cell<u8>,
}

/// A file that gives two bytes a call, and fails at the second.
#[derive(Drop)]
pub struct Failing {
    calls: u8,
}

fn refused<X>() -> io::Result<X> {
    Err(io::Error::from(io::ErrorKind::Unsupported))
}

impl Read for Failing {
    fn read(&mut self, buf: &mut [u8]) -> io::Result<usize> {
        self.calls = self.calls.saturating_add(1);
        if self.calls == 2 {
            return Err(io::Error::from(io::ErrorKind::Other));
        }
        let count = buf.len().min(2);
        buf[..count].fill(b'0' + self.calls % 10);
        Ok(count)
    }
}

impl Write for Failing {
    fn write(&mut self, _buf: &[u8]) -> io::Result<usize> {
        Err(io::Error::from(io::ErrorKind::Unsupported))
    }

    fn flush(&mut self) -> io::Result<()> {
        refused()
    }
}

impl Seek for Failing {
    fn seek(&mut self, _to: SeekFrom) -> io::Result<u64> {
        refused()
    }
}

impl OpenFile for Failing {
    fn metadata(&self) -> io::Result<Metadata> {
        refused()
    }

    fn set_len(&self, _size: u64) -> io::Result<()> {
        refused()
    }

    fn sync_all(&self) -> io::Result<()> {
        refused()
    }

    fn sync_data(&self) -> io::Result<()> {
        refused()
    }
}

impl Files for Disk {
    type File = Failing;

    type Dir = Failing;

    fn open_file(&self, _how: &OpenOptions, _path: &str) -> io::Result<Failing> {
        let before = self.opens.get();
        self.opens.set(before.saturating_add(1));
        if before == 0 {
            return Err(io::Error::from(io::ErrorKind::NotFound));
        }
        Ok(Failing { calls: 0 })
    }

    fn open_dir(&self, _path: &str) -> io::Result<Failing> {
        refused()
    }

    fn metadata(&self, _path: &str) -> io::Result<Metadata> {
        refused()
    }

    fn symlink_metadata(&self, _path: &str) -> io::Result<Metadata> {
        refused()
    }

    fn copy(&self, _from: &str, _to: &str) -> io::Result<u64> {
        refused()
    }

    fn rename(&self, _from: &str, _to: &str) -> io::Result<()> {
        refused()
    }

    fn remove_file(&self, _path: &str) -> io::Result<()> {
        refused()
    }

    fn create_dir(&self, _path: &str) -> io::Result<()> {
        refused()
    }

    fn remove_dir(&self, _path: &str) -> io::Result<()> {
        refused()
    }

    fn remove_dir_all<B: Allocator>(&self, _alloc: B, _path: &str) -> io::Result<()> {
        refused()
    }
}
