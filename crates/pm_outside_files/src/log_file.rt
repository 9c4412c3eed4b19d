// One file of a folder: found where it is there, made by the first write.
use crate::fault::{FileFault, Step};
use std::alloc::{AllocError, Global};
use std::fs::{File, OpenOptions, TryLockError};
use std::io;
use std::os::fd::AsRawFd;
use std::os::unix::fs::{FileExt, OpenOptionsExt};

/// A log file is its owner's alone, as the files of PostgreSQL's data directory are.
const OWNER_ALONE: u32 = 0o600;

/// A file that is opened by the first call that finds or makes it, and stays open then. It is settled before that call
/// goes on: what is read is what the disk has. A file that isn't there reads as empty.
#[derive(Drop)]
pub struct LogFile {
    rt: HostRuntime,
    name: &'static str,
    folder: String,
    path: String,
    is_lock: bool,
    handle: Option<File>,
    // A sync has failed, or what settles the file. The system may have dropped what it couldn't write, and then a later
    // sync succeeds and proves nothing of it.
    is_lost: bool,
}

impl LogFile {
    /// The file of this name in this folder. Whoever opens a file that is a lock holds it alone, up to his end.
    pub fn of(
        rt: HostRuntime,
        alloc: Global,
        folder: &str,
        name: &'static str,
        is_lock: bool,
    ) -> Result<LogFile, AllocError> {
        Ok(LogFile {
            rt,
            name,
            folder: String::from_str(alloc, folder)?,
            path: format!(in alloc; "{folder}/{name}")?,
            is_lock,
            handle: None,
            is_lost: false,
        })
    }

    /// Its length, in bytes.
    pub fn len(&mut self) -> Result<u64, FileFault> {
        self.find()?;
        match &self.handle {
            Some(file) => match file.metadata() {
                Ok(metadata) => Ok(metadata.len()),
                Err(reason) => Err(self.fault(Step::Length, reason)),
            },
            None => Ok(0),
        }
    }

    /// Fills the slice with the bytes from this place on. All of them must be there.
    pub fn read(&mut self, at: u64, into: &mut [u8]) -> Result<(), FileFault> {
        self.find()?;
        let done = match &self.handle {
            Some(file) => file.read_exact_at(into, at),
            None if into.is_empty() => Ok(()),
            None => Err(io::Error::from(io::ErrorKind::UnexpectedEof)),
        };
        self.told(Step::Read, done)
    }

    /// Writes all of the bytes, from this place on.
    pub fn write(&mut self, at: u64, bytes: &[u8]) -> Result<(), FileFault> {
        self.find()?;
        if self.handle.is_none() {
            let made = OpenOptions::new()
                .read(true)
                .write(true)
                .create_new(true)
                .mode(OWNER_ALONE)
                .open(&self.rt, self.path.as_str());
            let file = self.told(Step::Open, made)?;
            self.keep(file)?;
        }
        let done = match &self.handle {
            Some(file) => file.write_all_at(bytes, at),
            None => Err(io::Error::from(io::ErrorKind::NotFound)),
        };
        self.told(Step::Write, done)
    }

    /// Makes durable what was written, with the length that it gave the file, by the call that PostgreSQL uses on this
    /// system unless it is told otherwise. After a sync that failed every call of the file fails.
    pub fn sync(&mut self) -> Result<(), FileFault> {
        let was_open = self.handle.is_some();
        self.find()?;
        let Some(file) = &self.handle else {
            return Ok(());
        };
        if !was_open {
            // It was settled as it was found, and nothing has been written since.
            return Ok(());
        }
        let synced = file.sync_data();
        self.is_lost = synced.is_err();
        self.told(Step::Sync, synced)
    }

    /// What failed of this file.
    pub fn fault(&self, step: Step, reason: io::Error) -> FileFault {
        FileFault {
            file: self.name,
            step,
            reason,
        }
    }

    fn told<T: Drop>(&self, step: Step, done: io::Result<T>) -> Result<T, FileFault> {
        done.map_err(|reason| self.fault(step, reason))
    }

    // Opens the file, where it is there and isn't open yet.
    fn find(&mut self) -> Result<(), FileFault> {
        if self.is_lost {
            return Err(self.fault(Step::Sync, io::Error::other("it has failed before")));
        }
        if self.handle.is_some() {
            return Ok(());
        }
        let found = OpenOptions::new()
            .read(true)
            .write(true)
            .open(&self.rt, self.path.as_str());
        match found {
            Ok(file) => self.keep(file),
            Err(error) if error.kind() == io::ErrorKind::NotFound => Ok(()),
            Err(error) => Err(self.fault(Step::Open, error)),
        }
    }

    // Keeps the file open, once it is settled.
    fn keep(&mut self, file: File) -> Result<(), FileFault> {
        if self.is_lock {
            self.told(Step::Lock, lock(&file))?;
        }
        let folder = File::open(&self.rt, self.folder.as_str());
        let folder = self.told(Step::Settle, folder)?;
        let settled = settle(&file, &folder);
        self.is_lost = settled.is_err();
        self.told(Step::Settle, settled)?;
        self.handle = Some(file);
        Ok(())
    }
}

// Makes the file durable as it reads, and its name with it. The system may keep pages that a failed sync of an earlier
// program couldn't write: they read as they were written, count as clean, and the disk doesn't have them. So what it
// keeps of the file is dropped after the sync, and what is read from then on comes from the disk.
fn settle(file: &File, folder: &File) -> io::Result<()> {
    file.sync_all()?;
    let refused = libc::posix_fadvise(file.as_raw_fd(), 0, 0, libc::POSIX_FADV_DONTNEED);
    if refused != 0 {
        return Err(io::Error::from_raw_os_error(refused));
    }
    folder.sync_all()
}

// Locks the file up to its closing, unless another has locked it.
fn lock(file: &File) -> io::Result<()> {
    match file.try_lock() {
        Ok(()) => Ok(()),
        Err(TryLockError::WouldBlock) => Err(io::Error::new(
            io::ErrorKind::WouldBlock,
            "another program works on this folder",
        )),
        Err(TryLockError::Error(error)) => Err(error),
    }
}
