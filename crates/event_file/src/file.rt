//! The file that has a store's log.

use crate::path::{begin, followed, is_at, permissions_at, sync_folder, take_place};
use crate::writing::write_lines;
use event_list::EventList;
use event_log::Medium;
use std::alloc::Global;
use std::fs::{File, OpenOptions};
use std::io::{BufReader, ErrorKind, Write};
use std::rt::Files;
use std::{fs, io};

/// What stands behind the name of the file that gets torn ends.
const TORN: &str = ".torn";

/// The events file, locked until it is closed. No other run opens it meanwhile, by whatever name.
#[derive(Drop)]
pub struct EventsFile {
    file: File,
    // The file in whose place this one was put, which may have other names.
    before: Option<File>,
    path: String,
    // Whether it wasn't there before.
    is_new: bool,
    // Whether it can't be appended to.
    is_fixed: bool,
}

impl Medium for EventsFile {
    fn write(&mut self, bytes: &[u8]) -> io::Result<usize> {
        self.file.write(bytes)
    }

    fn sync(&mut self) -> io::Result<()> {
        self.file.sync_data()
    }

    fn cut(&mut self, len: u64) -> io::Result<()> {
        self.file.set_len(len)
    }
}

/// Opens the file at a path, which is made where there is none, for reading and appending, or for reading alone where it may not
/// be written; and tells whether it is for reading alone.
fn opened<R: Files<File = File>>(rt: &R, path: &str) -> io::Result<(File, bool)> {
    let both = OpenOptions::new()
        .read(true)
        .append(true)
        .create(true)
        .open(rt, path);
    match both {
        Ok(file) => Ok((file, false)),
        Err(error) if error.kind() == ErrorKind::PermissionDenied => match File::open(rt, path) {
            Ok(file) => Ok((file, true)),
            Err(_) => Err(error),
        },
        Err(error) => Err(error),
    }
}

impl EventsFile {
    /// Opens the file at a path, and makes one where there is none; a link is followed. It fails where what is there is no plain
    /// file, and with `WouldBlock` where another run has it.
    pub fn open<R: Files<File = File>>(
        rt: &R,
        alloc: Global,
        path: &str,
    ) -> io::Result<EventsFile> {
        if path.is_empty() {
            return Err(io::Error::from(ErrorKind::InvalidInput));
        }
        let path = followed(rt, alloc, path)?;
        let is_new = permissions_at(rt, path.as_str())?.is_none();
        let (file, is_fixed) = opened(rt, path.as_str())?;
        file.try_lock()?;
        // Another run may have put a file in its place since it was opened.
        if !is_at(rt, &file, path.as_str()).unwrap_or(false) {
            return Err(io::Error::from(ErrorKind::WouldBlock));
        }
        if is_new {
            sync_folder(rt, path.as_str());
        }
        Ok(EventsFile {
            file,
            before: None,
            path,
            is_new,
            is_fixed,
        })
    }

    /// Reads on where the last read has ended.
    pub fn reading(&self, alloc: Global, capacity: usize) -> io::Result<BufReader<&File>> {
        BufReader::with_capacity(alloc, capacity, &self.file)
    }

    /// How many bytes it has.
    pub fn size(&self) -> io::Result<u64> {
        Ok(self.file.metadata()?.len())
    }

    /// Whether lines can be appended to it. Else it has to be written anew.
    pub fn may_grow(&self) -> bool {
        !self.is_fixed
    }

    /// Ends its last line.
    pub fn end_line(&mut self) -> io::Result<()> {
        self.file.write_all(b"\n")
    }

    /// Moves its last bytes, of which so many stand before, to the end of the file beside it whose name has `.torn` behind it.
    pub fn set_aside<R: Files<File = File>>(
        &mut self,
        rt: &R,
        alloc: Global,
        before: u64,
        torn: &[u8],
    ) -> io::Result<()> {
        let path = self.path.as_str();
        let beside = format!(in alloc; "{path}{TORN}")?;
        let there = permissions_at(rt, beside.as_str())?;
        let mut file = OpenOptions::new()
            .append(true)
            .create(true)
            .open(rt, beside.as_str())?;
        if there.is_none() {
            file.set_permissions(self.file.metadata()?.permissions())?;
        }
        file.write_all(torn)?;
        file.sync_all()?;
        sync_folder(rt, beside.as_str());
        if self.is_fixed {
            return Ok(());
        }
        self.file.set_len(before)
    }

    /// Puts a file in its place that has the lines of these events and nothing else, and is locked as it was. After a fault it is
    /// as it was, and no other is left beside it, where that can be removed.
    pub fn renew<R: Files<File = File>>(
        &mut self,
        rt: &R,
        alloc: Global,
        events: &EventList,
    ) -> io::Result<()> {
        let (mut file, beside) = begin(rt, alloc, self.path.as_str())?;
        let mut done = self.fill(alloc, &mut file, events);
        if done.is_ok() {
            done = take_place(rt, beside.as_str(), self.path.as_str());
        }
        if done.is_err() {
            let _ = fs::remove_file(rt, beside.as_str());
            return done;
        }
        // The other file stays locked: it may have other names.
        let before = core::mem::replace(&mut self.file, file);
        if self.before.is_none() {
            self.before = Some(before);
        }
        self.is_fixed = false;
        Ok(())
    }

    // Writes the events to a file that gets its permissions first.
    fn fill(&self, alloc: Global, file: &mut File, events: &EventList) -> io::Result<()> {
        file.set_permissions(self.file.metadata()?.permissions())?;
        write_lines(alloc, file, events)?;
        file.sync_all()
    }

    /// Lets it go as it is, or removes it where it wasn't there before and has nothing.
    pub fn discard<R: Files<File = File>>(self, rt: &R) {
        if self.is_new && self.size().unwrap_or(1) == 0 {
            let _ = fs::remove_file(rt, self.path.as_str());
        }
    }
}
