//! The file of a relay: it is opened again if its path names another file.
use crate::paths::with_suffix;
use crate::relay::{RelayOptions, supply};
use durable_lines::{FileAccess, is_same_file, open_or_create, open_own};
use libc::types::pollfd;
use meter_journal::{JournalFault, SupplyOutput};
use session_log::{Log, LogTime};
use std::alloc::Global;
use std::fs::{File, Files, Metadata};
use std::io::{ErrorKind, Write};
use std::os::fd::AsRawFd;
use std::os::unix::fs::FileTypeExt;
use std::time::Clock;
use std::{fs, io};

/// The file that is given the supply output. Before each change it is compared with the file that
/// its path names. If that is another one, or none, it is opened again, and made if it is missing,
/// with a line in the log. A named pipe that was removed is not made: the write fails. For a named
/// pipe the log also reports that the change before has not been read. If this is enabled, the log
/// has a line for each change.
#[derive(Drop)]
pub struct RelayFile<R> {
    rt: R,
    log: Log,
    path: String,
    mode: u32,
    is_verbose: bool,
    file: File,
    is_pipe: bool,
    // Whether it was reported that the change before has not been read.
    is_unread: bool,
}

// Returns whether what was written to a named pipe has not been read.
fn has_unread(pipe: &File) -> bool {
    let mut asked = [pollfd {
        fd: pipe.as_raw_fd(),
        events: libc::net::POLLIN,
        revents: 0,
    }];
    libc::net::poll(&mut asked, 0) == 1
}

impl<R: Clock + Files<File = File> + Copy> RelayFile<R> {
    // Opens the file of a path, which is made with the permissions of the options if it is missing.
    // The open does not wait: a named pipe is opened for reading, too, so that it keeps what is
    // written until a reader opens it.
    pub(crate) fn open(
        rt: R,
        log: Log,
        alloc: Global,
        path: &str,
        options: RelayOptions<'_>,
    ) -> io::Result<RelayFile<R>> {
        let file = open_or_create(&rt, path, FileAccess::Append, options.mode)?;
        let is_pipe = file.metadata()?.file_type().is_fifo();
        let path = with_suffix(alloc, path, "")?;
        Ok(RelayFile {
            rt,
            log,
            path,
            mode: options.mode,
            is_verbose: options.is_verbose,
            file,
            is_pipe,
            is_unread: false,
        })
    }

    // Returns the description of the file that is open.
    pub(crate) fn metadata(&self) -> io::Result<Metadata> {
        self.file.metadata()
    }

    // Returns whether the path names the file that is open.
    fn is_named(&self) -> io::Result<bool> {
        match fs::symlink_metadata(&self.rt, self.path.as_str()) {
            Ok(named) => Ok(is_same_file(&named, &self.file.metadata()?)),
            Err(error) if error.kind() == ErrorKind::NotFound => Ok(false),
            Err(error) => Err(error),
        }
    }

    // Opens the file of the path, which is made if it is missing. A pipe is not: a regular file
    // would have its name, and its reader would wait for a pipe that nobody writes to.
    fn open_again(&self) -> io::Result<File> {
        let path = self.path.as_str();
        if self.is_pipe {
            open_own(&self.rt, path, FileAccess::Append)
        } else {
            open_or_create(&self.rt, path, FileAccess::Append, self.mode)
        }
    }

    // Opens the file of the path again, if that is another one.
    fn follow_path(&mut self) -> io::Result<()> {
        if self.is_named()? {
            return Ok(());
        }
        let now = LogTime::now(&self.rt);
        let path = self.path.as_str();
        let _ = eprintln!(self.log;
            "{now} {path}: the relay's file was replaced or removed, and is opened again"
        );
        self.file = self.open_again()?;
        self.is_pipe = self.file.metadata()?.file_type().is_fifo();
        self.is_unread = false;
        Ok(())
    }

    // Reports that the change before has not been read, once until it is.
    fn report_unread(&mut self) {
        let is_unread = self.is_pipe && has_unread(&self.file);
        if is_unread && !self.is_unread {
            let now = LogTime::now(&self.rt);
            let path = self.path.as_str();
            let _ = eprintln!(self.log; "{now} {path}: nobody has read the last change yet");
        }
        self.is_unread = is_unread;
    }
}

impl<R: Clock + Files<File = File> + Copy> Write for RelayFile<R> {
    fn write(&mut self, bytes: &[u8]) -> io::Result<usize> {
        self.follow_path()?;
        self.report_unread();
        self.file.write(bytes)
    }

    fn flush(&mut self) -> io::Result<()> {
        self.file.flush()
    }
}

impl<R: Clock + Files<File = File> + Copy + Drop> SupplyOutput for RelayFile<R> {
    fn report_change(&self, is_on: bool) {
        if self.is_verbose {
            let now = LogTime::now(&self.rt);
            let _ = eprintln!(self.log; "{now} {}", supply(is_on));
        }
    }

    fn report_failure(&self) {
        let fault = JournalFault::Relay;
        let _ = eprintln!(self.log; "{}: the relay failed: {fault}", self.path);
    }
}
