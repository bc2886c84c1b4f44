ghost use Rattle.std.specs.Prelude.{◌≡◌, IfOk};

use std::alloc::{AllocError, Global};
use std::fs::{self, OpenFile, OpenOptions};
use std::io::{self, ErrorKind, Read, Write};
use std::os::unix::fs::OpenOptionsExt;
use std::rt::Files;
use wc_outside::{Failed, KeepFault, Keeper};
use wc_text::Text;

/// The name of the file that is kept.
const NAME: &str = "weechat.conf";

/// Its owner alone may read and write it.
const PRIVATE: u32 = 0o600;

/// A longer file is not read.
const SIZE_LIMIT: usize = 16_777_216;

/// The file `weechat.conf` of a folder. A missing file reads as empty where its folder is there, and
/// one of more than 16,777,216 bytes is not read.
///
/// The bytes that take its place are first written to a file beside it, which then gets its name,
/// so that a failure loses nothing. Its owner alone can read either, since the bytes have a password.
#[derive(Drop)]
pub struct FileKeeper<'a, R: Files> {
    rt: &'a R,
    folder: String,
    path: String,
    beside: String,
    faults: u64,
}

impl<'a, R: Files> FileKeeper<'a, R> {
    /// The file in this folder; an empty name is the current folder.
    pub fn new(rt: &'a R, alloc: Global, folder: &str) -> Result<FileKeeper<'a, R>, AllocError>
        ensures { IfOk result (λ keeper. ⟦<FileKeeper<'a, R> as Keeper>⟧.faults keeper ≡ 0) }
    {
        let folder = if folder.is_empty() { "." } else { folder };
        let path = format!(in alloc; "{folder}/{NAME}")?;
        let beside = format!(in alloc; "{folder}/{NAME}.new")?;
        Ok(FileKeeper {
            rt,
            folder: format!(in alloc; "{folder}")?,
            path,
            beside,
            faults: 0,
        })
    }
}

/// Whether this is a folder that is there.
fn is_folder<R: Files>(rt: &R, path: &str) -> bool {
    match fs::metadata(rt, path) {
        Ok(found) => found.is_dir(),
        Err(_) => false,
    }
}

/// What is read where a file cannot be opened: nothing, where its folder has no such file.
fn read_none<R: Files>(
    rt: &R,
    alloc: Global,
    folder: &str,
    error: &io::Error,
) -> Result<Text, KeepFault> {
    if error.kind() == ErrorKind::NotFound && is_folder(rt, folder) {
        return Ok(Text::new(alloc));
    }
    Err(KeepFault::Failed)
}

/// The bytes of a file of this folder.
fn read_file<R: Files>(rt: &R, alloc: Global, folder: &str, path: &str) -> Result<Text, KeepFault> {
    let mut file = match fs::open(rt, path) {
        Ok(file) => file,
        Err(error) => return read_none(rt, alloc, folder, &error),
    };
    let mut text = Text::new(alloc);
    let mut buffer = [0u8; 8192];
    for _ in 0..SIZE_LIMIT + 2 {
        let Ok(count) = file.read(&mut buffer) else {
            return Err(KeepFault::Failed);
        };
        if count == 0 {
            return Ok(text);
        }
        if text.as_slice().len() > SIZE_LIMIT - count {
            return Err(KeepFault::Failed);
        }
        if text.append(&buffer[..count]).is_err() {
            return Err(KeepFault::NoMemory);
        }
    }
    Err(KeepFault::Failed)
}

/// Makes a file that its owner alone can read, in the place of one that was left over.
fn create_private<R: Files>(rt: &R, path: &str) -> io::Result<R::File> {
    let _ = fs::remove_file(rt, path);
    OpenOptions::new()
        .write(true)
        .create_new(true)
        .mode(PRIVATE)
        .open(rt, path)
}

/// Writes a file and its bytes to the disk.
fn write_file<R: Files>(rt: &R, path: &str, bytes: &[u8]) -> io::Result<()> {
    let mut file = create_private(rt, path)?;
    file.write_all(bytes)?;
    file.sync_all()
}

fn replace_file<R: Files>(rt: &R, beside: &str, path: &str, bytes: &[u8]) -> io::Result<()> {
    let written = write_file(rt, beside, bytes);
    let replaced = match written {
        Ok(()) => fs::rename(rt, beside, path),
        Err(error) => Err(error),
    };
    if replaced.is_err() {
        let _ = fs::remove_file(rt, beside);
    }
    replaced
}

impl<'a, R: Files> Keeper for FileKeeper<'a, R> {
    ghost use Rattle.std.specs.Prelude.{None};

    ghost contents = { λ keeper. None };

    ghost faults = { λ keeper. keeper.faults };

    fn read_all(&mut self, alloc: Global) -> Result<Text, KeepFault> {
        match read_file(self.rt, alloc, self.folder.as_str(), self.path.as_str()) {
            Ok(text) => Ok(text),
            Err(KeepFault::NoMemory) => Err(KeepFault::NoMemory),
            Err(KeepFault::Failed) => {
                self.faults = self.faults.saturating_add(1);
                Err(KeepFault::Failed)
            }
        }
    }

    fn replace(&mut self, bytes: &[u8]) -> Result<(), Failed> {
        let replaced = replace_file(self.rt, self.beside.as_str(), self.path.as_str(), bytes);
        if replaced.is_err() {
            self.faults = self.faults.saturating_add(1);
            return Err(Failed);
        }
        Ok(())
    }
}
