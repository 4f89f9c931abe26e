//! Files that are opened or made when they are first used.
ghost use Rattle.std.specs.Prelude.{◌≡◌, None, IfOk, OnOk, OnErr, IsSome};
ghost use Rattle.std.specs.Io.{ReadsAtMost, WritesAtMost};
ghost use Rattle.std.specs.Io.KnownBytes.{Keeps, ReadConsumes, WriteAppends};

use std::alloc::{AllocError, Global};
use std::fs::{OpenFile, Permissions};
use std::io::{ErrorKind, Read, Write};
use std::marker::Model;
use std::rt::Files;
use std::{fs, io};

/// A file that is opened at the first read. Contracts see its path, and the file once it is open.
#[derive(Drop)]
pub struct InFile<'a, R: Files> {
    files: &'a R,
    path: &'a str,
    file: Option<R::File>,
}

impl<'a, R: Files> Model for InFile<'a, R> {
    ghost use Rattle.engines.specs.Files.{LateFile};

    ghost Value = { LateFile R.File };

    ghost view = { λ f. record { path = f.path.now; file = f.file } };
}

impl<'a, R: Files> InFile<'a, R> {
    /// The file of this path, not opened yet.
    pub fn new(files: &'a R, path: &'a str) -> InFile<'a, R>
        ensures { result ≡ record { path = path.now; file = None } }
    {
        InFile {
            files,
            path,
            file: None,
        }
    }

    /// Opens the file, unless it is open. Where it can't be opened, it is tried again later.
    fn opened(&mut self) -> io::Result<()>
        ensures open { OnOk result (IsSome self.new.file) }
        ensures path { self.new.path ≡ self.old.path }
        ensures kept { IsSome self.old.file → self.new ≡ self.old }
        ensures err { OnErr result (self.new ≡ self.old) }
    {
        if self.file.is_none() {
            self.file = Some(fs::open(self.files, self.path)?);
        }
        Ok(())
    }
}

impl<R: Files> Read for InFile<'_, R> {
    ghost use Rattle.engines.specs.Files.{known_bytes};

    ghost remaining = { λ f. known_bytes R.File.remaining f };

    fn read(&mut self, buf: &mut [u8]) -> io::Result<usize>
        ensures bound { ReadsAtMost result buf.new }
        ensures bytes { ReadConsumes (known_bytes R.File.remaining self.old)
            (known_bytes R.File.remaining self.new) result buf.new }
        ensures open { OnOk result (IsSome self.new.file) }
        ensures path { self.new.path ≡ self.old.path }
    {
        self.opened()?;
        match &mut self.file {
            Some(file) => file.read(buf),
            None => unreachable!(),
        }
    }
}

/// What a file is called until it has its own name.
const BESIDE: &str = ".sparql-block-new";

/// A file that is made at the first write or flush. A regular file, or one that is not there yet, is
/// replaced whole or not at all: it is written beside itself, gets its name at the first flush, and
/// is removed where that doesn't come. Anything else, as a device, a pipe or a link, is written as it
/// is. Contracts see its path, and the file once it is made.
pub struct OutFile<'a, R: Files> {
    files: &'a R,
    path: &'a str,
    beside: String,
    // Whether the file that is made has the name beside.
    is_beside: bool,
    file: Option<R::File>,
}

impl<'a, R: Files> Model for OutFile<'a, R> {
    ghost use Rattle.engines.specs.Files.{LateFile};

    ghost Value = { LateFile R.File };

    ghost view = { λ f. record { path = f.path.now; file = f.file } };
}

/// The text of a path beside another.
fn path_beside(alloc: Global, path: &str) -> Result<String, AllocError> {
    let mut beside = String::from_str(alloc, path)?;
    beside.push_str(BESIDE)?;
    Ok(beside)
}

/// Whether a file can't be made under the longer name, and maybe under the shorter one.
fn has_no_room_beside(kind: ErrorKind) -> bool {
    matches!(
        kind,
        ErrorKind::PermissionDenied | ErrorKind::InvalidFilename
    )
}

impl<'a, R: Files> OutFile<'a, R> {
    /// The file of this path, not made yet. An `Err` comes where a growth was refused.
    pub fn new(alloc: Global, files: &'a R, path: &'a str) -> Result<OutFile<'a, R>, AllocError>
        ensures { IfOk result (λ file. file ≡ record { path = path.now; file = None }) }
    {
        Ok(OutFile {
            files,
            path,
            beside: path_beside(alloc, path)?,
            is_beside: false,
            file: None,
        })
    }

    /// Makes a file beside this one, which anybody may open who may open this one.
    fn create_beside(&self, permissions: Option<Permissions>) -> io::Result<R::File> {
        let file = fs::create(self.files, self.beside.as_str())?;
        if let Some(permissions) = permissions {
            file.set_permissions(permissions)?;
        }
        Ok(file)
    }

    /// Makes the file under its own name or beside it, and says whether it is beside it.
    fn create(&self) -> io::Result<(R::File, bool)> {
        let permissions = match fs::symlink_metadata(self.files, self.path) {
            Ok(found) if found.is_file() => Some(found.permissions()),
            Err(error) if error.kind() == ErrorKind::NotFound => None,
            _ => return Ok((fs::create(self.files, self.path)?, false)),
        };
        match self.create_beside(permissions) {
            Ok(file) => Ok((file, true)),
            // Nothing can be made in the folder, or not with a name so long.
            Err(error) if has_no_room_beside(error.kind()) => {
                Ok((fs::create(self.files, self.path)?, false))
            }
            Err(error) => Err(error),
        }
    }

    /// Makes the file, unless it is made. Where it can't be made, it is tried again later.
    fn made(&mut self) -> io::Result<()>
        ensures there { OnOk result (IsSome self.new.file) }
        ensures path { self.new.path ≡ self.old.path }
        ensures kept { IsSome self.old.file → self.new ≡ self.old }
        ensures err { OnErr result (self.new ≡ self.old) }
    {
        if self.file.is_none() {
            let (file, is_beside) = self.create()?;
            self.file = Some(file);
            self.is_beside = is_beside;
        }
        Ok(())
    }

    /// Gives a file that is beside this one its name.
    fn put_in_place(&mut self) -> io::Result<()>
        ensures { self.new ≡ self.old }
    {
        if self.is_beside {
            fs::rename(self.files, self.beside.as_str(), self.path)?;
            self.is_beside = false;
        }
        Ok(())
    }
}

impl<R: Files> Write for OutFile<'_, R> {
    ghost use Rattle.engines.specs.Files.{known_bytes};

    ghost contents = { λ f. known_bytes R.File.contents f };

    fn write(&mut self, buf: &[u8]) -> io::Result<usize>
        ensures bound { WritesAtMost result buf.now }
        ensures bytes { WriteAppends (known_bytes R.File.contents self.old)
            (known_bytes R.File.contents self.new) result buf.now }
        ensures there { OnOk result (IsSome self.new.file) }
        ensures path { self.new.path ≡ self.old.path }
    {
        self.made()?;
        match &mut self.file {
            Some(file) => file.write(buf),
            None => unreachable!(),
        }
    }

    fn flush(&mut self) -> io::Result<()>
        ensures bytes { Keeps (known_bytes R.File.contents self.old)
            (known_bytes R.File.contents self.new) }
        ensures there { OnOk result (IsSome self.new.file) }
        ensures path { self.new.path ≡ self.old.path }
    {
        self.made()?; // also where no byte was written
        match &mut self.file {
            Some(file) => file.flush()?,
            None => unreachable!(),
        }
        self.put_in_place()
    }
}

impl<R: Files> Drop for OutFile<'_, R> {
    fn drop(self) {
        let OutFile {
            files,
            path: _,
            beside,
            is_beside,
            file,
        } = self;
        drop(file);
        if is_beside {
            let _ = fs::remove_file(files, beside.as_str());
        }
    }
}
