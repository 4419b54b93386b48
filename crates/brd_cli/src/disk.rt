//! The file system, as the commands see it.

use crate::standard_input::INPUT;
use brd_command::Files;
use std::fs::{self, File, Metadata, OpenOptions, Permissions};
use std::io::{self, ErrorKind, Read, Stdin, Write};
use std::os::fd::AsRawFd;
use std::os::unix::fs::MetadataExt;

/// Where Linux has standard input as a file.
const INPUT_FILE: &str = "/dev/stdin";

/// How many names are tried for a file beside another one (own choice).
const TRIES: u32 = 64;

/// What a file is told of that is to be written over one that is read.
const IS_INPUT: &str = "it is the object file or the configuration";

/// The file system. Where a file is read, `-` is standard input, from where it stands.
#[derive(Drop)]
pub struct Disk<'a> {
    rt: &'a HostRuntime,
}

/// What is read.
#[derive(Drop)]
pub enum Source {
    /// A file.
    File(File),
    /// Standard input.
    Input(Stdin),
}

impl Read for Source {
    fn read(&mut self, buf: &mut [u8]) -> io::Result<usize> {
        match self {
            Source::File(file) => file.read(buf),
            Source::Input(input) => input.read(buf),
        }
    }
}

/// Where a file lies that others see only once it is whole.
#[derive(Drop)]
struct Beside {
    /// Its name as long as it isn't.
    part: String,
    /// The name that it gets.
    name: String,
}

/// What becomes of what is written.
#[derive(Drop)]
enum Way {
    /// It is where it belongs.
    Here,
    /// It goes beside the file of this name as soon as there is something to write.
    Later(String),
    /// It goes there once it is whole.
    There(Beside),
}

/// A file that is written.
#[derive(Drop)]
pub struct Target<'a> {
    rt: &'a HostRuntime,
    file: File,
    way: Way,
    has_failed: bool,
}

impl<'a> Target<'a> {
    /// Goes on beside the file of the name that is kept for that. Where no file can be created there, it goes on in the
    /// file itself.
    fn go_beside(&mut self) {
        let Way::Later(name) = &self.way else {
            return;
        };
        let begun = begin_beside(self.rt, name.as_str());
        match begun {
            Some((file, beside)) => {
                self.file = file;
                self.way = Way::There(beside);
            }
            None => self.way = Way::Here,
        }
    }
}

impl<'a> Write for Target<'a> {
    fn write(&mut self, buf: &[u8]) -> io::Result<usize> {
        self.go_beside();
        match self.file.write(buf) {
            Ok(n) => {
                self.has_failed |= n == 0 && !buf.is_empty();
                Ok(n)
            }
            Err(error) => {
                self.has_failed |= error.kind() != ErrorKind::Interrupted;
                Err(error)
            }
        }
    }

    fn flush(&mut self) -> io::Result<()> {
        self.file.flush()
    }
}

impl<'a> Disk<'a> {
    /// The file system of the host.
    pub fn new(rt: &'a HostRuntime) -> Disk<'a> {
        Disk { rt }
    }

    /// A file that is written where it lies.
    fn target(&self, file: File, way: Way) -> Target<'a> {
        Target {
            rt: self.rt,
            file,
            way,
            has_failed: false,
        }
    }
}

impl<'a> Files for Disk<'a> {
    type Input = Source;

    type Output = Target<'a>;

    fn open(&mut self, name: &str) -> io::Result<Source> {
        if name.as_bytes() == INPUT {
            return Ok(Source::Input(self.rt.stdin()));
        }
        Ok(Source::File(apart(File::open(self.rt, name)?)?))
    }

    fn create(&mut self, name: &str) -> io::Result<Target<'a>> {
        let file = apart(File::create(self.rt, name)?)?;
        Ok(self.target(file, Way::Here))
    }

    fn begin(&mut self, name: &str) -> io::Result<Target<'a>> {
        if let Ok(found) = fs::metadata(self.rt, name) {
            can_be_written(self.rt, name, &found)?;
        }
        match begin_beside(self.rt, name) {
            Some((file, beside)) => Ok(self.target(file, Way::There(beside))),
            None => self.create(name),
        }
    }

    fn renew(&mut self, name: &str) -> io::Result<Target<'a>> {
        let file = apart(File::create(self.rt, name)?)?;
        let later = copy_of(self.rt, name)?;
        Ok(self.target(file, Way::Later(later)))
    }

    fn try_create(&self, name: &str, image: &str, config: &str) -> io::Result<()> {
        match fs::metadata(self.rt, name) {
            Ok(found) => {
                if is_file_of(self.rt, &found, image) || is_file_of(self.rt, &found, config) {
                    return Err(io::Error::new(ErrorKind::InvalidInput, IS_INPUT));
                }
                can_be_written(self.rt, name, &found)
            }
            Err(error) if error.kind() == ErrorKind::NotFound => can_be_new(self.rt, name),
            Err(error) => Err(error),
        }
    }

    fn close(&mut self, output: Target<'a>) {
        if let Way::There(beside) = &output.way {
            let _ = fs::remove_file(self.rt, beside.part.as_str());
        }
    }

    fn keep(&mut self, output: Target<'a>) -> io::Result<()> {
        if output.has_failed {
            self.close(output);
            return Ok(());
        }
        match &output.way {
            Way::There(beside) => put(self.rt, beside),
            Way::Here | Way::Later(_) => Ok(()),
        }
    }
}

/// An open file under a descriptor that is no standard stream's. The system gives a file the descriptor of a standard
/// stream that is closed; then the file would be read as standard input, or written as output.
fn apart(file: File) -> io::Result<File> {
    if file.as_raw_fd() > 2 {
        return Ok(file);
    }
    file.try_clone()
}

/// A copy of a name.
fn copy_of(rt: &HostRuntime, name: &str) -> io::Result<String> {
    let copy = format!(in rt.alloc(); "{name}")?;
    Ok(copy)
}

/// Puts a file that is whole where it belongs. Where it can't get that name, its bytes go to the file that has it.
fn put(rt: &HostRuntime, beside: &Beside) -> io::Result<()> {
    let part = beside.part.as_str();
    let name = beside.name.as_str();
    if fs::rename(rt, part, name).is_ok() {
        return Ok(());
    }
    let copied = fs::copy(rt, part, name);
    let _ = fs::remove_file(rt, part);
    match copied {
        Ok(_) => Ok(()),
        Err(error) => Err(error),
    }
}

/// Whether a file that there is can be written. (One that is no file and no folder may wait for a reader, and isn't
/// opened.)
fn can_be_written(rt: &HostRuntime, name: &str, found: &Metadata) -> io::Result<()> {
    if !found.is_file() && !found.is_dir() {
        return Ok(());
    }
    OpenOptions::new().write(true).open(rt, name)?;
    Ok(())
}

/// Whether a file of a name that there isn't can be created: it is, and removed. (A link that leads to nothing is
/// there, and so isn't created.)
fn can_be_new(rt: &HostRuntime, name: &str) -> io::Result<()> {
    match File::create_new(rt, name) {
        Ok(_file) => fs::remove_file(rt, name),
        Err(error) if error.kind() == ErrorKind::AlreadyExists => Ok(()),
        Err(error) => Err(error),
    }
}

/// Whether what is read under a name is a file that was found.
fn is_file_of(rt: &HostRuntime, found: &Metadata, name: &str) -> bool {
    let name = if name.as_bytes() == INPUT {
        INPUT_FILE
    } else {
        name
    };
    match fs::metadata(rt, name) {
        Ok(other) => found.is_file() && other.dev() == found.dev() && other.ino() == found.ino(),
        Err(_) => false,
    }
}

/// A name at which another file can be put, and the permissions that it gets.
#[derive(Drop)]
struct Place {
    name: String,
    permissions: Option<Permissions>,
}

/// The folder of devices, and of standard streams as files.
const DEVICES: &str = "/dev/";

/// The place of a name: its own, where there is no file; where there is one, and no link is lost, that to which the
/// name leads. Nothing else can be put at that of a device, a pipe or a standard stream.
fn place_of(rt: &HostRuntime, name: &str) -> Option<Place> {
    if name.starts_with(DEVICES) {
        return None;
    }
    let Ok(found) = fs::metadata(rt, name) else {
        if fs::symlink_metadata(rt, name).is_ok() {
            return None;
        }
        let name = copy_of(rt, name).ok()?;
        return Some(Place {
            name,
            permissions: None,
        });
    };
    if !found.is_file() || found.nlink() != 1 {
        return None;
    }
    let path = fs::canonicalize(rt, name).ok()?;
    let name = copy_of(rt, path.as_str()).ok()?;
    Some(Place {
        name,
        permissions: Some(found.permissions()),
    })
}

/// Creates a file beside that of a name, which can be put in its place.
fn begin_beside(rt: &HostRuntime, name: &str) -> Option<(File, Beside)> {
    let place = place_of(rt, name)?;
    for number in 1..=TRIES {
        let part = format!(in rt.alloc(); "{}.{number}.part", place.name).ok()?;
        match File::create_new(rt, part.as_str()) {
            Ok(file) => return with_permissions(rt, file, part, place),
            Err(error) if error.kind() == ErrorKind::AlreadyExists => {}
            Err(_) => return None,
        }
    }
    None
}

/// A file that was created for a place, with the permissions that it is to have.
fn with_permissions(
    rt: &HostRuntime,
    file: File,
    part: String,
    place: Place,
) -> Option<(File, Beside)> {
    if let Some(permissions) = place.permissions {
        if file.set_permissions(permissions).is_err() {
            let _ = fs::remove_file(rt, part.as_str());
            return None;
        }
    }
    let beside = Beside {
        part,
        name: place.name,
    };
    match apart(file) {
        Ok(file) => Some((file, beside)),
        Err(_) => {
            let _ = fs::remove_file(rt, beside.part.as_str());
            None
        }
    }
}
