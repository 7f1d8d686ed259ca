use crate::escaped::Escaped;
use std::fmt::{self, Display, Formatter};
use std::io::ErrorKind;

/// Why a file can't be read.
#[derive(Clone, Copy)]
pub enum Unread {
    /// There is none of this name.
    Missing,
    /// The system doesn't permit it.
    Forbidden,
    /// It is a folder.
    Folder,
    /// A part of its path, before the last, is no folder.
    NoFolder,
    /// Its name is too long for the system.
    LongName,
    /// Its symbolic links lead in a circle.
    Circle,
    /// Any other reason.
    Other,
}

impl Unread {
    /// Why a file can't be opened, by the kind of the system's error.
    pub fn of(kind: ErrorKind) -> Self {
        match kind {
            ErrorKind::NotFound => Unread::Missing,
            ErrorKind::PermissionDenied => Unread::Forbidden,
            ErrorKind::IsADirectory => Unread::Folder,
            ErrorKind::NotADirectory => Unread::NoFolder,
            ErrorKind::InvalidFilename => Unread::LongName,
            ErrorKind::FilesystemLoop => Unread::Circle,
            _ => Unread::Other,
        }
    }

    /// What follows the file's name in a line.
    fn after_name(&self) -> &'static str {
        match self {
            Unread::Missing => ": no such file",
            Unread::Forbidden => ": no permission",
            Unread::Folder => ": it is a folder",
            Unread::NoFolder => ": a part of its path is no folder",
            Unread::LongName => ": its name is too long",
            Unread::Circle => ": its symbolic links lead in a circle",
            Unread::Other => "",
        }
    }
}

/// A file that can't be read, and why. It is printed as one line without its LF.
#[derive(Clone, Copy)]
pub struct UnreadFile<'a> {
    name: &'a str,
    why: Unread,
}

impl<'a> UnreadFile<'a> {
    /// The file with this name, or standard input as `-`.
    pub fn new(name: &'a str, why: Unread) -> Self {
        UnreadFile { name, why }
    }
}

impl Display for UnreadFile<'_> {
    fn fmt<W: fmt::Write>(&self, f: &mut Formatter<W>) -> fmt::Result {
        let name = Escaped::new(self.name);
        let why = self.why.after_name();
        write!(f, "cannot read {name}{why}")
    }
}
