use std::fs::{Files, Metadata};
use std::io::{Error, ErrorKind};
use std::os::unix::fs::MetadataExt;
use std::{fs, io};

/// What stands at a path. A link stands for itself.
#[derive(Clone, Copy, Debug, PartialEq, Eq)]
pub enum Stands {
    Nothing,
    Folder,
    /// A plain file of so many bytes, which has so many names.
    File { len: u64, names: u64 },
    /// A symbolic link.
    Link,
    /// A socket, a pipe or a device.
    Other,
}

impl From<Metadata> for Stands {
    fn from(found: Metadata) -> Stands {
        if found.is_file() {
            Stands::File {
                len: found.len(),
                names: found.nlink(),
            }
        } else if found.is_dir() {
            Stands::Folder
        } else if found.is_symlink() {
            Stands::Link
        } else {
            Stands::Other
        }
    }
}

/// Looks at what stands at a path. Nothing does where a part on the way is absent or no folder.
pub fn look<R: Files>(rt: &R, path: &str) -> io::Result<Stands> {
    match fs::symlink_metadata(rt, path) {
        Ok(found) => Ok(Stands::from(found)),
        Err(error) if is_absent(&error) => Ok(Stands::Nothing),
        Err(error) => Err(error),
    }
}

/// Whether a call failed since nothing stands at its path.
pub fn is_absent(error: &Error) -> bool {
    matches!(error.kind(), ErrorKind::NotFound | ErrorKind::NotADirectory)
}
