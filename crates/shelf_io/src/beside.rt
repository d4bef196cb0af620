//! A file that is made under a name of its own, beside the name that it takes once it is whole.

use std::alloc::{AllocError, Global};
use std::fs::{Metadata, OpenFile, OpenOptions, Permissions};
use std::io::{ErrorKind, Write};
use std::os::unix::fs::{MetadataExt, OpenOptionsExt, PermissionsExt};
use std::rt::Files;
use std::{fs, io};

/// How many bytes a name has room for. The system refuses longer ones.
const ROOM: usize = 4096;

/// How many names of its own a file is tried under. Runs that were killed leave theirs.
const MOST_TRIES: u32 = 10_000;

/// The permissions with which a file is made whose name is free, less those that the system's mask takes away.
const USUAL: u32 = 0o666;

/// Those with which a file is made over another: nobody but its owner may open it before it has its own.
const PRIVATE: u32 = 0o600;

/// The permissions that a file takes over from the one that it replaces. The bits set-user-id and set-group-id are none
/// of them.
const TAKEN_OVER: u32 = 0o1777;

/// The permissions of all but a file's group.
const WITHOUT_GROUP: u32 = 0o1707;

/// The names of a file that is made beside another.
#[derive(Drop)]
pub(crate) struct Names {
    /// Where the file is made.
    own: String,
    /// The name that it takes.
    taken: String,
}

impl Names {
    /// No names, and room for two.
    pub(crate) fn new(alloc: Global) -> Result<Self, AllocError> {
        Ok(Names {
            own: String::with_capacity(alloc, ROOM)?,
            taken: String::with_capacity(alloc, ROOM)?,
        })
    }

    /// A new file beside this name.
    pub(crate) fn open<R: Files>(&mut self, rt: &R, name: &str) -> io::Result<R::File> {
        self.open_with(rt, name, USUAL)
    }

    /// A new file beside this name, made with these permissions.
    fn open_with<R: Files>(&mut self, rt: &R, name: &str, mode: u32) -> io::Result<R::File> {
        self.taken.clear();
        self.taken.push_str(name)?;
        let mut how = OpenOptions::new();
        how.write(true).create_new(true).mode(mode);
        for number in 0..MOST_TRIES {
            self.write_own(number)?;
            match how.open(rt, self.own.as_str()) {
                Err(fault) if fault.kind() == ErrorKind::AlreadyExists => {}
                answer => return answer,
            }
        }
        Err(io::Error::from(ErrorKind::AlreadyExists))
    }

    /// A new file beside the regular file of this name, which takes over what is said of that one:
    /// owner, group and permissions. Where the name is a link, that is the file that it leads to.
    pub(crate) fn open_over<R: Files>(
        &mut self,
        rt: &R,
        alloc: Global,
        name: &str,
        there: &Metadata,
    ) -> io::Result<R::File> {
        let file = if fs::symlink_metadata(rt, name)?.is_symlink() {
            let path = rt.canonicalize(alloc, name)?;
            self.open_with(rt, path.as_str(), PRIVATE)?
        } else {
            self.open_with(rt, name, PRIVATE)?
        };
        match self.take_over(rt, &file, there) {
            Ok(()) => Ok(file),
            Err(fault) => {
                self.remove(rt);
                Err(fault)
            }
        }
    }

    /// Gives the file the owner and the group of the one that it replaces, or the group alone, where
    /// the system allows it, and then the permissions, without those of a group that it did not get.
    fn take_over<R: Files>(&self, rt: &R, file: &R::File, there: &Metadata) -> io::Result<()> {
        let group = Some(there.gid());
        let has_group = rt
            .lchown(self.own.as_str(), Some(there.uid()), group)
            .is_ok()
            || rt.lchown(self.own.as_str(), None, group).is_ok();
        let kept = if has_group { TAKEN_OVER } else { WITHOUT_GROUP };
        file.set_permissions(Permissions::from_mode(there.mode() & kept))
    }

    /// Brings the file to the disk and gives it the name that it takes, in place of what had it.
    pub(crate) fn place<R: Files>(&self, rt: &R, file: R::File) -> io::Result<()> {
        let placed = match store(file) {
            Ok(()) => fs::rename(rt, self.own.as_str(), self.taken.as_str()),
            Err(fault) => Err(fault),
        };
        match placed {
            Ok(()) => store_folder(rt, self.taken.as_str()),
            Err(_) => self.remove(rt),
        }
        placed
    }

    /// Removes the file, which has not taken its name. A failure of this changes nothing.
    pub(crate) fn remove<R: Files>(&self, rt: &R) {
        let _ = fs::remove_file(rt, self.own.as_str());
    }

    /// Writes the name of this number in the folder of the name that is to be taken.
    fn write_own(&mut self, number: u32) -> Result<(), AllocError> {
        self.own.clear();
        if let Some((folder, _)) = self.taken.rsplit_once('/') {
            self.own.push_str(folder)?;
            self.own.push_str("/")?;
        }
        write!(self.own, ".tinmove-{number}.part")
    }
}

/// Brings a file to the disk, and lets it go.
fn store<F: OpenFile + Write + Drop>(mut file: F) -> io::Result<()> {
    file.flush()?;
    file.sync_all()
}

/// Brings the folder of the file of this name to the disk, so that the name is there after a loss of power. That
/// changes nothing where the system does not do so with folders.
fn store_folder<R: Files>(rt: &R, name: &str) {
    let folder = match name.rsplit_once('/') {
        Some(("", _)) => "/",
        Some((folder, _)) => folder,
        None => ".",
    };
    if let Ok(folder) = fs::open(rt, folder) {
        let _ = folder.sync_all();
    }
}
