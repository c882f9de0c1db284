//! The file of a Unix socket: of one daemon alone, with its rights before anybody can connect, and removed by who made it.

use crate::refused::OpenFault;
use libc::net::listen;
use std::alloc::Global;
use std::fs::{File, OpenFile, OpenOptions, Permissions, TryLockError};
use std::io::ErrorKind;
use std::net::Net;
use std::os::fd::{AsFd, AsRawFd, OwnedFd};
use std::os::unix::fs::{FileTypeExt, MetadataExt, OpenOptionsExt, PermissionsExt, chown};
use std::os::unix::net::{SocketAddr, UnixListener, UnixStream};
use std::rt::Files;
use std::{fs, io};
use sv_base::Text;
use sv_os::owner_of;

/// How many connections may wait to be accepted.
const BACKLOG: i32 = 128;

/// How often the file of the lock is opened anew where its holder removed it meanwhile.
const TRIES: u32 = 10;

/// The rights of a socket's file where none are given.
const PRIVATE: u32 = 0o700;

/// What the file of a socket is to be.
#[derive(Clone, Copy)]
pub struct SocketRules {
    /// Its rights, whatever the mask of the process is.
    pub mode: u32,
    /// The numbers of the user that it is to belong to, and of the group; whose it is by itself where there is none.
    pub owner: Option<(u32, Option<u32>)>,
}

impl SocketRules {
    /// For its own user alone, whoever that is.
    pub fn private() -> SocketRules {
        SocketRules {
            mode: PRIVATE,
            owner: None,
        }
    }
}

/// The rules by a server's keys `chmod`, as the number that it stands for, and `chown`, which is empty where it isn't set:
/// `USER`, `USER:GROUP` or `USER.GROUP`, by names or numbers. The names are those of the machine's own files of accounts.
pub fn socket_rules<R: Files + AllocGlobal>(
    rt: &R,
    mode: Option<u32>,
    words: &str,
) -> Result<SocketRules, OpenFault> {
    let mode = mode.unwrap_or(PRIVATE);
    if words.is_empty() {
        return Ok(SocketRules { mode, owner: None });
    }
    let users = fs::read_to_string(rt, "/etc/passwd").unwrap_or(String::new(rt.alloc()));
    let groups = fs::read_to_string(rt, "/etc/group").unwrap_or(String::new(rt.alloc()));
    match owner_of(users.as_str(), groups.as_str(), words) {
        Some(owner) => Ok(SocketRules {
            mode,
            owner: Some((owner.user, owner.group)),
        }),
        None => Err(OpenFault::NoOwner),
    }
}

/// The file of a socket that this process made, and the lock beside it, which it holds as long as this lives: no other
/// daemon opens the path meanwhile, also where the socket's file is gone.
pub struct OwnSocket {
    path: Text,
    lock_path: Text,
    device: u64,
    number: u64,
    lock: File,
}

impl Drop for OwnSocket {
    fn drop(self) {
        let Self {
            path: _,
            lock_path: _,
            device: _,
            number: _,
            lock: _,
        } = self;
    }
}

impl OwnSocket {
    /// Removes the socket's file, unless another one stands there by now, and then the lock's, which is still held: who
    /// opened that one before sees, once it has the lock, that the file is no longer the one at the path. What can't be
    /// removed stays.
    pub fn remove<R: Files>(self, rt: &R) {
        if let Ok(found) = fs::symlink_metadata(rt, self.path.as_str()) {
            if found.dev() == self.device && found.ino() == self.number {
                let _ = fs::remove_file(rt, self.path.as_str());
            }
        }
        let _ = fs::remove_file(rt, self.lock_path.as_str());
    }
}

/// Opens a socket's path for the process of this number. A socket file at which nobody accepts is replaced; no other file
/// is. Of two processes at the same instant one alone gets it, by a lock on a file `PATH.lock`. The socket is made as
/// `PATH.PID`, gets its rights and its owner, accepts, and has its own name only then.
pub(crate) fn open_socket<R: Net + Files<File = File>>(
    rt: &R,
    alloc: Global,
    path: &str,
    rules: &SocketRules,
    pid: u32,
) -> Result<(UnixListener, OwnSocket), OpenFault> {
    let lock_path = format!(in alloc; "{path}.lock")?;
    let lock = locked_at(rt, lock_path.as_str())?;
    let name = format!(in alloc; "{path}.{pid}")?;
    let made = placed_socket(rt, name.as_str(), path, rules);
    if made.is_err() {
        let _ = fs::remove_file(rt, lock_path.as_str());
    }
    let listener = made?;
    let found = fs::symlink_metadata(rt, path)?;
    let socket = OwnSocket {
        path: Text::from_str(alloc, path)?,
        lock_path: Text::from_string(lock_path),
        device: found.dev(),
        number: found.ino(),
        lock,
    };
    Ok((listener, socket))
}

/// The file of the lock, which this process holds from now on.
fn locked_at<R: Files<File = File>>(rt: &R, lock_path: &str) -> Result<File, OpenFault> {
    for _ in 0..TRIES {
        let file = lock_file(rt, lock_path)?;
        match file.try_lock() {
            Ok(()) => {}
            Err(TryLockError::WouldBlock) => return Err(OpenFault::InUse),
            Err(TryLockError::Error(error)) => return Err(OpenFault::System(error)),
        }
        if is_at(rt, lock_path, &file) {
            return Ok(file);
        }
    }
    Err(OpenFault::InUse)
}

/// Opens the file of the lock, or makes it. It opens no other kind of file, which might wait, and goes through no link.
fn lock_file<R: Files<File = File>>(rt: &R, lock_path: &str) -> Result<File, OpenFault> {
    if let Ok(found) = fs::symlink_metadata(rt, lock_path) {
        if !found.is_file() {
            return Err(OpenFault::NoLock);
        }
    }
    match OpenOptions::new().append(true).open(rt, lock_path) {
        Err(error) if error.kind() == ErrorKind::NotFound => new_lock_file(rt, lock_path),
        answer => Ok(answer?),
    }
}

fn new_lock_file<R: Files<File = File>>(rt: &R, lock_path: &str) -> Result<File, OpenFault> {
    let made = OpenOptions::new()
        .append(true)
        .create_new(true)
        .mode(0o600)
        .open(rt, lock_path);
    match made {
        Ok(file) => Ok(file),
        Err(error) if error.kind() == ErrorKind::AlreadyExists => {
            Ok(OpenOptions::new().append(true).open(rt, lock_path)?)
        }
        Err(error) if error.kind() == ErrorKind::NotFound => Err(OpenFault::NoDirectory),
        Err(error) => Err(OpenFault::System(error)),
    }
}

/// Whether the file at this path, which is a plain one, is the one that is open.
fn is_at<R: Files>(rt: &R, path: &str, file: &File) -> bool {
    match (fs::symlink_metadata(rt, path), OpenFile::metadata(file)) {
        (Ok(found), Ok(opened)) => {
            found.is_file() && found.dev() == opened.dev() && found.ino() == opened.ino()
        }
        _ => false,
    }
}

/// A socket that accepts at this path, where nobody does yet. It is made under another name first.
fn placed_socket<R: Net + Files>(
    rt: &R,
    name: &str,
    path: &str,
    rules: &SocketRules,
) -> Result<UnixListener, OpenFault> {
    judge_path(rt, path)?;
    let made = named_socket(rt, name, rules).and_then(|listener| {
        fs::rename(rt, name, path)?;
        Ok(listener)
    });
    if made.is_err() {
        remove_socket(rt, name);
    }
    made
}

/// Removes a socket's file, and no other.
fn remove_socket<R: Files>(rt: &R, name: &str) {
    if let Ok(found) = fs::symlink_metadata(rt, name) {
        if found.file_type().is_socket() {
            let _ = fs::remove_file(rt, name);
        }
    }
}

/// Nothing where the path may be taken: there is no file, or a socket's at which nobody accepts.
fn judge_path<R: Net + Files>(rt: &R, path: &str) -> Result<(), OpenFault> {
    match fs::symlink_metadata(rt, path) {
        Ok(found) if found.file_type().is_socket() => judge_socket(rt, path),
        Ok(_) => Err(OpenFault::NoSocket),
        Err(error) if error.kind() == ErrorKind::NotFound => Ok(()),
        Err(error) => Err(OpenFault::from(error)),
    }
}

/// Nothing where nobody accepts at this socket's file.
fn judge_socket<R: Net>(rt: &R, path: &str) -> Result<(), OpenFault> {
    match UnixStream::connect(rt, path) {
        Ok(_) => Err(OpenFault::InUse),
        Err(error) => match error.kind() {
            ErrorKind::ConnectionRefused | ErrorKind::NotFound => Ok(()),
            ErrorKind::WouldBlock => Err(OpenFault::InUse),
            _ => Err(OpenFault::from(error)),
        },
    }
}

/// A socket that accepts at a file of this name. It has its rights and its owner before it accepts.
fn named_socket<R: Net + Files>(
    rt: &R,
    name: &str,
    rules: &SocketRules,
) -> Result<UnixListener, OpenFault> {
    remove_socket(rt, name);
    let socket = rt.unix_socket()?;
    rt.bind_unix(socket.as_fd(), &SocketAddr::from_pathname(name)?)?;
    set_rules(rt, name, rules)?;
    Ok(accepting(socket)?)
}

/// Gives the file its owner and its rights, in this order, since a change of the owner may take rights away.
fn set_rules<R: Files>(rt: &R, name: &str, rules: &SocketRules) -> Result<(), OpenFault> {
    if let Some((user, group)) = rules.owner {
        if let Err(error) = chown(rt, name, Some(user), group) {
            return Err(OpenFault::Owner(error));
        }
    }
    Ok(fs::set_permissions(rt, name, Permissions::from_mode(rules.mode))?)
}

/// Lets a socket accept that has its name.
fn accepting(socket: OwnedFd) -> io::Result<UnixListener> {
    if listen(socket.as_raw_fd(), BACKLOG) == 0 {
        Ok(UnixListener::from(socket))
    } else {
        Err(io::Error::from(ErrorKind::Other))
    }
}
