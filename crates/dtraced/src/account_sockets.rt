//! How a service makes its sockets, so that nobody but the user who runs it can connect to one before that user lets others.

use crate::fault::Fault;
use dt_machine::Machine;
use dt_names::Name;
use dt_server::AccountSocket;
use std::fs::{DirBuilder, Permissions};
use std::net::Net;
use std::os::unix::fs::{DirBuilderExt, MetadataExt, PermissionsExt};
use std::os::unix::net::UnixListener;
use std::rt::Files;
use std::{fs, io};

/// Who may connect to a new socket: the user who runs the service alone.
const OWNER_ALONE: u32 = 0o600;

/// Who may enter the folder in which sockets are made: that user alone.
const OWNER_ENTERS: u32 = 0o700;

/// The folder in which sockets are made, in the folder of the sockets. It is there only while they are.
const MAKING: &str = ".new";

/// Where sockets are made. A socket listens from the moment that it has a path, and its mode is then what the process's umask leaves: so it
/// gets its first path where nobody else may enter, and the one that clients use once its mode is right.
#[derive(Drop)]
struct Making {
    folder: String,
}

/// What stands at a path, by its device and its number there.
#[derive(Clone, Copy, PartialEq, Eq)]
struct NodeId {
    device: u64,
    number: u64,
}

impl NodeId {
    /// What stands at a path now.
    fn at<R: Files>(rt: &R, path: &str) -> io::Result<NodeId> {
        let found = fs::symlink_metadata(rt, path)?;
        Ok(NodeId {
            device: found.dev(),
            number: found.ino(),
        })
    }
}

/// The path of a socket that was made.
#[derive(Drop)]
pub(crate) struct MadePath {
    path: String,
    socket: NodeId,
}

impl MadePath {
    /// Removes the path, if the socket still stands there: it may be somebody else's by now.
    pub(crate) fn remove<R: Files>(&self, rt: &R) {
        let path = self.path.as_str();
        if let Ok(found) = NodeId::at(rt, path) {
            if found == self.socket {
                let _removed = fs::remove_file(rt, path);
            }
        }
    }
}

/// The path of an account's socket in a folder.
fn path_of<R: AllocGlobal>(rt: &R, folder: &str, name: Name) -> Result<String, Fault> {
    format!(in rt.alloc(); "{folder}/{}.sock", name.as_str()).map_err(|_| Fault::Device)
}

/// Makes a socket for each account of the machine, in the folder, and adds their paths.
///
/// [`Fault::Device`]: a path is there already or is too long, the folder has no name or can't be written, or there was no memory. The paths that were added have
/// sockets then, and no other path was made that stays.
pub(crate) fn make_sockets<R: Files + Net + AllocGlobal>(
    rt: &R,
    machine: &Machine,
    folder: &str,
    paths: &mut Vec<MadePath>,
) -> Result<Vec<AccountSocket>, Fault> {
    // no folder has an empty name, and a path in one would be a path of the root's
    if folder.is_empty() {
        return Err(Fault::Device);
    }
    let making = Making::new(rt, folder)?;
    let made = making.make_all(rt, machine, folder, paths);
    let removed = fs::remove_dir(rt, making.folder.as_str());
    let sockets = made?;
    removed.map_err(|_| Fault::Device)?;
    Ok(sockets)
}

impl Making {
    /// Makes the folder, which must not be there.
    fn new<R: Files + AllocGlobal>(rt: &R, sockets: &str) -> Result<Making, Fault> {
        let Ok(folder) = format!(in rt.alloc(); "{sockets}/{MAKING}") else {
            return Err(Fault::Device);
        };
        let mut builder = DirBuilder::new();
        builder.mode(OWNER_ENTERS);
        match builder.create(rt, folder.as_str()) {
            Ok(()) => Ok(Making { folder }),
            Err(_) => Err(Fault::Device),
        }
    }

    /// Makes the sockets of all accounts.
    fn make_all<R: Files + Net + AllocGlobal>(
        &self,
        rt: &R,
        machine: &Machine,
        folder: &str,
        paths: &mut Vec<MadePath>,
    ) -> Result<Vec<AccountSocket>, Fault> {
        let mut sockets = Vec::new(rt.alloc());
        for account in machine.accounts() {
            let socket = self.make_for(rt, folder, account.name, paths)?;
            sockets.push(socket).map_err(|_| Fault::Device)?;
        }
        Ok(sockets)
    }

    /// Makes the socket of an account, whose path is added.
    fn make_for<R: Files + Net + AllocGlobal>(
        &self,
        rt: &R,
        folder: &str,
        name: Name,
        paths: &mut Vec<MadePath>,
    ) -> Result<AccountSocket, Fault> {
        let made = path_of(rt, self.folder.as_str(), name)?;
        let path = path_of(rt, folder, name)?;
        // all room is made first, so that no path is made that isn't noted down
        paths.reserve(1).map_err(|_| Fault::Device)?;
        let Ok((listener, socket)) = make_at(rt, made.as_str(), path.as_str()) else {
            return Err(Fault::Device);
        };
        paths.push_reserved(MadePath { path, socket });
        Ok(AccountSocket { name, listener })
    }
}

/// Makes a socket, first at a path that nobody else can reach, and then at its own, which must not be there.
fn make_at<R: Files + Net>(rt: &R, made: &str, path: &str) -> io::Result<(UnixListener, NodeId)> {
    let listener = UnixListener::bind(rt, made)?;
    let named = name_as(rt, made, path);
    // it has its own path now, or none; where the first one stays, the folder can't be removed, and that is told
    let _removed = fs::remove_file(rt, made);
    Ok((listener, named?))
}

/// Gives a socket that was made its mode, and then its own path.
fn name_as<R: Files>(rt: &R, made: &str, path: &str) -> io::Result<NodeId> {
    fs::set_permissions(rt, made, Permissions::from_mode(OWNER_ALONE))?;
    let socket = NodeId::at(rt, made)?;
    fs::hard_link(rt, made, path)?;
    Ok(socket)
}
