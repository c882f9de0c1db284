//! The users of a configuration, looked at before anything starts.

use crate::told::Told;
use std::alloc::{AllocError, Global};
use std::process::Processes;
use std::rt::Files;
use std::sync::Wait;
use sv_base::Text;
use sv_processes::unknown_users;
use sv_standard::Teller;

/// Tells of each user whom nobody knows, for the daemon itself and for programs, whose starts will be refused.
pub fn tell_unknown<R: Processes + Files + Wait + Copy>(
    rt: &R,
    alloc: Global,
    told: &Told,
    launched: bool,
    teller: &Teller<R>,
) -> Result<(), AllocError> {
    let users = users_of(alloc, told, launched)?;
    for line in unknown_users(rt, alloc, users.as_slice())? {
        teller.tell(alloc, line.as_str());
    }
    Ok(())
}

/// The users of a configuration, each once.
fn users_of(alloc: Global, told: &Told, launched: bool) -> Result<Vec<Text>, AllocError> {
    let mut users: Vec<Text> = Vec::new(alloc);
    if !launched {
        add_user(&mut users, &told.settings.user)?;
    }
    for group in told.config.groups.as_slice() {
        for spec in group.members.as_slice() {
            add_user(&mut users, &spec.user)?;
        }
    }
    Ok(users)
}

fn add_user(users: &mut Vec<Text>, user: &Text) -> Result<(), AllocError> {
    if !users.iter().any(|known| known == user) {
        users.push(user.clone()?)?;
    }
    Ok(())
}
