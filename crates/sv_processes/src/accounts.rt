//! The users of the machine.

use crate::tools::Tools;
use std::alloc::{AllocError, Global};
use std::process::{Command, Processes, Stdio};
use std::rt::Files;
use std::{fs, str};
use sv_base::Text;

/// Where the system keeps its users.
const USERS: &str = "/etc/passwd";

/// A user of the machine.
pub struct Account {
    pub name: Text,
    /// Its number.
    pub user: u32,
    /// The number of its first group.
    pub group: u32,
}

impl Drop for Account {
    fn drop(self) {
        let Self {
            name: _,
            user: _,
            group: _,
        } = self;
    }
}

/// The user of this name or number, by the file of users, else by `getent`, which knows other sources.
pub(crate) fn account_of<R: Processes + Files>(
    rt: &R,
    alloc: Global,
    tools: &Tools,
    wanted: &str,
) -> Result<Option<Account>, AllocError> {
    if let Ok(text) = fs::read_to_string(&(rt, alloc), USERS) {
        if let Some(account) = account_in(alloc, text.as_str(), wanted)? {
            return Ok(Some(account));
        }
    }
    match &tools.getent {
        Some(tool) => asked(rt, alloc, tool.as_str(), wanted),
        None => Ok(None),
    }
}

/// The user that `getent` tells.
fn asked<R: Processes>(
    rt: &R,
    alloc: Global,
    tool: &str,
    wanted: &str,
) -> Result<Option<Account>, AllocError> {
    let mut command = Command::new(alloc, tool)?;
    command.arg("passwd")?.arg("--")?.arg(wanted)?;
    command.stdin(Stdio::null()).stderr(Stdio::null());
    let Ok(output) = command.output(rt) else {
        return Ok(None);
    };
    match str::from_utf8(output.stdout.as_slice()) {
        Ok(text) => account_in(alloc, text, wanted),
        Err(_) => Ok(None),
    }
}

/// The first user of these lines that has this name, or where it is a number this number. A line is `NAME:x:USER:GROUP:..`;
/// one of another form is passed over.
pub fn account_in(alloc: Global, text: &str, wanted: &str) -> Result<Option<Account>, AllocError> {
    for line in text.lines() {
        if let Some((name, user, group)) = fields_of(line) {
            if name == wanted || wanted.parse::<u32>().ok() == Some(user) {
                let name = Text::from_str(alloc, name)?;
                return Ok(Some(Account { name, user, group }));
            }
        }
    }
    Ok(None)
}

/// The name, the number and the group's number of a line.
fn fields_of(line: &str) -> Option<(&str, u32, u32)> {
    let mut fields = line.split(':');
    let name = fields.next()?;
    let user = fields.nth(1)?.parse::<u32>().ok()?;
    let group = fields.next()?.parse::<u32>().ok()?;
    Some((name, user, group))
}

/// A line for each of these users whom nobody knows, which says that its programs can't be started.
pub fn unknown_users<R: Processes + Files>(
    rt: &R,
    alloc: Global,
    users: &[Text],
) -> Result<Vec<String>, AllocError> {
    let tools = Tools::find(rt, alloc)?;
    let mut lines = Vec::new(alloc);
    for user in users {
        let user = user.as_str();
        if !user.is_empty() && account_of(rt, alloc, &tools, user)?.is_none() {
            lines.push(format!(in alloc;
                "user {user}: there is no such user; its programs can't be started; correct user= or add the user"
            )?)?;
        }
    }
    Ok(lines)
}
