//! Users and groups, as the files /etc/passwd and /etc/group of the machine tell of them: what their texts say.

/// A user, or a group, by its numbers.
#[derive(Clone, Copy, PartialEq, Eq)]
pub struct Owner {
    /// The number of the user.
    pub user: u32,
    /// The number of the group, where one is named.
    pub group: Option<u32>,
}

/// The number of the user, or of the group, of this name in the text of /etc/passwd, or of /etc/group. A name of decimal
/// digits is the number itself, whether or not the text has it. None where nobody has the name.
pub fn number_of(accounts: &str, name: &str) -> Option<u32> {
    if let Ok(number) = name.parse::<u32>() {
        return Some(number);
    }
    accounts.lines().find_map(|line| number_in(line, name))
}

/// The number of the main group of a user, by the user's number, in the text of /etc/passwd.
pub fn main_group_of(users: &str, user: u32) -> Option<u32> {
    users.lines().find_map(|line| group_in(line, user))
}

/// The owner `USER`, `USER:GROUP` or `USER.GROUP`, each by name or number, in the texts of /etc/passwd and /etc/group. A
/// user whose name has a point goes before a group behind it. None where one of them is unknown.
pub fn owner_of(users: &str, groups: &str, words: &str) -> Option<Owner> {
    if let Some((user, group)) = words.split_once(':') {
        return both_of(users, groups, user, group);
    }
    if let Some(user) = number_of(users, words) {
        return Some(Owner { user, group: None });
    }
    let (user, group) = words.split_once('.')?;
    both_of(users, groups, user, group)
}

/// The owner of this user and this group.
fn both_of(users: &str, groups: &str, user: &str, group: &str) -> Option<Owner> {
    Some(Owner {
        user: number_of(users, user)?,
        group: Some(number_of(groups, group)?),
    })
}

/// The number in the line `NAME:PASSWORD:NUMBER:..` of this name.
fn number_in(line: &str, name: &str) -> Option<u32> {
    let (first, rest) = line.split_once(':')?;
    if first == name {
        number_behind(rest)
    } else {
        None
    }
}

/// The number in `PASSWORD:NUMBER:..`.
fn number_behind(rest: &str) -> Option<u32> {
    let (_password, rest) = rest.split_once(':')?;
    let (number, _) = rest.split_once(':')?;
    number.parse::<u32>().ok()
}

/// The group in the line `NAME:PASSWORD:NUMBER:GROUP:..` of the user with this number.
fn group_in(line: &str, user: u32) -> Option<u32> {
    let (_name, rest) = line.split_once(':')?;
    if number_behind(rest) == Some(user) {
        let (_password, rest) = rest.split_once(':')?;
        number_behind(rest)
    } else {
        None
    }
}
