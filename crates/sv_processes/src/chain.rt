//! The words that stand before a program's own.
ghost use Rattle.std.specs.Prelude.{◌≡◌, ◌++◌, ◌∷◌, [], IfOk, OnOk, Some, codes};
ghost use Rattle.sv_processes.specs.Chain.{exec_words, mask_words, session_words, signal_words};
ghost use Rattle.sv_processes.specs.Chain.{shell_words, su_words, user_words, words_before};
ghost use Rattle.sv_processes.specs.declared.chain.UserLink.TheVariants.{Setpriv, Su};

use std::alloc::{AllocError, Global};
use sv_base::Text;

/// Gives signals back that the daemon itself ignores.
pub struct SignalLink {
    /// The `env` that knows `--default-signal`.
    pub tool: Text,
    /// Their names, with commas between them.
    pub names: Text,
}

impl Drop for SignalLink {
    fn drop(self) {
        let Self { tool: _, names: _ } = self;
    }
}

/// Sets the mask of rights.
pub struct MaskLink {
    /// The shell.
    pub tool: Text,
    /// Octal digits.
    pub mask: Text,
}

impl Drop for MaskLink {
    fn drop(self) {
        let Self { tool: _, mask: _ } = self;
    }
}

/// Becomes another user, with the groups of that user.
pub enum UserLink {
    /// By `setpriv`: the tool, the user's name, the number of its first group.
    Setpriv { tool: Text, name: Text, group: u32 },
    /// By the `su` of busybox, which becomes the program as `setpriv` does: the tool, the user's name.
    Su { tool: Text, name: Text },
}

impl Drop for UserLink {
    fn drop(self) {
        match self {
            Self::Setpriv {
                tool: _,
                name: _,
                group: _,
            } => {}
            Self::Su { tool: _, name: _ } => {}
        }
    }
}

/// What stands between the daemon and a program: each link is a small program of the system that does one thing and then
/// becomes the next, so that no process stays behind and the number is the program's.
pub struct Links {
    /// What gives ignored signals back.
    pub signals: Option<SignalLink>,
    /// The `setsid` that makes the program the leader of a session and group of its own.
    pub session: Option<Text>,
    /// What becomes the user.
    pub user: Option<UserLink>,
    /// What sets the mask of rights.
    pub mask: Option<MaskLink>,
}

impl Drop for Links {
    fn drop(self) {
        let Self {
            signals: _,
            session: _,
            user: _,
            mask: _,
        } = self;
    }
}

/// The words before a program's own: those of each link that there is, in the links' order.
pub fn words_before(alloc: Global, links: &Links) -> Result<Vec<Text>, AllocError>
    ensures { IfOk result (λ words. words.items ≡ words_before links.now) }
{
    let mut words = Vec::new(alloc);
    add_signals(alloc, &mut words, &links.signals)?;
    add_session(&mut words, &links.session)?;
    add_user(alloc, &mut words, &links.user)?;
    add_mask(alloc, &mut words, &links.mask)?;
    Ok(words)
}

fn add_signals(
    alloc: Global,
    words: &mut Vec<Text>,
    link: &Option<SignalLink>,
) -> Result<(), AllocError>
    ensures { OnOk result (words.new.items ≡ words.old.items ++ signal_words link.now) }
{
    match link {
        None => Ok(()),
        Some(link) => add_names(alloc, words, &link.tool, link.names.as_str()),
    }
}

fn add_names(
    alloc: Global,
    words: &mut Vec<Text>,
    tool: &Text,
    names: &str,
) -> Result<(), AllocError>
    ensures { OnOk result (words.new.items ≡ words.old.items
        ++ tool.now ∷ (codes "--default-signal=" ++ names.now) ∷ []) }
{
    words.push(tool.clone()?)?;
    words.push(Text::from_string(format!(in alloc; "--default-signal={names}")?))?;
    Ok(())
}

fn add_session(words: &mut Vec<Text>, tool: &Option<Text>) -> Result<(), AllocError>
    ensures { OnOk result (words.new.items ≡ words.old.items ++ session_words tool.now) }
{
    if let Some(tool) = tool {
        words.push(tool.clone()?)?;
        words.push(Text::fixed("--"))?;
    }
    Ok(())
}

fn add_user(alloc: Global, words: &mut Vec<Text>, link: &Option<UserLink>) -> Result<(), AllocError>
    ensures { OnOk result (words.new.items ≡ words.old.items ++ user_words link.now) }
{
    match link {
        None => Ok(()),
        Some(UserLink::Setpriv { tool, name, group }) => {
            add_setpriv(alloc, words, tool, name.as_str(), *group)
        }
        Some(UserLink::Su { tool, name }) => add_su(words, tool, name),
    }
}

fn add_setpriv(
    alloc: Global,
    words: &mut Vec<Text>,
    tool: &Text,
    name: &str,
    group: u32,
) -> Result<(), AllocError>
    ensures { OnOk result (words.new.items
        ≡ words.old.items ++ user_words (Some (Setpriv tool.now name.now group))) }
{
    words.push(tool.clone()?)?;
    words.push(Text::from_string(format!(in alloc; "--reuid={name}")?))?;
    words.push(Text::from_string(format!(in alloc; "--regid={group}")?))?;
    words.push(Text::fixed("--init-groups"))?;
    words.push(Text::fixed("--"))?;
    Ok(())
}

fn add_su(words: &mut Vec<Text>, tool: &Text, name: &Text) -> Result<(), AllocError>
    ensures { OnOk result (words.new.items
        ≡ words.old.items ++ user_words (Some (Su tool.now name.now))) }
{
    add_su_start(words, tool)?;
    add_shell(words)?;
    add_copy(words, name)?;
    add_exec(words)
}

fn add_su_start(words: &mut Vec<Text>, tool: &Text) -> Result<(), AllocError>
    ensures { OnOk result (words.new.items ≡ words.old.items ++ su_words tool.now) }
{
    words.push(tool.clone()?)?;
    words.push(Text::fixed("-p"))?;
    Ok(())
}

fn add_shell(words: &mut Vec<Text>) -> Result<(), AllocError>
    ensures { OnOk result (words.new.items ≡ words.old.items ++ shell_words) }
{
    words.push(Text::fixed("-s"))?;
    words.push(Text::fixed("/bin/sh"))?;
    Ok(())
}

fn add_copy(words: &mut Vec<Text>, word: &Text) -> Result<(), AllocError>
    ensures { OnOk result (words.new.items ≡ words.old.items ++ word.now ∷ []) }
{
    words.push(word.clone()?)?;
    Ok(())
}

/// Adds the words by which a shell becomes what the words behind it name.
fn add_exec(words: &mut Vec<Text>) -> Result<(), AllocError>
    ensures { OnOk result (words.new.items ≡ words.old.items ++ exec_words) }
{
    words.push(Text::fixed("-c"))?;
    words.push(Text::fixed("exec \"$@\""))?;
    words.push(Text::fixed("sh"))?;
    Ok(())
}

fn add_mask(alloc: Global, words: &mut Vec<Text>, link: &Option<MaskLink>) -> Result<(), AllocError>
    ensures { OnOk result (words.new.items ≡ words.old.items ++ mask_words link.now) }
{
    match link {
        None => Ok(()),
        Some(link) => add_mask_by(alloc, words, &link.tool, link.mask.as_str()),
    }
}

fn add_mask_by(
    alloc: Global,
    words: &mut Vec<Text>,
    tool: &Text,
    mask: &str,
) -> Result<(), AllocError>
    ensures { OnOk result (words.new.items ≡ words.old.items
        ++ tool.now ∷ codes "-c" ∷ (codes "umask " ++ mask.now ++ codes "; exec \"$@\"")
        ∷ codes "sh" ∷ []) }
{
    words.push(tool.clone()?)?;
    words.push(Text::fixed("-c"))?;
    words.push(Text::from_string(format!(in alloc; "umask {mask}; exec \"$@\"")?))?;
    words.push(Text::fixed("sh"))?;
    Ok(())
}
