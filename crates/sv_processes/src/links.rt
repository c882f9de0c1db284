//! Which links stand before a program.

use crate::accounts::account_of;
use crate::chain::{Links, MaskLink, SignalLink, UserLink};
use crate::ends::refused;
use crate::state::ProcessState;
use crate::tools::Tools;
use std::alloc::{AllocError, Global};
use std::process::Processes;
use std::rt::Files;
use std::sync::Wait;
use sv_base::Text;
use sv_outside::SpawnFault;
use sv_standard::Teller;

/// What this process and the system's tools are, as they were found once.
pub(crate) struct Ground {
    pub(crate) state: ProcessState,
    pub(crate) tools: Tools,
    /// The signals that are given back, with commas between them.
    pub(crate) given_back: Text,
}

impl Drop for Ground {
    fn drop(self) {
        let Self {
            state: _,
            tools: _,
            given_back: _,
        } = self;
    }
}

impl Ground {
    /// As it is now.
    pub(crate) fn find<R: Files>(rt: &R, alloc: Global) -> Result<Ground, AllocError> {
        let state = ProcessState::of_self(rt, alloc)?;
        let given_back = Text::from_string(state.given_back(alloc)?);
        Ok(Ground {
            state,
            tools: Tools::find(rt, alloc)?,
            given_back,
        })
    }

    /// Tells what doesn't work on this machine.
    pub(crate) fn tell_lacks<R: Wait + Copy>(&self, alloc: Global, teller: &Teller<R>) {
        let ignores = !self.given_back.as_str().is_empty();
        for line in self.tools.lacks(self.state.user == 0, ignores) {
            if let Some(line) = line {
                teller.tell(alloc, line);
            }
        }
    }

    /// The links before a program of this user and this mask, each empty where it is the daemon's own.
    pub(crate) fn links<R: Processes + Files>(
        &self,
        rt: &R,
        alloc: Global,
        user: &str,
        mask: &str,
    ) -> Result<Links, SpawnFault> {
        let user = self.user_link(rt, alloc, user)?;
        let mask = self.mask_link(alloc, mask)?;
        Ok(Links {
            signals: self.signal_link()?,
            session: self.tools.setsid.clone()?,
            user,
            mask,
        })
    }

    fn signal_link(&self) -> Result<Option<SignalLink>, AllocError> {
        match &self.tools.env {
            Some(tool) if !self.given_back.as_str().is_empty() => Ok(Some(SignalLink {
                tool: tool.clone()?,
                names: self.given_back.clone()?,
            })),
            _ => Ok(None),
        }
    }

    /// What sets this mask; nothing where the daemon has the same one.
    fn mask_link(&self, alloc: Global, mask: &str) -> Result<Option<MaskLink>, SpawnFault> {
        if mask.is_empty() || self.state.mask.is_some() && self.state.mask == mask_of(mask) {
            return Ok(None);
        }
        let Some(tool) = &self.tools.shell else {
            return Err(refused(format!(in alloc; "can't set umask {mask}: there is no sh")?));
        };
        Ok(Some(MaskLink {
            tool: tool.clone()?,
            mask: Text::from_str(alloc, last_three(mask))?,
        }))
    }

    /// What becomes this user; nothing where the daemon runs as it.
    fn user_link<R: Processes + Files>(
        &self,
        rt: &R,
        alloc: Global,
        user: &str,
    ) -> Result<Option<UserLink>, SpawnFault> {
        if user.is_empty() {
            return Ok(None);
        }
        let Some(account) = account_of(rt, alloc, &self.tools, user)? else {
            return Err(refused(format!(in alloc;
                "can't become user {user}: there is no such user"
            )?));
        };
        if account.user == self.state.user {
            return Ok(None);
        }
        if self.state.user != 0 {
            return Err(refused(format!(in alloc;
                "can't become user {user}: the daemon isn't root"
            )?));
        }
        let name = account.name.clone()?;
        match (&self.tools.setpriv, &self.tools.su) {
            (Some(tool), _) => Ok(Some(UserLink::Setpriv {
                tool: tool.clone()?,
                name,
                group: account.group,
            })),
            (None, Some(tool)) => Ok(Some(UserLink::Su {
                tool: tool.clone()?,
                name,
            })),
            (None, None) => Err(refused(format!(in alloc;
                "can't become user {user}: there is no setpriv"
            )?)),
        }
    }
}

/// The rights that a mask of octal digits takes away.
fn mask_of(mask: &str) -> Option<u32> {
    u32::from_str_radix(last_three(mask), 8).ok()
}

/// The last three digits of a mask, beyond which there are no rights.
fn last_three(mask: &str) -> &str {
    mask.get(mask.len().saturating_sub(3)..).unwrap_or(mask)
}
