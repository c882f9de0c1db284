//! A list of the children that were looked at.
ghost use Rattle.std.specs.Prelude.{◌≡◌, ◌≤◌, [], IfOk, length, vec_capacity};

use crate::row::Rows;
use std::alloc::{AllocError, Global};
use sv_base::ChildId;

/// The children that were looked at, in their order, as many as there is room for; and how often one was looked at.
#[derive(Drop)]
pub struct Looked {
    children: Vec<ChildId>,
    room: usize,
    looks: u64,
    ghost fits: { room ≤ vec_capacity children },
}

impl Looked {
    ghost use Rattle.sv_timers.specs.Looks.{room_of, looked_of, looks_of};

    /// Nothing was looked at; there is room for so many children.
    pub fn new(alloc: Global, room: u32) -> Result<Looked, AllocError>
        ensures room { IfOk result (λ l. room_of l ≡ room) }
        ensures looked { IfOk result (λ l. looked_of l ≡ []) }
        ensures looks { IfOk result (λ l. looks_of l ≡ 0) }
    {
        Ok(Looked {
            children: Vec::with_capacity(alloc, room as usize)?,
            room: room as usize,
            looks: 0,
        })
    }

    /// The children that were looked at.
    pub fn children(&self) -> &[ChildId]
        ensures { result.now ≡ looked_of self.now }
    {
        self.children.as_slice()
    }

    /// How often a child was looked at. The count stops at its greatest number.
    pub fn looks(&self) -> u64
        ensures { result ≡ looks_of self.now }
    {
        self.looks
    }

    /// Forgets the children, and keeps the room and the count.
    pub fn forget(&mut self)
        ensures looked { looked_of self.new ≡ [] }
        ensures room { room_of self.new ≡ room_of self.old }
        ensures looks { looks_of self.new ≡ looks_of self.old }
    {
        self.children.clear();
    }
}

impl Rows for Looked {
    ghost use Rattle.sv_timers.specs.Looks.{room_of, looked_of, looks_of};

    ghost room = { room_of };

    ghost looked = { looked_of };

    ghost looks = { looks_of };

    fn look(&mut self, child: ChildId) {
        self.looks = self.looks.saturating_add(1);
        if self.children.len() < self.room {
            self.children.push_reserved(child);
        }
    }
}
