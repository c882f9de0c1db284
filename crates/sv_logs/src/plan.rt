//! A log that grows and is rotated.
ghost use Rattle.std.specs.Prelude.{◌≡◌, ◌≤◌, ◌++◌, ◌∷◌, [], IfOk, OnOk, OnErr};
ghost use Rattle.sv_logs.specs.Rotation.{Files, all_carried, kept, moves, is_over, grown_size};
ghost use Rattle.sv_logs.specs.Rotation.{orders_of, after_append, IsAppended, IsKnown};

use std::alloc::{AllocError, Global};
use sv_base::bytes::Bytes;
use sv_base::config::FileOrder;
use sv_base::number::Backups;
use sv_base::text::Text;

/// How a log is kept, and how far its file has grown.
#[derive(Drop)]
pub struct LogPlan {
    /// The file's name.
    pub file: Text,
    /// The size in bytes from which the file is rotated; 0 is never.
    pub maxbytes: u64,
    /// How many rotated files are kept.
    pub backups: Backups,
    /// The known size of the file in bytes, which stops at the greatest number.
    pub size: u64,
}

impl LogPlan {
    /// The orders that add these bytes to the log: the append, and where the file is then at its greatest size
    /// or past it, the rotation, after which the file is empty. Out of memory leaves the plan as it was.
    pub fn append(&mut self, alloc: Global, piece: &[u8]) -> Result<Vec<FileOrder>, AllocError>
        ensures orders { IfOk result (λ orders. orders.items ≡ orders_of self.old piece.now) }
        ensures plan { OnOk result (self.new ≡ after_append self.old piece.now) }
        ensures files { IfOk result (λ orders. (files : Files) → IsKnown self.old files
            → IsAppended self.old piece.now files (all_carried orders.items files)) }
        ensures known { IfOk result (λ orders. (files : Files) → IsKnown self.old files
            → IsKnown self.new (all_carried orders.items files)) }
        ensures unchanged { OnErr result (self.new ≡ self.old) }
    {
        let size = self.size.saturating_add(piece.len() as u64);
        let orders = self.orders(alloc, piece, size)?;
        self.size = if is_over(self.maxbytes, size) {
            0
        } else {
            size
        };
        Ok(orders)
    }

    /// The orders of an append after which the file has this size.
    fn orders(&self, alloc: Global, piece: &[u8], size: u64) -> Result<Vec<FileOrder>, AllocError>
        requires { size ≡ grown_size self.now piece.now }
        ensures orders { IfOk result (λ orders. orders.items ≡ orders_of self.now piece.now) }
        ensures few { IfOk result (λ _. self.now.backups ≤ 1000) }
    {
        let backups = self.backups.get();
        let mut orders = Vec::new(alloc);
        orders.push(FileOrder::Append(self.file.clone()?, Bytes::from_slice(alloc, piece)?))?;
        if is_over(self.maxbytes, size) {
            rotate(alloc, &self.file, backups, &mut orders)?;
        }
        Ok(orders)
    }
}

/// Whether a log of this size is to be rotated.
fn is_over(maxbytes: u64, size: u64) -> bool
    ensures { result ≡ is_over maxbytes size }
{
    maxbytes > 0 && size >= maxbytes
}

/// Adds the orders of a rotation.
fn rotate(
    alloc: Global,
    file: &Text,
    backups: u32,
    orders: &mut Vec<FileOrder>,
) -> Result<(), AllocError>
    ensures { OnOk result (orders.new.items
        ≡ orders.old.items ++ moves file.now backups ++ FileOrder.Fresh file.now ∷ []) }
{
    let mut number = backups;
    while number > 0 {
        let to = kept(alloc, file, number)?;
        number -= 1;
        orders.push(FileOrder::Shift(kept(alloc, file, number)?, to))?;
    }
    orders.push(FileOrder::Fresh(file.clone()?))?;
    Ok(())
}

/// The name of the file, at 0, or of a backup.
fn kept(alloc: Global, file: &Text, number: u32) -> Result<Text, AllocError>
    ensures { IfOk result (λ name. name ≡ kept file.now number) }
{
    if number == 0 {
        return file.clone();
    }
    let file = file.as_str();
    Ok(Text::from_string(format!(in alloc; "{file}.{number}")?))
}
