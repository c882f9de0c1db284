//! The known sizes of files, by rising names.
ghost use Rattle.std.specs.Prelude.{◌≡◌, ◌++◌, IsTrue, IfOk, IfErr, OnOk, OnErr};
ghost use Rattle.sv_logs.specs.Logging.{log_orders, logged, logged_as, orders_as};
ghost use Rattle.sv_logs.specs.Opening.{opening_sizes};
ghost use Rattle.sv_logs.specs.Places.{IsGapFor, StandsAt};
ghost use Rattle.sv_logs.specs.Sizes.{cleared, rise, size_in, sized};

use crate::LogPlan;
use crate::carrying::give;
use crate::opening::begin_all;
use std::alloc::{AllocError, Global};
use std::marker::Model;
use sv_base::config::Config;
use sv_base::spec::LogSpec;
use sv_base::text::Text;
use sv_out::order::Order;

/// The known sizes of files in bytes, by rising names, so that each name stands once.
#[derive(Drop)]
pub struct KnownSizes {
    sizes: Vec<(Text, u64)>,
}

impl Model for KnownSizes {
    ghost use Rattle.std.specs.Prelude.{IsTrue};
    ghost use Rattle.sv_logs.specs.Sizes.{Sizes, rise};

    ghost Value = { Sizes };

    ghost view = { λ k. k.sizes.items };

    ghost invariant = { λ k. IsTrue (rise k.sizes.items) };
}

impl KnownSizes {
    /// The sizes that were told, by rising names, and 0 for each log file of the configuration of which none was told.
    pub fn new(config: &Config, told: Vec<(Text, u64)>) -> Result<KnownSizes, AllocError>
        requires { IsTrue (rise told.items) }
        ensures { IfOk result (λ sizes. sizes ≡ opening_sizes config.now told.items) }
    {
        let mut sizes = KnownSizes { sizes: told };
        begin_all(config, &mut sizes)?;
        Ok(sizes)
    }

    /// The sizes, by rising names.
    pub fn as_slice(&self) -> &[(Text, u64)]
        ensures sizes { result.now ≡ self.now }
        ensures rise { IsTrue (rise result.now) }
    {
        self.sizes.as_slice()
    }

    /// The known size of a file; 0 where none is known.
    pub fn size(&self, file: &Text) -> u64
        ensures { result ≡ size_in file.now self.now }
    {
        match self.search(file) {
            Ok(at) => self.sizes[at].1,
            Err(_) => 0,
        }
    }

    /// Adds a piece to a log. Where it has a file, the orders for that are added to those given: the append, and from its
    /// greatest size on the rotation. The known size is then that after these orders. Out of memory, no size changes.
    pub fn append(
        &mut self,
        alloc: Global,
        log: &LogSpec,
        piece: &[u8],
        given: &mut Vec<Order>,
    ) -> Result<(), AllocError>
        ensures sizes { OnOk result (self.new ≡ logged log.now piece.now self.old) }
        ensures orders { OnOk result (given.new.items
            ≡ given.old.items ++ log_orders log.now piece.now self.old) }
        ensures unchanged { OnErr result (self.new ≡ self.old) }
    {
        match &log.file {
            None => Ok(()),
            Some(file) => {
                self.append_to(alloc, file, log, piece, given)?;
                Ok(())
            }
        }
    }

    /// The file was made empty: the known size is 0, where one is known.
    pub fn clear(&mut self, file: &Text)
        ensures { self.new ≡ cleared file.now self.old }
    {
        if let Ok(at) = self.search(file) {
            self.sizes[at].1 = 0;
        }
    }

    /// A log's file begins at 0, where no size of it is known.
    pub(crate) fn begin(&mut self, file: &Text) -> Result<(), AllocError>
        ensures { OnOk result (self.new ≡ sized file.now (size_in file.now self.old) self.old) }
    {
        let size = self.size(file);
        self.set(file.clone()?, size)?;
        Ok(())
    }

    /// Adds a piece to a log that has this file.
    fn append_to(
        &mut self,
        alloc: Global,
        file: &Text,
        log: &LogSpec,
        piece: &[u8],
        given: &mut Vec<Order>,
    ) -> Result<(), AllocError>
        ensures sizes { OnOk result (self.new ≡ logged_as file.now log.now piece.now self.old) }
        ensures orders { OnOk result (given.new.items
            ≡ given.old.items ++ orders_as file.now log.now piece.now self.old) }
        ensures unchanged { OnErr result (self.new ≡ self.old) }
    {
        let mut plan = LogPlan {
            file: file.clone()?,
            maxbytes: log.maxbytes,
            backups: log.backups,
            size: self.size(file),
        };
        let orders = plan.append(alloc, piece)?;
        give(orders, given)?;
        self.set(plan.file, plan.size)?;
        Ok(())
    }

    /// The size of a file is this from now on.
    fn set(&mut self, file: Text, size: u64) -> Result<(), AllocError>
        ensures sizes { OnOk result (self.new ≡ sized file size self.old) }
        ensures unchanged { OnErr result (self.new ≡ self.old) }
    {
        match self.search(&file) {
            Ok(at) => {
                self.resize(&file, at, size);
                Ok(())
            }
            Err(at) => {
                self.insert(file, at, size)?;
                Ok(())
            }
        }
    }

    /// The file that stands here has this size from now on.
    fn resize(&mut self, file: &Text, at: usize, size: u64)
        requires { StandsAt file.now self.old at }
        ensures { self.new ≡ sized file.now size self.old }
    {
        self.sizes[at].1 = size;
    }

    /// The file, which would stand here, has this size from now on.
    fn insert(&mut self, file: Text, at: usize, size: u64) -> Result<(), AllocError>
        requires { IsGapFor file self.old at }
        ensures sizes { OnOk result (self.new ≡ sized file size self.old) }
        ensures unchanged { OnErr result (self.new ≡ self.old) }
    {
        self.sizes.insert(at, (file, size))?;
        Ok(())
    }

    /// Where the file stands, or where it would go.
    fn search(&self, file: &Text) -> Result<usize, usize>
        ensures found { IfOk result (StandsAt file.now self.now) }
        ensures absent { IfErr result (IsGapFor file.now self.now) }
    {
        self.sizes
            .as_slice()
            .binary_search_by(|known| known.0.cmp(file))
    }
}
