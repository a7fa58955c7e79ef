//! Blocks of power samples, and the scans that were made of them ahead of their use.

ghost use Rattle.std.specs.Prelude.{◌≡◌, ◌≢◌, ◌<◌, ◌≤◌, ◌↔◌, length, IfOk, IfSome, IsErrOf};
ghost use Rattle.lane_sampler.specs.Numbers.{fault_number};
ghost use Rattle.std.specs.Option.{option_copied};
ghost use Rattle.lane_sampler.specs.Samples.{AreEven, max_values, pairs_of, values_alone};
ghost use Rattle.lane_sampler.specs.Scans.{AreRightScans, IsRightScan};

use crate::lanes::{Masks, classify};
use std::alloc::{AllocError, Global};
use std::marker::Model;
use thiserror::Error;

/// The maximum number of values, or of pairs of values, in a block.
pub const MAX_VALUES: usize = 256;

/// Why a block could not be created.
#[derive(Clone, Copy, Debug, PartialEq, Eq, Error)]
pub enum BlockMade {
    /// There are more than 256 values or pairs.
    #[error("more than 256 values")]
    TooLong = 1,
    /// Out of memory.
    #[error("out of memory")]
    Memory = 2,
    /// The number of import values differs from the number of export values.
    #[error("import and export values differ in number")]
    Uneven = 3,
}

/// Returns the number of the fault, 1 to 3.
impl From<BlockMade> for u8 {
    ghost from_gives = { λ fault number. number ≡ fault_number fault };

    fn from(fault: BlockMade) -> u8 {
        fault as u8
    }
}

/// The masks of some values at one threshold.
#[derive(Clone, Copy, Debug, PartialEq, Eq)]
pub struct Scan {
    /// The threshold, in the unit of the values.
    pub threshold: u32,
    /// Which values are over the threshold, and which under it.
    pub masks: Masks,
}

/// The scans of a block.
#[derive(Clone, Copy, Debug, PartialEq, Eq)]
pub struct Scans {
    /// The scan of the import values.
    pub import: Scan,
    /// The scan of the export values, in a block of pairs.
    pub export: Option<Scan>,
}

/// Up to 256 samples of the import power, or up to 256 pairs of import and export power, in the
/// order in which they were taken. It also keeps the scans last made of them, which no contract
/// sees.
///
/// The scans are in a box of their own, allocated with the block, so that a block, and an event
/// that holds one, is small to move.
#[derive(Debug, Drop)]
pub struct Block {
    import: Vec<u32>,
    export: Option<Vec<u32>>,
    scans: Box<Option<Scans>>,
}

impl Model for Block {
    ghost use Rattle.lane_sampler.specs.Samples.{Samples};

    ghost Value = { Samples };

    ghost use Rattle.lane_sampler.specs.Inside.{samples_of, IsBlock};

    ghost view = { samples_of };

    ghost invariant = { IsBlock };
}

impl Block {
    /// Creates a block of import values alone. Errors, judged in this order: `TooLong` if there are
    /// more than 256 values, `Memory` if out of memory.
    pub fn from_slice(alloc: Global, values: &[u32]) -> Result<Block, BlockMade>
        ensures block { IfOk result (λ block. block ≡ values_alone values.now) }
        ensures too_long { IsErrOf result BlockMade.TooLong ↔ (max_values < length values.now) }
        ensures never_uneven { ¬ (IsErrOf result BlockMade.Uneven) }
    {
        if values.len() > MAX_VALUES {
            return Err(BlockMade::TooLong);
        }
        let import = Vec::from_slice(alloc, values).map_err(|_| BlockMade::Memory)?;
        let scans = Box::new(alloc, None).map_err(|_| BlockMade::Memory)?;
        Ok(Block {
            import,
            export: None,
            scans,
        })
    }

    /// Creates a block of pairs, even if both slices are empty. Errors, judged in this order:
    /// `Uneven` if the slices differ in length, `TooLong` if there are more than 256 pairs,
    /// `Memory` if out of memory.
    pub fn from_pairs(alloc: Global, import: &[u32], export: &[u32]) -> Result<Block, BlockMade>
        ensures block { IfOk result (λ block. block ≡ pairs_of import.now export.now) }
        ensures uneven { IsErrOf result BlockMade.Uneven ↔ (length import.now ≢ length export.now) }
        ensures too_long { IsErrOf result BlockMade.TooLong
            ↔ ((length import.now ≡ length export.now) × (max_values < length import.now)) }
    {
        if import.len() != export.len() {
            return Err(BlockMade::Uneven);
        }
        if import.len() > MAX_VALUES {
            return Err(BlockMade::TooLong);
        }
        let import = Vec::from_slice(alloc, import).map_err(|_| BlockMade::Memory)?;
        let export = Vec::from_slice(alloc, export).map_err(|_| BlockMade::Memory)?;
        let scans = Box::new(alloc, None).map_err(|_| BlockMade::Memory)?;
        Ok(Block {
            import,
            export: Some(export),
            scans,
        })
    }

    /// Returns the import values, at most 256.
    pub fn values(&self) -> &[u32]
        ensures values { result.now ≡ self.now.import }
        ensures within_max { length self.now.import ≤ max_values }
    {
        &self.import
    }

    /// Returns the export values of a block of pairs, as many as import values, or `None` if the
    /// block has import values alone.
    pub fn export(&self) -> Option<&[u32]>
        ensures values { option_copied result ≡ self.now.export }
        ensures same_length { IfSome result (λ values. length values.now ≡ length self.now.import) }
        ensures within_max { IfSome result (λ values. length values.now ≤ max_values) }
    {
        match &self.export {
            Some(values) => Some(values.as_slice()),
            None => None,
        }
    }

    /// Scans the values at these thresholds, and replaces an earlier scan. The export threshold is
    /// used only in a block of pairs. Does not allocate.
    pub fn scan(&mut self, import_threshold: u32, export_threshold: u32)
        ensures { self.new ≡ self.old }
    {
        let scans = scans_of(
            self.values(),
            import_threshold,
            self.export(),
            export_threshold,
        );
        *self.scans = Some(scans);
    }

    /// Returns the scans last made, which are right for the values at the thresholds that they
    /// name. Returns `None` before the first `scan`.
    pub fn scanned(&self) -> Option<&Scans>
        ensures right { IfSome result (λ scans. AreRightScans self.now scans.now) }
        ensures within_max { length self.now.import ≤ max_values }
        ensures same_length { AreEven self.now }
    {
        match &*self.scans {
            Some(scans) => Some(scans),
            None => None,
        }
    }

    /// Returns a block with the same values and scans, or an error if out of memory.
    pub fn try_clone(&self, alloc: Global) -> Result<Block, AllocError>
        ensures same { IfOk result (λ block. block ≡ self.now) }
    {
        let import = Vec::from_slice(alloc, self.import.as_slice())?;
        let export = match &self.export {
            Some(values) => Some(Vec::from_slice(alloc, values.as_slice())?),
            None => None,
        };
        let scans = Box::new(alloc, *self.scans)?;
        Ok(Block {
            import,
            export,
            scans,
        })
    }
}

// Returns the scans of import values and, in a block of pairs, of export values.
fn scans_of(
    import: &[u32],
    import_threshold: u32,
    export: Option<&[u32]>,
    export_threshold: u32,
) -> Scans
    requires within_max { length import.now ≤ max_values }
    requires same_length { IfSome export (λ values. length values.now ≡ length import.now) }
    ensures right { AreRightScans
        (record { import = import.now; export = option_copied export.entry }) result }
    ensures import { result.import.threshold ≡ import_threshold }
    ensures export { IfSome result.export (λ scan. scan.threshold ≡ export_threshold) }
{
    Scans {
        import: scan_of(import, import_threshold),
        export: match export {
            Some(values) => Some(scan_of(values, export_threshold)),
            None => None,
        },
    }
}

// Scans values against a threshold.
fn scan_of(values: &[u32], threshold: u32) -> Scan
    requires { length values.now ≤ max_values }
    ensures right { IsRightScan values.now result }
    ensures threshold { result.threshold ≡ threshold }
{
    Scan {
        threshold,
        masks: classify(values, threshold),
    }
}
