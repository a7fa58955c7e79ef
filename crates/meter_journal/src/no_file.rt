//! `NoFile`: the file of a meter that has a relay, but no journal.
ghost use Rattle.std.specs.Prelude.{[], ⊤};

use durable_lines::{DurableFile, FileFault};
use std::alloc::Global;

/// No file: each call succeeds, and nothing is written. Nothing is claimed of the bytes.
#[derive(Debug, Drop)]
pub struct NoFile;

impl DurableFile for NoFile {
    ghost model = { record {
      acts = ⊥;
      identity = λ _. 0;
      seen = λ _. [];
      may_leave = λ _ _. ⊥;
      moment = λ _. 0;
      left_since = λ _ _ _. ⊥;
      stored = λ _ _. ⊥;
      renews = λ _ _. ⊥;
      has_failed = λ _. ⊥;
      overflows = λ _ _. ⊥;
      also = λ _ _ _. ⊤;
      counts_now = λ file t c le now. now;
      only_now = λ file c left. left;
    } };

    fn read(&mut self, alloc: Global) -> Result<Vec<u8>, FileFault> {
        Ok(Vec::new(alloc))
    }

    fn append(&mut self, _bytes: &[u8]) -> Result<(), FileFault> {
        Ok(())
    }

    fn cut(&mut self, _len: usize) -> Result<(), FileFault> {
        Ok(())
    }

    fn sync(&mut self) -> Result<(), FileFault> {
        Ok(())
    }
}
