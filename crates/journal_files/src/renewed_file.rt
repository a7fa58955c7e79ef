//! `RenewedFile`: the file of a journal that is renewed each time it has grown by a limit.
ghost use Rattle.std.specs.Prelude.{◌≡◌, None, OnOk};
ghost use Rattle.durable_lines.specs.Calls.{IsSameFile};
ghost use Rattle.durable_lines.specs.CrashModel.{LeavesOnly};
ghost use Rattle.durable_lines.specs.Holding.{IsSameOrRenewed};
ghost use Rattle.durable_lines.specs.Lines.{IsReady};
ghost use Rattle.journal_files.specs.RenewedFile.{grown_of, held_back_of, place_of, renewed_model};
ghost use Rattle.journal_files.specs.RenewedFile.{terms_of, HasFailed, RenewsOnTerms};
ghost use Rattle.journal_files.specs.Renewals.{IsRenewedAs};

use crate::fault::StartFault;
use crate::renewing::renew_file;
use durable_lines::{DurableFile, FileFault, Place, record_failure};
use std::alloc::Global;

/// When a journal is renewed, and what then stays in it.
#[derive(Clone, Copy, Debug)]
pub struct RenewalTerms {
    /// The number of bytes that the file may grow by before it is renewed.
    pub limit: usize,
    /// The number of events that stay in it, the latest ones.
    pub depth: usize,
}

/// The file of a journal, which [`renew`](DurableFile::renew) replaces as
/// [`renew_journal`](crate::renew_journal) does if it has grown by more than a limit since the last
/// time. Lines are then appended to the new file.
///
/// It acts as the crash model says if its place does. If a renewal runs out of memory before the
/// new file is written, or the text is not that of a journal, the old file stays, and the next
/// renewal is tried once it has grown again. After a call failed, every later call fails, too.
#[derive(Drop)]
pub struct RenewedFile<P: Place> {
    alloc: Global,
    place: P,
    terms: RenewalTerms,
    // The number of bytes that were appended since the last renewal.
    grown: usize,
    // Why the last renewal that was tried left the old file, if it did.
    held_back: Option<StartFault>,
    has_failed: bool,
}

impl<P: Place> RenewedFile<P> {
    /// Returns the file of a place as one that is renewed on these terms. It has not grown yet.
    pub fn new(alloc: Global, place: P, terms: RenewalTerms) -> RenewedFile<P>
        ensures place { place_of result ≡ place }
        ensures terms { terms_of result ≡ terms }
        ensures grown { grown_of result ≡ 0 }
        ensures not_held_back { held_back_of result ≡ None }
        ensures whole { ¬ HasFailed result }
    {
        RenewedFile {
            alloc,
            place,
            terms,
            grown: 0,
            held_back: None,
            has_failed: false,
        }
    }

    /// Returns why the last renewal that was tried left the old file, if it did.
    pub fn held_back(&self) -> Option<StartFault>
        ensures { result ≡ held_back_of self.now }
    {
        self.held_back
    }

    /// Returns the place of the file.
    pub fn place(&self) -> &P
        ensures { result.now ≡ place_of self.now }
    {
        &self.place
    }
}

impl<P: Place> DurableFile for RenewedFile<P> {
    ghost model = { renewed_model P.model };

    #[tactic(auto, using(crate::proofs::RenewalLemmas::same_files))]
    fn read(&mut self, alloc: Global) -> Result<Vec<u8>, FileFault> {
        if self.has_failed {
            return Err(FileFault::Failed);
        }
        let call = self.place.read(alloc);
        record_failure(&mut self.has_failed, call)
    }

    #[tactic(auto, using(crate::proofs::RenewalLemmas::same_files))]
    fn append(&mut self, bytes: &[u8]) -> Result<(), FileFault> {
        if self.has_failed {
            return Err(FileFault::Failed);
        }
        let call = self.place.append(bytes);
        self.grown = self.grown.saturating_add(bytes.len());
        record_failure(&mut self.has_failed, call)
    }

    #[tactic(auto, using(crate::proofs::RenewalLemmas::same_files))]
    fn cut(&mut self, len: usize) -> Result<(), FileFault> {
        if self.has_failed {
            return Err(FileFault::Failed);
        }
        let call = self.place.cut(len);
        record_failure(&mut self.has_failed, call)
    }

    #[tactic(auto, using(crate::proofs::RenewalLemmas::same_files))]
    fn sync(&mut self) -> Result<(), FileFault> {
        if self.has_failed {
            return Err(FileFault::Failed);
        }
        let call = self.place.sync();
        record_failure(&mut self.has_failed, call)
    }

    fn renew(&mut self) -> Result<(), FileFault>
        requires { IsReady (renewed_model P.model) self.old }
        ensures settled { OnOk result (IsReady (renewed_model P.model) self.new) }
        ensures renewed { OnOk result (P.model.acts → IsSameOrRenewed IsRenewedAs
            (P.model.seen (place_of self.old)) (P.model.seen (place_of self.new))) }
        ensures on_terms { OnOk result (RenewsOnTerms P.model self.old self.new) }
        ensures any_moment { P.model.acts
            → LeavesOnly (renewed_model P.model) self.old self.new
            (IsSameOrRenewed IsRenewedAs (P.model.seen (place_of self.old))) }
        ensures same_file { IsSameFile (renewed_model P.model) self.old self.new result }
    {
        if self.has_failed {
            return Err(FileFault::Failed);
        }
        if self.grown <= self.terms.limit {
            return Ok(());
        }
        self.grown = 0;
        let call = renew_file(self.alloc, &mut self.place, self.terms.depth);
        self.held_back = record_failure(&mut self.has_failed, call)?;
        Ok(())
    }
}
