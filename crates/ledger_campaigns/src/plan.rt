//! The plan of a campaign on a ledger.
ghost use Rattle.std.specs.Prelude.{◌≡◌, ◌≤◌, length};
ghost use Rattle.std.specs.List.{All};
ghost use Rattle.acse_ber.specs.Password.{IsPassword};

use cosem_axdr::Octets;
use head_end::{Jobs, Watcher};

/// What a campaign does: its jobs, the password of each job, 1 to 32 bytes, in the order of the
/// jobs, the number of workers, 1 to 16, and the watcher that is called with each result.
#[derive(Drop)]
pub struct LedgeredPlan<'a, W: Watcher> {
    /// The jobs of the campaign.
    pub jobs: &'a Jobs,
    /// The password of each job, 1 to 32 bytes.
    pub passwords: &'a [Octets],
    /// The number of workers, 1 to 16.
    pub workers: u8,
    /// Is called with the row of each job that has ended.
    pub watcher: &'a W,
    ghost non_zero: { 1 ≤ workers },
    ghost within_max: { workers ≤ 16 },
    ghost sized: { All IsPassword passwords.now },
    ghost paired: { length passwords.now ≡ length jobs.now },
}
