//! `CampaignJobs`: the jobs of a campaign with their passwords.
ghost use Rattle.std.specs.Prelude.{◌≡◌, ◌<◌, length};
ghost use Rattle.std.specs.List.{All};
ghost use Rattle.acse_ber.specs.Password.{IsPassword};
ghost use Rattle.campaign_loop.specs.Driving.{password_at};

use client_core::Job;
use cosem_axdr::Octets;

/// The jobs of a campaign, at most 4,294,967,296, and their passwords.
#[derive(Clone, Copy, Debug)]
pub struct CampaignJobs<'a> {
    /// The jobs.
    pub jobs: &'a [Job],
    /// The different passwords, each of 1 to 32 bytes.
    pub passwords: &'a [Octets],
    /// For each job the index of its password.
    pub choices: &'a [u32],
    ghost sized: { All IsPassword passwords.now },
    ghost paired: { length choices.now ≡ length jobs.now },
    ghost chosen: { All (λ choice. choice < length passwords.now) choices.now },
}

impl<'a> CampaignJobs<'a> {
    // Returns the password of a job.
    pub(crate) fn password(&self, index: usize) -> &Octets
        requires { index < length self.now.jobs.now }
        ensures sized { IsPassword result.now }
        ensures is { result.now ≡ password_at self.now.passwords.now self.now.choices.now index }
    {
        &self.passwords[self.choices[index] as usize]
    }
}
