//! The faults that the command line injects into meters.
use clap::ArgMatches;
use fleet_faults::{FaultPlan, FaultShares, InjectedFault};
use program::Fault;

// Returns the share of each fault. Error: `Input` if one is not valid, with a line on standard
// error.
fn fault_shares(rt: &HostRuntime, matches: &ArgMatches<'_>) -> Result<FaultShares, Fault> {
    let mut shares = FaultShares::new();
    if let Some(words) = matches.get_strs("fault") {
        for word in words {
            let word = *word;
            match shares.with_word(word.as_bytes()) {
                Ok(with_word) => shares = with_word,
                Err(fault) => {
                    let _ = eprintln!(rt; "fault {word}: {fault}");
                    return Err(Fault::Input);
                }
            }
        }
    }
    Ok(shares)
}

/// Returns which meters have which fault. Error: `Input` if a share is not valid, or if meters that
/// resume from a trace are to refuse, with a line on standard error.
pub(crate) fn fault_plan(rt: &HostRuntime, matches: &ArgMatches<'_>) -> Result<FaultPlan, Fault> {
    let shares = fault_shares(rt, matches)?;
    if matches.get_str("resume").is_some() && shares.share(InjectedFault::Refuses) > 0 {
        let _ = eprintln!(rt; "fault refuses: must not be combined with --resume");
        return Err(Fault::Input);
    }
    let seed = matches.get_one::<u32>("seed").unwrap_or(0);
    Ok(FaultPlan { shares, seed })
}
