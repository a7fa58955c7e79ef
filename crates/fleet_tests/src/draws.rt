//! The faults of some meters, by draws that another program of SplitMix64 printed, and the words
//! that give shares.
use fleet_faults::{FaultPlan, FaultShares, InjectedFault, ShareFault};
use std::test::Fail;

/// Seeds, numbers of meters, and the draws of these meters.
const DRAWS: [(u32, usize, u8); 10] = [
    (0, 1, 65),
    (0, 2, 10),
    (0, 3, 53),
    (0, 256, 87),
    (0, 16_777_215, 11),
    (7, 1, 92),
    (7, 2, 85),
    (4_294_967_295, 1, 59),
    (4_294_967_295, 16_777_215, 80),
    (1, 1, 67),
];

/// Returns the shares of two faults: `percent` of the meters are silent, and the others close.
fn silent_or_closed(percent: &str, others: &str) -> Result<FaultShares, ShareFault> {
    FaultShares::new()
        .with_word(percent.as_bytes())?
        .with_word(others.as_bytes())
}

#[test]
fn a_fault_is_drawn(rt: HostRuntime) -> Result<(), Fail> {
    for (seed, number, draw) in DRAWS {
        let shares = silent_or_closed("silent=11", "closes=50")?;
        let plan = FaultPlan { shares, seed };
        let fault = if draw < 11 {
            Some(InjectedFault::Silent)
        } else if draw < 61 {
            Some(InjectedFault::Closes)
        } else {
            None
        };
        assert!(rt; plan.fault_of(number) == fault);
    }
    Ok(())
}

#[test]
fn faults_of_terms_follow_those_of_streams(rt: HostRuntime) -> Result<(), Fail> {
    for (seed, number, draw) in DRAWS {
        let shares = FaultShares::new()
            .with_word(b"closes=11")?
            .with_word(b"wrong-password=50")?
            .with_word(b"refuses=20")?;
        let plan = FaultPlan { shares, seed };
        let fault = if draw < 11 {
            Some(InjectedFault::Closes)
        } else if draw < 61 {
            Some(InjectedFault::WrongPassword)
        } else if draw < 81 {
            Some(InjectedFault::Refuses)
        } else {
            None
        };
        assert!(rt; plan.fault_of(number) == fault);
    }
    Ok(())
}

#[test]
fn an_address_has_the_fault_of_its_meter(rt: HostRuntime) -> Result<(), Fail> {
    let shares = FaultShares::new().with_word(b"vanishes=11")?;
    let plan = FaultPlan { shares, seed: 0 };
    assert!(rt;
        plan.fault_at([127, 0, 0, 2]) == Some(InjectedFault::Vanishes)
            && plan.fault_at([127, 0, 0, 1]).is_none()
            && plan.fault_at([127, 255, 255, 255]).is_none()
            && plan.fault_at([10, 0, 0, 2]).is_none()
    );
    Ok(())
}

#[test]
fn words_give_shares(rt: HostRuntime) -> Result<(), Fail> {
    let shares = FaultShares::new()
        .with_word(b"silent=5")?
        .with_word(b"slow=20")?
        .with_word(b"vanishes=0")?
        .with_word(b"closes=75")?;
    assert!(rt;
        shares.share(InjectedFault::Silent) == 5
            && shares.share(InjectedFault::Slow) == 20
            && shares.share(InjectedFault::Vanishes) == 0
            && shares.share(InjectedFault::Closes) == 75
            && shares.with_word(b"vanishes=1") == Err(ShareFault::Total)
            && shares.with_word(b"wrong-password=1") == Err(ShareFault::Total)
    );
    assert!(rt; shares.with_word(b"refuses=1") == Err(ShareFault::Total));
    let shares = shares.with_word(b"closes=7")?;
    assert!(rt;
        shares.share(InjectedFault::Closes) == 7
            && shares.with_word(b"silent=73")?.share(InjectedFault::Silent) == 73
            && shares.with_word(b"silent=74") == Err(ShareFault::Total)
    );
    let shares = shares
        .with_word(b"wrong-password=30")?
        .with_word(b"refuses=38")?;
    assert!(rt;
        shares.share(InjectedFault::WrongPassword) == 30
            && shares.share(InjectedFault::Refuses) == 38
            && shares.with_word(b"closes=8") == Err(ShareFault::Total)
    );
    Ok(())
}

#[test]
fn other_words_are_refused(rt: HostRuntime) -> Result<(), Fail> {
    let shares = FaultShares::new();
    for word in [
        "",
        "=5",
        "mute=5",
        "Silent=5",
        " silent=5",
        "5",
        "wrong_password=5",
    ] {
        assert!(rt; shares.with_word(word.as_bytes()) == Err(ShareFault::Name));
    }
    for word in [
        "silent",
        "silent=",
        "slow=101",
        "slow=05",
        "closes=5%",
        "slow=-1",
        "slow=1=2",
    ] {
        assert!(rt; shares.with_word(word.as_bytes()) == Err(ShareFault::Percent));
    }
    Ok(())
}
