//! Attributes of limiters, read and written. tests/object_rows.py has many more.
use crate::texts::{data, is_text};
use cosem_axdr::Data;
use cosem_names::{UnknownNumber, Which};
use limiter_attributes::{LimiterAttribute, Setting, SettingFault, read_attribute, read_setting};
use limiter_core::{Actions, Limiter};
use std::alloc::{AllocError, Global};

/// Script 1 over the threshold, script 258 under it.
const ACTIONS: &str = "020202020906\
    00000A006AFF12000102020906\
    00000A006AFF120102";

// Calls the function under test, as do those below. They have no contracts: a test checks what no
// clause states, and is proved faster without them.
fn read_value(
    alloc: Global,
    which: Which,
    limiter: &Limiter,
    attribute: LimiterAttribute,
) -> Result<Data, AllocError> {
    read_attribute(alloc, which, limiter, attribute)
}

fn setting_of(attribute: LimiterAttribute, value: &Data) -> Result<Option<Setting>, SettingFault> {
    read_setting(attribute, value)
}

fn apply(setting: Setting, limiter: &mut Limiter) {
    setting.apply(limiter);
}

/// Returns whether an attribute is read as the bytes of this text.
fn is_read(
    alloc: Global,
    which: Which,
    limiter: &Limiter,
    attribute: LimiterAttribute,
    text: &str,
) -> bool {
    match read_value(alloc, which, limiter, attribute) {
        Ok(value) => {
            let found = is_text(alloc, &value, text);
            drop(value);
            found
        }
        Err(_) => false,
    }
}

/// Returns what writing this text's Data to an attribute sets, or its fault. Returns `None` if the
/// text is not Data.
fn setting(
    alloc: Global,
    attribute: LimiterAttribute,
    text: &str,
) -> Option<Result<Option<Setting>, SettingFault>> {
    let value = data(alloc, text)?;
    let setting = setting_of(attribute, &value);
    drop(value);
    Some(setting)
}

/// Writes the Data of this text to an attribute, and returns whether it is accepted.
fn write(alloc: Global, limiter: &mut Limiter, attribute: LimiterAttribute, text: &str) -> bool {
    match setting(alloc, attribute, text) {
        Some(Ok(Some(setting))) => {
            apply(setting, limiter);
            true
        }
        _ => false,
    }
}

/// The attributes of the limiter (class 71) after logical_name, each with its number.
static NUMBERS: [(u8, LimiterAttribute); 10] = [
    (2, LimiterAttribute::MonitoredValue),
    (3, LimiterAttribute::ThresholdActive),
    (4, LimiterAttribute::ThresholdNormal),
    (5, LimiterAttribute::ThresholdEmergency),
    (6, LimiterAttribute::MinOverThresholdDuration),
    (7, LimiterAttribute::MinUnderThresholdDuration),
    (8, LimiterAttribute::EmergencyProfile),
    (9, LimiterAttribute::EmergencyProfileGroupIdList),
    (10, LimiterAttribute::EmergencyProfileActive),
    (11, LimiterAttribute::Actions),
];

#[test]
fn attributes_have_the_numbers_2_to_11(rt: HostRuntime) {
    for (number, attribute) in &NUMBERS {
        let found = LimiterAttribute::try_from(*number);
        assert!(rt;
            found == Ok(*attribute) && u8::from(*attribute) == *number,
            "{number}"
        );
    }
    for number in [0, 1, 12, 255] {
        assert!(rt;
            LimiterAttribute::try_from(number) == Err(UnknownNumber(number)),
            "{number}"
        );
    }
}

#[test]
fn actions_are_read_back(rt: HostRuntime) {
    let alloc = rt.alloc();
    let attribute = LimiterAttribute::Actions;
    let mut limiter = Limiter::new(alloc);
    let is_written = write(alloc, &mut limiter, attribute, ACTIONS);
    let Actions { over, under } = limiter.actions();
    let is_read = is_read(alloc, Which::Import, &limiter, attribute, ACTIONS);
    drop(limiter);
    assert!(rt; is_written && over == 1 && under == 258 && is_read);
}
