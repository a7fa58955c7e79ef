//! The logical names of the meter's objects (IEC 62056-6-1).
use crate::name::Obis;

/// The association of the client that asks (class 15, Association LN).
pub const ASSOCIATION: Obis = Obis([0, 0, 40, 0, 0, 255]);
/// The COSEM logical device name (class 1, Data).
pub const DEVICE_NAME: Obis = Obis([0, 0, 42, 0, 0, 255]);
/// The register of the imported power (class 3, Register).
pub const IMPORT_REGISTER: Obis = Obis([1, 0, 1, 7, 0, 255]);
/// The register of the exported power (class 3, Register).
pub const EXPORT_REGISTER: Obis = Obis([1, 0, 2, 7, 0, 255]);
/// The script table (class 9, Script table).
pub const SCRIPT_TABLE: Obis = Obis([0, 0, 10, 0, 106, 255]);
/// The first schedule (class 22, Single action schedule).
pub const FIRST_SCHEDULE: Obis = Obis([0, 0, 15, 0, 1, 255]);
/// The second schedule (class 22, Single action schedule).
pub const SECOND_SCHEDULE: Obis = Obis([0, 1, 15, 0, 1, 255]);
/// The third schedule (class 22, Single action schedule).
pub const THIRD_SCHEDULE: Obis = Obis([0, 2, 15, 0, 1, 255]);
/// The fourth schedule (class 22, Single action schedule).
pub const FOURTH_SCHEDULE: Obis = Obis([0, 3, 15, 0, 1, 255]);
/// The supply switch (class 70, Disconnect control).
pub const DISCONNECT_CONTROL: Obis = Obis([0, 0, 96, 3, 10, 255]);
/// The limiter of the imported power (class 71, Limiter).
pub const IMPORT_LIMITER: Obis = Obis([0, 0, 17, 0, 0, 255]);
/// The limiter of the exported power (class 71, Limiter).
pub const EXPORT_LIMITER: Obis = Obis([0, 1, 17, 0, 0, 255]);
