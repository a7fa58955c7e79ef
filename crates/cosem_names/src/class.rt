//! The interface classes of the meter's objects (IEC 62056-6-2).
use crate::name::ClassId;

/// Class 1, Data (IEC 62056-6-2).
pub const DATA: ClassId = ClassId(1);
/// Class 3, Register (IEC 62056-6-2).
pub const REGISTER: ClassId = ClassId(3);
/// Class 9, Script table (IEC 62056-6-2).
pub const SCRIPT_TABLE: ClassId = ClassId(9);
/// Class 15, Association LN (IEC 62056-6-2).
pub const ASSOCIATION_LN: ClassId = ClassId(15);
/// Class 22, Single action schedule (IEC 62056-6-2).
pub const SINGLE_ACTION_SCHEDULE: ClassId = ClassId(22);
/// Class 70, Disconnect control (IEC 62056-6-2).
pub const DISCONNECT_CONTROL: ClassId = ClassId(70);
/// Class 71, Limiter (IEC 62056-6-2).
pub const LIMITER: ClassId = ClassId(71);
