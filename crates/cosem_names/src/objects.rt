//! The table of the meter's objects: classes, versions, logical names, attributes, methods and
//! access modes (IEC 62056-6-2).
ghost use Rattle.std.specs.Prelude.{◌≡◌, ◌==◌, ◌&&◌, ◌+◌, ◌*◌};

use crate::class::{
    ASSOCIATION_LN, DATA, DISCONNECT_CONTROL, LIMITER, REGISTER, SCRIPT_TABLE,
    SINGLE_ACTION_SCHEDULE,
};
use crate::logical_name;
use crate::name::{ClassId, Obis};

/// The access mode of an attribute (IEC 62056-6-2, Association LN, object_list).
#[derive(Clone, Copy, Debug, PartialEq, Eq)]
pub enum Access {
    /// 0, no_access: may be neither read nor written.
    NoAccess,
    /// 1, read_only: may be read.
    ReadOnly,
    /// 3, read_and_write: may be read and written.
    ReadAndWrite,
}

/// The number of a schedule, first to fourth: the value group B of its logical name is one less.
#[derive(Clone, Copy, Debug, PartialEq, Eq)]
pub enum ScheduleNumber {
    /// The schedule with the logical name 0.0.15.0.1.255.
    First,
    /// The schedule with the logical name 0.1.15.0.1.255.
    Second,
    /// The schedule with the logical name 0.2.15.0.1.255.
    Third,
    /// The schedule with the logical name 0.3.15.0.1.255.
    Fourth,
}

/// The direction of power that a register or a limiter measures.
#[derive(Clone, Copy, Debug, PartialEq, Eq)]
pub enum Which {
    /// The imported power: the register 1.0.1.7.0.255 and the limiter 0.0.17.0.0.255.
    Import,
    /// The exported power: the register 1.0.2.7.0.255 and the limiter 0.1.17.0.0.255.
    Export,
}

/// The object of the meter that a row of the table is for.
#[derive(Clone, Copy, Debug, PartialEq, Eq)]
pub enum Instance {
    /// The association of the client that asks: class 15, Association LN.
    Association,
    /// The COSEM logical device name: class 1, Data.
    DeviceName,
    /// The power of one direction: class 3, Register.
    Register(Which),
    /// The script table: class 9, Script table.
    ScriptTable,
    /// One of the four schedules: class 22, Single action schedule.
    Schedule(ScheduleNumber),
    /// The supply switch: class 70, Disconnect control.
    DisconnectControl,
    /// The limiter of one direction of power: class 71, Limiter.
    Limiter(Which),
}

/// A row of the object table: an object with its logical name, its interface class and the class's
/// version.
#[derive(Clone, Copy, Debug, PartialEq, Eq)]
pub struct Object {
    /// Which object of the meter it is.
    pub instance: Instance,
    /// The class_id of its interface class.
    pub class: ClassId,
    /// The version of its interface class.
    pub version: u8,
    /// The logical name of the object.
    pub name: Obis,
}

/// An attribute of an interface class, with its access mode for each level.
#[derive(Clone, Copy, Debug, PartialEq, Eq)]
pub struct Attribute {
    /// The class_id of the interface class.
    pub class: ClassId,
    /// The number of the attribute.
    pub number: u8,
    /// The access mode for the public client.
    pub public: Access,
    /// The access mode for the management client.
    pub management: Access,
}

impl Attribute {
    // Returns whether this is the row of an attribute of a class. Class and number are compared as
    // one number, so the compiler makes a search of the table one jump.
    #[inline(always)]
    #[tactic(auto, using(crate::proofs::Names::compared_as_one))]
    pub(crate) fn is_of(self, class: ClassId, number: u8) -> bool
        ensures { result ≡ (self.class.0 == class.0 && self.number == number) }
    {
        key(self.class, self.number) == key(class, number)
    }
}

// Returns the number of a class and the number of one of its attributes as one number.
#[inline(always)]
fn key(class: ClassId, number: u8) -> u32
    ensures { result ≡ class.0 * 256 + number }
{
    u32::from(class.0) * 256 + u32::from(number)
}

/// A method of an interface class, and which levels may execute it.
#[derive(Clone, Copy, Debug, PartialEq, Eq)]
pub struct Method {
    /// The class_id of the interface class.
    pub class: ClassId,
    /// The number of the method.
    pub number: u8,
    /// Whether the public client may execute it.
    pub public: bool,
    /// Whether the management client may execute it.
    pub management: bool,
}

/// The meter's objects, in the order of the object list.
pub const OBJECTS: [Object; 12] = [
    Object {
        instance: Instance::Association,
        class: ASSOCIATION_LN,
        version: 1,
        name: logical_name::ASSOCIATION,
    },
    Object {
        instance: Instance::DeviceName,
        class: DATA,
        version: 0,
        name: logical_name::DEVICE_NAME,
    },
    Object {
        instance: Instance::Register(Which::Import),
        class: REGISTER,
        version: 0,
        name: logical_name::IMPORT_REGISTER,
    },
    Object {
        instance: Instance::Register(Which::Export),
        class: REGISTER,
        version: 0,
        name: logical_name::EXPORT_REGISTER,
    },
    Object {
        instance: Instance::ScriptTable,
        class: SCRIPT_TABLE,
        version: 0,
        name: logical_name::SCRIPT_TABLE,
    },
    Object {
        instance: Instance::Schedule(ScheduleNumber::First),
        class: SINGLE_ACTION_SCHEDULE,
        version: 0,
        name: logical_name::FIRST_SCHEDULE,
    },
    Object {
        instance: Instance::Schedule(ScheduleNumber::Second),
        class: SINGLE_ACTION_SCHEDULE,
        version: 0,
        name: logical_name::SECOND_SCHEDULE,
    },
    Object {
        instance: Instance::Schedule(ScheduleNumber::Third),
        class: SINGLE_ACTION_SCHEDULE,
        version: 0,
        name: logical_name::THIRD_SCHEDULE,
    },
    Object {
        instance: Instance::Schedule(ScheduleNumber::Fourth),
        class: SINGLE_ACTION_SCHEDULE,
        version: 0,
        name: logical_name::FOURTH_SCHEDULE,
    },
    Object {
        instance: Instance::DisconnectControl,
        class: DISCONNECT_CONTROL,
        version: 0,
        name: logical_name::DISCONNECT_CONTROL,
    },
    Object {
        instance: Instance::Limiter(Which::Import),
        class: LIMITER,
        version: 0,
        name: logical_name::IMPORT_LIMITER,
    },
    Object {
        instance: Instance::Limiter(Which::Export),
        class: LIMITER,
        version: 0,
        name: logical_name::EXPORT_LIMITER,
    },
];

macro_rules! attribute {
    ($class:ident $number:literal: $public:ident, $management:ident) => {
        Attribute {
            class: $class,
            number: $number,
            public: Access::$public,
            management: Access::$management,
        }
    };
}

/// The attributes of the classes, with the access mode of each level.
pub const ATTRIBUTES: [Attribute; 28] = [
    attribute!(ASSOCIATION_LN 1: ReadOnly, ReadOnly),
    attribute!(ASSOCIATION_LN 2: ReadOnly, ReadOnly),
    attribute!(DATA 1: ReadOnly, ReadOnly),
    attribute!(DATA 2: ReadOnly, ReadOnly),
    attribute!(REGISTER 1: ReadOnly, ReadOnly),
    attribute!(REGISTER 2: ReadOnly, ReadOnly),
    attribute!(REGISTER 3: ReadOnly, ReadOnly),
    attribute!(SCRIPT_TABLE 1: ReadOnly, ReadOnly),
    attribute!(SCRIPT_TABLE 2: NoAccess, ReadAndWrite),
    attribute!(SINGLE_ACTION_SCHEDULE 1: ReadOnly, ReadOnly),
    attribute!(SINGLE_ACTION_SCHEDULE 2: NoAccess, ReadAndWrite),
    attribute!(SINGLE_ACTION_SCHEDULE 3: NoAccess, ReadAndWrite),
    attribute!(SINGLE_ACTION_SCHEDULE 4: NoAccess, ReadAndWrite),
    attribute!(DISCONNECT_CONTROL 1: ReadOnly, ReadOnly),
    attribute!(DISCONNECT_CONTROL 2: ReadOnly, ReadOnly),
    attribute!(DISCONNECT_CONTROL 3: ReadOnly, ReadOnly),
    attribute!(DISCONNECT_CONTROL 4: ReadOnly, ReadAndWrite),
    attribute!(LIMITER 1: ReadOnly, ReadOnly),
    attribute!(LIMITER 2: NoAccess, ReadOnly),
    attribute!(LIMITER 3: NoAccess, ReadOnly),
    attribute!(LIMITER 4: NoAccess, ReadAndWrite),
    attribute!(LIMITER 5: NoAccess, ReadAndWrite),
    attribute!(LIMITER 6: NoAccess, ReadAndWrite),
    attribute!(LIMITER 7: NoAccess, ReadAndWrite),
    attribute!(LIMITER 8: NoAccess, ReadAndWrite),
    attribute!(LIMITER 9: NoAccess, ReadAndWrite),
    attribute!(LIMITER 10: NoAccess, ReadOnly),
    attribute!(LIMITER 11: NoAccess, ReadAndWrite),
];

macro_rules! method {
    ($class:ident $number:literal: $public:literal, $management:literal) => {
        Method {
            class: $class,
            number: $number,
            public: $public,
            management: $management,
        }
    };
}

/// The methods of the classes, with which levels may execute them.
pub const METHODS: [Method; 3] = [
    method!(SCRIPT_TABLE 1: false, true),
    method!(DISCONNECT_CONTROL 1: false, true),
    method!(DISCONNECT_CONTROL 2: false, true),
];
