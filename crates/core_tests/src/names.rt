//! Classes, rights, result codes and the object list, for each object and each access level (IEC
//! 62056-6-2).
use crate::texts::{data, is_text};
use cosem_axdr::{Octets, write};
use cosem_names::{
    AttrRef, ClassId, Instance, Level, MethodRef, NamedScript, Obis, ResultCode, Rights,
    UnknownNumber, attribute, date_bytes, date_time_bytes, find, may_execute, name_in, object,
    object_list, rights, tables_are_told, time_bytes,
};
use std::alloc::{AllocError, Global};
use std::test::Fail;

// The logical name of the disconnect control.
const DISCONNECT_CONTROL_NAME: Obis = Obis([0, 0, 96, 3, 10, 255]);

// The logical name of the current association.
const ASSOCIATION: Obis = Obis([0, 0, 40, 0, 0, 255]);

// The logical name of the script table.
const SCRIPT_TABLE_NAME: Obis = Obis([0, 0, 10, 0, 106, 255]);

// The logical name of the last single action schedule.
const LAST_SCHEDULE_NAME: Obis = Obis([0, 3, 15, 0, 1, 255]);

// The logical name of the register of the import.
const IMPORT_REGISTER: Obis = Obis([1, 0, 1, 7, 0, 255]);

// The logical name of the register of the export.
const EXPORT_REGISTER: Obis = Obis([1, 0, 2, 7, 0, 255]);

// The logical name of the limiter of the import.
const IMPORT_LIMITER: Obis = Obis([0, 0, 17, 0, 0, 255]);

// The logical name of the limiter of the export.
const EXPORT_LIMITER: Obis = Obis([0, 1, 17, 0, 0, 255]);

// The logical name of the device name.
const DEVICE_NAME: Obis = Obis([0, 0, 42, 0, 0, 255]);

// A logical name that no object has.
const UNKNOWN: Obis = Obis([0, 0, 96, 3, 11, 255]);

fn attribute_of(class: u16, name: Obis, number: u8) -> AttrRef {
    AttrRef {
        class: ClassId(class),
        name,
        number,
    }
}

/// Logical names, each with the class of its object, if there is one.
static CLASSES: [(Obis, Option<ClassId>); 12] = [
    (DISCONNECT_CONTROL_NAME, Some(ClassId(70))),
    (ASSOCIATION, Some(ClassId(15))),
    (DEVICE_NAME, Some(ClassId(1))),
    (SCRIPT_TABLE_NAME, Some(ClassId(9))),
    (LAST_SCHEDULE_NAME, Some(ClassId(22))),
    (IMPORT_REGISTER, Some(ClassId(3))),
    (EXPORT_REGISTER, Some(ClassId(3))),
    (IMPORT_LIMITER, Some(ClassId(71))),
    (EXPORT_LIMITER, Some(ClassId(71))),
    (Obis([0, 2, 17, 0, 0, 255]), None),
    (Obis([0, 4, 15, 0, 1, 255]), None),
    (UNKNOWN, None),
];

/// Returns the instance of a logical name.
fn instance_of(name: Obis) -> Option<Instance> {
    match object(name) {
        Some(row) => Some(row.instance),
        None => None,
    }
}

#[test]
fn names_have_their_class(rt: HostRuntime) {
    for (name, class) in &CLASSES {
        assert!(rt; find(*name) == *class, "{name:?}");
    }
    assert!(rt; instance_of(DEVICE_NAME) == Some(Instance::DeviceName));
    tables_are_told();
}

// No access.
const NOTHING: Rights = Rights {
    read: false,
    write: false,
};

// Access to read only.
const READ: Rights = Rights {
    read: true,
    write: false,
};

// Access to read and to write.
const WRITTEN: Rights = Rights {
    read: true,
    write: true,
};

/// An attribute (its object's name, its class, its number), and the rights of the public and of the
/// management client.
static RIGHTS: [(Obis, u16, u8, Rights, Rights); 29] = [
    (ASSOCIATION, 15, 1, READ, READ),
    (ASSOCIATION, 15, 2, READ, READ),
    (ASSOCIATION, 15, 3, NOTHING, NOTHING),
    (LAST_SCHEDULE_NAME, 22, 1, READ, READ),
    (LAST_SCHEDULE_NAME, 22, 2, NOTHING, WRITTEN),
    (LAST_SCHEDULE_NAME, 22, 4, NOTHING, WRITTEN),
    (SCRIPT_TABLE_NAME, 9, 1, READ, READ),
    (SCRIPT_TABLE_NAME, 9, 2, NOTHING, WRITTEN),
    (DEVICE_NAME, 1, 1, READ, READ),
    (DEVICE_NAME, 1, 2, READ, READ),
    (DEVICE_NAME, 1, 3, NOTHING, NOTHING),
    (DISCONNECT_CONTROL_NAME, 70, 0, NOTHING, NOTHING),
    (DISCONNECT_CONTROL_NAME, 70, 1, READ, READ),
    (DISCONNECT_CONTROL_NAME, 70, 2, READ, READ),
    (DISCONNECT_CONTROL_NAME, 70, 3, READ, READ),
    (DISCONNECT_CONTROL_NAME, 70, 4, READ, WRITTEN),
    (DISCONNECT_CONTROL_NAME, 70, 5, NOTHING, NOTHING),
    (DISCONNECT_CONTROL_NAME, 1, 2, NOTHING, NOTHING),
    (IMPORT_REGISTER, 3, 2, READ, READ),
    (EXPORT_REGISTER, 3, 3, READ, READ),
    (EXPORT_REGISTER, 3, 4, NOTHING, NOTHING),
    (IMPORT_LIMITER, 71, 1, READ, READ),
    (IMPORT_LIMITER, 71, 3, NOTHING, READ),
    (IMPORT_LIMITER, 71, 4, NOTHING, WRITTEN),
    (EXPORT_LIMITER, 71, 9, NOTHING, WRITTEN),
    (EXPORT_LIMITER, 71, 10, NOTHING, READ),
    (EXPORT_LIMITER, 71, 11, NOTHING, WRITTEN),
    (EXPORT_LIMITER, 71, 12, NOTHING, NOTHING),
    (UNKNOWN, 70, 4, NOTHING, NOTHING),
];

#[test]
fn each_level_has_its_rights(rt: HostRuntime) {
    for (name, class, number, public, management) in &RIGHTS {
        let reference = attribute_of(*class, *name, *number);
        assert!(rt;
            rights(Level::Public, &reference) == *public
                && rights(Level::Management, &reference) == *management,
            "{reference:?}"
        );
    }
    assert!(rt; attribute(&attribute_of(70, DISCONNECT_CONTROL_NAME, 4)).is_some());
}

/// A method (its object's name, its class, its number), and whether the management client may
/// execute it.
static METHODS: [(Obis, u16, u8, bool); 8] = [
    (DISCONNECT_CONTROL_NAME, 70, 1, true),
    (DISCONNECT_CONTROL_NAME, 70, 2, true),
    (DISCONNECT_CONTROL_NAME, 70, 3, false),
    (DISCONNECT_CONTROL_NAME, 70, 0, false),
    (DISCONNECT_CONTROL_NAME, 71, 1, false),
    (SCRIPT_TABLE_NAME, 9, 1, true),
    (SCRIPT_TABLE_NAME, 9, 2, false),
    (IMPORT_LIMITER, 71, 1, false),
];

fn method_of(class: u16, name: Obis, number: u8) -> MethodRef {
    MethodRef {
        class: ClassId(class),
        name,
        number,
    }
}

#[test]
fn the_management_client_alone_executes(rt: HostRuntime) {
    for (name, class, number, executes) in &METHODS {
        let method = method_of(*class, *name, *number);
        assert!(rt;
            !may_execute(Level::Public, &method)
                && may_execute(Level::Management, &method) == *executes,
            "{method:?}"
        );
    }
}

/// Returns whether a number is that of a result, and the result returns it.
fn has_its_result(number: u8) -> bool {
    match ResultCode::try_from(number) {
        Ok(code) => code.code() == number,
        Err(_) => false,
    }
}

#[test]
fn results_have_their_numbers(rt: HostRuntime) {
    for number in [0u8, 1, 2, 3, 4, 9, 12, 13, 16, 18, 19, 250] {
        assert!(rt; has_its_result(number), "{number}");
    }
    for number in [5u8, 11, 14, 17, 249, 251, 255] {
        assert!(rt;
            ResultCode::try_from(number) == Err(UnknownNumber(number)),
            "{number}"
        );
    }
}

/// Data, and the logical name in it. Only an octet-string of six bytes has one.
static NAMED: [(&str, Option<Obis>); 6] = [
    ("0906000060030AFF", Some(DISCONNECT_CONTROL_NAME)),
    ("09060001110000FF", Some(EXPORT_LIMITER)),
    ("0905000060030A", None),
    ("0907000060030AFF00", None),
    ("0A06000060030AFF", None),
    ("00", None),
];

/// Returns the logical name in the Data of a hexadecimal text. Returns `None` if out of memory.
fn name_of(alloc: Global, text: &str) -> Option<Option<Obis>> {
    let value = data(alloc, text)?;
    let name = name_in(&value);
    drop(value);
    Some(name)
}

#[test]
fn a_logical_name_has_six_bytes(rt: HostRuntime) {
    for (text, name) in &NAMED {
        assert!(rt; name_of(rt.alloc(), text) == Some(*name), "{text}");
    }
}

/// Data, and the script in it: its table, its selector, and whether that is the meter's table. Only
/// a structure of an octet-string of six bytes and a long-unsigned has one.
static SCRIPTS: [(&str, Option<(Obis, u16, bool)>); 5] = [
    (
        "0202090600000A006AFF120007",
        Some((SCRIPT_TABLE_NAME, 7, true)),
    ),
    (
        "02020906000060030AFF12FFFF",
        Some((DISCONNECT_CONTROL_NAME, 0xFFFF, false)),
    ),
    ("0202090600000A006AFF1107", None),
    ("0202090500000A006A120007", None),
    ("0102090600000A006AFF120007", None),
];

/// Returns the script in the Data of a hexadecimal text. Returns `None` if out of memory.
fn script_of(alloc: Global, text: &str) -> Option<Option<(Obis, u16, bool)>> {
    let value = data(alloc, text)?;
    let script = NamedScript::from_data(&value);
    drop(value);
    Some(script.map(|it| (it.table, it.selector, it.is_of_the_table())))
}

#[test]
fn a_script_is_named_by_its_table_and_its_selector(rt: HostRuntime) {
    for (text, script) in &SCRIPTS {
        assert!(rt; script_of(rt.alloc(), text) == Some(*script), "{text}");
    }
}

/// Returns whether a script of the meter's table is written as this text.
fn is_script_written(alloc: Global, selector: u16, text: &str) -> bool {
    match NamedScript::in_the_table(selector).to_data(alloc) {
        Ok(value) => {
            let found = is_text(alloc, &value, text);
            drop(value);
            found
        }
        Err(_) => false,
    }
}

#[test]
fn a_script_is_written_as_a_structure(rt: HostRuntime) {
    assert!(rt; is_script_written(rt.alloc(), 258, "0202090600000A006AFF120102"));
}

/// Data, and the lengths of the date-time, the date and the time in it, in bytes.
static DATES: [(&str, Option<usize>, Option<usize>, Option<usize>); 7] = [
    ("090C07E80101010A0000FF800000", Some(12), None, None),
    ("1907E80101010A0000FF800000", Some(12), None, None),
    ("090507E8010101", None, Some(5), None),
    ("1A07E8010101", None, Some(5), None),
    ("09040A000000", None, None, Some(4)),
    ("1B0A000000", None, None, Some(4)),
    ("090607E801010100", None, None, None),
];

/// Returns the lengths of the date-time, the date and the time in the Data of a hexadecimal text.
/// Returns `None` if out of memory.
fn lengths_of(alloc: Global, text: &str) -> Option<[Option<usize>; 3]> {
    let value = data(alloc, text)?;
    let count = |bytes: Option<&[u8]>| bytes.map(|it| it.len());
    let lengths = [
        count(date_time_bytes(&value)),
        count(date_bytes(&value)),
        count(time_bytes(&value)),
    ];
    drop(value);
    Some(lengths)
}

#[test]
fn dates_and_times_stand_in_octet_strings_and_in_their_own_types(rt: HostRuntime) {
    for (text, date_time, date, time) in &DATES {
        assert!(rt;
            lengths_of(rt.alloc(), text) == Some([*date_time, *date, *time]),
            "{text}"
        );
    }
}

/// Association LN, class 15, version 1: attributes 1 and 2 are read_only, and it has no methods.
const ASSOCIATION_ENTRY: &[u8] = b"\x02\x04\x12\x00\x0F\x11\x01\x09\x06\x00\x00\x28\x00\x00\xFF\
    \x02\x02\x01\x02\x02\x03\x0F\x01\x16\x01\x00\x02\x03\x0F\x02\x16\x01\x00\x01\x00";

/// The device name, class 1, version 0: attributes 1 and 2 are read_only, and it has no methods.
const DEVICE_NAME_ENTRY: &[u8] = b"\x02\x04\x12\x00\x01\x11\x00\x09\x06\x00\x00\x2A\x00\x00\xFF\
    \x02\x02\x01\x02\x02\x03\x0F\x01\x16\x01\x00\x02\x03\x0F\x02\x16\x01\x00\x01\x00";

/// The script table, class 9, version 0, for the public client: attribute 1 is read_only, attribute
/// 2 and method 1 are no_access.
const PUBLIC_SCRIPTS_ENTRY: &[u8] = b"\x02\x04\x12\x00\x09\x11\x00\x09\x06\x00\x00\x0A\x00\x6A\xFF\
    \x02\x02\x01\x02\x02\x03\x0F\x01\x16\x01\x00\x02\x03\x0F\x02\x16\x00\x00\
    \x01\x01\x02\x02\x0F\x01\x16\x00";

/// The script table, class 9, version 0, for the management client: attribute 1 is read_only,
/// attribute 2 is read_and_write, and method 1 may be executed.
const MANAGEMENT_SCRIPTS_ENTRY: &[u8] =
    b"\x02\x04\x12\x00\x09\x11\x00\x09\x06\x00\x00\x0A\x00\x6A\xFF\
    \x02\x02\x01\x02\x02\x03\x0F\x01\x16\x01\x00\x02\x03\x0F\x02\x16\x03\x00\
    \x01\x01\x02\x02\x0F\x01\x16\x01";

/// The start of a schedule's entry, class 22, version 0, up to the value group A of its logical
/// name.
const SCHEDULE_START: &[u8] = b"\x02\x04\x12\x00\x16\x11\x00\x09\x06\x00";

/// The rest of a schedule's entry, after the value group B, for the public client: attribute 1 is
/// read_only, attributes 2 to 4 are no_access, and it has no methods.
const PUBLIC_SCHEDULE_REST: &[u8] = b"\x0F\x00\x01\xFF\
    \x02\x02\x01\x04\x02\x03\x0F\x01\x16\x01\x00\x02\x03\x0F\x02\x16\x00\x00\
    \x02\x03\x0F\x03\x16\x00\x00\x02\x03\x0F\x04\x16\x00\x00\x01\x00";

/// The rest of a schedule's entry, after the value group B, for the management client: attribute 1
/// is read_only, attributes 2 to 4 are read_and_write, and it has no methods.
const MANAGEMENT_SCHEDULE_REST: &[u8] = b"\x0F\x00\x01\xFF\
    \x02\x02\x01\x04\x02\x03\x0F\x01\x16\x01\x00\x02\x03\x0F\x02\x16\x03\x00\
    \x02\x03\x0F\x03\x16\x03\x00\x02\x03\x0F\x04\x16\x03\x00\x01\x00";

/// Disconnect control, class 70, version 0, for the public client: attributes 1 to 4 are read_only,
/// and methods 1 and 2 are no_access.
const PUBLIC_CONTROL_ENTRY: &[u8] = b"\x02\x04\x12\x00\x46\x11\x00\x09\x06\x00\x00\x60\x03\x0A\xFF\
    \x02\x02\x01\x04\x02\x03\x0F\x01\x16\x01\x00\x02\x03\x0F\x02\x16\x01\x00\
    \x02\x03\x0F\x03\x16\x01\x00\x02\x03\x0F\x04\x16\x01\x00\
    \x01\x02\x02\x02\x0F\x01\x16\x00\x02\x02\x0F\x02\x16\x00";

/// Disconnect control, class 70, version 0, for the management client: attributes 1 to 3 are
/// read_only, attribute 4 is read_and_write, and methods 1 and 2 may be executed.
const MANAGEMENT_CONTROL_ENTRY: &[u8] =
    b"\x02\x04\x12\x00\x46\x11\x00\x09\x06\x00\x00\x60\x03\x0A\xFF\
    \x02\x02\x01\x04\x02\x03\x0F\x01\x16\x01\x00\x02\x03\x0F\x02\x16\x01\x00\
    \x02\x03\x0F\x03\x16\x01\x00\x02\x03\x0F\x04\x16\x03\x00\
    \x01\x02\x02\x02\x0F\x01\x16\x01\x02\x02\x0F\x02\x16\x01";

/// The start of a register's entry, class 3, version 0, up to the value group B of its logical
/// name.
const REGISTER_START: &[u8] = b"\x02\x04\x12\x00\x03\x11\x00\x09\x06\x01\x00";

/// The rest of a register's entry, after the value group C: attributes 1 to 3 are read_only, and it
/// has no methods.
const REGISTER_REST: &[u8] = b"\x07\x00\xFF\
    \x02\x02\x01\x03\x02\x03\x0F\x01\x16\x01\x00\x02\x03\x0F\x02\x16\x01\x00\
    \x02\x03\x0F\x03\x16\x01\x00\x01\x00";

/// The start of a limiter's entry, class 71, version 0, up to the value group A of its logical
/// name.
const LIMITER_START: &[u8] = b"\x02\x04\x12\x00\x47\x11\x00\x09\x06\x00";

/// The rest of a limiter's entry, after the value group B, for the public client: attribute 1 is
/// read_only, attributes 2 to 11 are no_access, and it has no methods.
const PUBLIC_LIMITER_REST: &[u8] = b"\x11\x00\x00\xFF\
    \x02\x02\x01\x0B\x02\x03\x0F\x01\x16\x01\x00\x02\x03\x0F\x02\x16\x00\x00\
    \x02\x03\x0F\x03\x16\x00\x00\x02\x03\x0F\x04\x16\x00\x00\x02\x03\x0F\x05\x16\x00\x00\
    \x02\x03\x0F\x06\x16\x00\x00\x02\x03\x0F\x07\x16\x00\x00\x02\x03\x0F\x08\x16\x00\x00\
    \x02\x03\x0F\x09\x16\x00\x00\x02\x03\x0F\x0A\x16\x00\x00\x02\x03\x0F\x0B\x16\x00\x00\x01\x00";

/// The rest of a limiter's entry, after the value group B, for the management client: attributes 1
/// to 3 and 10 are read_only, the others are read_and_write, and it has no methods.
const MANAGEMENT_LIMITER_REST: &[u8] = b"\x11\x00\x00\xFF\
    \x02\x02\x01\x0B\x02\x03\x0F\x01\x16\x01\x00\x02\x03\x0F\x02\x16\x01\x00\
    \x02\x03\x0F\x03\x16\x01\x00\x02\x03\x0F\x04\x16\x03\x00\x02\x03\x0F\x05\x16\x03\x00\
    \x02\x03\x0F\x06\x16\x03\x00\x02\x03\x0F\x07\x16\x03\x00\x02\x03\x0F\x08\x16\x03\x00\
    \x02\x03\x0F\x09\x16\x03\x00\x02\x03\x0F\x0A\x16\x01\x00\x02\x03\x0F\x0B\x16\x03\x00\x01\x00";

/// An array of twelve entries.
const LIST_START: &[u8] = b"\x01\x0C";

/// The object_list of the public client.
static PUBLIC_LIST: [&[u8]; 29] = [
    LIST_START,
    ASSOCIATION_ENTRY,
    DEVICE_NAME_ENTRY,
    REGISTER_START,
    &[1],
    REGISTER_REST,
    REGISTER_START,
    &[2],
    REGISTER_REST,
    PUBLIC_SCRIPTS_ENTRY,
    SCHEDULE_START,
    &[0],
    PUBLIC_SCHEDULE_REST,
    SCHEDULE_START,
    &[1],
    PUBLIC_SCHEDULE_REST,
    SCHEDULE_START,
    &[2],
    PUBLIC_SCHEDULE_REST,
    SCHEDULE_START,
    &[3],
    PUBLIC_SCHEDULE_REST,
    PUBLIC_CONTROL_ENTRY,
    LIMITER_START,
    &[0],
    PUBLIC_LIMITER_REST,
    LIMITER_START,
    &[1],
    PUBLIC_LIMITER_REST,
];

/// The object_list of the management client.
static MANAGEMENT_LIST: [&[u8]; 29] = [
    LIST_START,
    ASSOCIATION_ENTRY,
    DEVICE_NAME_ENTRY,
    REGISTER_START,
    &[1],
    REGISTER_REST,
    REGISTER_START,
    &[2],
    REGISTER_REST,
    MANAGEMENT_SCRIPTS_ENTRY,
    SCHEDULE_START,
    &[0],
    MANAGEMENT_SCHEDULE_REST,
    SCHEDULE_START,
    &[1],
    MANAGEMENT_SCHEDULE_REST,
    SCHEDULE_START,
    &[2],
    MANAGEMENT_SCHEDULE_REST,
    SCHEDULE_START,
    &[3],
    MANAGEMENT_SCHEDULE_REST,
    MANAGEMENT_CONTROL_ENTRY,
    LIMITER_START,
    &[0],
    MANAGEMENT_LIMITER_REST,
    LIMITER_START,
    &[1],
    MANAGEMENT_LIMITER_REST,
];

/// Returns whether a text is the concatenation of these parts.
fn is_made_of(text: &[u8], parts: &[&[u8]]) -> bool {
    let mut rest = text;
    for part in parts {
        if !rest.starts_with(part) {
            return false;
        }
        rest = rest.get(part.len()..).unwrap_or(&[]);
    }
    rest.is_empty()
}

/// Writes the object_list that a client of this level reads.
fn write_list(alloc: Global, level: Level, text: &mut Octets) -> Result<(), AllocError> {
    let list = object_list(alloc, level)?;
    let written = write(alloc, &list, text);
    drop(list);
    written
}

/// Returns the length of the object_list of a level, or `None` if it is not made of these parts.
fn list_len(alloc: Global, level: Level, parts: &[&[u8]]) -> Result<Option<usize>, AllocError> {
    let mut text = Octets::new(alloc);
    let written = write_list(alloc, level, &mut text);
    let is_made = is_made_of(text.as_slice(), parts);
    let len = text.len();
    drop(text);
    written?;
    Ok(if is_made { Some(len) } else { None })
}

#[test]
fn the_object_list_tells_the_public_client_its_access(rt: HostRuntime) -> Result<(), Fail> {
    let len = list_len(rt.alloc(), Level::Public, &PUBLIC_LIST)?;
    assert!(rt; len == Some(650));
    Ok(())
}

#[test]
fn the_object_list_tells_the_management_client_its_access(rt: HostRuntime) -> Result<(), Fail> {
    let len = list_len(rt.alloc(), Level::Management, &MANAGEMENT_LIST)?;
    assert!(rt; len.is_some());
    Ok(())
}
