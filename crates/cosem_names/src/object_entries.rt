//! Builds the object_list of Association LN (IEC 62056-6-2, class 15) from the table, for one
//! access level.
ghost use Rattle.std.specs.Prelude.{◌≡◌, IfOk};
ghost use Rattle.cosem_names.specs.Objects.{access_by, execution_by};
ghost use Rattle.cosem_names.specs.ObjectList.{access_number, execution_number, attribute_entry, method_entry, attribute_entries, method_entries, access_rights, object_entry, object_entries, object_list_of};

use crate::level::Level;
use crate::name::ClassId;
use crate::objects::{ATTRIBUTES, Access, Attribute, METHODS, Method, OBJECTS, Object};
use cosem_axdr::{Data, Items, Octets};
use std::alloc::{AllocError, Global};

/// Returns object_list, attribute 2 of the Association LN object (IEC 62056-6-2, class 15), as a
/// client of this level reads it: each object of the table with its class, version and logical
/// name, and this level's access modes of its attributes and methods. Fails only if out of memory.
pub fn object_list(alloc: Global, level: Level) -> Result<Data, AllocError>
    ensures { IfOk result (λ list. list ≡ object_list_of level) }
{
    let entries = object_entries(alloc, level, &ATTRIBUTES, &METHODS, &OBJECTS)?;
    Ok(Data::Array(Items::from_vec(entries)))
}

// Returns the Data of the entries of objects, in order. `attributes` and `methods` have those of
// their classes.
#[tactic(auto, unfolding(crate::specs::ObjectList::object_entries))]
fn object_entries(
    alloc: Global,
    level: Level,
    attributes: &[Attribute],
    methods: &[Method],
    rows: &[Object],
) -> Result<Vec<Data>, AllocError>
    ensures { IfOk result (λ entries. entries.items
        ≡ object_entries level attributes.now methods.now rows.now) }
{
    let mut entries = Vec::with_capacity(alloc, rows.len())?;
    for row in rows {
        entries.push(object_entry(alloc, level, attributes, methods, row)?)?;
    }
    Ok(entries)
}

// Returns the Data of the entry of an object: its class, version and logical name, and the access
// rights of its class.
#[tactic(auto, unfolding(crate::specs::ObjectList::object_entry))]
fn object_entry(
    alloc: Global,
    level: Level,
    attributes: &[Attribute],
    methods: &[Method],
    row: &Object,
) -> Result<Data, AllocError>
    ensures { IfOk result (λ entry. entry ≡ object_entry level attributes.now methods.now row.now) }
{
    let entry = vec![in alloc;
        Data::LongUnsigned(row.class.0),
        Data::Unsigned(row.version),
        Data::OctetString(Octets::from_slice(alloc, &row.name.0)?),
        access_rights(alloc, level, row.class, attributes, methods)?,
    ]?;
    Ok(Data::Structure(Items::from_vec(entry)))
}

// Returns the Data of the access rights of a class: those to its attributes, then those to its
// methods.
#[tactic(auto, unfolding(crate::specs::ObjectList::access_rights))]
fn access_rights(
    alloc: Global,
    level: Level,
    class: ClassId,
    attributes: &[Attribute],
    methods: &[Method],
) -> Result<Data, AllocError>
    ensures { IfOk result (λ rights. rights
        ≡ access_rights level class attributes.now methods.now) }
{
    let attributes = attribute_entries(alloc, level, class, attributes)?;
    let methods = method_entries(alloc, level, class, methods)?;
    let rights = vec![in alloc;
        Data::Array(Items::from_vec(attributes)),
        Data::Array(Items::from_vec(methods)),
    ]?;
    Ok(Data::Structure(Items::from_vec(rights)))
}

// Returns the Data of the entries of a class's attributes, in the order of the rows.
#[tactic(auto, unfolding(crate::specs::ObjectList::attribute_entries))]
fn attribute_entries(
    alloc: Global,
    level: Level,
    class: ClassId,
    rows: &[Attribute],
) -> Result<Vec<Data>, AllocError>
    ensures { IfOk result (λ entries. entries.items ≡ attribute_entries level class rows.now) }
{
    let mut entries = Vec::new(alloc);
    for row in rows {
        if row.class == class {
            entries.push(attribute_entry(alloc, level, row)?)?;
        }
    }
    Ok(entries)
}

// Returns the Data of the entries of a class's methods, in the order of the rows.
#[tactic(auto, unfolding(crate::specs::ObjectList::method_entries))]
fn method_entries(
    alloc: Global,
    level: Level,
    class: ClassId,
    rows: &[Method],
) -> Result<Vec<Data>, AllocError>
    ensures { IfOk result (λ entries. entries.items ≡ method_entries level class rows.now) }
{
    let mut entries = Vec::new(alloc);
    for row in rows {
        if row.class == class {
            entries.push(method_entry(alloc, level, row)?)?;
        }
    }
    Ok(entries)
}

// Returns the Data of the entry of an attribute: its number, its access mode and no access
// selectors.
#[tactic(auto, unfolding(crate::specs::ObjectList::attribute_entry))]
fn attribute_entry(alloc: Global, level: Level, row: &Attribute) -> Result<Data, AllocError>
    ensures { IfOk result (λ entry. entry ≡ attribute_entry level row.now) }
{
    let access = match level {
        Level::Public => row.public,
        Level::Management => row.management,
    };
    let entry = vec![in alloc;
        Data::Integer(row.number.cast_signed()),
        Data::Enum(access_number(access)),
        Data::Null,
    ]?;
    Ok(Data::Structure(Items::from_vec(entry)))
}

// Returns the Data of the entry of a method: its number and its access mode.
#[tactic(auto, unfolding(crate::specs::ObjectList::method_entry))]
fn method_entry(alloc: Global, level: Level, row: &Method) -> Result<Data, AllocError>
    ensures { IfOk result (λ entry. entry ≡ method_entry level row.now) }
{
    let allowed = match level {
        Level::Public => row.public,
        Level::Management => row.management,
    };
    let entry = vec![in alloc;
        Data::Integer(row.number.cast_signed()),
        Data::Enum(u8::from(allowed)),
    ]?;
    Ok(Data::Structure(Items::from_vec(entry)))
}

// Returns the number of an attribute's access mode.
fn access_number(access: Access) -> u8
    ensures { result ≡ access_number access }
{
    match access {
        Access::NoAccess => 0,
        Access::ReadOnly => 1,
        Access::ReadAndWrite => 3,
    }
}
