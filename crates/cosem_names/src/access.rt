//! Looks up objects, attributes and methods in the table, with the rights of each access level.
ghost use Rattle.std.specs.Prelude.{◌≡◌, option_map};
ghost use Rattle.cosem_names.specs.Objects.{object_of, class_attribute_of, class_method_of, attribute_of, method_of, rights_of, class_rights_of, rights_to, may_execute_of, class_execution_of, execution_to};

use crate::level::{Level, Rights};
use crate::name::{AttrRef, ClassId, MethodRef, Obis};
use crate::objects::{ATTRIBUTES, Access, Attribute, METHODS, Method, OBJECTS, Object};

/// Returns the row of the object with this logical name, or `None` if no object has it.
#[tactic(auto, unfolding(crate::specs::Objects::object_of))]
pub fn object(name: Obis) -> Option<Object>
    ensures { result ≡ object_of name }
{
    OBJECTS.iter().copied().find(|row| row.name.equals(name))
}

/// Returns the class of the object with this logical name, or `None` if no object has it.
pub fn find(name: Obis) -> Option<ClassId>
    ensures { result ≡ option_map (λ row. row.class) (object_of name) }
{
    let row = object(name)?;
    Some(row.class)
}

// Returns the row of an attribute of a class, or `None` if the class has no attribute of this
// number.
#[tactic(auto, unfolding(crate::specs::Objects::class_attribute_of))]
fn class_attribute(class: ClassId, number: u8) -> Option<Attribute>
    ensures { result ≡ class_attribute_of class number }
{
    ATTRIBUTES
        .iter()
        .copied()
        .find(|row| row.is_of(class, number))
}

// Returns the row of a method of a class, or `None` if the class has no method of this number.
#[tactic(auto, unfolding(crate::specs::Objects::class_method_of))]
fn class_method(class: ClassId, number: u8) -> Option<Method>
    ensures { result ≡ class_method_of class number }
{
    METHODS
        .iter()
        .copied()
        .find(|row| row.class == class && row.number == number)
}

/// Returns the row of an attribute. Returns `None` if no object has the logical name, the object is
/// of another class, or the class has no attribute of that number.
#[tactic(auto, unfolding(crate::specs::Objects::attribute_of))]
pub fn attribute(reference: &AttrRef) -> Option<Attribute>
    ensures { result ≡ attribute_of reference.now }
{
    let row = object(reference.name)?;
    if row.class != reference.class {
        return None;
    }
    class_attribute(row.class, reference.number)
}

// Returns the method that a reference names, or `None` if no object has this name and class, or the
// class has no such method.
#[tactic(auto, unfolding(crate::specs::Objects::method_of))]
fn method(reference: &MethodRef) -> Option<Method>
    ensures { result ≡ method_of reference.now }
{
    let row = object(reference.name)?;
    if row.class != reference.class {
        return None;
    }
    class_method(row.class, reference.number)
}

/// Returns the rights of a client of this level to an attribute. If there is no such attribute, it
/// may neither read nor write.
#[tactic(auto, unfolding(crate::specs::Objects::rights_of))]
pub fn rights(level: Level, reference: &AttrRef) -> Rights
    ensures { result ≡ rights_of level reference.now }
{
    rights_in(level, attribute(reference))
}

/// Returns the rights of a client of this level to an attribute of a class. If the class has no
/// such attribute, it may neither read nor write.
#[tactic(auto, unfolding(crate::specs::Objects::class_rights_of))]
pub fn class_rights(level: Level, class: ClassId, number: u8) -> Rights
    ensures { result ≡ class_rights_of level class number }
{
    rights_in(level, class_attribute(class, number))
}

// Returns the rights of a client of this level to the attribute of a row.
fn rights_in(level: Level, row: Option<Attribute>) -> Rights
    ensures { result ≡ rights_to level row }
{
    let Some(row) = row else {
        return Rights {
            read: false,
            write: false,
        };
    };
    let access = match level {
        Level::Public => row.public,
        Level::Management => row.management,
    };
    match access {
        Access::NoAccess => Rights {
            read: false,
            write: false,
        },
        Access::ReadOnly => Rights {
            read: true,
            write: false,
        },
        Access::ReadAndWrite => Rights {
            read: true,
            write: true,
        },
    }
}

/// Returns whether a client of this level may execute a method. False if there is no such method.
#[tactic(auto, unfolding(crate::specs::Objects::may_execute_of))]
pub fn may_execute(level: Level, reference: &MethodRef) -> bool
    ensures { result ≡ may_execute_of level reference.now }
{
    may_execute_in(level, method(reference))
}

/// Returns whether a client of this level may execute a method of a class. False if the class has
/// no such method.
#[tactic(auto, unfolding(crate::specs::Objects::class_execution_of))]
pub fn may_execute_of_class(level: Level, class: ClassId, number: u8) -> bool
    ensures { result ≡ class_execution_of level class number }
{
    may_execute_in(level, class_method(class, number))
}

// Returns whether a client of this level may execute the method of a row.
fn may_execute_in(level: Level, row: Option<Method>) -> bool
    ensures { result ≡ execution_to level row }
{
    match (row, level) {
        (None, _) => false,
        (Some(row), Level::Public) => row.public,
        (Some(row), Level::Management) => row.management,
    }
}
