//! Proves that the tables of the code are the tables of the definitions.
ghost use Rattle.std.specs.Prelude.{◌≡◌};
ghost use Rattle.cosem_names.specs.Table.{objects, attributes, methods};

use crate::objects::{ATTRIBUTES, METHODS, OBJECTS};

/// Proves that the tables are those of the definitions: the same objects, attributes and methods in
/// the same order, with the same classes, versions, names, numbers and rights.
pub fn tables_are_told()
    ensures objects { OBJECTS ≡ objects }
    ensures attributes { ATTRIBUTES ≡ attributes }
    ensures methods { METHODS ≡ methods }
{}
