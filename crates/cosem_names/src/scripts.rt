//! A reference to a script, by script table and selector, as schedules and limiters hold it (IEC
//! 62056-6-2, classes 22 and 71).
ghost use Rattle.std.specs.Prelude.{◌≡◌, Some, IfOk};
ghost use Rattle.cosem_names.specs.Scripts.{script_data, script_of, is_of_the_table, script_at};

use crate::forms::name_in;
use crate::logical_name::SCRIPT_TABLE;
use crate::name::Obis;
use cosem_axdr::{Data, Items, Octets};
use std::alloc::{AllocError, Global};

/// A script as other objects name it (IEC 62056-6-2: executed_script of class 22, actions of class
/// 71): a script table's logical name, and a selector in that table.
#[derive(Clone, Copy, Debug)]
pub struct NamedScript {
    /// `script_logical_name`: the logical name of the script table.
    pub table: Obis,
    /// `script_selector`: the identifier of the script in that table.
    pub selector: u16,
}

impl NamedScript {
    /// Returns a script of the meter's script table.
    pub fn in_the_table(selector: u16) -> NamedScript
        ensures { result ≡ script_at selector }
    {
        NamedScript {
            table: SCRIPT_TABLE,
            selector,
        }
    }

    /// Reads a script from a structure of an octet-string of six bytes and a long-unsigned. Returns
    /// `None` for any other Data.
    pub fn from_data(value: &Data) -> Option<NamedScript>
        ensures { result ≡ script_of value.now }
    {
        let [name, selector] = value.structure()? else {
            return None;
        };
        Some(NamedScript {
            table: name_in(name)?,
            selector: selector.long_unsigned()?,
        })
    }

    /// Returns whether the script is of the meter's script table.
    pub fn is_of_the_table(&self) -> bool
        ensures { result ≡ is_of_the_table self.now }
    {
        self.table == SCRIPT_TABLE
    }

    /// Returns the Data of the structure that names the script. Fails only if out of memory.
    #[tactic(auto, unfolding(crate::specs::Scripts::script_data))]
    pub fn to_data(&self, alloc: Global) -> Result<Data, AllocError>
        ensures value { IfOk result (λ value. value ≡ script_data self.now) }
        // Reading the Data returns the script.
        ensures read_back { IfOk result (λ value. script_of value ≡ Some self.now) }
    {
        let name = Octets::from_slice(alloc, &self.table.0)?;
        Ok(Data::Structure(Items::from_vec(vec![in alloc;
            Data::OctetString(name),
            Data::LongUnsigned(self.selector),
        ]?)))
    }
}
