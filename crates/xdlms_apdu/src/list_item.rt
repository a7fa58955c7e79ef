//! `ListItem`: a part of which an APDU has a list, with its format. A list of such parts is read
//! and written by code that is proved once for all of them.
ghost use Rattle.std.specs.Prelude.{◌≡◌, ◌++◌, OnOk, OnErr};
ghost use Rattle.cosem_axdr.specs.Appending.{Extends};
ghost use Rattle.xdlms_apdu.specs.Parts.{Part, Reads, target_part, result_part};

use crate::fault::ApduFault;
use crate::field_reading::{read_result, read_target};
use crate::field_writing::{put_result, put_target};
use cosem_axdr::Octets;
use cosem_names::{AttributeSelection, GetResult};
use std::alloc::{AllocError, Global};
use wire_bytes::Cursor;

// A part of which an APDU has a list.
pub(crate) trait ListItem: Drop {
    // Ghost value: the format of the part.
    ghost part: { Part Self };

    // Returns the number of items for which a reader allocates memory at once, if `len` bytes are
    // left. It allocates for further items as it reads them.
    fn capacity(len: usize) -> usize;

    // Reads an item.
    fn read(alloc: Global, reader: &mut Cursor) -> Result<Self, ApduFault>
        ensures { Reads (λ item. item) result reader.new (part.read reader.old) };

    // Appends an item.
    fn put(&self, out: &mut Octets) -> Result<(), AllocError>
        ensures ok { OnOk result (out.new ≡ out.old ++ part.text self.now) }
        ensures extends { OnErr result (Extends out.old out.new) };
}

// The least number of bytes of an attribute in a list: its class, name and number, and no access
// selection.
const MIN_TARGET: usize = 10;

impl ListItem for AttributeSelection {
    ghost part = { target_part };

    fn capacity(len: usize) -> usize {
        len / MIN_TARGET
    }

    fn read(alloc: Global, reader: &mut Cursor) -> Result<AttributeSelection, ApduFault> {
        read_target(alloc, reader)
    }

    fn put(&self, out: &mut Octets) -> Result<(), AllocError> {
        put_target(self, out)
    }
}

impl ListItem for GetResult {
    ghost part = { result_part };

    fn capacity(_len: usize) -> usize {
        0
    }

    fn read(alloc: Global, reader: &mut Cursor) -> Result<GetResult, ApduFault> {
        read_result(alloc, reader)
    }

    fn put(&self, out: &mut Octets) -> Result<(), AllocError> {
        put_result(self, out)
    }
}
