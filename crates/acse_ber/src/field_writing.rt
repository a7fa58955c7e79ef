//! Writers of fields, with each length in its shortest form.
ghost use Rattle.std.specs.Prelude.{◌≡◌, ◌++◌, OnOk};
ghost use Rattle.acse_ber.specs.Text.{tagged_text, context_text, user_text};

use crate::tag;
use cosem_axdr::{Octets, append_length};
use std::alloc::{AllocError, Global};

// Appends an application context name.
pub(crate) fn put_context(alloc: Global, context: &[u8], out: &mut Octets) -> Result<(), AllocError>
    ensures { OnOk result (out.new ≡ out.old ++ context_text context.now) }
{
    put_nested(
        alloc,
        tag::APPLICATION_CONTEXT_NAME,
        tag::OBJECT_IDENTIFIER,
        context,
        out,
    )
}

// Appends the field user-information with these bytes as its octet-string.
pub(crate) fn put_user(alloc: Global, user: &[u8], out: &mut Octets) -> Result<(), AllocError>
    ensures { OnOk result (out.new ≡ out.old ++ user_text user.now) }
{
    put_nested(alloc, tag::USER_INFORMATION, tag::OCTET_STRING, user, out)
}

// Appends an outer tag that contains an inner tag with contents.
pub(crate) fn put_nested(
    alloc: Global,
    outer: u8,
    inner: u8,
    contents: &[u8],
    out: &mut Octets,
) -> Result<(), AllocError>
    ensures { OnOk result (out.new ≡ out.old
        ++ tagged_text outer (tagged_text inner contents.now)) }
{
    let mut field = Octets::new(alloc);
    put_tagged(inner, contents, &mut field)?;
    put_tagged(outer, field.as_slice(), out)
}

// Appends a tag, the length and the contents.
pub(crate) fn put_tagged(tag: u8, contents: &[u8], out: &mut Octets) -> Result<(), AllocError>
    ensures { OnOk result (out.new ≡ out.old ++ tagged_text tag contents.now) }
{
    out.push(tag)?;
    append_length(contents.len(), out)?;
    out.extend_from_slice(contents)
}
