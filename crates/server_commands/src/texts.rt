//! The texts of options.
ghost use Rattle.std.specs.Prelude.{◌≡◌, ◌≤◌, length, IfOk, IfErr};
ghost use Rattle.server_commands.specs.Options.{IsTextFault};

use cosem_axdr::Octets;
use std::alloc::Global;

// Returns the bytes of an option's text, 1 to `longest`. Errors: `wrong` for any other text;
// `memory` if out of memory.
pub(crate) fn option_octets<F: Copy>(
    alloc: Global,
    text: &str,
    longest: usize,
    wrong: F,
    memory: F,
) -> Result<Octets, F>
    ensures bytes { IfOk result (λ octets. octets ≡ text.now) }
    ensures fits { IfOk result (λ octets. (1 ≤ length octets) × (length octets ≤ longest)) }
    ensures err { IfErr result (IsTextFault wrong memory longest (length text.now)) }
{
    let bytes = text.as_bytes();
    if bytes.is_empty() || bytes.len() > longest {
        return Err(wrong);
    }
    Octets::from_slice(alloc, bytes).map_err(|_| memory)
}
