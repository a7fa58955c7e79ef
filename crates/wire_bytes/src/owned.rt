//! `and_keep`, which readers use instead of `?` after they have read an owned value.
ghost use Rattle.std.specs.Prelude.{◌≡◌, Ok, Err, IfOk, IfErr};

/// Pairs `before` with a successful `next`; on an error drops `before` and returns the error.
///
/// It replaces `?` after an owned value was read, because an implicit drop is costly to prove.
pub fn and_keep<A: Drop, B: Drop, F: Drop>(before: A, next: Result<B, F>) -> Result<(A, B), F>
    ensures ok { IfOk result (λ both. (both.0 ≡ before) × (next ≡ Ok both.1)) }
    ensures err { IfErr result (λ fault. next ≡ Err fault) }
{
    match next {
        Ok(next) => Ok((before, next)),
        Err(fault) => {
            drop(before);
            Err(fault)
        }
    }
}
