//! Proves that cutting a text into blocks and joining them returns the text.
ghost use Rattle.xdlms_blocks.specs.Law.{IsCut, IsWhole, IsOnly, IsJoined};

/// Proves that a text has one list of blocks of a size: the pieces that a transfer returns. Their
/// concatenation is the text, and joining them in order returns the text.
pub fn one_text()
    ensures cut { IsCut }
    ensures whole { IsWhole }
    ensures unique { IsOnly }
    ensures joined { IsJoined }
{}
