//! Proves that a stream of bytes divides into frames in exactly one way.
ghost use Rattle.wrapper_frame.specs.Law.{IsFound, IsOnly, HasEnd, IsReadBack};

/// Proves that any bytes are the texts of certain frames, followed by a rest that does not begin
/// with a frame, and of no other frames and rest.
pub fn one_reading()
    ensures found { IsFound }
    ensures unique { IsOnly }
    ensures ends { HasEnd }
    ensures read_back { IsReadBack }
{}
