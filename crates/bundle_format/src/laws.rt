//! What the layers above may rest on, as the contract of a function that does nothing.

ghost use Rattle.bundle_format.specs.Laws.{HeadersReadAgain};

/// Bytes are read as a bundle exactly where they are the spelling of a lawful header with a payload of
/// its length behind it, and no header's spelling begins another's.
pub fn headers_read_again()
    ensures { HeadersReadAgain }
{}
