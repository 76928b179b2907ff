//! What the layers above may rest on, as the contracts of functions.

ghost use Rattle.std.specs.Prelude.{◌≡◌, true, length};
ghost use Rattle.bundle_format.specs.Headers.{is_lawful};
ghost use Rattle.incoming.specs.Laws.{SealedComesIn, BeginsSealed, BeginsRead};

use bundle_format::{headers_read_again, write_header};
use td_words::Header;

/// A bundle that was sealed comes in as it was made: under its header, with its tag, and with the words
/// of its payload.
pub fn sealed_comes_in()
    ensures { SealedComesIn }
{}

/// A bundle that is sealed under a lawful header begins with what `write_header` writes of it, the tag among
/// that, and so does each text that is read as a bundle with it.
pub fn begin_bundle(header: &Header, out: &mut [u8])
    requires room { length out.old ≡ 64 }
    requires lawful { is_lawful header.now ≡ true }
    ensures sealed { BeginsSealed header.now out.new }
    ensures read { BeginsRead header.now out.new }
{
    headers_read_again();
    write_header(header, out);
}
