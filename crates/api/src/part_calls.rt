// Reading a part back and laying one out. Refusals cross as document 01's numbers.
ghost use Rattle.std.specs.Prelude.{◌≡◌, length};
ghost use Rattle.parts.specs.Part.{decode_of, lay_out_of, lay_out_bytes};
ghost use Rattle.parts.specs.Plain.{plain};

use parts::plain::DecodedPlain;

// Reads a part back.
#[unsafe(no_mangle)]
pub extern "C" fn waxbramble_decode(part: &[u8]) -> DecodedPlain
    ensures { result ≡ plain (decode_of part.now) }
{
    parts::plain::decode_plain(part)
}

// Lays a run of record bytes out: 0, or the refusal's number.
#[unsafe(no_mangle)]
pub extern "C" fn waxbramble_lay_out(run: &[u8], position: u32, lost: u32, part: &mut [u8]) -> u32
    ensures value { result ≡ lay_out_of run.now position (length part.old) }
    ensures part_after { part.new ≡ lay_out_bytes run.now position lost part.old }
{
    parts::plain::lay_out_plain(run, position, lost, part)
}
