// The functions of `layout` and `parts`: refusals cross as document 01's numbers, a returned part as a copy.
// `layout_decode` and `layout_lay_out` are api's two under other names: this library stands without that one.
ghost use Rattle.std.specs.Prelude.{◌≡◌, length};
ghost use Rattle.layout.specs.Bytes.{copied};
ghost use Rattle.layout.specs.Header.{opened, used_set};
ghost use Rattle.parts.specs.Part.{decode_of, lay_out_of, lay_out_bytes, run_of};
ghost use Rattle.layout.specs.Record.{laid_on};
ghost use Rattle.parts.specs.Plain.{plain};
ghost use Rattle.probe.specs.Layout.{handed};

use counts::position::Position;
use parts::plain::DecodedPlain;

#[unsafe(no_mangle)]
pub extern "C" fn layout_decode(part: &[u8]) -> DecodedPlain
    ensures { result ≡ plain (decode_of part.now) }
{
    parts::plain::decode_plain(part)
}

// Copies the run to the front of out, where it fits; answers its length.
#[unsafe(no_mangle)]
pub extern "C" fn layout_run(part: &[u8], out: &mut [u8]) -> usize
    ensures value { result ≡ length (run_of part.now) }
    ensures out_after { out.new ≡ handed (run_of part.now) out.old }
{
    let run = parts::part::run(part);
    let n = run.len();
    if n <= out.len() {
        layout::bytes::copy(run, &mut out[..n]);
    }
    n
}

#[unsafe(no_mangle)]
pub extern "C" fn layout_lay_out(run: &[u8], position: u32, lost: u32, part: &mut [u8]) -> u32
    ensures value { result ≡ lay_out_of run.now position (length part.old) }
    ensures part_after { part.new ≡ lay_out_bytes run.now position lost part.old }
{
    parts::plain::lay_out_plain(run, position, lost, part)
}

#[unsafe(no_mangle)]
pub extern "C" fn layout_write_header(part: &mut [u8], position: u32, lost: u32)
    ensures { part.new ≡ opened part.old position lost }
{
    layout::header::write_header(part, Position(position), lost)
}

#[unsafe(no_mangle)]
pub extern "C" fn layout_write_used(part: &mut [u8], used: u32)
    ensures { part.new ≡ used_set part.old used }
{
    layout::header::write_used(part, used)
}

#[unsafe(no_mangle)]
pub extern "C" fn layout_lay_record(desk: &mut [u8], payload: &[u8], kind: u8, producer: u8)
    ensures { desk.new ≡ laid_on desk.old payload.now kind producer }
{
    layout::record::lay_record(desk, payload, kind, producer)
}

#[unsafe(no_mangle)]
pub extern "C" fn layout_copy(src: &[u8], dst: &mut [u8])
    ensures { dst.new ≡ copied src.now dst.old }
{
    layout::bytes::copy(src, dst)
}
