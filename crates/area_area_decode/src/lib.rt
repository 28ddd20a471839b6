// Reading areas against an area: docs/FORMAT.md, "Areas". A port of relative_encodings/area_area.rs.

#![tactic(auto)]

ghost use Rattle.std.specs.Prelude.{◌≡◌, [], true, ◌+◌, ◌<◌, ◌^◌, length, drop};
ghost use Rattle.codec.specs.Reader.{shift, mapped};
ghost use Rattle.path.specs.Record.{path_from};
ghost use Rattle.path.specs.Flat.{path_in};
ghost use Rattle.grouping.specs.Record.{area_lent, area_with, area_of, area_from, well_formed_area};
ghost use Rattle.grouping.specs.Answers.{ReadsArea};
ghost use Rattle.area_times.specs.Header.{header_length};
ghost use Rattle.area_area.specs.Area.{read_parts};
ghost use Rattle.area_area.specs.Records.{read_against_area};

use area_times::AreaHeader;
use area_times::area_header::HEADER_LENGTH;
use codec::{DecodeError, Decoded};
use grouping::{Area, AreaHead};

mod area_decode;

// Reads what follows the header, which is counted too.
fn decode_parts<'a>(
    message: &[u8],
    canonic: bool,
    header: AreaHeader,
    reference: Area<'a>,
    out: &mut [u8; path::lent::SIZE],
) -> Result<Decoded<AreaHead>, DecodeError>
    requires { (well_formed_area (area_with reference.head (path_in reference.path.now)) ≡ true) × (path_in out.old ≡ path_from []) × (header_length + length message.now < 2 ^ 64) }
    ensures { ReadsArea result out.new (shift header_length (mapped area_from (read_parts canonic (area_of (area_lent reference.entry)) header) message.now)) }
{
    let head = reference.head;
    let subspace = area_decode::decode_subspace(
        message,
        canonic,
        head.subspace,
        header.id_written,
    )?;
    let a = subspace.consumed;
    let times = area_times::relative_decode(&message[a..], canonic, head.times, header)?;
    let b = times.consumed;
    let c = path_relative_decode::sized::decode_path_extends_path(
        message,
        a + b,
        canonic,
        reference.path,
        out,
    )?;
    Ok(Decoded {
        value: AreaHead {
            subspace: subspace.value,
            times: times.value,
        },
        consumed: HEADER_LENGTH + (a + (b + c)),
    })
}

// Reads an area against a reference, its path into a lent record; beside a refusal that is the empty one.
pub fn relative_decode<'a>(
    message: &[u8],
    start: usize,
    canonic: bool,
    reference: Area<'a>,
    out: &mut [u8; path::lent::SIZE],
) -> Result<Decoded<AreaHead>, DecodeError>
    ensures { ReadsArea result out.new (read_against_area canonic (area_lent reference.entry) (drop start message.now)) }
{
    path::lent::clear(out);
    if !reference.is_well_formed() {
        return Err(DecodeError::Malformed);
    }
    if message.len() <= start {
        return Err(DecodeError::EndOfInput);
    }
    let header = area_times::area_header::unpack(message[start]);
    if canonic && area_times::area_header::spare_bits(header) {
        return Err(DecodeError::TheirFault);
    }
    decode_parts(
        &message[start + HEADER_LENGTH..],
        canonic,
        header,
        reference,
        out,
    )
}
