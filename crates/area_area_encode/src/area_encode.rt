// Writing what stands before the path.
ghost use Rattle.std.specs.Prelude.{◌≡◌, ◌+◌, ◌≤◌, length};
ghost use Rattle.codec.specs.Format.{over};
ghost use Rattle.area_times.specs.Header.{header_length};
ghost use Rattle.area_area.specs.Area.{id_written, subspace_bytes, start_of};
ghost use Rattle.area_area.specs.inside.Writing.{head_bytes};

use area_times::area_header::HEADER_LENGTH;
use grouping::{AreaHead, AreaSubspace};

fn id_written(subspace: AreaSubspace, reference: AreaSubspace) -> bool
    ensures { result ≡ id_written reference subspace }
{
    reference.is_none() && subspace.is_some()
}

// The bytes of a subspace, whose id is written where the reference has any.
fn subspace_bytes(subspace: &AreaSubspace, reference: AreaSubspace) -> &[u8]
    ensures { (result.now ≡ subspace_bytes reference subspace.now) × (length result.now ≤ 32) }
{
    match subspace {
        Some(id) => byte_codec::id_bytes_if(id, reference.is_none()),
        None => &[],
    }
}

// The header and the id.
fn put_start(buffer: &mut [u8], area: AreaHead, reference: AreaHead) -> usize
    requires { length (start_of reference.subspace reference.times area.subspace area.times) ≤ length buffer.old }
    ensures { (result ≡ length (start_of reference.subspace reference.times area.subspace area.times)) × (buffer.new ≡ over (start_of reference.subspace reference.times area.subspace area.times) buffer.old) }
{
    let written = id_written(area.subspace, reference.subspace);
    buffer[0] = area_times::header_byte(written, area.times, reference.times);
    let id = subspace_bytes(&area.subspace, reference.subspace);
    let end = HEADER_LENGTH + id.len();
    byte_codec::put_bytes(&mut buffer[HEADER_LENGTH..end], id).unwrap();
    end
}

// How many bytes the header, the id and the times take.
pub(crate) fn head_len(area: AreaHead, reference: AreaHead) -> usize
    ensures { (result ≡ length (head_bytes reference area)) × (result ≤ header_length + 48) }
{
    HEADER_LENGTH
        + subspace_bytes(&area.subspace, reference.subspace).len()
        + area_times::relative_len_of_encoding(area.times, reference.times)
}

// The header, the id and the times.
pub(crate) fn put_head(buffer: &mut [u8], area: AreaHead, reference: AreaHead)
    requires { length (head_bytes reference area) ≤ length buffer.old }
    ensures { buffer.new ≡ over (head_bytes reference area) buffer.old }
{
    let n = put_start(buffer, area, reference);
    area_times::relative_encode(&mut buffer[n..], area.times, reference.times).unwrap();
}
