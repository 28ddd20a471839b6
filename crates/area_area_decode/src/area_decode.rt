// Reading the subspace of an area: the reference's, or an id that is written.
ghost use Rattle.std.specs.Prelude.{◌≡◌};
ghost use Rattle.codec.specs.Answers.{answer_of};
ghost use Rattle.area_area.specs.Area.{read_subspace};

use codec::{DecodeError, Decoded};
use grouping::AreaSubspace;

#[tactic(auto, unfolding(area_area::specs::Area::read_subspace))]
pub(crate) fn decode_subspace(
    message: &[u8],
    canonic: bool,
    reference: AreaSubspace,
    written: bool,
) -> Result<Decoded<AreaSubspace>, DecodeError>
    ensures { answer_of result ≡ read_subspace canonic reference written message.now }
{
    if !written {
        return Ok(Decoded {
            value: reference,
            consumed: 0,
        });
    }
    let read = byte_codec::decode_id(message, 0)?;
    let subspace = Some(read.value);
    if !grouping::includes_subspace(reference, subspace) || canonic && reference.is_some() {
        return Err(DecodeError::TheirFault);
    }
    Ok(Decoded {
        value: subspace,
        consumed: read.consumed,
    })
}
