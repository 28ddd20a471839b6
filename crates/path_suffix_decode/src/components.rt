// Reading components into a lent record, after those that stand in it.
ghost use Rattle.std.specs.Prelude.{◌≡◌, [], ◌-◌, ◌≤◌, length};
ghost use Rattle.codec.specs.Answers.{answer_of, answer_beside, Gives};
ghost use Rattle.codec.specs.Reader.{named};
ghost use Rattle.path.specs.Record.{components_of, path_from};
ghost use Rattle.path.specs.Flat.{path_in};
ghost use Rattle.path_suffix.specs.Suffix.{read_sized};
ghost use Rattle.path_suffix_decode.specs.inside.Components.{Ready, read_into, read_within, last_into};
ghost use Rattle.path_suffix_decode.specs.After.{read_more};

use codec::{DecodeError, Decoded};
use path::{Path, PathBuilder};
use path_suffix::Sizes;

// Reads a component after its length.
#[tactic(auto, using(compact_u64::proofs::Standalone::standalone_bounded), unfolding(path_suffix::specs::Suffix::read_sized))]
fn decode_sized(message: &[u8], canonic: bool) -> Result<Decoded<&[u8]>, DecodeError>
    ensures { named (λ c. c.now) (answer_of result) ≡ read_sized canonic message.now }
{
    let number = compact_u64::decode(message, 0, canonic)?;
    if (Path::MAX_COMPONENT_LENGTH as u64) < number.value {
        return Err(DecodeError::TheirFault);
    }
    let begin = number.consumed;
    let len = number.value as usize;
    if message.len() - begin < len {
        return Err(DecodeError::EndOfInput);
    }
    let end = begin + len;
    Ok(Decoded {
        value: &message[begin..end],
        consumed: end,
    })
}

// Reads the last component, which is what the total leaves.
#[tactic(auto, unfolding(crate::specs::inside::Components::last_into, path_suffix::specs::Suffix::read_last))]
fn decode_last(
    message: &[u8],
    used: usize,
    total: usize,
    builder: PathBuilder,
    out: &mut [u8; path::lent::SIZE],
) -> Result<usize, DecodeError>
    requires { used ≤ total → Ready builder out.old 1 (total - used) }
    ensures { answer_beside result out.new ≡ last_into (components_of (path_in out.old)) used total message.now }
{
    if total < used || Path::MAX_COMPONENT_LENGTH < total - used {
        return Err(DecodeError::TheirFault);
    }
    let len = total - used;
    if message.len() < len {
        return Err(DecodeError::EndOfInput);
    }
    builder.append_component(out, &message[..len]).unwrap();
    Ok(len)
}

// Reads `count` components, one at least, of `total` bytes in all. Lengths that run over the total are read to the end, though the record may not hold them.
fn decode_some(
    message: &[u8],
    canonic: bool,
    count: usize,
    total: usize,
    first: PathBuilder,
    out: &mut [u8; path::lent::SIZE],
) -> Result<usize, DecodeError>
    requires { (1 ≤ count) × Ready first out.old count total }
    ensures { answer_beside result out.new ≡ read_into canonic (components_of (path_in out.old)) count total message.now }
{
    let mut builder = first;
    let mut used = 0;
    let mut at = 0;
    for _ in 1..count {
        let component = decode_sized(&message[at..], canonic)?;
        builder = builder
            .append_component(out, component.value)
            .unwrap_or(builder);
        used += component.value.len();
        at += component.consumed;
    }
    let n = decode_last(&message[at..], used, total, builder, out)?;
    Ok(at + n)
}

// Reads `count` components of `total` bytes in all.
#[tactic(auto, using(crate::proofs::Within::into_over))]
fn decode_all(
    message: &[u8],
    canonic: bool,
    count: usize,
    total: usize,
    builder: PathBuilder,
    out: &mut [u8; path::lent::SIZE],
) -> Result<usize, DecodeError>
    requires { Ready builder out.old count total }
    ensures { answer_beside result out.new ≡ read_into canonic (components_of (path_in out.old)) count total message.now }
{
    if count != 0 {
        return decode_some(message, canonic, count, total, builder, out);
    }
    if total != 0 {
        return Err(DecodeError::TheirFault);
    }
    Ok(0)
}

// The same, where the sizes of all together are within the limits, which is tested.
#[tactic(auto, using(crate::proofs::Within::within_long, crate::proofs::Within::within_many, crate::proofs::Within::within_in))]
fn decode_within(
    message: &[u8],
    canonic: bool,
    sizes: Sizes,
    builder: PathBuilder,
    out: &mut [u8; path::lent::SIZE],
) -> Result<usize, DecodeError>
    requires { Ready builder out.old 0 0 }
    ensures { answer_beside result out.new ≡ read_within canonic builder (components_of (path_in out.old)) sizes.total sizes.count message.now }
{
    let Sizes { total, count } = sizes;
    if ((Path::MAX_PATH_LENGTH - builder.total) as u64) < total
        || ((Path::MAX_COMPONENT_COUNT - builder.count) as u64) < count
    {
        return Err(DecodeError::TheirFault);
    }
    decode_all(
        message,
        canonic,
        count as usize,
        total as usize,
        builder,
        out,
    )
}

// Reads them after what a builder holds; beside a refusal the record is the empty one.
#[tactic(auto, using(crate::proofs::Within::more_accepted))]
pub(crate) fn decode_more(
    message: &[u8],
    canonic: bool,
    sizes: Sizes,
    builder: PathBuilder,
    out: &mut [u8; path::lent::SIZE],
) -> Result<usize, DecodeError>
    requires { Ready builder out.old 0 0 }
    ensures { Gives (path_from []) result (path_in out.new) (read_more canonic (components_of (path_in out.old)) sizes.total sizes.count message.now) }
{
    let answer = decode_within(message, canonic, sizes, builder, out);
    if answer.is_err() {
        path::lent::clear(out);
    }
    answer
}
