// Paths.
ghost use Rattle.std.specs.Prelude.{drop};
ghost use Rattle.codec.specs.Answers.{answer_beside};
ghost use Rattle.codec.specs.Format.{length_answer};
ghost use Rattle.path_codec.specs.Plain.{plain_path, read_path};
ghost use Rattle.path_relative.specs.Records.{against_path, extends_path, read_against_path, read_extends_path};
ghost use Rattle.path.specs.Flat.{path_in, path_flat};
ghost use Rattle.calls.specs.Calls.{Encodes, Told, Stores, Leaves};

use codec::DecodeError;

// The record of a path that was read is copied.
fn store(
    answer: Result<usize, DecodeError>,
    read: &[u8; path::lent::SIZE],
    path: &mut [u8; path::lent::SIZE],
) -> Result<usize, DecodeError>
    ensures { Leaves path_flat (answer_beside answer (path_in read.now)) path.old path.new result }
{
    let consumed = answer?;
    *path = *read;
    Ok(consumed)
}

// Writes a plain path.
#[unsafe(no_mangle)]
pub extern "C" fn jakepuro_path_encode(
    buffer: &mut [u8],
    path: &[u8; path::lent::SIZE],
    written: &mut usize,
) -> u8
    ensures { Encodes (plain_path) (path_in path.now) buffer.old buffer.new result written.new }
{
    calls::tell(path_codec::encode(buffer, path), written)
}

// How many bytes that takes.
#[unsafe(no_mangle)]
pub extern "C" fn jakepuro_path_len_of_encoding(
    path: &[u8; path::lent::SIZE],
    length: &mut usize,
) -> u8
    ensures { Told (length_answer (plain_path) (path_in path.now)) result length.new }
{
    calls::tell(path_codec::len_of_encoding(path), length)
}

// Reads a plain path.
#[unsafe(no_mangle)]
pub extern "C" fn jakepuro_path_decode(
    message: &[u8],
    start: usize,
    canonic: bool,
    path: &mut [u8; path::lent::SIZE],
    consumed: &mut usize,
) -> u8
    ensures { Stores path_flat (read_path canonic (drop start message.now)) path.old path.new result consumed.new }
{
    let mut read = [0; path::lent::SIZE];
    let answer = path_codec::decode(message, start, canonic, &mut read);
    calls::tell(store(answer, &read, path), consumed)
}

// Writes a path against a reference.
#[unsafe(no_mangle)]
pub extern "C" fn jakepuro_path_path_encode(
    buffer: &mut [u8],
    path: &[u8; path::lent::SIZE],
    reference: &[u8; path::lent::SIZE],
    written: &mut usize,
) -> u8
    ensures { Encodes (against_path (path_in reference.now)) (path_in path.now) buffer.old buffer.new result written.new }
{
    calls::tell(
        path_relative_encode::relative_encode(buffer, path, reference),
        written,
    )
}

// How many bytes that takes.
#[unsafe(no_mangle)]
pub extern "C" fn jakepuro_path_path_len_of_encoding(
    path: &[u8; path::lent::SIZE],
    reference: &[u8; path::lent::SIZE],
    length: &mut usize,
) -> u8
    ensures { Told (length_answer (against_path (path_in reference.now)) (path_in path.now)) result length.new }
{
    calls::tell(
        path_relative_encode::relative_len_of_encoding(path, reference),
        length,
    )
}

// Reads a path against a reference.
#[unsafe(no_mangle)]
pub extern "C" fn jakepuro_path_path_decode(
    message: &[u8],
    start: usize,
    canonic: bool,
    reference: &[u8; path::lent::SIZE],
    path: &mut [u8; path::lent::SIZE],
    consumed: &mut usize,
) -> u8
    ensures { Stores path_flat (read_against_path canonic (path_in reference.now) (drop start message.now)) path.old path.new result consumed.new }
{
    let mut read = [0; path::lent::SIZE];
    let answer = path_relative_decode::relative_decode(
        message, start, canonic, reference, &mut read,
    );
    calls::tell(store(answer, &read, path), consumed)
}

// Writes a path as an extension of another.
#[unsafe(no_mangle)]
pub extern "C" fn jakepuro_path_extends_encode(
    buffer: &mut [u8],
    path: &[u8; path::lent::SIZE],
    extends: &[u8; path::lent::SIZE],
    written: &mut usize,
) -> u8
    ensures { Encodes (extends_path (path_in extends.now)) (path_in path.now) buffer.old buffer.new result written.new }
{
    calls::tell(
        path_relative_encode::encode_path_extends_path(buffer, path, extends),
        written,
    )
}

// How many bytes that takes.
#[unsafe(no_mangle)]
pub extern "C" fn jakepuro_path_extends_len_of_encoding(
    path: &[u8; path::lent::SIZE],
    extends: &[u8; path::lent::SIZE],
    length: &mut usize,
) -> u8
    ensures { Told (length_answer (extends_path (path_in extends.now)) (path_in path.now)) result length.new }
{
    calls::tell(
        path_relative_encode::path_extends_path_encoding_len(path, extends),
        length,
    )
}

// Reads a path as an extension of another.
#[unsafe(no_mangle)]
pub extern "C" fn jakepuro_path_extends_decode(
    message: &[u8],
    start: usize,
    canonic: bool,
    extends: &[u8; path::lent::SIZE],
    path: &mut [u8; path::lent::SIZE],
    consumed: &mut usize,
) -> u8
    ensures { Stores path_flat (read_extends_path canonic (path_in extends.now) (drop start message.now)) path.old path.new result consumed.new }
{
    let mut read = [0; path::lent::SIZE];
    let answer = path_relative_decode::decode_path_extends_path(
        message, start, canonic, extends, &mut read,
    );
    calls::tell(store(answer, &read, path), consumed)
}
