// A path in a field of a line: its components in hex, parted by `/`; `-` is the path of no components.

#![tactic(auto)]

ghost use Rattle.std.specs.Prelude.{◌≡◌, true, ◌≤◌, length};
ghost use Rattle.codec.specs.Format.{over};
ghost use Rattle.text.specs.Writer.{Writes, Keeps};
ghost use Rattle.path.specs.Record.{components_of, well_formed};
ghost use Rattle.path.specs.Flat.{path_in};
ghost use Rattle.path_text.specs.PathText.{max_tail_text, tail_text, path_text_of, found_answer, read_components_text, read_path_text};
ghost use Rattle.path_text.specs.inside.PathText.{AppendsText};

use path::{Path, PathBuilder};
use text::Writer;

// How long the text of a path is at most, with a `/` before each component.
const MAX_TAIL: usize = 2 * Path::MAX_PATH_LENGTH + Path::MAX_COMPONENT_COUNT;

// One component more, from its text; None for what is no hex or does not fit.
fn push_text(
    builder: PathBuilder,
    hex: &[u8],
    out: &mut [u8; path::lent::SIZE],
) -> Option<PathBuilder>
    ensures { AppendsText builder hex.now out.old result out.new }
{
    let mut bytes = [0u8; Path::MAX_COMPONENT_LENGTH];
    let n = text::read_hex(hex, &mut bytes).ok()?;
    builder.append_component(out, &bytes[..n]).ok()
}

// Reads one or more components; no bytes are one component of no bytes.
pub fn read_components(s: &[u8]) -> Option<Path>
    ensures { found_answer result ≡ read_components_text s.now }
{
    let mut flat = [0u8; path::lent::SIZE];
    let mut builder = PathBuilder::new();
    for component in s.split(|&b| b == b'/') {
        builder = push_text(builder, component, &mut flat)?;
    }
    Some(Path { flat })
}

// Reads a path.
#[tactic(auto, using(text::proofs::OneByte::one_byte), unfolding(crate::specs::PathText::read_path_text))]
pub fn read_path(s: &[u8]) -> Option<Path>
    ensures { found_answer result ≡ read_path_text s.now }
{
    match s {
        b"-" => Some(Path::new_empty()),
        _ => read_components(s),
    }
}

// Each component after a `/`, put into a buffer that has room for any.
fn fill(text: &mut Writer<'_>, path: &[u8])
    requires { (well_formed (path_in path.now) ≡ true) × ((text.old.at ≡ 0) × (max_tail_text ≤ length text.old.out.now)) }
    ensures put { (text.new.at ≡ length (tail_text (components_of (path_in path.now)))) × (text.new.out.now ≡ over (tail_text (components_of (path_in path.now))) text.old.out.now) × (text.new.at ≤ max_tail_text) }
    ensures same { Keeps text.old text.new }
{
    let bytes = path::lent::bytes(path);
    let mut from = 0;
    for i in 0..path::lent::count(path) {
        let to = from + path::lent::component_len(path, i);
        text.put_bytes(b"/");
        text.put_hex(&bytes[from..to]);
        from = to;
    }
}

// Puts a path; nothing where the record is not well formed.
#[tactic(auto, using(crate::proofs::Printing::putting))]
pub fn put_path(text: &mut Writer<'_>, path: &[u8])
    ensures put { Writes (path_text_of (path_in path.now)) text.old text.new }
    ensures same { Keeps text.old text.new }
{
    if !path::lent::well_formed(path) {
        return;
    }
    let mut tail = [0u8; MAX_TAIL];
    let mut tail_text = Writer::new(&mut tail, 0);
    fill(&mut tail_text, path);
    let n = tail_text.at;
    if n == 0 {
        text.put_bytes(b"-");
    } else {
        text.put_bytes(&tail[1..n]);
    }
}
