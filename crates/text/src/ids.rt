// Ids and digests: 32 bytes in hex.
ghost use Rattle.std.specs.Prelude.{◌≡◌};
ghost use Rattle.text.specs.Ids.{read_id_text};

// Reads 64 hexadecimal digits.
#[tactic(auto, using(crate::proofs::HexAnswers::ids))]
pub fn read_id(s: &[u8]) -> Option<[u8; 32]>
    ensures { result ≡ read_id_text s.now }
{
    let mut id = [0u8; 32];
    match crate::read_hex(s, &mut id) {
        Ok(32) => Some(id),
        _ => None,
    }
}
