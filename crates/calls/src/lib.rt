// Answers as a caller in another language gets them: 0 or a refusal's number, and a count, which is 0 beside a refusal.

#![tactic(auto)]

ghost use Rattle.std.specs.Prelude.{◌≡◌, IfOk, IfErr};

// 0 and the count that was answered, or the refusal's number and 0.
pub fn tell<E: Into<u8>>(answer: Result<usize, E>, count: &mut usize) -> u8
    ensures ok { IfOk answer (λ n. (result ≡ 0) × (count.new ≡ n)) }
    ensures err { IfErr answer (λ error. E.converts error result × (count.new ≡ 0)) }
{
    match answer {
        Ok(n) => {
            *count = n;
            0
        }
        Err(error) => {
            *count = 0;
            error.into()
        }
    }
}
