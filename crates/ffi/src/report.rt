// What a call answers, in plain numbers.
ghost use Rattle.std.specs.Prelude.{◌≡◌};
ghost use Rattle.refusal.specs.Refusal.{number, count};

use refusal::Answer;

// Tells the bytes that a call wrote, and answers its number.
pub(crate) fn report(answer: Answer, written: &mut usize) -> u8
    ensures { (result ≡ number answer) × (written.new ≡ count answer) }
{
    *written = refusal::count(answer);
    refusal::number(answer)
}
