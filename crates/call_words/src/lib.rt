// The words that several exported calls answer with (`calls/specs/Words.antt`), made in one place.
#![tactic(auto)]

ghost use Rattle.std.specs.Prelude.{◌≡◌};
ghost use Rattle.form.specs.Refusals.{number_of};
ghost use Rattle.calls.specs.Words.{accepted, refusal as refusal_words};

use form::refusals::Refusal;

// The words of a call that is accepted with nothing to say but that.
pub fn accepted() -> [u64; 8]
    ensures { result ≡ accepted }
{
    [0; 8]
}

// The words of a refusal: its number and its place.
pub fn refusal(refusal: Refusal, place: usize) -> [u64; 8]
    ensures { result ≡ refusal_words (number_of «refusal») place }
{
    [refusal.number() as u64, place as u64, 0, 0, 0, 0, 0, 0]
}
