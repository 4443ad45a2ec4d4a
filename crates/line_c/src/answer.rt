// What a call of C answers for a result with nothing in it.
ghost use Rattle.std.specs.Prelude.{◌≡◌, MatchResult};

// 0, or the refusal's number.
pub(crate) fn answer_number<R: Into<u8>>(answer: Result<(), R>) -> u8
    ensures { MatchResult answer (λ _. result ≡ 0) (λ refusal. R.converts refusal result) }
{
    match answer {
        Ok(()) => 0,
        Err(refusal) => refusal.into(),
    }
}
