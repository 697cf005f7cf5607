//! Classifies an answer by what became of its order's number.

ghost use Rattle.std.specs.Prelude.{◌≡◌};
ghost use Rattle.proxy_request.specs.Answers.{is_out_of_turn, is_reply, is_refusal, refuses_number};

/// Tests whether the answer, without its line feed, is OutOfTurn: the order's number is not the next number, and may
/// have been used before.
pub fn is_out_of_turn(answer: &[u8]) -> bool
    ensures { result ≡ is_out_of_turn answer.now }
{
    answer == b"{\"name\":\"OutOfTurn\",\"refused\":4}".as_slice()
}

/// Tests whether the answer refuses the number rather than the order: OutOfTurn or NumberReused.
pub fn refuses_number(answer: &[u8]) -> bool
    ensures { result ≡ refuses_number answer.now }
{
    is_out_of_turn(answer) || answer == b"{\"name\":\"NumberReused\",\"refused\":5}".as_slice()
}

/// Tests whether the answer is the reply to an order: the order was carried out with its number.
pub fn is_reply(answer: &[u8]) -> bool
    ensures { result ≡ is_reply answer.now }
{
    answer.starts_with(b"{\"kind\":\"")
}

/// Tests whether the answer refuses the order itself, for example with BadEpoch: the number was the next number, and is
/// still unused. Stopped, OutOfMemory and PendingFull imply nothing about the number.
pub fn is_refusal(answer: &[u8]) -> bool
    ensures { result ≡ is_refusal answer.now }
{
    answer.starts_with(b"{\"name\":\"")
        && !refuses_number(answer)
        && answer != b"{\"name\":\"Stopped\",\"refused\":1}".as_slice()
        && answer != b"{\"name\":\"OutOfMemory\",\"refused\":2}".as_slice()
        && answer != b"{\"name\":\"PendingFull\",\"refused\":20}".as_slice()
}
