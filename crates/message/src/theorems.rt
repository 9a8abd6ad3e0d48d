// What is proved of both ends together. These functions do nothing: each one's contract is a theorem, so that the
// check of this crate includes it.
ghost use Rattle.ops.specs.Table.{request_form, answer_form};
ghost use Rattle.message.specs.Granted.{AnswersGranted};
ghost use Rattle.message.specs.Incoming.{IncomingFits};
ghost use Rattle.message.specs.RoundTrip.{RoundTrip};

// A request that the desk writes is read by the gateway as it was, and only its written form is read as it.
pub fn requests_round_trip()
    ensures { RoundTrip request_form }
{}

// An answer that the gateway writes is read by the desk as it was, and only its written form is read as it.
pub fn answers_round_trip()
    ensures { RoundTrip answer_form }
{}

// The gateway can answer every request that it read, and notify of every report of a known kind.
pub fn answers_are_granted()
    ensures { AnswersGranted }
{}

// The number, the fields and the form of what the gateway finds are those that it was made of.
pub fn incoming_fits()
    ensures { IncomingFits }
{}
