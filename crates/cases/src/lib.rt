// The cases of the rules that are proved, and two pairs of gateways for isolation. These functions do nothing: each one's contract is a
// claim, so that the check of this crate includes it.
#![tactic(auto)]

ghost use Rattle.cases.specs.Table.{CasesHold};
ghost use Rattle.cases.specs.Pair.{PremisesMet};
ghost use Rattle.cases.specs.Again.{CreatedAgain};

// One table of starts, calls and what is expected: every case of it gives that.
pub fn cases_hold()
    ensures { CasesHold }
{}

// Two gateways and two lists that meet every premise of isolation, while the other host's answers differ.
pub fn premises_met()
    ensures { PremisesMet }
{}

// The same for two hosts and two processes, of which one is destroyed by the host that debugs it and created again for one of the two; with
// all that the two receive.
pub fn created_again()
    ensures { CreatedAgain }
{}
