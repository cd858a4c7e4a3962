//! What follows of a paced gate. The functions do nothing: a call gives its caller's proof the law.
ghost use Rattle.mx_named_gate.specs.Laws.{AllowsPaced};

/// Where the table of a gate's log allows one more link to an endpoint, it is within the pace by the links that were opened to it.
#[tactic(auto, using(crate::proofs::Bursts::allows_paced))]
pub fn allows_paced()
    ensures { AllowsPaced }
{}
