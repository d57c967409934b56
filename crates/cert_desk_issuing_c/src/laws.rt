//! Laws about certificates that are issued one at a time. Each function does nothing: its contract
//! is the law.
ghost use Rattle.cert_desk_issuing_c.specs.OneByOne.{IssuedAreOneChain};

/// The certificates that `wd_issue` makes from one orders file, at all indexes in order, with any
/// algorithms and signatures, are one chain, which fulfils the orders.
#[tactic(auto, using(crate::proofs::OneByOne::issued_are_one_chain))]
pub fn issued_are_one_chain()
    ensures { IssuedAreOneChain }
{}
