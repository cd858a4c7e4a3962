//! What holds of the hops of every outcome. Each law is a function that does nothing: its contract is the law.
ghost use Rattle.mx_chain.specs.Laws.{HopsAreServed, HopsAreAChain, HopsKeepPrivate};

use mx_request::laws;

/// Each hop ended as its link answered, and all that holds of one exchange holds of it.
pub fn hops_are_served()
    ensures { HopsAreServed }
{}

/// Each hop but the first has the request that follows the hop before, which is a redirect (RFC 9110, section 15.4).
pub fn hops_are_a_chain()
    ensures { HopsAreAChain }
{}

/// No line of Authorization or Cookie, in any letter case, is in the head of a hop's request to another endpoint than the first of its
/// chain.
pub fn hops_keep_private()
    ensures { HopsKeepPrivate }
{
    // proof: what a request keeps private, and what the next one of its chain keeps
    laws::private_stays_home();
    laws::chain_keeps();
}
