// A contact on top of a best so far: the candidates of one triangle go on from where the search stands, so that what cannot exceed it is left out.
#![tactic(auto)]

ghost use Rattle.std.specs.Prelude.{◌≡◌};
ghost use Rattle.above.specs.Above.{offer_of, so_far};
ghost use Rattle.above.specs.Inside.{limit_of, touches_of};

use plane::{Contact, Touch};

// The contact c with one candidate more.
#[tactic(auto, unfolding(crate::specs::Above::offer_of))]
pub fn offer(c: Option<Contact>, candidate: Option<Contact>) -> Option<Contact>
    ensures { result ≡ offer_of c candidate }
{
    match candidate {
        None => c,
        Some(met) => plane::take(c, met.height, met.touch),
    }
}

// A best so far of the height z, for candidates to be taken on top of.
pub fn so_far(z: f64) -> Option<Contact>
    ensures { result ≡ so_far z }
{
    Some(Contact {
        height: z,
        touch: Touch { kind: 0, which: 0 },
    })
}

// The height that a candidate has to exceed: a NaN, which no number is at most, where every candidate is taken.
#[tactic(auto, unfolding(crate::specs::Inside::limit_of))]
pub fn limit(c: Option<Contact>) -> f64
    ensures { result ≡ limit_of c }
{
    match c {
        None => 0.0 / 0.0,
        Some(best) => best.height,
    }
}

// Whether a contact is with a triangle: a best so far touches nothing.
#[tactic(auto, unfolding(crate::specs::Inside::touches_of))]
pub fn touches(c: Option<Contact>) -> bool
    ensures { result ≡ touches_of c }
{
    match c {
        None => false,
        Some(best) => best.touch.kind != 0,
    }
}
