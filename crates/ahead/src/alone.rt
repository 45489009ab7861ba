// The contact of one triangle by itself, begun just under a guess of it.
ghost use Rattle.std.specs.Prelude.{◌≡◌, true};
ghost use Rattle.bull.specs.Bull.{bull_contact};
ghost use Rattle.ahead.specs.Inside.{begins_at};

use bull::Bull;
use plane::{Contact, Triangle};

const MINUS_ONE: f64 = -1.0;

// 2^-10: how far under a guess the candidates begin.
const UNDER: f64 = 0.0009765625;

// The tip's height where the cutter rests on the triangle. What lies lower than a guess of it is left out; where the guess does not serve, nothing is.
pub fn contact(t: Triangle, k: Bull) -> Option<Contact>
    ensures { result ≡ bull_contact t k }
{
    let from = start_of(t, k);
    if begins(t, k, from) {
        return contact_from(t, k, from);
    }
    bull::bull_contact(t, k)
}

// Just under the tip over the facet, or over a place of an edge. Any number would do.
fn start_of(t: Triangle, k: Bull) -> f64 {
    crate::more(k, bound::beyond(k.r), t, MINUS_ONE / 0.0) - UNDER
}

// Whether the candidates may begin at `from`.
fn begins(t: Triangle, k: Bull, from: f64) -> bool
    ensures { result ≡ begins_at t k from }
{
    tops::is_start(from) && (crate::is_level(k) && tops::lies_apart(from - tops::MARGIN, from, t))
}

// The same contact from there, if it is above that.
fn contact_from(t: Triangle, k: Bull, from: f64) -> Option<Contact>
    requires { begins_at t k from ≡ true }
    ensures { result ≡ bull_contact t k }
{
    let c = bull::bull_contact_on(t, k, from);
    if above::touches(c) {
        return c;
    }
    bull::bull_contact(t, k)
}
