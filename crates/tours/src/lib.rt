// Which sentence of the junction's rules applies, outside a local tour and in one.
#![tactic(auto)]

ghost use Rattle.std.specs.Prelude.{◌≡◌};
ghost use Rattle.tours.specs.Rules.{within, outside, in_tour};
ghost use Rattle.tours.specs.Sentences.{sentence_number, outside_sentence, tour_sentence};

use cars::{Car, Tag};

// Which sentence of the junction's rules applies. Outside a tour: the arrival goes on, a reqp fails, a tour begins.
// In a tour: a car is dropped, the token or another car comes out, a notice sets or clears the word's bit, the tour ends.
#[derive(Clone, Copy, Debug, PartialEq, Eq)]
pub enum JunctionRule {
    GoesOn,
    FailsReqp(Tag),
    Begins,
    Drops,
    TokenOut,
    CarOut,
    SetsBit(u8),
    ClearsBit(u8),
    Ends,
}

// The nodes within a junction: they are numbered from `low` + 1 to `high`.
#[derive(Clone, Copy, Debug, PartialEq, Eq)]
pub struct Span {
    pub low: u8,
    pub high: u8,
}

// Whether a node is one of those within the junction.
#[tactic(auto, unfolding(crate::specs::Rules::within))]
pub fn within(span: Span, node: u8) -> bool
    ensures { result ≡ within span.low span.high node }
{
    span.low < node && node <= span.high
}

// Outside a tour, by the car that arrives on the main side.
#[tactic(auto, using(crate::proofs::Sentences::said_outside), unfolding(crate::specs::Rules::outside))]
pub fn outside(word: u64, wants: bool, arrival: Car) -> JunctionRule
    ensures { (result ≡ outside word wants arrival) × (sentence_number result ≡ outside_sentence word wants arrival) }
{
    match arrival {
        Car::Token if wants => JunctionRule::Begins,
        Car::Reqp(tag) if words::has(word, tag.lock) => JunctionRule::FailsReqp(tag),
        _ => JunctionRule::GoesOn,
    }
}

// In a tour, by the car that comes out of the subring.
#[tactic(auto, using(crate::proofs::Sentences::said_in_tour), unfolding(crate::specs::Rules::in_tour, crate::specs::Rules::if_train, crate::specs::Rules::on_gotp, crate::specs::Rules::on_didv))]
pub fn in_tour(train: bool, span: Span, out: Car) -> JunctionRule
    ensures { (result ≡ in_tour train span.low span.high out) × (sentence_number result ≡ tour_sentence train span.low span.high out) }
{
    match out {
        Car::Token => JunctionRule::TokenOut,
        _ if !train => JunctionRule::Drops,
        Car::Idle => JunctionRule::Ends,
        Car::Gotp(tag) if within(span, tag.source) => JunctionRule::SetsBit(tag.lock),
        Car::Didv(tag) if within(span, tag.source) => JunctionRule::ClearsBit(tag.lock),
        _ => JunctionRule::CarOut,
    }
}
