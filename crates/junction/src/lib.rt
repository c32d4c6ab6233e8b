// One junction: what it is, what it does outside and in a local tour with the two cars that arrive, and what 13 says of it.
#![tactic(auto)]

ghost use Rattle.std.specs.Prelude.{◌≡◌};
ghost use Rattle.tours.specs.Sentences.{sentence_number};
ghost use Rattle.junction.specs.Turn.{failing, junction_rule, junction_sentence, shadow, joins, junction_apply, trained, junction_turn};
ghost use Rattle.junction.specs.Sound.{junction_sound};

use cars::{Car, Limits};
use tours::{JunctionRule, Span};

// The car to the main ring, the car to the subring, the subring train flag, the local-tour flag, the lock word.
#[derive(Clone, Copy, Debug, PartialEq, Eq, Hash)]
pub struct Junction {
    pub main: Car,
    pub subring: Car,
    pub train: bool,
    pub tour: bool,
    pub word: u64,
}

// What a junction meets in a step: whether it stands on another's subring (`inner`), the nodes within it, whether one of them wants a train,
// the arrival on the main side and the car out of the subring.
#[derive(Clone, Copy, Debug, PartialEq, Eq)]
pub struct Passage {
    pub inner: bool,
    pub span: Span,
    pub wants: bool,
    pub arrival: Car,
    pub out: Car,
}

// What goes to the subring as shadow.
#[tactic(auto, unfolding(crate::specs::Turn::shadow))]
fn shadow(arrival: Car) -> Car
    ensures { result ≡ shadow arrival }
{
    match arrival {
        Car::Token => Car::Idle,
        _ => arrival,
    }
}

impl Junction {
    // The locks for which it fails a reqp: an inner junction whose train flag is clear fails none.
    #[tactic(auto, unfolding(crate::specs::Turn::failing))]
    fn failing(self, inner: bool) -> u64
        ensures { result ≡ failing inner self }
    {
        if inner && !self.train { 0 } else { self.word }
    }

    // Which sentence applies.
    #[tactic(auto, unfolding(crate::specs::Turn::junction_rule, crate::specs::Turn::junction_sentence))]
    pub fn rule(self, passage: Passage) -> JunctionRule
        ensures { (result ≡ junction_rule passage.inner passage.span.low passage.span.high passage.wants passage.arrival passage.out self) × (sentence_number result ≡ junction_sentence passage.inner passage.span.low passage.span.high passage.wants passage.arrival passage.out self) }
    {
        if self.tour {
            tours::in_tour(self.train, passage.span, passage.out)
        } else {
            tours::outside(self.failing(passage.inner), passage.wants, passage.arrival)
        }
    }

    // The junction with these cars to the main ring and to the subring.
    #[tactic(auto, unfolding(crate::specs::Turn::joins))]
    fn sends(self, main: Car, subring: Car) -> Junction
        ensures { result ≡ joins main subring self.train self.tour self.word }
    {
        Junction {
            main,
            subring,
            ..self
        }
    }

    // The junction after a rule: `arrival` on the main side, `out` from the subring.
    #[tactic(auto, unfolding(crate::specs::Turn::junction_apply, crate::specs::Turn::joins))]
    fn apply(self, arrival: Car, out: Car, rule: JunctionRule) -> Junction
        ensures { result ≡ junction_apply arrival out self rule }
    {
        match rule {
            JunctionRule::GoesOn => self.sends(arrival, shadow(arrival)),
            JunctionRule::FailsReqp(tag) => self.sends(Car::Failp(tag), arrival),
            JunctionRule::Begins => Junction {
                tour: true,
                ..self.sends(Car::Idle, Car::Token)
            },
            JunctionRule::Drops => self.sends(Car::Idle, arrival),
            JunctionRule::TokenOut => Junction {
                train: true,
                ..self.sends(Car::Token, arrival)
            },
            JunctionRule::CarOut => self.sends(out, arrival),
            JunctionRule::SetsBit(lock) => Junction {
                word: words::with_lock(self.word, lock),
                ..self.sends(out, arrival)
            },
            JunctionRule::ClearsBit(lock) => Junction {
                word: words::without_lock(self.word, lock),
                ..self.sends(out, arrival)
            },
            JunctionRule::Ends => Junction {
                train: false,
                tour: false,
                ..self.sends(Car::Idle, arrival)
            },
        }
    }

    // The junction with the train flag that it has after a turn: an inner junction's by its flag `old` before the turn and the car it sent.
    #[tactic(auto, unfolding(crate::specs::Turn::trained, crate::specs::Turn::train_after, crate::specs::Turn::joins))]
    fn trained(self, inner: bool, old: bool) -> Junction
        ensures { result ≡ trained inner old self }
    {
        if inner {
            Junction {
                train: cars::flag_after(self.main, old),
                ..self
            }
        } else {
            self
        }
    }

    // The junction's turn in a step, by the cars that were sent before it.
    #[tactic(auto, unfolding(crate::specs::Turn::junction_turn))]
    pub fn turn(self, passage: Passage) -> Junction
        ensures { result ≡ junction_turn passage.inner passage.span.low passage.span.high passage.wants passage.arrival passage.out self }
    {
        self.apply(passage.arrival, passage.out, self.rule(passage))
            .trained(passage.inner, self.train)
    }

    // Whether nothing of the junction is what 13 refuses.
    #[tactic(auto, unfolding(crate::specs::Sound::junction_sound))]
    pub fn sound(self, limits: Limits) -> bool
        ensures { result ≡ junction_sound limits.rules limits.nodes limits.locks self }
    {
        cars::car_names(limits, self.main)
            && cars::car_names(limits, self.subring)
            && words::all_below(self.word, limits.locks)
    }
}
