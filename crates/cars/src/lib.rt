// The cars that go round the ring, what the number of the rules says, the test that a car names nothing that is missing (13), and
// the flag that goes with the cars sent.
#![tactic(auto)]

ghost use Rattle.std.specs.Prelude.{◌≡◌, ℕ, Option};
ghost use Rattle.cars.specs.Cars.{multiring, release_needs_idle, is_node, names, car_names, flag_after};
ghost use Rattle.cars.specs.Carried.{names_carried};

// What a car carries: its lock and its source node.
#[derive(Clone, Copy, Debug, PartialEq, Eq, Hash)]
pub struct Tag {
    pub lock: u8,
    pub source: u8,
}

// A sender that rests sends idle. Gotp and didv, the notices to the junctions, exist under multiring rules only.
#[derive(Clone, Copy, Debug, PartialEq, Eq, Hash)]
pub enum Car {
    Idle,
    Token,
    Null,
    Reqp(Tag),
    Failp(Tag),
    Dov(Tag),
    Gotp(Tag),
    Didv(Tag),
}

// What a state's plan has: its rules, how many nodes and how many locks.
#[derive(Clone, Copy, Debug, PartialEq, Eq)]
pub struct Limits {
    pub rules: u8,
    pub nodes: u8,
    pub locks: u8,
}

// Whether the rules of this number have junctions, gotp, didv and letting go.
#[tactic(auto, unfolding(crate::specs::Cars::multiring))]
pub fn multiring(rules: u8) -> bool
    ensures { result ≡ multiring rules }
{
    rules == 2 || rules == 4
}

// Whether a release needs an idle activity under the rules of this number.
#[tactic(auto, unfolding(crate::specs::Cars::release_needs_idle))]
pub fn release_needs_idle(rules: u8) -> bool
    ensures { result ≡ release_needs_idle rules }
{
    rules == 1 || rules == 2
}

// Whether a number is that of one of the user nodes.
#[tactic(auto, unfolding(crate::specs::Cars::is_node))]
pub fn is_node(nodes: u8, node: u8) -> bool
    ensures { result ≡ is_node nodes node }
{
    1 <= node && node <= nodes
}

// Whether both the lock and the source are there.
#[tactic(auto, unfolding(crate::specs::Cars::names))]
fn names(limits: Limits, tag: Tag) -> bool
    ensures { result ≡ names limits.nodes limits.locks tag.lock tag.source }
{
    is_node(limits.nodes, tag.source) && tag.lock < limits.locks
}

// What a car that carries something carries: whether it is a notice (gotp, didv) and no request, its lock and its source.
#[derive(Clone, Copy)]
struct Carried {
    notice: bool,
    tag: Tag,
}

// What 13 asks of a car is asked of what it carries.
#[tactic(auto, unfolding(crate::specs::Cars::car_names, crate::specs::Cars::notice_names))]
fn carried_by(car: Car) -> Option<Carried>
    ensures { (rules nodes locks : ℕ) → car_names rules nodes locks car ≡ names_carried rules nodes locks result }
{
    match car {
        Car::Idle | Car::Token | Car::Null => None,
        Car::Reqp(tag) | Car::Failp(tag) | Car::Dov(tag) => Some(Carried { notice: false, tag }),
        Car::Gotp(tag) | Car::Didv(tag) => Some(Carried { notice: true, tag }),
    }
}

// Whether a car names no missing node or lock, and is no gotp or didv under ring rules. By what it carries and not by its case,
// since 13 asks it of every car of a state at every action.
pub fn car_names(limits: Limits, car: Car) -> bool
    ensures { result ≡ car_names limits.rules limits.nodes limits.locks car }
{
    match carried_by(car) {
        None => true,
        Some(Carried { notice, tag }) => (!notice || multiring(limits.rules)) && names(limits, tag),
    }
}

// The in-train flag after a car was sent.
#[tactic(auto, unfolding(crate::specs::Cars::flag_after))]
pub fn flag_after(car: Car, flag: bool) -> bool
    ensures { result ≡ flag_after car flag }
{
    match car {
        Car::Idle => false,
        Car::Token => true,
        _ => flag,
    }
}
