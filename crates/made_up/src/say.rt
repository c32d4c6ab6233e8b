// Writing to standard output: numbers, and things in the words and the order of the script, each behind a space. No Display: these are
// types of other crates, and the words are the script's.
use cars::{Car, Tag};
use junction::Junction;
use plan::{NODES, Plan};
use std::io::Result;
use turns::Event;
use usernode::{Activity, Node};
use zeronode::ZeroNode;

// The line is no command, or names a place that no state has.
pub fn not_understood(rt: &impl Print) -> Result<()> {
    print!(rt; ": ?")
}

// An answer's number in 01.
pub fn answer(rt: &impl Print, number: u8) -> Result<()> {
    print!(rt; ": {number}")
}

fn carrying(rt: &impl Print, name: &str, tag: Tag) -> Result<()> {
    let Tag { lock, source } = tag;
    print!(rt; " {name} {lock} {source}")
}

pub fn car(rt: &impl Print, car: Car) -> Result<()> {
    match car {
        Car::Idle => print!(rt; " idle"),
        Car::Token => print!(rt; " token"),
        Car::Null => print!(rt; " null"),
        Car::Reqp(tag) => carrying(rt, "reqp", tag),
        Car::Failp(tag) => carrying(rt, "failp", tag),
        Car::Dov(tag) => carrying(rt, "dov", tag),
        Car::Gotp(tag) => carrying(rt, "gotp", tag),
        Car::Didv(tag) => carrying(rt, "didv", tag),
    }
}

fn activity(rt: &impl Print, activity: Activity) -> Result<()> {
    match activity {
        Activity::Idle => print!(rt; " idle"),
        Activity::ToSendReqp(lock) => print!(rt; " sendreqp {lock}"),
        Activity::WaitingReqp(lock) => print!(rt; " waitreqp {lock}"),
        Activity::ToSendDov(lock) => print!(rt; " senddov {lock}"),
        Activity::WaitingDov(lock) => print!(rt; " waitdov {lock}"),
    }
}

// The zero node but for its queue.
pub fn zero(rt: &impl Print, zeroth: &ZeroNode) -> Result<()> {
    let count = zeroth.count;
    car(rt, zeroth.car)?;
    print!(rt; " {count}")
}

pub fn node(rt: &impl Print, node: Node) -> Result<()> {
    let Node { held, letting, .. } = node;
    let flag = u8::from(node.flag);
    car(rt, node.car)?;
    print!(rt; " {flag}")?;
    activity(rt, node.activity)?;
    print!(rt; " {held} {letting}")
}

pub fn junction(rt: &impl Print, junction: Junction) -> Result<()> {
    let word = junction.word;
    let train = u8::from(junction.train);
    let tour = u8::from(junction.tour);
    car(rt, junction.main)?;
    car(rt, junction.subring)?;
    print!(rt; " {train} {tour} {word}")
}

// Sixteen values from a place on, in use or not; fewer where there are no more.
pub fn values(rt: &impl Print, plan: &Plan, from: usize) -> Result<()> {
    for value in plan.values.iter().skip(from).take(16) {
        print!(rt; " {value}")?;
    }
    Ok(())
}

// Its first values.
pub fn plan(rt: &impl Print, plan: &Plan) -> Result<()> {
    let Plan {
        rules,
        locks,
        positions,
        ..
    } = *plan;
    print!(rt; " {rules} {locks} {positions}")?;
    values(rt, plan, 0)
}

// A step's events, nodes ascending: node, letter, lock.
pub fn events(rt: &impl Print, events: &[Option<Event>; NODES]) -> Result<()> {
    for (place, event) in events.iter().enumerate() {
        if event.is_some() {
            let node = place + 1;
            let letter = char::from(turns::event_letter(*event));
            let lock = turns::event_lock(*event);
            print!(rt; ", {node} {letter} {lock}")?;
        }
    }
    Ok(())
}
