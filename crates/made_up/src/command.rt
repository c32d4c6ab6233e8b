// The commands of the script. The name of a command says which words stand behind it.
use crate::reading::Words;
use acts::Action;
use cars::Car;
use junction::Junction;
use plan::{JUNCTIONS, NODES, Plan};
use positions::VALUES;
use std::str;
use usernode::Node;
use zeronode::PLACES;

// A line, read. Nodes and junctions stand here by their places, those of an action by the number that the model is given.
#[derive(Clone, Copy)]
pub enum Command {
    Heading,
    Keep,
    Back,
    Step,
    Act { action: Action, node: u8, lock: u8 },
    Start(Plan),
    Plan(Plan),
    Values(usize, [u8; 16]),
    Zero(Car, u8),
    Queue(usize, Car),
    Node(usize, Node),
    Junction(usize, Junction),
    Show(Thing),
}

// What is shown of a state.
#[derive(Clone, Copy)]
pub enum Thing {
    Plan,
    Values(usize),
    Zero,
    Queue(usize),
    Node(usize),
    Junction(usize),
}

impl Thing {
    // Name; the place or the number, if it has one.
    fn read(words: &mut Words) -> Option<Thing> {
        match words.next()? {
            "plan" => Some(Thing::Plan),
            "values" => Some(Thing::Values(words.place(VALUES)?)),
            "zero" => Some(Thing::Zero),
            "queue" => Some(Thing::Queue(words.place(PLACES)?)),
            "node" => Some(Thing::Node(words.numbered(NODES)?)),
            "junction" => Some(Thing::Junction(words.numbered(JUNCTIONS)?)),
            _ => None,
        }
    }
}

impl Command {
    // Take, release or force: node, lock.
    fn act(action: Action, words: &mut Words) -> Option<Command> {
        let node = words.small()?;
        let lock = words.small()?;
        Some(Command::Act { action, node, lock })
    }

    // The command that the first words are.
    fn read(words: &mut Words) -> Option<Command> {
        match words.next()? {
            "keep" => Some(Command::Keep),
            "back" => Some(Command::Back),
            "step" => Some(Command::Step),
            "take" => Command::act(Action::Take, words),
            "release" => Command::act(Action::Release, words),
            "force" => Command::act(Action::Force, words),
            "start" => Some(Command::Start(words.plan()?)),
            "plan" => Some(Command::Plan(words.plan()?)),
            "values" => {
                let from = words.place(VALUES)?;
                Some(Command::Values(from, words.values()?))
            }
            "zero" => {
                let car = words.car()?;
                Some(Command::Zero(car, words.small()?))
            }
            "queue" => {
                let place = words.place(PLACES)?;
                Some(Command::Queue(place, words.car()?))
            }
            "node" => {
                let place = words.numbered(NODES)?;
                Some(Command::Node(place, words.node()?))
            }
            "junction" => {
                let place = words.numbered(JUNCTIONS)?;
                Some(Command::Junction(place, words.junction()?))
            }
            "show" => Some(Command::Show(Thing::read(words)?)),
            _ => None,
        }
    }

    // The command that a line is; none where it is none, or names a place that no state has. Behind the name of a heading anything may
    // stand.
    pub fn of(line: &[u8]) -> Option<Command> {
        if let [b'#'] | [b'#', b' ', ..] = line {
            return Some(Command::Heading);
        }
        let mut words = Words::of(str::from_utf8(line).ok()?);
        let command = Command::read(&mut words)?;
        words.next().is_none().then_some(command)
    }
}
